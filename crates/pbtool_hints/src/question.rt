//! A line that asks which name is meant.

use crate::lines::put;
use pb_wire::MemOutput;

/// How many names a line has at most.
const MOST: usize = 3;

/// A line that asks whether one of some names is meant: how many names it has so far.
#[derive(Drop)]
pub(crate) struct Question {
    names: usize,
}

impl Question {
    pub(crate) fn new() -> Question {
        Question { names: 0 }
    }

    /// Whether it takes no more names.
    pub(crate) fn is_full(&self) -> bool {
        self.names >= MOST
    }

    pub(crate) fn is_empty(&self) -> bool {
        self.names == 0
    }

    /// Writes a name, if it takes one more.
    pub(crate) fn put(&mut self, name: &[u8], lines: &mut MemOutput) {
        if self.is_full() {
            return;
        }
        put(
            lines,
            if self.is_empty() {
                b"  did you mean "
            } else {
                b" or "
            },
        );
        put(lines, name);
        self.names = self.names.saturating_add(1);
    }

    /// Ends the line, if there is one.
    pub(crate) fn end(&self, lines: &mut MemOutput) {
        if !self.is_empty() {
            put(lines, b"?\n");
        }
    }
}

/// The part of a full name after its last dot.
pub(crate) fn last_part(full_name: &[u8]) -> &[u8] {
    let mut start = 0;
    for (index, byte) in full_name.iter().enumerate() {
        if *byte == b'.' {
            start = index.saturating_add(1);
        }
    }
    &full_name[start.min(full_name.len())..]
}
