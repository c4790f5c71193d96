//! Message types that a set does not have.

use crate::lines::{put, put_line, shown_name};
use crate::near::is_near;
use crate::question::{Question, last_part};
use crate::subject::{SetAt, Subject};
use pb_schema::{MessageId, Pool};
use pb_wire::MemOutput;
use pbtool_files::{Files, pool_at};
use std::alloc::Global;

/// Which of the names of types are looked for.
#[derive(Clone, Copy)]
struct Wanted<'a> {
    name: &'a [u8],
    /// Whether it is a full name, or the last part of one.
    is_full: bool,
}

/// Writes which types of a set a name may mean that none has, or how many types there are.
pub(crate) fn explain_unknown_type<F: Files>(
    alloc: Global,
    subject: Subject<'_>,
    name: &str,
    files: &mut F,
    lines: &mut MemOutput,
) {
    let Some(set) = subject.set() else {
        return;
    };
    let Ok(linked) = pool_at(alloc, set.reading, set.file, files) else {
        return;
    };
    if linked.pool.enum_by_name(name).is_some() {
        put(lines, b"  an enum of the set has this name\n");
        return;
    }
    if !put_near_types(&linked.pool, name.as_bytes(), lines) {
        put_count(&linked.pool, set, lines);
    }
}

/// Writes the types whose full names are near a name, or else those whose last parts are, and answers whether there is one.
fn put_near_types(pool: &Pool, name: &[u8], lines: &mut MemOutput) -> bool {
    let by_full_name = Wanted {
        name,
        is_full: true,
    };
    let by_last_part = Wanted {
        name: last_part(name),
        is_full: false,
    };
    by_full_name.put_near(pool, lines) || by_last_part.put_near(pool, lines)
}

impl Wanted<'_> {
    /// Writes the types whose names are near, and answers whether there is one.
    fn put_near(&self, pool: &Pool, lines: &mut MemOutput) -> bool {
        let mut question = Question::new();
        for index in 0..pool.messages().len() {
            self.ask(pool.message_name(MessageId(index)), &mut question, lines);
        }
        question.end(lines);
        !question.is_empty()
    }

    /// Writes a name, if it is near.
    fn ask(&self, name: &[u8], question: &mut Question, lines: &mut MemOutput) {
        if !question.is_full() && self.is_near(name) {
            question.put(name, lines);
        }
    }

    fn is_near(&self, name: &[u8]) -> bool {
        if self.is_full {
            is_near(self.name, name)
        } else {
            is_near(self.name, last_part(name))
        }
    }
}

/// Writes how many message types a set has.
fn put_count(pool: &Pool, set: SetAt<'_>, lines: &mut MemOutput) {
    match pool.messages().len() {
        0 => put(lines, b"  the set has no message types\n"),
        1 => put_line(
            lines,
            b"  the set has one message type: ",
            pool.message_name(MessageId(0)),
            b"",
        ),
        _ => put_line(
            lines,
            b"  pbtool types ",
            shown_name(set.file).as_bytes(),
            b" lists its message types",
        ),
    }
}
