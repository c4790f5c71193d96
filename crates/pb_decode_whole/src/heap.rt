//! The heap that a large message took stays with the process when the message is dropped.

use std::alloc::{AllocError, Global};

/// The memory of a message whose encoding has this many bytes may be more than glibc's malloc leaves free at the heap's end, which is 128 KB at first.
const LARGE: usize = 8192;
/// A list of this many entries leaves a hole of that size.
const MANY: usize = 1024;
/// An entry of a list takes no more bytes.
const ENTRY: usize = 96;
/// malloc maps blocks of 32 MB by themselves: they leave no hole, and are in none.
const MOST: usize = 33_000_000;
/// How many freed blocks of one size malloc keeps for a thread.
const KEPT: usize = 7;
/// A size that few values take, within those that malloc keeps for a thread, up to 1,032 bytes.
const SIZE: usize = 1000;

/// Pins the heap's top so that glibc does not trim it: takes small blocks after all that was taken before, where no hole has this
/// many bytes, and frees them at once.
///
/// glibc's malloc gives what lies free at the heap's end back to the system, and a process that reads one large message after another
/// would have all its pages made anew for each. A freed block that malloc keeps for the thread isn't free to it, so what lies before
/// it stays. Where memory is refused nothing is taken.
fn hold_end(alloc: Global, hole: usize) -> Result<(), AllocError> {
    let mut blocks: Vec<Vec<u8>> = Vec::with_capacity(alloc, KEPT + 1)?;
    for _ in 0..KEPT {
        blocks.push(Vec::with_capacity(alloc, SIZE)?)?;
    }
    // malloc may map a block so large by itself. Once one was freed it takes the next from the heap.
    let mapped: Vec<u8> = Vec::with_capacity(alloc, hole)?;
    drop(mapped);
    let mut last = Vec::with_capacity(alloc, hole)?;
    last.shrink_to(SIZE);
    blocks.push(last)?;
    // The last one first, so that it is among those that malloc keeps.
    for _ in 0..=KEPT {
        drop(blocks.pop());
    }
    Ok(())
}

/// Keeps the memory of a message whose encoding has this many bytes, if these are many.
pub(crate) fn keep_heap(alloc: Global, size: usize) {
    if size >= LARGE {
        let _ = hold_end(alloc, SIZE);
    }
}

/// Keeps the memory of a map with this many entries, if these are many. The list that they were read into is freed by now: a small
/// block would be put in its place, before what was taken since.
pub(crate) fn keep_heap_after_list(alloc: Global, entries: usize) {
    if entries >= MANY {
        let _ = hold_end(alloc, entries.saturating_mul(ENTRY).min(MOST));
    }
}
