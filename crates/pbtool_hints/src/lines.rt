//! Lines for a person.

ghost use Rattle.std.specs.Prelude.{◌≡◌, ◌≢◌, ◌<◌, ◌≤◌, ◌++◌, ◌∷◌, codes, length, take, IfOk};
ghost use Rattle.std.specs.List.{AllByRecursion};
ghost use Rattle.pbtool_hints.specs.Lines.{AreLines, IsLine};

use pb_wire::{MemOutput, write_all};
use std::alloc::{AllocError, Global};

/// Writes bytes of a line. Without memory they are lost.
pub(crate) fn put(lines: &mut MemOutput, bytes: &[u8]) {
    let _ = write_all(lines, bytes);
}

/// Writes a line of three parts.
pub(crate) fn put_line(lines: &mut MemOutput, before: &[u8], name: &[u8], after: &[u8]) {
    put(lines, before);
    put(lines, name);
    put(lines, after);
    put(lines, b"\n");
}

/// The name of a file. That of one in memory is the name of its argument, after a NUL.
pub(crate) fn shown_name(file: &str) -> &str {
    match file.strip_prefix("\0") {
        Some(name) => name,
        None => file,
    }
}

/// Bytes as lines: each begins with two blanks, which are added where they are missing, and ends with a line feed. Where memory runs out, the last
/// lines are missing.
pub(crate) fn lines_of(alloc: Global, bytes: &[u8]) -> Vec<u8>
    ensures { AreLines result.items }
{
    let mut lines = Vec::new(alloc);
    let mut at = 0;
    while at < bytes.len() {
        let line = first_line(&bytes[at..]);
        let end = at + line.len();
        if push_line(alloc, &mut lines, line).is_err() {
            return lines;
        }
        at = end.saturating_add(1);
    }
    lines
}

/// The bytes before the first line feed.
fn first_line(bytes: &[u8]) -> &[u8]
    ensures one { AllByRecursion (λ b. b ≢ 10) result.now }
    ensures within { length result.now ≤ length bytes.now }
{
    for (index, byte) in bytes.iter().enumerate() {
        if *byte == b'\n' {
            return &bytes[..index];
        }
    }
    bytes
}

/// Appends a line, or nothing where memory runs out.
fn push_line(alloc: Global, lines: &mut Vec<u8>, line: &[u8]) -> Result<(), AllocError>
    requires one { AllByRecursion (λ b. b ≢ 10) line.now }
    requires before { AreLines lines.old.items }
    ensures { AreLines lines.new.items }
{
    let whole = whole_line(alloc, inside(line))?;
    lines.extend_from_slice(whole.as_slice())?;
    Ok(())
}

/// A line with its blanks and its end.
fn whole_line(alloc: Global, inside: &[u8]) -> Result<Vec<u8>, AllocError>
    requires { AllByRecursion (λ b. b ≢ 10) inside.now }
    ensures { IfOk result (λ line. IsLine line.items) }
{
    let mut line = Vec::from_slice(alloc, b"  ")?;
    line.extend_from_slice(inside)?;
    line.push(b'\n')?;
    Ok(line)
}

/// What follows the two blanks that a line begins with; of another line all.
fn inside(line: &[u8]) -> &[u8]
    requires { AllByRecursion (λ b. b ≢ 10) line.now }
    ensures { AllByRecursion (λ b. b ≢ 10) result.now }
{
    match line.strip_prefix(b"  ") {
        Some(rest) => rest,
        None => line,
    }
}
