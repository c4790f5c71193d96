//! What a comparison reports, in one direction or in both.

ghost use Rattle.std.specs.Prelude.{◌≡◌, ◌<◌, length, option_map, Some, IfOk};
ghost use Rattle.pb_compat_lines.specs.Verdict.{IsReportOfAll, IsReportOfTypes, Judges, Reports};

use crate::lines::{add_compared, add_missing, add_ok, either};
use pb_compat::{breaks_reading, compare, compare_all};
use pb_schema::{MessageId, Pool};
use std::alloc::{AllocError, Global};

/// Which readers a comparison asks about.
#[derive(Clone, Copy, Debug, PartialEq, Eq)]
pub enum Readers {
    /// Readers by the new pool, of messages of the old one.
    New,
    /// These, and readers by the old pool, of messages of the new one.
    Both,
}

/// The lines of a comparison, and whether a difference breaks reading.
#[derive(Debug, Drop)]
pub struct Verdict {
    pub text: Vec<u8>,
    pub breaks: bool,
}

/// What a comparison of two pools reports to some readers: of the types of a full name and of all types that they lead to, or of all types.
/// There is none where one of the pools has no message type of the name. The only error is out of memory.
///
/// It has a line for each type that the new pool lacks, and then one for each difference, or else `ok`. With both directions each line begins
/// with `backward` where the new pool reads, and with `forward` where the old one does.
pub fn judge(
    alloc: Global,
    readers: Readers,
    old: &Pool,
    new: &Pool,
    name: Option<&str>,
) -> Result<Option<Verdict>, AllocError>
    ensures { IfOk result (Judges readers old.now new.now (option_map (λ n. n.now) name.entry)) }
{
    match readers {
        Readers::New => report(alloc, b"", old, new, name),
        Readers::Both => report_both(alloc, old, new, name),
    }
}

/// What it reports in both directions.
fn report_both(
    alloc: Global,
    old: &Pool,
    new: &Pool,
    name: Option<&str>,
) -> Result<Option<Verdict>, AllocError>
    ensures { IfOk result (Judges Readers.Both old.now new.now
        (option_map (λ n. n.now) name.entry)) }
{
    let Some(first) = report(alloc, b"backward ", old, new, name)? else {
        return Ok(None);
    };
    let Some(back) = report(alloc, b"forward ", new, old, name)? else {
        return Ok(None);
    };
    let mut text = first.text;
    text.extend_from_slice(&back.text)?;
    let breaks = either(first.breaks, back.breaks);
    Ok(Some(Verdict { text, breaks }))
}

/// What readers by the new pool make of messages of the old one.
fn report(
    alloc: Global,
    prefix: &[u8],
    old: &Pool,
    new: &Pool,
    name: Option<&str>,
) -> Result<Option<Verdict>, AllocError>
    ensures { IfOk result (Reports prefix.now old.now new.now
        (option_map (λ n. n.now) name.entry)) }
{
    match name {
        None => Ok(Some(report_all(alloc, prefix, old, new)?)),
        Some(name) => report_named(alloc, prefix, old, new, name),
    }
}

fn report_named(
    alloc: Global,
    prefix: &[u8],
    old: &Pool,
    new: &Pool,
    name: &str,
) -> Result<Option<Verdict>, AllocError>
    ensures { IfOk result (Reports prefix.now old.now new.now (Some name.now)) }
{
    let Some(old_type) = old.message_by_name(name) else {
        return Ok(None);
    };
    let Some(new_type) = new.message_by_name(name) else {
        return Ok(None);
    };
    Ok(Some(report_types(alloc, prefix, old, old_type, new, new_type)?))
}

fn report_types(
    alloc: Global,
    prefix: &[u8],
    old: &Pool,
    old_type: MessageId,
    new: &Pool,
    new_type: MessageId,
) -> Result<Verdict, AllocError>
    requires old { old_type.0 < length old.now.messages }
    requires new { new_type.0 < length new.now.messages }
    ensures { IfOk result (λ v.
        IsReportOfTypes prefix.now old.now new.now old_type.0 new_type.0 v.text.items v.breaks) }
{
    let compared = compare(alloc, old, old_type, new, new_type)?;
    let mut text = Vec::new(alloc);
    add_compared(&mut text, alloc, prefix, old, new, &compared)?;
    add_ok(&mut text, prefix)?;
    let breaks = breaks_reading(&compared);
    Ok(Verdict { text, breaks })
}

fn report_all(alloc: Global, prefix: &[u8], old: &Pool, new: &Pool) -> Result<Verdict, AllocError>
    ensures { IfOk result (λ v. IsReportOfAll prefix.now old.now new.now v.text.items v.breaks) }
{
    let compared = compare_all(alloc, old, new)?;
    let mut text = Vec::new(alloc);
    let lacks = add_missing(&mut text, prefix, old, new)?;
    add_compared(&mut text, alloc, prefix, old, new, &compared)?;
    add_ok(&mut text, prefix)?;
    let breaks = either(lacks, breaks_reading(&compared));
    Ok(Verdict { text, breaks })
}
