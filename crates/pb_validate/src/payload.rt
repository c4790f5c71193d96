//! What holds no records after a tag: a number, or a length and its payload.

ghost use Rattle.std.specs.Prelude.{◌≡◌, ◌+◌, ◌-◌, ◌≤◌, ◌<◌, ◌^◌, [], Some, length, take, drop, IfOk, IfErr, IsUtf8};
ghost use Rattle.pb_wire.specs.Fault.{fault, Leads, HasLength};
ghost use Rattle.pb_wire.specs.Scan.{here, IsNumberType, NumberFault};
ghost use Rattle.pb_wire.specs.Sound.{IsElement, AreElements};
ghost use Rattle.pb_wire.specs.Grammar.{ElementFault, BadElements};
ghost use Rattle.pb_validate.specs.Contexts.{element_view};
ghost use Rattle.pb_validate.specs.Payloads.{IsNumberOfType, ReadsPayload, UnreadFault, TextFault, ListFault};

use crate::context::Element;
use pb_wire::{Cause, WireFault, length_at, number_at, refused};

/// Where something ends, or the fault that it has.
type End = Result<usize, WireFault>;

/// The end of a number of a wire type.
#[inline(always)]
pub(crate) fn number_end(bytes: &[u8], at: usize, wire_type: u8, to: Option<u32>) -> End
    requires at_in_bounds { at ≤ length bytes.now }
    requires number { IsNumberType wire_type }
    ensures within { IfOk result (λ end. (at < end) × (end ≤ length bytes.now)) }
    ensures ok { IfOk result (λ end. IsNumberOfType wire_type (here bytes.now at to) (here bytes.now end to)) }
    ensures fault { IfErr result (λ e. NumberFault wire_type (here bytes.now at to) (fault e.byte [] e.cause)) }
{
    let (_, end) = number_at(bytes, at, wire_type, to)?;
    Ok(end)
}

/// The payload whose length begins at an index: the indexes where it begins and ends.
#[inline(always)]
pub fn payload_at(bytes: &[u8], at: usize, to: Option<u32>) -> Result<(usize, usize), WireFault>
    requires { at ≤ length bytes.now }
    ensures within { IfOk result (λ r. (at < r.0) × (r.0 ≤ r.1) × (r.1 ≤ length bytes.now)) }
    ensures ok { IfOk result (λ r. HasLength (here bytes.now at to) (r.1 - r.0) (here bytes.now r.0 to)) }
    ensures fault { IfErr result (λ e. UnreadFault (here bytes.now at to) (fault e.byte [] e.cause)) }
{
    let (size, start) = length_at(bytes, at, to)?;
    if bytes.len() - start < size {
        return Err(refused(bytes.len(), Cause::Truncated));
    }
    Ok((start, start + size))
}

/// The end of a payload that is a string. What is none is read once, as it is not by `simdutf8`.
#[inline(always)]
pub(crate) fn text_end(bytes: &[u8], at: usize, to: Option<u32>) -> End
    requires { at ≤ length bytes.now }
    ensures within { IfOk result (λ end. (at ≤ end) × (end ≤ length bytes.now)) }
    ensures ok { IfOk result (λ end. ReadsPayload IsUtf8 (here bytes.now at to) (here bytes.now end to)) }
    ensures fault { IfErr result (λ e. TextFault (here bytes.now at to) (fault e.byte [] e.cause)) }
{
    let (start, end) = payload_at(bytes, at, to)?;
    match std::str::from_utf8(&bytes[start..end]) {
        Ok(_) => Ok(end),
        Err(error) => Err(refused(start + error.valid_up_to(), Cause::BadText)),
    }
}

/// The end of a payload that is a packed list.
pub(crate) fn list_end(bytes: &[u8], at: usize, element: Element, to: Option<u32>) -> End
    requires at_in_bounds { at ≤ length bytes.now }
    requires small { length bytes.now < 2 ^ 31 }
    ensures within { IfOk result (λ end. (at ≤ end) × (end ≤ length bytes.now)) }
    ensures ok { IfOk result (λ end. ReadsPayload (AreElements (element_view element)) (here bytes.now at to) (here bytes.now end to)) }
    ensures fault { IfErr result (λ e. ListFault (element_view element) (here bytes.now at to) (fault e.byte [] e.cause)) }
{
    let (size, start) = length_at(bytes, at, to)?;
    elements_end(bytes, start, size, element)
}

/// The index after the element that begins at an index.
#[inline(always)]
fn element_end(bytes: &[u8], at: usize, element: Element, to: Option<u32>) -> End
    requires { at ≤ length bytes.now }
    ensures within { IfOk result (λ end. (at < end) × (end ≤ length bytes.now)) }
    ensures ok { IfOk result (λ end. Leads (IsElement (element_view element)) (here bytes.now at to) (here bytes.now end to)) }
    ensures fault { IfErr result (λ e. ElementFault (element_view element) (here bytes.now at to) (fault e.byte [] e.cause)) }
{
    match element {
        Element::Varint => number_end(bytes, at, 0, to),
        Element::FourBytes => number_end(bytes, at, 5, to),
        Element::EightBytes => number_end(bytes, at, 1, to),
    }
}

/// Judges the elements of a packed list, whose payload of this size begins at an index, and gives its end.
fn elements_end(bytes: &[u8], start: usize, size: usize, element: Element) -> End
    requires start_in_bounds { start ≤ length bytes.now }
    requires small { length bytes.now < 2 ^ 31 }
    requires small_size { size < 2 ^ 31 }
    ensures within { IfOk result (λ end. (end ≡ start + size) × (end ≤ length bytes.now)) }
    ensures ok { IfOk result (λ _. AreElements (element_view element) (take size (drop start bytes.now))) }
    ensures fault { IfErr result (λ e. BadElements (element_view element) (here bytes.now start (Some (start + size))) (fault e.byte [] e.cause)) }
{
    let end = start + size;
    let to = Some(end as u32);
    let mut at = start;
    while at < end {
        at = element_end(bytes, at, element, to)?;
    }
    Ok(at)
}
