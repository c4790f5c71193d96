//! The listing of a message, in either form.

ghost use Rattle.std.specs.Prelude.{◌≡◌, ◌≢◌, ◌↔◌, ◌⊎◌};
ghost use Rattle.pb_wire.specs.Fault.{Fault};
ghost use Rattle.pb_value.specs.Data.{Message};
ghost use Rattle.pb_listing.specs.Listing.{listing};
ghost use Rattle.pb_c.specs.Message.Listed.{IsListedAs, IsListedDecimal};
ghost use Rattle.pb_c.specs.Typed.Input.{Encodes, HasFault, IsTyped, IsUntyped, typed_message};
ghost use Rattle.pb_c_answers.specs.Reporting.{IsLaid, Tells};

use crate::typed::input::TypedInput;
use pb_c_answers::{DONE, FAULT, FaultReport, MEMORY, NO_TYPE, Step, read_message, write_out};
use pb_c_handles::message::own::OwnMessage;
use pb_c_message::{Held, take_body};
use pb_listing::{FloatForm, write_message, write_message_as};
use pb_value::DynamicMessage;
use pb_value::bodies::from_well_formed;
use pb_wire::{FailurePlan, MemOutput};
use std::alloc::Global;

/// Writes the listing of a message. It is made in memory first, so nothing is written where that runs out.
fn write_listing(
    alloc: Global,
    message: &DynamicMessage<'_>,
    out: &mut [u8],
    size: &mut usize,
) -> u32
    ensures written { result ≡ DONE → IsLaid (listing message.now) out.old out.new size.new }
    ensures unwritten { result ≢ DONE → (out.new ≡ out.old) × (size.new ≡ size.old) }
    ensures answers { (result ≡ DONE) ⊎ (result ≡ MEMORY) }
{
    let mut listing = MemOutput::new(alloc, usize::MAX, FailurePlan::NEVER);
    match write_message(&mut listing, message) {
        Ok(()) => {
            write_out(listing.bytes(), out, size);
            DONE
        }
        Err(_) => MEMORY,
    }
}

/// Writes the listing of a message with floats in decimal. It is made in memory first, so nothing is written
/// where that runs out.
fn write_decimal(
    alloc: Global,
    message: &DynamicMessage<'_>,
    out: &mut [u8],
    size: &mut usize,
) -> u32
    ensures written { result ≡ DONE → IsListedDecimal message.now out.old out.new size.new }
    ensures unwritten { result ≢ DONE → (out.new ≡ out.old) × (size.new ≡ size.old) }
    ensures answers { (result ≡ DONE) ⊎ (result ≡ MEMORY) }
{
    let mut listing = MemOutput::new(alloc, usize::MAX, FailurePlan::NEVER);
    match write_message_as(&mut listing, message, FloatForm::Decimal) {
        Ok(()) => {
            write_out(listing.bytes(), out, size);
            DONE
        }
        Err(_) => MEMORY,
    }
}

/// Writes the listing of a message, with floats in this form.
fn write_as(
    alloc: Global,
    message: &DynamicMessage<'_>,
    form: FloatForm,
    out: &mut [u8],
    size: &mut usize,
) -> u32
    ensures written { result ≡ DONE → IsListedAs form message.now out.old out.new size.new }
    ensures unwritten { result ≢ DONE → (out.new ≡ out.old) × (size.new ≡ size.old) }
    ensures answers { (result ≡ DONE) ⊎ (result ≡ MEMORY) }
{
    match form {
        FloatForm::Bits => write_listing(alloc, message, out, size),
        FloatForm::Decimal => write_decimal(alloc, message, out, size),
    }
}

/// Writes the listing of the message that the bytes are, by its type's number, with floats in this form.
pub(crate) fn show_message(
    alloc: Global,
    input: TypedInput<'_>,
    form: FloatForm,
    out: &mut [u8],
    size: &mut usize,
    fault: &mut FaultReport,
    path: &mut [Step],
) -> u32
    ensures text { result ≡ DONE → (v : Message) × Encodes input.entry v
        × IsListedAs form (typed_message input.entry v) out.old out.new size.new }
    ensures fault { result ≡ FAULT → (f : Fault) × HasFault input.entry f
        × Tells f fault.new path.old path.new }
    ensures unwritten { result ≢ DONE → (out.new ≡ out.old) × (size.new ≡ size.old) }
    ensures untold { result ≢ FAULT → (fault.new ≡ fault.old) × (path.new ≡ path.old) }
    ensures no_type { result ≡ NO_TYPE ↔ IsUntyped input.entry }
    ensures answers { (result ≡ DONE) ⊎ (result ≡ NO_TYPE) ⊎ (result ≡ FAULT) ⊎ (result ≡ MEMORY) }
    ensures accepted { IsTyped input.entry → (v : Message) → Encodes input.entry v
        → ((result ≡ DONE) × IsListedAs form
        (typed_message input.entry v) out.old out.new size.new) ⊎ (result ≡ MEMORY) }
    ensures refused { IsTyped input.entry → (f : Fault) → HasFault input.entry f
        → ((result ≡ FAULT) × Tells f fault.new path.old path.new) ⊎ (result ≡ MEMORY) }
{
    match read_message(
        alloc,
        input.pool,
        input.type_number,
        input.bytes,
        input.limits,
        fault,
        path,
    ) {
        Ok(message) => write_as(alloc, &message, form, out, size),
        Err(answer) => answer,
    }
}

/// Writes the listing of a message that is owned, with floats in this form.
pub(crate) fn show_own(
    alloc: Global,
    own: &mut OwnMessage,
    form: FloatForm,
    out: &mut [u8],
    size: &mut usize,
) -> u32
    ensures written { result ≡ DONE → IsListedAs form own.old out.old out.new size.new }
    ensures unwritten { result ≢ DONE → (out.new ≡ out.old) × (size.new ≡ size.old) }
    ensures answers { (result ≡ DONE) ⊎ (result ≡ MEMORY) }
    ensures same { own.new ≡ own.old }
{
    let Some(body) = take_body(alloc, &own.pool, own.message_type, &mut own.held) else {
        return MEMORY;
    };
    let message = from_well_formed(alloc, &own.pool, own.message_type, body);
    let answer = write_as(alloc, &message, form, out, size);
    own.held = Held::Fields(message.into_body());
    answer
}
