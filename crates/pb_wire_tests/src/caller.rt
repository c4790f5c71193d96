//! A caller of the iterator, proved from its public clauses, and run beside `read_raw`.

ghost use Rattle.std.specs.Prelude.{◌≡◌, ◌⊎◌, List, MatchResult, map};
ghost use Rattle.pb_wire.specs.Record.{Record};
ghost use Rattle.pb_wire.specs.Fault.{Fault};
ghost use Rattle.pb_wire.specs.Grammar.{IsText, HasFault};
ghost use Rattle.pb_wire.specs.RecordIter.{without_path};
ghost use Rattle.pb_wire.specs.Schema.{blank};
ghost use Rattle.pb_wire_tests.specs.declared.caller.NumbersError.TheVariants as error;

use pb_wire::{Limits, RawError, RecordIter, WireFault, read_raw};
use std::alloc::{AllocError, AllocFailed, Global};
use std::test::Fail;

/// Why there are no numbers.
#[derive(Debug, Drop)]
enum NumbersError {
    Fault(WireFault),
    Memory,
}

impl From<WireFault> for NumbersError {
    ghost from_gives = { λ w e. e ≡ error.Fault w };

    fn from(fault: WireFault) -> NumbersError {
        NumbersError::Fault(fault)
    }
}

impl From<AllocError> for NumbersError {
    ghost from_gives = { λ _ e. e ≡ error.Memory };

    fn from(_e: AllocError) -> NumbersError {
        NumbersError::Memory
    }
}

impl<T: Drop> From<AllocFailed<T>> for NumbersError {
    ghost from_gives = { λ _ e. e ≡ error.Memory };

    fn from(_e: AllocFailed<T>) -> NumbersError {
        NumbersError::Memory
    }
}

/// The numbers of the records, in order.
fn numbers(alloc: Global, bytes: &[u8], limits: Limits) -> Result<Vec<u32>, NumbersError>
    ensures text { (rs : List Record) → IsText blank tt limits bytes.now rs
        → MatchResult result (λ v. v.items ≡ map (λ r. r.number) rs) (λ e. e ≡ NumbersError.Memory) }
    ensures fault { (f : Fault) → HasFault blank tt limits bytes.now f
        → MatchResult result (λ v. ⊥) (λ e. (e ≡ NumbersError.Memory) ⊎ (e ≡ NumbersError.Fault (without_path f))) }
{
    let mut numbers = Vec::new(alloc);
    for item in RecordIter::new(bytes, limits) {
        let (number, _) = item?;
        numbers.push(number)?;
    }
    Ok(numbers)
}

/// Whether the iterator and `read_raw` give the same records or the same fault.
fn is_as_read(alloc: Global, bytes: &[u8], limits: Limits) -> bool {
    match (
        numbers(alloc, bytes, limits),
        read_raw(alloc, bytes, limits),
    ) {
        (Ok(numbers), Ok(records)) => {
            numbers.len() == records.len()
                && numbers
                    .iter()
                    .zip(&records)
                    .all(|(n, record)| *n == record.0)
        }
        (
            Err(NumbersError::Fault(fault)),
            Err(
                RawError::Fault {
                    byte,
                    path: _,
                    cause,
                },
            ),
        ) => { fault.byte == byte && fault.cause == cause }
        _ => false,
    }
}

const MESSAGES: &[&[u8]] = &[
    b"\x08\x96\x01\x12\x03\x61\x62\x63",
    b"\xa3\x01\x08\x01\xa4\x01\x08\x05",
    b"\x2d\x01\x00\x00\x00\x09\x01\x00\x00\x00\x00\x00\x00\x00",
    b"\x0b\x13\x08\x01\x14\x0c\x1a\x00",
    b"\x08\x96\x81\x00\xf8\x07\xff\xff\xff\xff\x0f",
];

/// Each front of a message, and each message with one byte changed.
#[test]
fn fronts_and_changes(rt: HostRuntime) -> Result<(), Fail> {
    let alloc = rt.alloc();
    let short = Limits::new(6, 1).ok_or("no limits")?;
    for message in MESSAGES {
        for size in 0..=message.len() {
            assert!(rt; is_as_read(alloc, &message[..size], Limits::FULL));
        }
        for i in 0..message.len() {
            let mut changed = Vec::from_slice(alloc, message)?;
            for value in 0..=u8::MAX {
                if let Some(byte) = changed.get_mut(i) {
                    *byte = value;
                }
                assert!(rt;
                    is_as_read(alloc, &changed, Limits::FULL) && is_as_read(alloc, &changed, short),
                    "byte {i} as {value}"
                );
            }
        }
    }
    Ok(())
}
