//! Why bytes are refused, while the steps of the path are kept elsewhere, and those steps.

ghost use Rattle.std.specs.Prelude.{◌≡◌, ◌<◌, ◌^◌, List, length, reverse};
ghost use Rattle.pb_wire.specs.Record.{Record};
ghost use Rattle.pb_wire.specs.Fault.{fault as fault_with, step};
ghost use Rattle.pb_wire.specs.Grammar.{beyond};
ghost use Rattle.pb_wire.specs.Schema.{blank};
ghost use Rattle.pb_wire.specs.Spell.{AreRecords};
ghost use Rattle.pb_wire.specs.Sound.{AllSound};
ghost use Rattle.pb_validate.specs.Judging.{IsFault};
ghost use Rattle.pb_validate.specs.declared.refusal.Refusal.TheVariants.{Fault, Memory};

use pb_wire::{Cause, Limits, PathStep, RawError, RecordIter, WireFault, refused};
use std::alloc::{AllocError, AllocFailed};

/// A fault whose path is kept elsewhere, or no memory for a step of it.
#[derive(Debug, Drop)]
pub(crate) enum Refusal {
    Fault(WireFault),
    Memory,
}

impl From<AllocError> for Refusal {
    ghost from_gives = { λ _ e. e ≡ Memory };

    fn from(_e: AllocError) -> Refusal {
        Refusal::Memory
    }
}

impl<T: Drop> From<AllocFailed<T>> for Refusal {
    ghost from_gives = { λ _ e. e ≡ Memory };

    fn from(_e: AllocFailed<T>) -> Refusal {
        Refusal::Memory
    }
}

impl From<WireFault> for Refusal {
    ghost from_gives = { λ w e. e ≡ Fault w };

    fn from(fault: WireFault) -> Refusal {
        Refusal::Fault(fault)
    }
}

/// A fault below these steps, of which the last comes first.
pub(crate) fn below(fault: WireFault, mut steps: Vec<PathStep>) -> RawError
    ensures { IsFault result (λ f. f ≡ fault_with fault.byte (reverse steps.items) fault.cause) }
{
    steps.reverse();
    RawError::Fault {
        byte: fault.byte,
        path: steps,
        cause: fault.cause,
    }
}

/// A fault of the bytes within the limit, as the fault of all the bytes, which are more: they do not end there.
pub(crate) fn of_longer(max_bytes: usize, fault: WireFault, mut steps: Vec<PathStep>) -> RawError
    ensures { IsFault result (λ f. f ≡ beyond max_bytes (fault_with fault.byte (reverse steps.items) fault.cause)) }
{
    if let Cause::Truncated = fault.cause {
        steps.clear();
        return below(refused(max_bytes, Cause::InputTooLarge), steps);
    }
    below(fault, steps)
}

/// The step to a record of this number after these bytes, which spell whole records.
pub(crate) fn step_after(bytes: &[u8], number: u32) -> PathStep
    requires { length bytes.now < 2 ^ 31 }
    ensures { (rs : List Record) → AreRecords rs bytes.now → AllSound blank tt 100 rs → result ≡ step number rs }
{
    let mut occurrence = 0;
    for item in RecordIter::new(bytes, Limits::FULL) {
        let Ok((other, _)) = item else { break };
        if other == number {
            occurrence += 1;
        }
    }
    PathStep { number, occurrence }
}
