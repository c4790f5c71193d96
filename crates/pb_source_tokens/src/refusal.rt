//! Why symbols are refused, for the parser of `pb_source`.

use crate::rule::Rule;
use std::alloc::{AllocError, AllocFailed};

/// Why symbols are refused.
#[derive(Clone, Copy, PartialEq, Eq)]
pub enum Refusal {
    /// The symbol of this index is refused, or at the index after the last the end; by this rule, or where it is none, since it was not
    /// expected.
    At { at: usize, rule: Option<Rule> },
    /// Memory ran out.
    Memory,
}

impl From<AllocError> for Refusal {
    ghost use Rattle.std.specs.Prelude.{◌≡◌};
    ghost use Rattle.pb_source_tokens.specs.declared.refusal.Refusal.TheVariants as refusal;

    ghost from_gives = { λ _ e. e ≡ refusal.Memory };

    fn from(_e: AllocError) -> Refusal {
        Refusal::Memory
    }
}

impl<T: Drop> From<AllocFailed<T>> for Refusal {
    ghost use Rattle.std.specs.Prelude.{◌≡◌};
    ghost use Rattle.pb_source_tokens.specs.declared.refusal.Refusal.TheVariants as refusal;

    ghost from_gives = { λ _ e. e ≡ refusal.Memory };

    fn from(_e: AllocFailed<T>) -> Refusal {
        Refusal::Memory
    }
}
