//! Whether a comparison reports a difference that breaks reading.

ghost use Rattle.std.specs.Prelude.{◌≡◌, ℕ, List, false, Contains};
ghost use Rattle.pb_schema.specs.Types.{Types};
ghost use Rattle.pb_schema.specs.Rules.{IsPool};
ghost use Rattle.pb_compat.specs.Pairs.{IsComparison, IsComparisonFrom};
ghost use Rattle.pb_compat.specs.Agrees.{is_break as breaks, break_among, break_in, IsReadAs};

use crate::difference::{ComparedTypes, Difference, Severity};

impl Severity {
    fn is_break(self) -> bool
        ensures { result ≡ breaks self }
    {
        matches!(self, Severity::BreaksReading)
    }
}

fn has_break(differences: &[Difference]) -> bool
    ensures { result ≡ break_among differences.now }
{
    for difference in differences {
        if difference.severity.is_break() {
            return true;
        }
    }
    false
}

fn any_break(compared: &[ComparedTypes]) -> bool
    ensures { result ≡ break_in compared.now }
{
    for types in compared {
        if has_break(&types.differences) {
            return true;
        }
    }
    false
}

/// Whether any difference of a comparison breaks reading.
///
/// If none does, every well-formed message of the old type without unknown records is read as the new type: its canonical encoding, where the
/// wire can hold it, is an encoding for the new type, of a message in which each field that both types declare holds the same, at every level;
/// the fields that the new type does not declare are its unknown records (`IsReadAs`; docs/COMPAT.md says what is the same). Of `compare_all`
/// this holds for all types of the same names. Time goes by the
/// differences; nothing is allocated.
pub fn breaks_reading(compared: &[ComparedTypes]) -> bool
    ensures exact { result ≡ break_in compared.now }
    ensures read { (old new : Types) (m n : ℕ) → IsPool old → IsPool new
        → IsComparison old new (m, n) compared.now → result ≡ false → IsReadAs old new m n }
    ensures each_read { (old new : Types) (starts : List (ℕ × ℕ)) (m n : ℕ) → IsPool old
        → IsPool new → IsComparisonFrom old new starts compared.now → Contains starts (m, n)
        → result ≡ false → IsReadAs old new m n }
{
    any_break(compared)
}
