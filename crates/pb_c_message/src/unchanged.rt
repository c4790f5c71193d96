//! Why nothing is changed.

ghost use Rattle.std.specs.Prelude.{◌≡◌};
ghost use Rattle.pb_c_message.specs.declared.unchanged.Unchanged.TheVariants.{Refused};

use crate::miss::Miss;
use pb_place::ChangeError;
use pb_value::ValueError;

/// Why nothing is changed.
#[derive(Clone, Copy, Debug, PartialEq, Eq)]
pub enum Unchanged {
    /// The steps say no place.
    BadPlace,
    /// The value is of no kind, its number is too large for that, or its string is not given or is not UTF-8.
    BadValue,
    /// The message refuses the change, or memory ran out.
    Refused(ChangeError),
}

impl Unchanged {
    /// Memory ran out.
    pub(crate) const MEMORY: Unchanged = Unchanged::Refused(ChangeError::Refused(
        ValueError::Memory,
    ));
}

impl From<ChangeError> for Unchanged {
    ghost from_gives = { λ cause e. e ≡ Refused cause };

    fn from(cause: ChangeError) -> Unchanged {
        Unchanged::Refused(cause)
    }
}
