//! The steps of a place.

ghost use Rattle.std.specs.Prelude.{◌≡◌, [], ◌∷◌, ◌++◌, IfNone, IfSome};
ghost use Rattle.pb_c_message.specs.Steps.{steps_held};

use pb_place::PlaceStep;
use std::alloc::Global;
use std::{mem, slice};

/// The steps of a place. One or two, as to a field of the message itself or of a message in it, take no memory.
#[derive(Drop)]
pub enum Steps {
    One(PlaceStep),
    Two([PlaceStep; 2]),
    /// None, or any number.
    Several(Vec<PlaceStep>),
}

impl Steps {
    /// The steps, in order.
    pub fn as_slice(&self) -> &[PlaceStep]
        ensures { result.now ≡ steps_held self.now }
    {
        match self {
            Steps::One(step) => slice::from_ref(step),
            Steps::Two(steps) => steps,
            Steps::Several(steps) => steps,
        }
    }

    /// Takes the steps out, and leaves some others.
    pub(crate) fn take(&mut self, alloc: Global) -> Steps
        ensures { steps_held result ≡ steps_held self.old }
    {
        mem::replace(self, Steps::Several(Vec::new(alloc)))
    }

    /// The last step, and those before it.
    pub(crate) fn split_last(self, alloc: Global) -> Option<(Steps, PlaceStep)>
        ensures last { IfSome result (λ q. steps_held self ≡ steps_held q.0 ++ q.1 ∷ []) }
        ensures none { IfNone result (steps_held self ≡ []) }
    {
        match self {
            Steps::One(step) => Some((Steps::Several(Vec::new(alloc)), step)),
            Steps::Two([first, second]) => Some((Steps::One(first), second)),
            Steps::Several(steps) => {
                let mut before = steps;
                let last = before.pop()?;
                Some((Steps::Several(before), last))
            }
        }
    }
}
