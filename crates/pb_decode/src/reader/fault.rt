//! Where a reader is, as the path of a fault.

ghost use Rattle.std.specs.Prelude.{◌≡◌, ◌∷◌, List, [], map, IfOk, IfSome, IfNone};
ghost use Rattle.pb_wire.specs.Fault.{fault as fault_of};
ghost use Rattle.pb_wire.specs.declared.fault.Cause.TheVariants.{InputTooLarge};
ghost use Rattle.pb_wire.specs.declared.fault.PathStep.{PathStep as PathStepView};
ghost use Rattle.pb_decode_parts.specs.Open.Parents.{next_step, Scope as ScopeView};
ghost use Rattle.pb_decode_parts.specs.Open.PartView.{scope_view};
ghost use Rattle.pb_decode.specs.Reader.{state_view, own_step, path_here, IfFault, path_inside};

use crate::error::DecodeError;
use crate::reader::state::State;
use pb_decode_parts::{NoMemory, Parent, Scope, Step};
use pb_wire::{Cause, PathStep};
use std::alloc::Global;

/// The step into the record of a number that comes next in a part.
fn step_into(scope: &Scope, number: u32) -> PathStep
    ensures { result ≡ next_step number (scope_view scope.now) }
{
    PathStep {
        number,
        occurrence: scope.occurrences.count(number),
    }
}

/// The steps to the innermost part, outermost first.
fn parent_steps(alloc: Global, parents: &[Parent]) -> Result<Vec<PathStep>, NoMemory>
    ensures { IfOk result (λ v. v.items ≡ map (λ f. next_step f.number (scope_view f.scope)) parents.now) }
{
    let mut steps = Vec::new(alloc);
    for parent in parents {
        steps.push(step_into(&parent.scope, parent.number))?;
    }
    Ok(steps)
}

/// The number of the record that is begun.
fn begun_number(step: Step) -> Option<u32>
    ensures begun { IfSome result (λ n. (scope : ScopeView) → own_step step scope ≡ next_step n scope ∷ []) }
    ensures none { IfNone result ((scope : ScopeView) → own_step step scope ≡ []) }
{
    match step {
        Step::Tag => None,
        Step::Varint(number, _) => Some(number),
        Step::I64(number, _) => Some(number),
        Step::I32(number, _) => Some(number),
        Step::Length(number, _) => Some(number),
        Step::Payload(number, _, _) => Some(number),
        Step::Elements(number, _, _) => Some(number),
    }
}

/// The fault at a byte of what these steps lead to, if there was memory for them.
fn fault_on(steps: Result<Vec<PathStep>, NoMemory>, byte: u32, cause: Cause) -> DecodeError
    ensures { (path : List PathStepView) → IfOk steps (λ v. v.items ≡ path) → IfFault result (λ f. f ≡ fault_of byte path cause) }
{
    match steps {
        Ok(path) => DecodeError::Fault {
            byte: u64::from(byte),
            path,
            cause,
        },
        Err(_) => DecodeError::Memory,
    }
}

impl State {
    /// The steps to the record of a number that comes next in the innermost part.
    fn path_inside(&self, alloc: Global, number: u32) -> Result<Vec<PathStep>, NoMemory>
        ensures { IfOk result (λ v. v.items ≡ path_inside (state_view self.now) number) }
    {
        let mut path = parent_steps(alloc, &self.parents)?;
        path.push(step_into(&self.scope, number))?;
        Ok(path)
    }

    /// The steps to where a reader is.
    fn path_here(&self, alloc: Global) -> Result<Vec<PathStep>, NoMemory>
        ensures { IfOk result (λ v. v.items ≡ path_here (state_view self.now)) }
    {
        match begun_number(self.step) {
            None => parent_steps(alloc, &self.parents),
            Some(number) => self.path_inside(alloc, number),
        }
    }

    /// The fault at the reader's position.
    pub(crate) fn fault_at(&self, alloc: Global, byte: u32, cause: Cause) -> DecodeError
        ensures { IfFault result (λ f. f ≡ fault_of byte (path_here (state_view self.now)) cause) }
    {
        fault_on(self.path_here(alloc), byte, cause)
    }

    /// The fault of the record of a number that comes next here.
    pub(crate) fn fault_inside(&self, alloc: Global, number: u32, cause: Cause) -> DecodeError
        ensures { IfFault result (λ f. f ≡ fault_of self.now.at (path_inside (state_view self.now) number) cause) }
    {
        fault_on(self.path_inside(alloc, number), self.at, cause)
    }
}

/// The fault that there are more bytes than the limit allows.
pub(crate) fn too_large(alloc: Global, most: u32) -> DecodeError
    ensures { IfFault result (λ f. f ≡ fault_of most [] InputTooLarge) }
{
    DecodeError::Fault {
        byte: u64::from(most),
        path: Vec::new(alloc),
        cause: Cause::InputTooLarge,
    }
}
