//! The law of the scalar at a path.

ghost use Rattle.pb_schema.specs.Types.{Types};
ghost use Rattle.pb_schema.specs.Rules.{IsPool};
ghost use Rattle.pb_find.specs.Found.{FoundIsScalarAt};

/// What is found of the records of an encoding, one after another, is the scalar that their message has at the path.
pub fn found_is_scalar_at()
    ensures { (pool : Types) → IsPool pool → FoundIsScalarAt pool }
{}
