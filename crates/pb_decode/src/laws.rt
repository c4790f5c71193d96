//! Laws of what bytes mean by a type.

ghost use Rattle.std.specs.Prelude.{◌≡◌, ◌++◌, ℕ, List, All};
ghost use Rattle.pb_wire.specs.Fault.{Fault};
ghost use Rattle.pb_wire.specs.Ranges.{IsByte};
ghost use Rattle.pb_wire.specs.Exact.{Exactly};
ghost use Rattle.pb_wire.specs.Grammar.{HasFault};
ghost use Rattle.pb_wire.specs.Limits.{Bounds};
ghost use Rattle.pb_schema.specs.Types.{Types};
ghost use Rattle.pb_schema.specs.Context.{a_message, schema_of};
ghost use Rattle.pb_value.specs.Data.{Message};
ghost use Rattle.pb_value.specs.Derives.{Text};
ghost use Rattle.pb_decode.specs.Push.{IsSettled};

/// Bytes are the encoding of a value within the limits, or have one fault: always one of the two and never both, and at most one value.
pub fn one_answer()
    ensures exactly { (pool : Types) (m : ℕ) (limits : Bounds) (b : List ℕ) → All IsByte b
        → Exactly ((v : Message) × Text pool m limits b v) (HasFault (schema_of pool) (a_message m) limits b) }
    ensures value { (pool : Types) (m : ℕ) (limits : Bounds) (b : List ℕ) (v w : Message)
        → Text pool m limits b v → Text pool m limits b w → v ≡ w }
{}

/// A fault that more bytes do not change is that of every longer input, also of one past the limit on its length.
pub fn settled_fault()
    ensures { (pool : Types) (m : ℕ) (limits : Bounds) (b more : List ℕ) (f : Fault)
        → IsSettled pool m limits b f → IsSettled pool m limits (b ++ more) f }
{}
