//! Laws of frames.

ghost use Rattle.std.specs.Prelude.{◌≡◌, ◌≢◌, ℕ, List, [], All};
ghost use Rattle.pb_wire.specs.Ranges.{IsByte};
ghost use Rattle.pb_wire.specs.Limits.{Bounds};
ghost use Rattle.pb_wire.specs.Exact.{Exactly};
ghost use Rattle.pb_schema.specs.Types.{Types};
ghost use Rattle.pb_schema.specs.Rules.{IsPool};
ghost use Rattle.pb_value.specs.Data.{Message};
ghost use Rattle.pb_stream.specs.Frame.{Frame, FrameFault, BeginsWithFrame};
ghost use Rattle.pb_stream.specs.Writing.{WrittenIsFrame};

/// An input that has a byte begins with a frame, or has exactly one fault, and it begins with one frame at most.
pub fn one_frame()
    ensures exactly { (pool : Types) (m : ℕ) (limits : Bounds) (input : List ℕ) → input ≢ []
        → All IsByte input → Exactly (BeginsWithFrame pool m limits input)
        (FrameFault pool m limits input) }
    ensures one { (pool : Types) (m : ℕ) (limits : Bounds) (input rest more : List ℕ)
        (v w : Message) → Frame pool m limits input v rest → Frame pool m limits input w more
        → (v ≡ w) × (rest ≡ more) }
{}

/// The frame that is written of a well-formed message is a frame of it within the greatest limits, whatever follows it.
pub fn written_frame()
    ensures { (pool : Types) → IsPool pool → WrittenIsFrame pool }
{}
