//! Laws of the spellings.

ghost use Rattle.std.specs.Prelude.{◌≡◌, ◌++◌, ◌≢◌, ◌+◌, ◌*◌, ◌<◌, ◌≤◌, ◌^◌, ◌⊎◌, ℕ, List, length, All, None};
ghost use Rattle.pb_wire.specs.Ranges.{IsByte, AreInRange};
ghost use Rattle.pb_wire.specs.Exact.{IsRead, Exactly, IsFrame, ending_at, IsSomeText, schema, longer, IsCut};
ghost use Rattle.pb_wire.specs.Fault.{Fault, Place, input_end};
ghost use Rattle.pb_wire.specs.Grammar.{Bad, HasFault};
ghost use Rattle.pb_wire.specs.declared.fault.Cause.TheVariants.{InputTooLarge};
ghost use Rattle.pb_wire.specs.Limits.{Bounds};
ghost use Rattle.pb_wire.specs.Schema.{Reading, Open, records, context_of, open_group};
ghost use Rattle.pb_wire.specs.Levels.{UsesLevels, NestsOnce};
ghost use Rattle.pb_wire.specs.Inside.{records_spelled, AreNumbered};
ghost use Rattle.pb_wire.specs.Record.{Record};
ghost use Rattle.pb_wire.specs.Spell.{AreRecords, shortest_records};
ghost use Rattle.pb_wire.specs.Writable.{AreWritable};

/// The shortest encoding of records that can be written is an encoding of them, and no other encoding is shorter.
pub fn shortest_spelling()
    ensures spells { (rs : List Record) → AreInRange rs → AreWritable rs → AreRecords rs (shortest_records rs) }
    ensures least { (rs : List Record) (b : List ℕ) → AreRecords rs b → length (shortest_records rs) ≤ length b }
{}

/// Every place is read whole, or has exactly one fault; so has every frame, and every input within its limits.
pub fn one_fault<C>()
    ensures here { (reading : C → ℕ → Reading C) (group : C → ℕ → C) (o : Open C) (depth_left : ℕ) (p : Place)
        → All IsByte p.rest
        → Exactly (IsRead (schema reading group) o depth_left p) (Bad (schema reading group) o depth_left p) }
    ensures frame { (reading : C → ℕ → Reading C) (group : C → ℕ → C) (c : C) (depth_left at size : ℕ) (rest : List ℕ)
        → All IsByte rest
        → Exactly (IsFrame (schema reading group) c depth_left size rest) (Bad (schema reading group) (records c) depth_left (ending_at at size rest)) }
    ensures text { (reading : C → ℕ → Reading C) (group : C → ℕ → C) (c : C) (limits : Bounds) (b : List ℕ)
        → All IsByte b
        → Exactly (IsSomeText (schema reading group) c limits b) (HasFault (schema reading group) c limits b) }
{}

/// A fault other than the end of the input is the fault of every longer input, also of one past the limit on its length.
/// What is read whole up to a known end or the end of a group stays so.
pub fn longer_text<C>()
    ensures fault { (reading : C → ℕ → Reading C) (group : C → ℕ → C) (o : Open C) (depth_left : ℕ) (p : Place) (f : Fault) (more : List ℕ)
        → (IsCut f → ⊥) → Bad (schema reading group) o depth_left p f
        → Bad (schema reading group) o depth_left (longer p more) f }
    ensures text { (reading : C → ℕ → Reading C) (group : C → ℕ → C) (c : C) (limits : Bounds) (b more : List ℕ) (f : Fault)
        → (IsCut f → ⊥) → HasFault (schema reading group) c limits b f
        → HasFault (schema reading group) c limits (b ++ more) f }
    ensures read { (reading : C → ℕ → Reading C) (group : C → ℕ → C) (o : Open C) (depth_left : ℕ) (p : Place) (more : List ℕ)
        → (open_group o ≢ None) ⊎ (p.known ≢ None) → IsRead (schema reading group) o depth_left p
        → IsRead (schema reading group) o depth_left (longer p more) }
{}

/// A fault is reported at a byte from the place that is read from up to the end of the input, and the end of the input is
/// where it is reported that the input ends. That the input is too large is reported of longer inputs alone.
pub fn fault_bounds<C>()
    ensures bounds { (reading : C → ℕ → Reading C) (group : C → ℕ → C) (o : Open C) (depth_left : ℕ) (p : Place) (f : Fault)
        → Bad (schema reading group) o depth_left p f → (p.at ≤ f.byte) × (f.byte ≤ input_end p) }
    ensures cut { (reading : C → ℕ → Reading C) (group : C → ℕ → C) (o : Open C) (depth_left : ℕ) (p : Place) (f : Fault)
        → Bad (schema reading group) o depth_left p f → IsCut f → f.byte ≡ input_end p }
    ensures within { (reading : C → ℕ → Reading C) (group : C → ℕ → C) (o : Open C) (depth_left : ℕ) (p : Place) (f : Fault)
        → Bad (schema reading group) o depth_left p f → f.cause ≢ InputTooLarge }
{}

/// How long the path of a fault is. Each level adds one step to it. Where messages may also lie at the level of what holds them, as those of map entries
/// do, each level adds two at most. The last step leads into the record that has the fault.
pub fn path_bounds<C>()
    ensures here { (reading : C → ℕ → Reading C) (group : C → ℕ → C) (o : Open C) (depth_left : ℕ) (p : Place) (f : Fault)
        → NestsOnce reading → UsesLevels reading (context_of o) → Bad (schema reading group) o depth_left p f → length f.path ≤ 2 * depth_left + 1 }
    ensures text { (reading : C → ℕ → Reading C) (group : C → ℕ → C) (c : C) (limits : Bounds) (b : List ℕ) (f : Fault)
        → NestsOnce reading → UsesLevels reading c → HasFault (schema reading group) c limits b f → length f.path ≤ 2 * limits.depth + 1 }
    ensures levels { (reading : C → ℕ → Reading C) (group : C → ℕ → C) (o : Open C) (depth_left : ℕ) (p : Place) (f : Fault)
        → ((c : C) → UsesLevels reading c) → Bad (schema reading group) o depth_left p f → length f.path ≤ depth_left + 1 }
    ensures text_levels { (reading : C → ℕ → Reading C) (group : C → ℕ → C) (c : C) (limits : Bounds) (b : List ℕ) (f : Fault)
        → ((d : C) → UsesLevels reading d) → HasFault (schema reading group) c limits b f → length f.path ≤ limits.depth + 1 }
{}

/// Records are read back from every encoding of them, whatever the lengths in it, and from their shortest encoding also
/// where a payload is too long for the wire.
pub fn read_back()
    ensures spelled { (rs : List Record) (b : List ℕ) → length b < 2 ^ 64 → AreRecords rs b → records_spelled b ≡ rs }
    ensures shortest { (rs : List Record) → AreInRange rs → AreNumbered rs → records_spelled (shortest_records rs) ≡ rs }
{}
