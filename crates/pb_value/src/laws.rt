//! Laws of what records mean.

ghost use Rattle.std.specs.Prelude.{◌≡◌, ◌<◌, ◌^◌, ℕ, List, length, None};
ghost use Rattle.pb_wire.specs.Spell.{AreRecords};
ghost use Rattle.pb_schema.specs.Types.{Types};
ghost use Rattle.pb_schema.specs.Rules.{IsPool};
ghost use Rattle.pb_schema.specs.declared.types.Kind.{Kind};
ghost use Rattle.pb_schema.specs.Kinds.{IsOfKind};
ghost use Rattle.pb_schema.specs.Scalar.{key_cmp};
ghost use Rattle.pb_value.specs.Data.{Message};
ghost use Rattle.pb_value.specs.View.{key_view};
ghost use Rattle.pb_value.specs.KeyOrder.{map_key_cmp};
ghost use Rattle.pb_value.specs.declared.body.MapKey.{MapKey};
ghost use Rattle.pb_value.specs.Derives.{Derives};
ghost use Rattle.pb_value.specs.Canon.{canon, canon_bytes};
ghost use Rattle.pb_value.specs.WellFormed.{IsWellFormed};
ghost use Rattle.pb_value.specs.Meaning.{ValueIsWellFormed, DerivedIsWellFormed};
ghost use Rattle.pb_value.specs.RoundTrip.{CanonIsText, CanonIsTextOfOne, CanonHasValue};
ghost use Rattle.pb_value.specs.Cause.{message_cause};
ghost use Rattle.pb_value.specs.Joining.{FirstValueDecides, OntoIsJoining, OntoDerives, OntoIsWellFormed, MergeIsJoining, MergeIsText, MergeIsWellFormed};

/// Bytes are the text of one value, whatever the depth allowed.
pub fn one_value()
    ensures { (pool : Types) (m d e : ℕ) (b : List ℕ) (v w : Message) → Derives pool m d b v → Derives pool m e b w → v ≡ w }
{}

/// The value of records in range is well formed where it nests at most 100 deep, and so is every value that derives from bytes within that depth.
pub fn well_formed_values()
    ensures records { (pool : Types) → IsPool pool → ValueIsWellFormed pool }
    ensures bytes { (pool : Types) → IsPool pool → DerivedIsWellFormed pool }
{}

/// The canonical bytes of a well-formed message spell its canonical records, where the wire can hold them.
pub fn canonical_spelling()
    ensures { (pool : Types) (m : ℕ) (v : Message) → IsPool pool → IsWellFormed pool m v
        → length (canon_bytes pool m v) < 2 ^ 31 → AreRecords (canon pool m v) (canon_bytes pool m v) }
{}

/// The canonical bytes of a well-formed message, where the wire can hold them, are a text of it within the greatest limits, and of no
/// other value. Its canonical records have it as their value whatever their length.
pub fn round_trip()
    ensures text { (pool : Types) → IsPool pool → CanonIsText pool }
    ensures only { (pool : Types) → IsPool pool → CanonIsTextOfOne pool }
    ensures value { (pool : Types) → IsPool pool → CanonHasValue pool }
{}

/// Keys of one map are in the order of the definitions: numbers by value, false before true, strings by their bytes.
pub fn key_order()
    ensures { (kind : Kind) (a b : MapKey) → IsOfKind kind (key_view a) → IsOfKind kind (key_view b) → map_key_cmp a b ≡ key_cmp (key_view a) (key_view b) }
{}

/// Nothing refuses a well-formed message.
pub fn no_cause()
    ensures { (pool : Types) (m : ℕ) (v : Message) → IsWellFormed pool m v → message_cause pool m v ≡ None }
{}

/// The value of joined records depends on the value of the first of them, and on nothing else of these.
pub fn joined_records()
    ensures { (pool : Types) → IsPool pool → FirstValueDecides pool }
{}

/// Reading onto a message is reading after any records, or any bytes, that give the message; the message stays well formed.
pub fn reading_onto()
    ensures records { (pool : Types) → IsPool pool → OntoIsJoining pool }
    ensures bytes { (pool : Types) → IsPool pool → OntoDerives pool }
    ensures well_formed { (pool : Types) → IsPool pool → OntoIsWellFormed pool }
{}

/// A message merged over another is what the canonical forms of both, one after the other, decode to; it is well formed.
pub fn merging()
    ensures records { (pool : Types) → IsPool pool → MergeIsJoining pool }
    ensures bytes { (pool : Types) → IsPool pool → MergeIsText pool }
    ensures well_formed { (pool : Types) → IsPool pool → MergeIsWellFormed pool }
{}
