//! Laws of kinds, and of the faults of messages.

ghost use Rattle.std.specs.Prelude.{◌≡◌, ◌+◌, ◌*◌, ◌≤◌, ℕ, List, length, Some, IsTrue};
ghost use Rattle.std.specs.List.{AllByRecursion};
ghost use Rattle.pb_wire.specs.Record.{Payload};
ghost use Rattle.pb_wire.specs.Ranges.{IsByte};
ghost use Rattle.pb_wire.specs.Fault.{Fault, Place};
ghost use Rattle.pb_wire.specs.Grammar.{Bad, HasFault};
ghost use Rattle.pb_wire.specs.Limits.{Bounds};
ghost use Rattle.pb_wire.specs.Schema.{records};
ghost use Rattle.pb_wire.specs.Sound.{AreElements};
ghost use Rattle.pb_schema.specs.declared.types.Kind.{Kind as TheKind};
ghost use Rattle.pb_schema.specs.Scalar.{Scalar as ScalarValue};
ghost use Rattle.pb_schema.specs.Kinds.{wire_type_of, is_packable, read as read_of, written, IsOfKind};
ghost use Rattle.pb_schema.specs.Packed.{AreNumbers, numbers_of};
ghost use Rattle.pb_schema.specs.Context.{a_message, element_of, schema_of};
ghost use Rattle.pb_schema.specs.Types.{Types};

/// Reading the payload that was written gives the value back, for each kind and each value in its range.
pub fn reads_back()
    ensures { (k : TheKind) (x : ScalarValue) → IsOfKind k x → read_of k (written k x) ≡ Some x }
{}

/// The numbers that are read of a packed payload are those whose spellings joined are the payload, and there are such numbers wherever the
/// payload is whole elements.
pub fn packed_numbers()
    ensures only { (k : TheKind) (ps : List Payload) (s : List ℕ) → IsTrue (is_packable k)
        → AreNumbers (wire_type_of k) ps s → numbers_of (wire_type_of k) s ≡ ps }
    ensures whole { (k : TheKind) (s : List ℕ) → IsTrue (is_packable k)
        → AllByRecursion IsByte s → AreElements (element_of k) s → AreNumbers (wire_type_of k) (numbers_of (wire_type_of k) s) s }
{}

/// How many steps lead to a fault of a message: two for each level at most, since the message in an entry of a map is at the entry's level, and
/// one into the record that has the fault.
pub fn path_bounds()
    ensures text { (pool : Types) (m : ℕ) (limits : Bounds) (b : List ℕ) (f : Fault)
        → HasFault (schema_of pool) (a_message m) limits b f → length f.path ≤ 2 * limits.depth + 1 }
    ensures here { (pool : Types) (m levels : ℕ) (p : Place) (f : Fault)
        → Bad (schema_of pool) (records (a_message m)) levels p f → length f.path ≤ 2 * levels + 1 }
{}
