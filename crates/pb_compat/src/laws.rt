//! Laws of what is kept.

ghost use Rattle.std.specs.Prelude.{IsTrue};
ghost use Rattle.pb_schema.specs.Types.{Types};
ghost use Rattle.pb_schema.specs.declared.types.Kind.{Kind};
ghost use Rattle.pb_compat.specs.Scalars.{keeps_scalars, KeepsScalars, ScalarsAreLost};
ghost use Rattle.pb_compat.specs.Agrees.{ReadsMessages, ReadsEncodings};
ghost use Rattle.pb_compat.specs.Effects.{LostArePassedOn, ConvertedAreKept, PresenceIsTurned};
ghost use Rattle.pb_compat.specs.Witness.{OneIsShown, ShapeIsShown, PairIsShown, MapIsShown, PackedIsShown};
ghost use Rattle.pb_schema.specs.Rules.{IsPool};

/// Where the table keeps the scalars of a kind, the new kind reads of what the old kind wrote for each of them a value of its own, which
/// means the same.
pub fn scalars_kept()
    ensures { (old new : Types) (a b : Kind) → IsTrue (keeps_scalars old new a b)
        → KeepsScalars old new a b }
{}

/// Where no difference breaks reading, between any two types that at most 100 fields lead to, the new type reads of the canonical records of a
/// well-formed message without unknown records what agrees with it: at every level each field that both types declare holds the same, and the
/// unknown records are those of the fields that the new type does not declare.
pub fn messages_read()
    ensures records { (old new : Types) → IsPool old → IsPool new → ReadsMessages old new }
    ensures bytes { (old new : Types) → IsPool old → IsPool new → ReadsEncodings old new }
{}

/// Where the table does not keep the scalars of a kind, the new kind does not read some of them, or reads another meaning. Closed enums are not in
/// this law.
pub fn scalars_lost()
    ensures { (old new : Types) → ScalarsAreLost old new }
{}

/// Messages that show that a change breaks reading: each message of the new type that their canonical bytes encode disagrees with them. A message
/// with one value does so that is unlike what the new kind reads, alone or in a list that is not packed (`value`); one with any value, where the
/// shape is not kept (`shape`); one with two fields that become members of one oneof (`pair`); and one with a map of one entry, whose key or value
/// is unlike (`map`); and one with a packed list of one element, which has no like in the new kind, is read as another one, or whose bytes are no
/// whole elements of the new kind (`packed`).
pub fn witnessed()
    ensures value { (old new : Types) → IsPool old → IsPool new → OneIsShown old new }
    ensures shape { (old new : Types) → IsPool old → IsPool new → ShapeIsShown old new }
    ensures pair { (old new : Types) → IsPool old → IsPool new → PairIsShown old new }
    ensures map { (old new : Types) → IsPool old → IsPool new → MapIsShown old new }
    ensures packed { (old new : Types) → IsPool old → IsPool new → PackedIsShown old new }
{}

/// What differences that do not break reading do to messages. Of a field that is lost: its records become unknown records of the message that is
/// read, and are written again (`loses`). Of one that is converted, or changes presence: each message of the old type holds the same in the new
/// field, and a message with this field alone is read (`converts`, `presence`). If it changes presence, a default that the old field sets is
/// read as not set, or no old message sets the new field to a default (`presence`).
pub fn effects()
    ensures loses { (old new : Types) → IsPool new → LostArePassedOn old new }
    ensures converts { (old new : Types) → IsPool old → IsPool new → ConvertedAreKept old new }
    ensures presence { (old new : Types) → IsPool old → IsPool new → PresenceIsTurned old new }
{}
