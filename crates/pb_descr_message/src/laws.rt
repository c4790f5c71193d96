//! Laws of descriptor sets.

ghost use Rattle.std.specs.Prelude.{◌≡◌, ◌↔◌, ℕ, [], List, All, map};
ghost use Rattle.pb_wire.specs.Limits.{Bounds, full};
ghost use Rattle.pb_wire.specs.Ranges.{IsByte, AreBytes};
ghost use Rattle.pb_schema.specs.Rules.{IsPool};
ghost use Rattle.pb_declarations.specs.Decls.{DeclaredFile};
ghost use Rattle.pb_declarations.specs.View.{file_view};
ghost use Rattle.pb_descr_message.specs.Pool.{descriptor_types};
ghost use Rattle.pb_descr_message.specs.Reading.{files_in};
ghost use Rattle.pb_descr_message.specs.Causes.{set_causes};
ghost use Rattle.pb_descr_message.specs.Writing.{set_body};
ghost use Rattle.pb_descr_message.specs.Sets.{IsSetOf, HasSetFault, IsWritable, set_bytes, IsUnread};
ghost use Rattle.pb_descr_message.specs.Omitted.{OmittedView};
ghost use Rattle.pb_descr_message.specs.Lenient.{IsLenientSetOf, IsUnreadLeniently};
ghost use Rattle.pb_descr_message.specs.WithoutBytes.{AreWithoutParts};
ghost use Rattle.pb_descr_message.specs.NothingOmitted.{HasNoSuchPart};
ghost use Rattle.pb_descr_message.specs.Writable.{IsWithinLimits};
ghost use Rattle.pb_descr_message.specs.declared.cause.DeclCause.{DeclCause};
ghost use Rattle.pb_descr_message.specs.declared.error.DescrError.TheVariants as descr;
ghost use Rattle.pb_declarations.specs.One.{ExactlyOne};

use crate::ranges::read_files;
use pb_declarations::FileDecl;

/// What files are written as declares these files. Where it can be written and shows no cause, its canonical bytes are a set of these
/// files. The types of descriptor sets are a pool.
pub fn set_back()
    ensures files { (files : List DeclaredFile) → files_in (set_body files) ≡ files }
    ensures bytes { (files : List DeclaredFile) → IsWritable files
        → set_causes (set_body files) ≡ [] → IsSetOf full (set_bytes files) files }
    ensures pool { IsPool descriptor_types }
{}

/// Bytes are a set of one list of files, or are none for one reason, which is their fault or the first cause of a file: never both, never
/// two, always one.
pub fn one_set()
    ensures one { (limits : Bounds) (b : List ℕ) → All IsByte b
        → ExactlyOne (IsSetOf limits b) (HasSetFault limits b) }
{}

/// Where lenient reading leaves nothing out, it reads what strict reading reads; and a set that has no part for lenient reading to leave
/// out is read leniently as it is read strictly.
pub fn nothing_omitted()
    ensures strictly { (b : List ℕ) (files : List DeclaredFile) → AreBytes b
        → IsLenientSetOf full b files [] → IsSetOf full b files }
    ensures leniently { (b : List ℕ) (files : List DeclaredFile) → AreBytes b → HasNoSuchPart b
        → IsSetOf full b files → IsLenientSetOf full b files [] }
{}

/// The encoding of a set is read leniently as the canonical bytes of the set without its parts are read strictly: as the same files, or
/// refused for the same cause of the same file. These bytes must be fewer than 2^31.
pub fn lenient_is_strict()
    ensures read { (b without : List ℕ) (files : List DeclaredFile) → AreBytes b
        → AreWithoutParts b without → IsSetOf full without files
        ↔ ((omitted : List OmittedView) × IsLenientSetOf full b files omitted) }
    ensures refused { (b without : List ℕ) (i : ℕ) (c : DeclCause) → AreBytes b
        → AreWithoutParts b without → IsUnread full without (descr.Decl i c)
        ↔ IsUnreadLeniently full b (descr.Decl i c) }
{}

/// The set of files can be written where it nests at most 100 levels deep and its bytes are fewer than 2^31.
///
/// In time by what the files declare, without memory: numbers fit 32 bits once they are read.
pub fn writable(files: &[FileDecl])
    ensures limits { IsWithinLimits (map file_view files.now)
        → IsWritable (map file_view files.now) }
{
    read_files(files);
}
