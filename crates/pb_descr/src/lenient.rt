//! Descriptor sets, read without what strict reading refuses in sets of proto2.

ghost use Rattle.std.specs.Prelude.{◌≡◌, ℕ, List, [], map, slice_get, Some, IfOk, IfErr, OnOk, IsErrAnd, MatchResult};
ghost use Rattle.pb_wire.specs.Fault.{Fault};
ghost use Rattle.pb_wire.specs.Grammar.{HasFault};
ghost use Rattle.pb_wire.specs.Limits.{full};
ghost use Rattle.pb_schema.specs.Context.{a_message, schema_of};
ghost use Rattle.pb_value.specs.Data.{Message};
ghost use Rattle.pb_value.specs.View.{body_view};
ghost use Rattle.pb_declarations.specs.Decls.{DeclaredFile};
ghost use Rattle.pb_declarations.specs.View.{file_view};
ghost use Rattle.pb_descr_message.specs.Pool.{the_set, descriptor_types};
ghost use Rattle.pb_descr_message.specs.Reading.{files_in};
ghost use Rattle.pb_descr_message.specs.Causes.{set_causes};
ghost use Rattle.pb_descr_message.specs.Sets.{IsSetText, IsRefusedSet, TellsFault, TellsCause};
ghost use Rattle.pb_descr_message.specs.Without.{without_parts};
ghost use Rattle.pb_descr_message.specs.Omitted.{OmittedView, omitted_view, omitted_in};
ghost use Rattle.pb_descr_message.specs.Lenient.{IsLenientSetOf, IsUnreadLeniently};
ghost use Rattle.pb_descr_message.specs.declared.cause.DeclCause.{DeclCause};
ghost use Rattle.pb_descr_message.specs.declared.error.DescrError.TheVariants.{Memory};

use crate::reading::{declared_files, decode_by};
use pb_declarations::FileDecl;
use pb_descr_message::{DescrError, Omitted, descriptor_pool, omitted_in, strip_set};
use pb_schema::Pool;
use pb_value::Body;
use std::alloc::Global;

/// What a set declares, and what of it was left out.
#[derive(Debug, Drop)]
pub struct LenientSet {
    pub files: Vec<FileDecl>,
    pub omitted: Vec<Omitted>,
}

/// The files that the message of a set declares without its parts, and these parts.
fn lenient_set(alloc: Global, mut set: Body) -> Result<LenientSet, DescrError>
    ensures declared { IfOk result (λ s. map file_view s.files.items
        ≡ files_in (without_parts (body_view set))) }
    ensures left_out { IfOk result (λ s. map omitted_view s.omitted.items
        ≡ omitted_in (body_view set)) }
    ensures silent { OnOk result (set_causes (without_parts (body_view set)) ≡ []) }
    ensures refused { IfErr result (IsRefusedSet (without_parts (body_view set))) }
{
    let omitted = omitted_in(alloc, &set)?;
    strip_set(&mut set);
    let files = declared_files(alloc, set)?;
    Ok(LenientSet { files, omitted })
}

/// What a set declares and what of it was left out, or why it is none.
fn read_leniently(alloc: Global, pool: &Pool, bytes: &[u8]) -> Result<LenientSet, DescrError>
    requires { pool.now ≡ descriptor_types }
    ensures declared { IfOk result
        (λ s. IsLenientSetOf full bytes.now (map file_view s.files.items)
        (map omitted_view s.omitted.items)) }
    ensures refused { IfErr result (IsUnreadLeniently full bytes.now) }
    ensures accepted { (files : List DeclaredFile) (omitted : List OmittedView)
        → IsLenientSetOf full bytes.now files omitted
        → MatchResult result (λ s. (map file_view s.files.items ≡ files)
        × (map omitted_view s.omitted.items ≡ omitted)) (λ e. e ≡ Memory) }
    ensures fault { (f : Fault)
        → HasFault (schema_of descriptor_types) (a_message the_set) full bytes.now f
        → IsErrAnd result (TellsFault f) }
    ensures cause { (set : Message) (i : ℕ) (c : DeclCause) → IsSetText full bytes.now set
        → slice_get (set_causes (without_parts set)) 0 ≡ Some (i, c)
        → IsErrAnd result (TellsCause i c) }
{
    let set = decode_by(alloc, pool, bytes)?;
    let read = lenient_set(alloc, set)?;
    Ok(read)
}

/// The files that a descriptor set declares, and what of it was left out: all that [`read_set`](crate::read_set) refuses in sets of
/// proto2 as `Extension` (but for a field that names an extendee among the fields of a message), `Required` and `DefaultValue`, and the
/// marks of maps of closed enums, whose entries then are messages like others.
///
/// An extension and a range of them are left out whole, a required field counts as optional, and a field has no default value. A map in a
/// file of proto2 whose values are of an enum is the list of its entries. Else the set is read as by `read_set`, and refused for the
/// fault of its bytes or the first cause of what is left.
pub fn read_set_lenient(alloc: Global, bytes: &[u8]) -> Result<LenientSet, DescrError>
    ensures declared { IfOk result
        (λ s. IsLenientSetOf full bytes.now (map file_view s.files.items)
        (map omitted_view s.omitted.items)) }
    ensures refused { IfErr result (IsUnreadLeniently full bytes.now) }
    ensures accepted { (files : List DeclaredFile) (omitted : List OmittedView)
        → IsLenientSetOf full bytes.now files omitted
        → MatchResult result (λ s. (map file_view s.files.items ≡ files)
        × (map omitted_view s.omitted.items ≡ omitted)) (λ e. e ≡ Memory) }
    ensures fault { (f : Fault)
        → HasFault (schema_of descriptor_types) (a_message the_set) full bytes.now f
        → IsErrAnd result (TellsFault f) }
    ensures cause { (set : Message) (i : ℕ) (c : DeclCause) → IsSetText full bytes.now set
        → slice_get (set_causes (without_parts set)) 0 ≡ Some (i, c)
        → IsErrAnd result (TellsCause i c) }
{
    let pool = descriptor_pool(alloc)?;
    read_leniently(alloc, &pool, bytes)
}
