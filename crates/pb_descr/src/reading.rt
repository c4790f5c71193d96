//! Descriptor sets, read.

ghost use Rattle.std.specs.Prelude.{◌≡◌, ◌<◌, ◌≤◌, ◌++◌, ℕ, List, [], length, map, slice_get, Some, IsTrue, IfOk, IfErr, IfSome, OnOk, IsErrAnd, MatchResult};
ghost use Rattle.pb_wire.specs.Fault.{Fault};
ghost use Rattle.pb_wire.specs.Grammar.{HasFault};
ghost use Rattle.pb_wire.specs.Limits.{full};
ghost use Rattle.pb_schema.specs.Context.{a_message, schema_of};
ghost use Rattle.pb_value.specs.Data.{Message};
ghost use Rattle.pb_value.specs.View.{body_view, value_view};
ghost use Rattle.pb_declarations.specs.Decls.{DeclaredFile};
ghost use Rattle.pb_descr_message.specs.Pool.{the_set, descriptor_types};
ghost use Rattle.pb_declarations.specs.View.{file_view};
ghost use Rattle.pb_descr_message.specs.Reading.{file_in, files_in};
ghost use Rattle.pb_descr_message.specs.Causes.{set_causes};
ghost use Rattle.pb_descr_message.specs.Sets.{IsSetText, IsSetOf, IsUnread, IsRefusedSet, TellsFault, TellsCause, AddsSet};
ghost use Rattle.pb_descr_message.specs.declared.cause.DeclCause.{DeclCause};
ghost use Rattle.pb_descr_message.specs.declared.error.DescrError.TheVariants.{Memory};

use pb_declarations::FileDecl;
use pb_decode::{DecodeError, decode};
use pb_descr_message::{
    Declared, DescrError, SET, descriptor_pool, first_cause, list_in, values_at,
};
use pb_schema::Pool;
use pb_value::{Body, Value};
use pb_wire::{Limits, read_varint};
use std::alloc::{AllocError, Global};

/// The tag of a file's record in a set.
const FILE: u8 = 0x0a;

/// A part of a set ends with the record that reaches this many bytes. So a part has few messages, and the memory of one part serves the next.
const PART: usize = 128;

/// The message of a set, from its bytes by the fixed pool.
pub(crate) fn decode_by(alloc: Global, pool: &Pool, bytes: &[u8]) -> Result<Body, DescrError>
    requires { pool.now ≡ descriptor_types }
    ensures text { IfOk result (λ b. IsSetText full bytes.now (body_view b)) }
    ensures fault { IfErr result (IsUnread full bytes.now) }
    ensures accepted { (set : Message) → IsSetText full bytes.now set
        → MatchResult result (λ b. body_view b ≡ set) (λ e. e ≡ Memory) }
    ensures refused { (f : Fault)
        → HasFault (schema_of descriptor_types) (a_message the_set) full bytes.now f
        → IsErrAnd result (TellsFault f) }
{
    match decode(alloc, pool, SET, bytes, Limits::FULL) {
        Ok(message) => Ok(message.into_body()),
        Err(DecodeError::Fault { byte, path, cause }) => {
            Err(DescrError::Fault { byte, path, cause })
        }
        Err(_) => Err(DescrError::Memory),
    }
}

/// The files that the message of a set declares, or the first cause why not.
pub(crate) fn declared_files(alloc: Global, set: Body) -> Result<Vec<FileDecl>, DescrError>
    ensures declared { IfOk result (λ v. map file_view v.items ≡ files_in (body_view set)) }
    ensures silent { OnOk result (set_causes (body_view set) ≡ []) }
    ensures refused { IfErr result (IsRefusedSet (body_view set)) }
{
    let set = Value::Message(set);
    let files = values_at(&set, 1);
    if let Some((file, cause)) = first_cause(files) {
        return Err(DescrError::Decl { file, cause });
    }
    let decls = list_in(alloc, files)?;
    Ok(decls)
}

/// The files of a set that is read as a whole, or why it is none.
fn read_whole(alloc: Global, pool: &Pool, bytes: &[u8]) -> Result<Vec<FileDecl>, DescrError>
    requires { pool.now ≡ descriptor_types }
    ensures declared { IfOk result (λ v. IsSetOf full bytes.now (map file_view v.items)) }
    ensures refused { IfErr result (IsUnread full bytes.now) }
    ensures accepted { (files : List DeclaredFile) → IsSetOf full bytes.now files
        → MatchResult result (λ v. map file_view v.items ≡ files) (λ e. e ≡ Memory) }
    ensures fault { (f : Fault)
        → HasFault (schema_of descriptor_types) (a_message the_set) full bytes.now f
        → IsErrAnd result (TellsFault f) }
    ensures cause { (set : Message) (i : ℕ) (c : DeclCause) → IsSetText full bytes.now set
        → slice_get (set_causes set) 0 ≡ Some (i, c) → IsErrAnd result (TellsCause i c) }
{
    let set = decode_by(alloc, pool, bytes)?;
    let files = declared_files(alloc, set)?;
    Ok(files)
}

/// Adds what each of a set's files declares.
fn add_files(alloc: Global, files: &mut Vec<FileDecl>, values: &[Value]) -> Result<(), AllocError>
    ensures { OnOk result (map file_view files.new.items
        ≡ map file_view files.old.items ++ map file_in (map value_view values.now)) }
{
    for value in values {
        let file = FileDecl::declared(alloc, value)?;
        files.push(file)?;
    }
    Ok(())
}

/// Adds the files of a set's message, where it shows no cause. Answers whether it shows none.
fn add_declared(alloc: Global, files: &mut Vec<FileDecl>, set: Body) -> Result<bool, AllocError>
    ensures silent { IfOk result (λ is_silent. IsTrue is_silent → set_causes (body_view set) ≡ []) }
    ensures added { IfOk result (λ is_silent. IsTrue is_silent
        → map file_view files.new.items ≡ map file_view files.old.items ++ files_in
        (body_view set)) }
{
    let set = Value::Message(set);
    let values = values_at(&set, 1);
    if let Some(_) = first_cause(values) {
        return Ok(false);
    }
    add_files(alloc, files, values)?;
    Ok(true)
}

/// Adds the files of a part of a set. Answers whether it is itself a set that shows no cause.
fn add_part(
    alloc: Global,
    pool: &Pool,
    files: &mut Vec<FileDecl>,
    bytes: &[u8],
) -> Result<bool, AllocError>
    requires { pool.now ≡ descriptor_types }
    ensures { IfOk result (λ is_set. IsTrue is_set
        → AddsSet bytes.now (map file_view files.old.items) (map file_view files.new.items)) }
{
    match decode_by(alloc, pool, bytes) {
        Ok(set) => add_declared(alloc, files, set),
        Err(DescrError::Memory) => Err(AllocError),
        Err(_) => Ok(false),
    }
}

/// Where the first record ends, if it is the record of a file and complete.
fn file_end(bytes: &[u8]) -> Option<usize>
    ensures { IfSome result (λ end. (0 < end) × (end ≤ length bytes.now)) }
{
    let (tag, rest) = bytes.split_first()?;
    if *tag != FILE {
        return None;
    }
    let Ok((len, size)) = read_varint(rest) else {
        return None;
    };
    if len > (rest.len() - size) as u64 {
        return None;
    }
    Some(1 + size + len as usize)
}

/// Where the next part of a set ends: after complete records of files, as soon as they have `PART` bytes. If the next record is not one of
/// these, all the rest is one part.
fn part_end(bytes: &[u8]) -> usize
    requires { 0 < length bytes.now }
    ensures some { 0 < result }
    ensures within { result ≤ length bytes.now }
{
    let mut end = 0;
    while end < PART {
        let Some(len) = file_end(&bytes[end..]) else {
            break;
        };
        end += len;
    }
    if end == 0 { bytes.len() } else { end }
}

/// The files of a set that is read part by part, each part dropped before the next, so that only one part's messages are in memory. None
/// if the set is too large or a part is refused: then the set is read as a whole, which reports why.
fn read_parts(alloc: Global, pool: &Pool, bytes: &[u8]) -> Result<Option<Vec<FileDecl>>, AllocError>
    requires { pool.now ≡ descriptor_types }
    ensures { IfOk result (λ o. IfSome o (λ v. IsSetOf full bytes.now (map file_view v.items))) }
{
    if bytes.len() > Limits::FULL.max_bytes() as usize {
        return Ok(None);
    }
    let mut files: Vec<FileDecl> = Vec::new(alloc);
    let mut at = 0;
    while at < bytes.len() {
        let rest = &bytes[at..];
        let end = part_end(rest);
        if !add_part(alloc, pool, &mut files, &rest[..end])? {
            return Ok(None);
        }
        at += end;
    }
    Ok(Some(files))
}

/// The files that a descriptor set declares, in their order.
///
/// The bytes are the text of a `google.protobuf.FileDescriptorSet`, of at most 2^31 - 1 bytes and at most 100 levels below the set, and
/// each file is one of proto2 or proto3 that shows no [`DeclCause`](crate::DeclCause). What declarations do not keep is passed over. A missing
/// number is 0, a missing mark false, a missing label `optional`, a missing package or method type empty, and a missing or empty syntax `proto2`.
///
/// Else the fault of the bytes is reported, or the first cause: by file, then by declaration, then by number. A file comes before what it
/// declares, in the order of messages (each with its fields, its oneofs, its nested messages and its enums), enums (each with its values)
/// and services (each with its methods).
pub fn read_set(alloc: Global, bytes: &[u8]) -> Result<Vec<FileDecl>, DescrError>
    ensures declared { IfOk result (λ v. IsSetOf full bytes.now (map file_view v.items)) }
    ensures refused { IfErr result (IsUnread full bytes.now) }
    ensures accepted { (files : List DeclaredFile) → IsSetOf full bytes.now files
        → MatchResult result (λ v. map file_view v.items ≡ files) (λ e. e ≡ Memory) }
    ensures fault { (f : Fault)
        → HasFault (schema_of descriptor_types) (a_message the_set) full bytes.now f
        → IsErrAnd result (TellsFault f) }
    ensures cause { (set : Message) (i : ℕ) (c : DeclCause) → IsSetText full bytes.now set
        → slice_get (set_causes set) 0 ≡ Some (i, c) → IsErrAnd result (TellsCause i c) }
{
    let pool = descriptor_pool(alloc)?;
    match read_parts(alloc, &pool, bytes) {
        Ok(Some(files)) => Ok(files),
        Ok(None) => read_whole(alloc, &pool, bytes),
        Err(_) => Err(DescrError::Memory),
    }
}
