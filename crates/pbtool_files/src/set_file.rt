//! Which pool the descriptor set in a file makes, and which type of it has a name: the set is read, is one, links, and has the type.

ghost use Rattle.std.specs.Prelude.{◌≡◌, ◌≢◌, ◌+◌, ◌++◌, ◌<◌, true, false, ℕ, List, Option, Some, length, map, IfOk, IfErr};
ghost use Rattle.pb_wire.specs.Limits.{full};
ghost use Rattle.pb_declarations.specs.View.{file_view};
ghost use Rattle.pb_descr_message.specs.Omitted.{omitted_view};
ghost use Rattle.pb_json_names.specs.Names.{AreNamesOf};
ghost use Rattle.pbtool_files.specs.FileMap.{KeepsMap};
ghost use Rattle.pbtool_files.specs.Known.{IsReadFrom, IsReadOf};
ghost use Rattle.pbtool_files.specs.Refusal.{KeepsFailures, Refuses, names_device};
ghost use Rattle.pbtool_files.specs.SetFile.{HasPool, HasType, IsSetBy, IsUnreadBy, NoPool, NoType};

use crate::files::Files;
use crate::pieces::{FIRST_PIECE, is_cut, read_on};
use crate::reading::open_file;
use crate::report::Refusal;
use pb_descr::{DescrError, LenientSet, Omitted, read_set, read_set_lenient};
use pb_json::JsonNames;
use pb_json_names::names_of_set;
use pb_link::link;
use pb_schema::{MessageId, Pool};
use pb_wire::{Input, Limits};
use std::alloc::Global;

/// How a descriptor set is read.
#[derive(Clone, Copy, Debug, PartialEq, Eq)]
pub enum Reading {
    /// As it is.
    Strict,
    /// Without its extensions, the labels of required fields, default values and the marks of maps of closed enums.
    Lenient,
}

/// The pool of a set, and what of the set was left out.
#[derive(Drop)]
pub struct LinkedSet {
    pub pool: Pool,
    pub omitted: Vec<Omitted>,
}

/// A pool, a type of it, and the names that its set gives to fields in JSON.
#[derive(Drop)]
pub struct NamedType {
    pub pool: Pool,
    pub message_type: MessageId,
    pub names: JsonNames,
}

/// The pool of the set at a path, the type of a name in it, and the names that the set gives to fields in JSON.
pub fn find_named_type<'a, F: Files>(
    alloc: Global,
    reading: Reading,
    path: &'a str,
    type_name: &'a str,
    files: &mut F,
) -> Result<NamedType, Refusal<'a>>
    ensures found { IfOk result (λ p. (set : List ℕ) × IsReadOf F.contents F.is_steady files.old (full.bytes + 1) path.entry.now (Some set)
        × HasType reading type_name.entry.now set p.pool p.message_type.0 × AreNamesOf p.pool set p.names) }
    ensures within { IfOk result (λ p. p.message_type.0 < length p.pool.messages) }
    ensures refused { IfErr result (Refuses (λ a. (content : Option (List ℕ))
        × IsReadOf F.contents F.is_steady files.old (full.bytes + 1) path.entry.now content
        × NoType reading type_name.entry.now path.entry.now content a)) }
    ensures kept { KeepsFailures F.failures files.old files.new result }
    ensures steady { F.is_steady files.old ≡ true → F.is_steady files.new ≡ true }
    ensures unfailing { F.is_steady files.old ≡ true → F.failures files.new ≡ F.failures files.old }
    ensures takes_writes { F.takes_writes files.old ≡ true → F.takes_writes files.new ≡ true }
    ensures files { KeepsMap (F.contents files.old) (F.contents files.new) }
{
    let set = read_set_file(alloc, path, files)?;
    let linked = link_set(alloc, reading, &set)?;
    match linked.pool.message_by_name(type_name) {
        Some(message_type) => {
            let names = names_of_set(alloc, &linked.pool, &set)?;
            Ok(NamedType {
                pool: linked.pool,
                message_type,
                names,
            })
        }
        None => Err(Refusal::UnknownType(type_name)),
    }
}

/// The pool of the set at a path and the type of a name in it.
pub fn find_type<'a, F: Files>(
    alloc: Global,
    reading: Reading,
    path: &'a str,
    type_name: &'a str,
    files: &mut F,
) -> Result<(Pool, MessageId), Refusal<'a>>
    ensures found { IfOk result (λ p. (set : List ℕ) × IsReadOf F.contents F.is_steady files.old (full.bytes + 1) path.entry.now (Some set)
        × HasType reading type_name.entry.now set p.0 p.1.0) }
    ensures within { IfOk result (λ p. p.1.0 < length p.0.messages) }
    ensures refused { IfErr result (Refuses (λ a. (content : Option (List ℕ))
        × IsReadOf F.contents F.is_steady files.old (full.bytes + 1) path.entry.now content
        × NoType reading type_name.entry.now path.entry.now content a)) }
    ensures kept { KeepsFailures F.failures files.old files.new result }
    ensures steady { F.is_steady files.old ≡ true → F.is_steady files.new ≡ true }
    ensures unfailing { F.is_steady files.old ≡ true → F.failures files.new ≡ F.failures files.old }
    ensures takes_writes { F.takes_writes files.old ≡ true → F.takes_writes files.new ≡ true }
    ensures files { KeepsMap (F.contents files.old) (F.contents files.new) }
{
    let set = pool_at(alloc, reading, path, files)?;
    match set.pool.message_by_name(type_name) {
        Some(message_type) => Ok((set.pool, message_type)),
        None => Err(Refusal::UnknownType(type_name)),
    }
}

/// The pool of the set at a path.
pub fn pool_at<'a, F: Files>(
    alloc: Global,
    reading: Reading,
    path: &'a str,
    files: &mut F,
) -> Result<LinkedSet, Refusal<'a>>
    ensures made { IfOk result (λ s. (set : List ℕ) × IsReadOf F.contents F.is_steady files.old (full.bytes + 1) path.entry.now (Some set)
        × HasPool reading set s.pool (map omitted_view s.omitted.items)) }
    ensures refused { IfErr result (Refuses (λ a. (content : Option (List ℕ))
        × IsReadOf F.contents F.is_steady files.old (full.bytes + 1) path.entry.now content × NoPool reading path.entry.now content a)) }
    ensures kept { KeepsFailures F.failures files.old files.new result }
    ensures steady { F.is_steady files.old ≡ true → F.is_steady files.new ≡ true }
    ensures unfailing { F.is_steady files.old ≡ true → F.failures files.new ≡ F.failures files.old }
    ensures takes_writes { F.takes_writes files.old ≡ true → F.takes_writes files.new ≡ true }
    ensures files { KeepsMap (F.contents files.old) (F.contents files.new) }
{
    let set = read_set_file(alloc, path, files)?;
    let linked = link_set(alloc, reading, &set)?;
    Ok(linked)
}

/// The bytes of the set at a path, but at most one more than a set may have. Where the first of them have a fault that is that of all
/// longer ones, no more are read.
fn read_set_file<'a, F: Files>(
    alloc: Global,
    path: &'a str,
    files: &mut F,
) -> Result<Vec<u8>, Refusal<'a>>
    ensures read { IfOk result (λ v. IsReadOf F.contents F.is_steady files.old (full.bytes + 1) path.entry.now (Some v.items)) }
    ensures refused { IfErr result (λ e. (reading : Reading) → Refuses (λ a. (content : Option (List ℕ))
        × IsReadOf F.contents F.is_steady files.old (full.bytes + 1) path.entry.now content × NoPool reading path.entry.now content a) e) }
    ensures kept { KeepsFailures F.failures files.old files.new result }
    ensures steady { F.is_steady files.old ≡ true → F.is_steady files.new ≡ true }
    ensures unfailing { F.is_steady files.old ≡ true → F.failures files.new ≡ F.failures files.old }
    ensures takes_writes { F.takes_writes files.old ≡ true → F.takes_writes files.new ≡ true }
    ensures files { KeepsMap (F.contents files.old) (F.contents files.new) }
{
    let mut input = open_file(path, files)?;
    let set = read_set_input(alloc, path, &mut input)?;
    Ok(set)
}

/// The same of an input.
fn read_set_input<'a, I: Input>(
    alloc: Global,
    path: &'a str,
    input: &mut I,
) -> Result<Vec<u8>, Refusal<'a>>
    ensures read { IfOk result (λ v. IsReadFrom I.left I.is_steady input.old (full.bytes + 1) (Some v.items)) }
    ensures refused { IfErr result (λ e. (reading : Reading) → Refuses (λ a. (content : Option (List ℕ))
        × IsReadFrom I.left I.is_steady input.old (full.bytes + 1) content × NoPool reading path.entry.now content a) e) }
    ensures kept { KeepsFailures I.failures input.old input.new result }
    ensures failed { IfErr result (λ e. names_device e ≡ true → I.failures input.new ≢ I.failures input.old) }
{
    let most = Limits::FULL.max_bytes() as usize + 1;
    let first = most.min(FIRST_PIECE);
    let mut bytes = Vec::new(alloc);
    read_on(input, &mut bytes, first, path)?;
    if bytes.len() < first {
        return Ok(bytes);
    }
    judge_first(alloc, bytes.as_slice())?;
    read_on(input, &mut bytes, most, path)?;
    Ok(bytes)
}

/// Judges the first bytes of a set: fails where they have a fault that is that of all longer ones.
fn judge_first<'a>(alloc: Global, bytes: &[u8]) -> Result<(), Refusal<'a>>
    ensures refused { IfErr result (λ e. (reading : Reading) (path more : List ℕ)
        → Refuses (NoPool reading path (Some (bytes.now ++ more))) e) }
    ensures no_device { IfErr result (λ e. names_device e ≡ false) }
{
    match read_set(alloc, bytes) {
        Ok(_) | Err(DescrError::Decl { .. }) => Ok(()),
        Err(DescrError::Memory) => Err(Refusal::Memory),
        Err(DescrError::Fault { byte, path, cause }) => {
            if is_cut(cause) {
                return Ok(());
            }
            Err(Refusal::Set { byte, path, cause })
        }
    }
}

/// The pool of a set.
fn link_set<'a>(alloc: Global, reading: Reading, set: &[u8]) -> Result<LinkedSet, Refusal<'a>>
    ensures made { IfOk result (λ s. HasPool reading set.now s.pool (map omitted_view s.omitted.items)) }
    ensures refused { (path : List ℕ) → IfErr result (Refuses (NoPool reading path (Some set.now))) }
{
    let LenientSet { files, omitted } = read_set_by(alloc, reading, set)?;
    let pool = link(alloc, &files)?;
    Ok(LinkedSet { pool, omitted })
}

/// What a set declares, and what of it is left out.
fn read_set_by(alloc: Global, reading: Reading, set: &[u8]) -> Result<LenientSet, DescrError>
    ensures declared { IfOk result (λ s. IsSetBy reading set.now (map file_view s.files.items) (map omitted_view s.omitted.items)) }
    ensures refused { IfErr result (IsUnreadBy reading set.now) }
{
    match reading {
        Reading::Strict => read_strictly(alloc, set),
        Reading::Lenient => read_leniently(alloc, set),
    }
}

fn read_strictly(alloc: Global, set: &[u8]) -> Result<LenientSet, DescrError>
    ensures declared { IfOk result (λ s. IsSetBy Reading.Strict set.now (map file_view s.files.items) (map omitted_view s.omitted.items)) }
    ensures refused { IfErr result (IsUnreadBy Reading.Strict set.now) }
{
    let files = read_set(alloc, set)?;
    Ok(LenientSet {
        files,
        omitted: Vec::new(alloc),
    })
}

fn read_leniently(alloc: Global, set: &[u8]) -> Result<LenientSet, DescrError>
    ensures declared { IfOk result (λ s. IsSetBy Reading.Lenient set.now (map file_view s.files.items) (map omitted_view s.omitted.items)) }
    ensures refused { IfErr result (IsUnreadBy Reading.Lenient set.now) }
{
    let read = read_set_lenient(alloc, set)?;
    Ok(read)
}
