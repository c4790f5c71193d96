//! Files linked into a handle.

ghost use Rattle.std.specs.Prelude.{◌≡◌, ◌≢◌, ◌⊎◌, List, ℕ, map, IfOk};
ghost use Rattle.pb_declarations.specs.View.{file_view};
ghost use Rattle.pb_link.specs.Linking.{Links};
ghost use Rattle.pb_link_rules.specs.Faults.{LinkFault};
ghost use Rattle.pb_link_rules.specs.declared.cause.LinkCause.{LinkCause as CauseValue};
ghost use Rattle.pb_schema.specs.Types.{Types};
ghost use Rattle.pb_c_handles.specs.Held.{HoldsNames, types_held};
ghost use Rattle.pb_c.specs.PoolNames.{AreNamesBy};
ghost use Rattle.pb_c.specs.PoolFault.{PoolFault, TellsRefusal};

use super::refusal::{Refusal, tell_link};
use pb_c_answers::{DONE, MEMORY};
use pb_c_handles::pool::shared::Shared;
use pb_c_handles::pool::{PoolHandle, put};
use pb_declarations::FileDecl;
use pb_json::JsonNames;
use pb_json_names::names_of_set;
use pb_link::link;
use pb_schema::Pool;
use std::alloc::{AllocError, Global};
use std::sync::Arc;

/// The names that a set gives to the fields of a pool in JSON; none where there is no set.
fn names_by(alloc: Global, pool: &Pool, set: Option<&[u8]>) -> Result<JsonNames, AllocError>
    ensures { IfOk result (λ names. AreNamesBy set.entry pool.now names) }
{
    match set {
        Some(set) => Ok(names_of_set(alloc, pool, set)?),
        None => Ok(JsonNames::none(alloc)),
    }
}

/// A box of a pool and of names that nothing shares yet.
fn boxed(alloc: Global, pool: Pool, names: JsonNames) -> Result<Box<Shared, Global>, AllocError>
    ensures same { IfOk result (λ b. b.value.pool.value ≡ pool) }
    ensures names { IfOk result (λ b. b.value.names.value ≡ names) }
{
    let pool = Arc::new(alloc, pool)?;
    let names = Arc::new(alloc, names)?;
    Ok(Box::new(alloc, Shared { pool, names })?)
}

/// Puts a pool and the names that a set gives to its fields into a handle that holds nothing.
fn hold(alloc: Global, made: Pool, set: Option<&[u8]>, pool: &mut PoolHandle) -> u32
    requires { pool.old.seal.pool ≡ None }
    ensures held { result ≡ DONE → types_held pool.new ≡ Some made }
    ensures names { result ≡ DONE → HoldsNames (AreNamesBy set.entry) pool.new }
    ensures left { result ≢ DONE → types_held pool.new ≡ None }
    ensures answers { (result ≡ DONE) ⊎ (result ≡ MEMORY) }
{
    let Ok(names) = names_by(alloc, &made, set) else {
        return MEMORY;
    };
    let Ok(shared) = boxed(alloc, made, names) else {
        return MEMORY;
    };
    put(pool, shared);
    DONE
}

/// Puts the pool that files make, and the names that a set gives to its fields, into a handle that holds nothing, or reports why they do not link.
pub(super) fn link_files(
    alloc: Global,
    files: &[FileDecl],
    set: Option<&[u8]>,
    pool: &mut PoolHandle,
    refusal: &mut Refusal,
    text: &mut [u8],
) -> u32
    requires { pool.old.seal.pool ≡ None }
    ensures made { result ≡ DONE → (ts : Types) × Links (map file_view files.now) ts
        × (types_held pool.new ≡ Some ts) }
    ensures names { result ≡ DONE → HoldsNames (AreNamesBy set.entry) pool.new }
    ensures left { result ≢ DONE → types_held pool.new ≡ None }
    ensures refused { result ≢ DONE → result ≢ MEMORY
        → (file name : List ℕ) × (c : CauseValue) × LinkFault (map file_view files.now) file name c
        × TellsRefusal (PoolFault.in_link file name c) result refusal.old refusal.new text.old
        text.new }
    ensures untold { (result ≡ DONE) ⊎ (result ≡ MEMORY)
        → (refusal.new ≡ refusal.old) × (text.new ≡ text.old) }
{
    match link(alloc, files) {
        Ok(made) => hold(alloc, made, set, pool),
        Err(error) => tell_link(&error, refusal, text),
    }
}
