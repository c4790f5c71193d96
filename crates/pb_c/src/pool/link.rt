//! A pool of a descriptor set.

ghost use Rattle.std.specs.Prelude.{◌≡◌, ◌≢◌, ◌≤◌, ◌⊎◌};
ghost use Rattle.pb_schema.specs.Types.{Types};
ghost use Rattle.pb_c_handles.specs.Held.{HoldsNames, types_held};
ghost use Rattle.pb_json_names.specs.Names.{AreNamesOf};
ghost use Rattle.pb_c.specs.PoolFault.{PoolFault, TellsFault};
ghost use Rattle.pb_c.specs.SetPool.{SetFails, SetMakes};

use super::linking::link_files;
use super::refusal::{Refusal, tell_set};
use pb_c_answers::{DONE, FAULT, FaultReport, MEMORY, Step};
use pb_c_handles::pool::{PoolHandle, take};
use pb_descr::read_set;
use std::alloc::Global;

/// As `mb_pool_link`, said of what was answered.
fn link_set(
    alloc: Global,
    set: &[u8],
    pool: &mut PoolHandle,
    fault: &mut FaultReport,
    path: &mut [Step],
    refusal: &mut Refusal,
    text: &mut [u8],
) -> u32
    ensures made { result ≡ DONE → (ts : Types) × SetMakes set.now ts
        × (types_held pool.new ≡ Some ts) }
    ensures names { result ≡ DONE → HoldsNames (λ ts names. AreNamesOf ts set.now names) pool.new }
    ensures left { result ≢ DONE → types_held pool.new ≡ None }
    ensures refused { result ≢ DONE → result ≢ MEMORY
        → (w : PoolFault) × SetFails set.now w
        × TellsFault w result fault.old fault.new path.old path.new refusal.old refusal.new text.old
        text.new }
    ensures untold { (result ≡ DONE) ⊎ (result ≡ MEMORY)
        → (fault.new ≡ fault.old) × (path.new ≡ path.old) × (refusal.new ≡ refusal.old)
        × (text.new ≡ text.old) }
{
    let _ = take(alloc, pool);
    match read_set(alloc, set) {
        Ok(files) => link_files(alloc, &files, Some(set), pool, refusal, text),
        Err(error) => tell_set(&error, fault, path, refusal),
    }
}

/// Links the types of a descriptor set into a handle, in place of what it held: the bytes are the text of a
/// `google.protobuf.FileDescriptorSet`, of at most 2^31 - 1 bytes. The handle holds the names too that the set gives to fields in JSON (`json_name`).
///
/// Answers DONE; FAULT with the fault, and as many of the at most 201 steps of its path as the buffer holds, where the bytes are no text of a set; the number
/// of a cause, from 52 to 60, with the file's index in the refusal, where a file is not read; the number of a cause, from 71 to 89, with
/// the lengths of the file's name and of the declaration's full name in the refusal and both as text, as much as the buffer holds, where the
/// files do not link; or MEMORY. At any answer but DONE the handle holds nothing. What is not reported is not written.
#[unsafe(no_mangle)]
pub extern "C" fn mb_pool_link(
    alloc: Global,
    set: &[u8],
    pool: &mut PoolHandle,
    fault: &mut FaultReport,
    path: &mut [Step],
    refusal: &mut Refusal,
    text: &mut [u8],
) -> u32
    ensures made { result ≡ DONE → (ts : Types) × SetMakes set.now ts
        × (types_held pool.new ≡ Some ts) }
    ensures names { result ≡ DONE → HoldsNames (λ ts names. AreNamesOf ts set.now names) pool.new }
    ensures left { result ≢ DONE → types_held pool.new ≡ None }
    ensures refused { result ≢ DONE → result ≢ MEMORY
        → (w : PoolFault) × SetFails set.now w
        × TellsFault w result fault.old fault.new path.old path.new refusal.old refusal.new text.old
        text.new }
    ensures steps { result ≡ FAULT → fault.new.steps ≤ 201 }
    ensures untold { (result ≡ DONE) ⊎ (result ≡ MEMORY)
        → (fault.new ≡ fault.old) × (path.new ≡ path.old) × (refusal.new ≡ refusal.old)
        × (text.new ≡ text.old) }

    // What makes a pool is linked, and the fault of what makes none is reported, unless memory runs out.
    ensures accepted { (ts : Types) → SetMakes set.now ts
        → ((result ≡ DONE) × (types_held pool.new ≡ Some ts)) ⊎ (result ≡ MEMORY) }
    ensures told { (w : PoolFault) → SetFails set.now w
        → TellsFault w result fault.old fault.new path.old path.new refusal.old refusal.new text.old
        text.new ⊎ (result ≡ MEMORY) }
{
    link_set(alloc, set, pool, fault, path, refusal, text)
}
