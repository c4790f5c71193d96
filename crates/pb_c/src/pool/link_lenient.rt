//! A pool of a descriptor set that is read leniently.

ghost use Rattle.std.specs.Prelude.{◌≡◌, ◌≢◌, ◌≤◌, ◌⊎◌};
ghost use Rattle.pb_schema.specs.Types.{Types};
ghost use Rattle.pb_c_handles.specs.Held.{HoldsNames, types_held};
ghost use Rattle.pb_json_names.specs.Names.{AreNamesOf};
ghost use Rattle.pb_c.specs.PoolFault.{PoolFault, TellsFault};
ghost use Rattle.pb_c.specs.SetPool.{LeavesOut, LenientSetFails, LenientSetMakes};

use super::linking::link_files;
use super::refusal::{Refusal, tell_set};
use pb_c_answers::{DONE, FAULT, FaultReport, MEMORY, Step};
use pb_c_handles::pool::{PoolHandle, take};
use pb_descr::read_set_lenient;
use std::alloc::Global;

/// As `mb_pool_link_lenient`, said of what was answered.
fn link_leniently(
    alloc: Global,
    set: &[u8],
    pool: &mut PoolHandle,
    left_out: &mut usize,
    fault: &mut FaultReport,
    path: &mut [Step],
    refusal: &mut Refusal,
    text: &mut [u8],
) -> u32
    ensures made { result ≡ DONE → (ts : Types) × LenientSetMakes set.now ts
        × (types_held pool.new ≡ Some ts) }
    ensures names { result ≡ DONE → HoldsNames (λ ts names. AreNamesOf ts set.now names) pool.new }
    ensures left_out { result ≡ DONE → LeavesOut set.now left_out.new }
    ensures left { result ≢ DONE → types_held pool.new ≡ None }
    ensures uncounted { result ≢ DONE → left_out.new ≡ left_out.old }
    ensures refused { result ≢ DONE → result ≢ MEMORY
        → (w : PoolFault) × LenientSetFails set.now w
        × TellsFault w result fault.old fault.new path.old path.new refusal.old refusal.new text.old
        text.new }
    ensures untold { (result ≡ DONE) ⊎ (result ≡ MEMORY)
        → (fault.new ≡ fault.old) × (path.new ≡ path.old) × (refusal.new ≡ refusal.old)
        × (text.new ≡ text.old) }
{
    let _ = take(alloc, pool);
    match read_set_lenient(alloc, set) {
        Ok(read) => {
            let answer = link_files(alloc, &read.files, Some(set), pool, refusal, text);
            if answer == DONE {
                *left_out = read.omitted.len();
            }
            answer
        }
        Err(error) => tell_set(&error, fault, path, refusal),
    }
}

/// Links the types of a descriptor set into a handle, as `mb_pool_link` does, but of the set without its extensions and ranges of them, its
/// labels of required fields, its default values, and the marks of its maps of closed enums; and reports how many of these parts were left out.
///
/// Answers as `mb_pool_link` does of that set, with the indexes of the files as they are in the whole set. The number of parts is written at
/// DONE alone.
#[unsafe(no_mangle)]
pub extern "C" fn mb_pool_link_lenient(
    alloc: Global,
    set: &[u8],
    pool: &mut PoolHandle,
    left_out: &mut usize,
    fault: &mut FaultReport,
    path: &mut [Step],
    refusal: &mut Refusal,
    text: &mut [u8],
) -> u32
    ensures made { result ≡ DONE → (ts : Types) × LenientSetMakes set.now ts
        × (types_held pool.new ≡ Some ts) }
    ensures names { result ≡ DONE → HoldsNames (λ ts names. AreNamesOf ts set.now names) pool.new }
    ensures left_out { result ≡ DONE → LeavesOut set.now left_out.new }
    ensures left { result ≢ DONE → types_held pool.new ≡ None }
    ensures uncounted { result ≢ DONE → left_out.new ≡ left_out.old }
    ensures refused { result ≢ DONE → result ≢ MEMORY
        → (w : PoolFault) × LenientSetFails set.now w
        × TellsFault w result fault.old fault.new path.old path.new refusal.old refusal.new text.old
        text.new }
    ensures steps { result ≡ FAULT → fault.new.steps ≤ 201 }
    ensures untold { (result ≡ DONE) ⊎ (result ≡ MEMORY)
        → (fault.new ≡ fault.old) × (path.new ≡ path.old) × (refusal.new ≡ refusal.old)
        × (text.new ≡ text.old) }

    // What makes a pool is linked, and the fault of what makes none is reported, unless memory runs out.
    ensures accepted { (ts : Types) → LenientSetMakes set.now ts
        → ((result ≡ DONE) × (types_held pool.new ≡ Some ts)) ⊎ (result ≡ MEMORY) }
    ensures told { (w : PoolFault) → LenientSetFails set.now w
        → TellsFault w result fault.old fault.new path.old path.new refusal.old refusal.new text.old
        text.new ⊎ (result ≡ MEMORY) }
{
    link_leniently(alloc, set, pool, left_out, fault, path, refusal, text)
}
