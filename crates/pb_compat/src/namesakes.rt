//! Types of the same full name in two pools.

ghost use Rattle.std.specs.Prelude.{◌≡◌, ◌<◌, ◌++◌, length, option_map, IfOk, IfSome, OnOk};
ghost use Rattle.std.specs.List.{AllByRecursion};
ghost use Rattle.pb_compat.specs.Namesakes.{namesake as namesake_of, namesake_at, namesakes as namesakes_of};
ghost use Rattle.pb_schema.specs.Names.{AllDiffer};
ghost use Rattle.pb_compat.specs.Walk.{IsWithin};

use crate::report::message_name;
use pb_schema::{MessageId, Pool};
use std::alloc::{AllocError, Global};

/// The message type of a new pool that has the full name of one of an old pool.
pub fn namesake(old: &Pool, message: MessageId, new: &Pool) -> Option<MessageId>
    ensures named { option_map (λ m. m.0) result ≡ namesake_of old.now new.now message.0 }
    ensures within { IfSome result (λ m. m.0 < length new.now.messages) }
{
    new.message_by_name(message_name(old, message))
}

/// Adds the pair of a type of the old pool and that of the new one which has its name, if there is one.
fn add_namesake(
    pairs: &mut Vec<(usize, usize)>,
    old: &Pool,
    new: &Pool,
    index: usize,
) -> Result<(), AllocError>
    requires { index < length old.now.messages }
    ensures added { OnOk result (pairs.new.items
        ≡ pairs.old.items ++ namesake_at old.now new.now index) }
    ensures within { AllByRecursion (IsWithin old.now new.now) pairs.old.items
        → OnOk result (AllByRecursion (IsWithin old.now new.now) pairs.new.items) }
{
    match namesake(old, MessageId(index), new) {
        Some(message) => {
            pairs.push((index, message.0))?;
            Ok(())
        }
        None => Ok(()),
    }
}

/// Each message type of an old pool whose full name the new pool has too, with the type of the new pool.
pub(crate) fn namesakes(
    alloc: Global,
    old: &Pool,
    new: &Pool,
) -> Result<Vec<(usize, usize)>, AllocError>
    ensures pairs { IfOk result (λ v. v.items ≡ namesakes_of old.now new.now) }
    ensures within { IfOk result (λ v. AllByRecursion (IsWithin old.now new.now) v.items) }
    ensures differ { IfOk result (λ v. AllDiffer v.items) }
{
    let mut pairs = Vec::new(alloc);
    for index in 0..old.messages().len() {
        add_namesake(&mut pairs, old, new, index)?;
    }
    Ok(pairs)
}
