//! Sets of names: each name once, in the order in which each came first.

use pb_names::name_hash::name_hash;
use pb_names::name_set::NameSet;
use std::alloc::{AllocError, Global};
use std::test::Fail;

/// Names of one hash, by a lattice of the multiples of the hash's multiplier; the empty name, and one that begins as another.
const NAMES: &[&[u8]] = &[
    b"mmmmmmmmmmmmmmmmmmmm",
    b"",
    b"mnnnqolnhmljirrhmklo",
    b"m",
    b"omrhqokkmpmmjmnipiiq",
];

/// The names that a set is made of, twice in a row.
fn set_of(alloc: Global) -> Result<NameSet, AllocError> {
    let mut set = NameSet::new(alloc);
    for name in NAMES {
        set.add_copy(alloc, *name)?;
    }
    for name in NAMES {
        set.add(name.to_vec(alloc)?)?;
    }
    Ok(set)
}

/// The first name that is not at its index.
fn first_lost(set: &NameSet) -> Option<usize> {
    for index in 0..NAMES.len() {
        if set.index_of(NAMES[index]) != Some(index) || !set.contains(NAMES[index]) {
            return Some(index);
        }
        if set.get(index) != Some(NAMES[index]) {
            return Some(index);
        }
    }
    None
}

/// What the set answers of a name that is added, of one that was, and of one hash with both.
fn added(alloc: Global) -> Result<[(usize, bool); 3], AllocError> {
    let mut set = set_of(alloc)?;
    let known = set.add_full(NAMES[4].to_vec(alloc)?)?;
    let new = set.add_full(b"n".to_vec(alloc)?)?;
    let again = set.add_full(b"n".to_vec(alloc)?)?;
    Ok([known, new, again])
}

#[test]
fn names_have_one_hash(rt: HostRuntime) {
    let hash = name_hash(NAMES[0]);
    assert!(rt; name_hash(NAMES[2]) == hash && name_hash(NAMES[4]) == hash);
}

/// The hash of two bytes, by hand: the first times the multiplier, and the second.
#[test]
fn hash_of_two_bytes(rt: HostRuntime) {
    assert!(rt; name_hash(b"") == 0 && name_hash(b"a") == 97);
    assert!(rt; name_hash(&[1, 2]) == 6364136223846793007);
}

#[test]
fn each_name_is_found(rt: HostRuntime) -> Result<(), Fail> {
    let set = set_of(rt.alloc())?;
    let lost = first_lost(&set);
    assert!(rt; lost == None, "{lost:?}");
    assert!(rt; set.index_of(b"mm") == None && !set.contains(b"n") && set.get(NAMES.len()) == None);
    Ok(())
}

#[test]
fn a_name_is_added_once(rt: HostRuntime) -> Result<(), Fail> {
    let answers = added(rt.alloc())?;
    assert!(rt;
        answers == [(4, false), (5, true), (5, false)],
        "{answers:?}"
    );
    Ok(())
}
