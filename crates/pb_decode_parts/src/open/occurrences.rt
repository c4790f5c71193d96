//! How often each number occurred among the whole records of an open payload.

ghost use Rattle.std.specs.Prelude.{◌≡◌, ℕ, ◌-◌, ◌^◌, ◌<◌, ◌++◌, IfOk, IfErr, OnOk, OnErr, unwrap_or};
ghost use Rattle.pb_decode_parts.specs.Open.Occurrences.{IsRising, IsKept, IsAt, IsGapFor, Sets, found};

use std::alloc::{AllocError, Global};
use std::collections::BTreeMap;
use std::marker::Model;

/// How many whole records of each number occurred in a payload so far. Rising and repeated numbers cost a constant each, any
/// other order a search.
#[derive(Drop)]
pub struct Occurrences {
    /// The number added last, with its count.
    latest: Option<(u32, u32)>,
    /// The counts of numbers that rose.
    run: Vec<(u32, u32)>,
    /// The counts of the other numbers, each below the last of the run.
    others: BTreeMap<u32, u32>,
}

impl Model for Occurrences {
    ghost use Rattle.std.specs.Prelude.{ℕ, List, ◌++◌, option_to_list};
    ghost use Rattle.pb_decode_parts.specs.Open.Occurrences.{IsKept};

    ghost Value = { List (ℕ × ℕ) };

    ghost view = { λ o. option_to_list o.latest ++ (o.run.items ++ o.others.entries) };

    ghost invariant = { λ o. IsKept o.run.items o.others };
}

/// The place of a number among rising ones, or the place where it would go.
fn place_of(run: &[(u32, u32)], number: u32) -> Result<usize, usize>
    requires { IsRising run.now }
    ensures found { IfOk result (IsAt run.now number) }
    ensures absent { IfErr result (IsGapFor run.now number) }
{
    match run.last() {
        Some(last) if last.0 < number => Err(run.len()),
        _ => run.binary_search_by_key(&number, |entry| entry.0),
    }
}

/// The count that is kept of a number.
fn kept_count(run: &[(u32, u32)], others: &BTreeMap<u32, u32>, number: u32) -> u32
    requires { IsKept run.now others.now }
    ensures { result ≡ unwrap_or (found number (run.now ++ others.now.entries)) 0 }
{
    match place_of(run, number) {
        Ok(at) => run[at].1,
        Err(at) if at < run.len() => others.get(&number).copied().unwrap_or(0),
        Err(_) => 0,
    }
}

/// Keeps the count of a number.
fn keep(
    run: &mut Vec<(u32, u32)>,
    others: &mut BTreeMap<u32, u32>,
    number: u32,
    count: u32,
) -> Result<(), AllocError>
    requires { IsKept run.old.items others.old }
    ensures still { IsKept run.new.items others.new }
    ensures kept { OnOk result (Sets number count (run.old.items ++ others.old.entries) (run.new.items ++ others.new.entries)) }
    ensures same { OnErr result ((run.new.items ≡ run.old.items) × (others.new.entries ≡ others.old.entries)) }
{
    match place_of(run, number) {
        Ok(at) => run[at] = (number, count),
        Err(at) if at < run.len() => {
            others.insert(number, count)?;
        }
        Err(_) => run.push((number, count))?,
    }
    Ok(())
}

impl Occurrences {
    ghost use Rattle.pb_decode_parts.specs.Open.Occurrences.{counts_view, one_more_of};

    /// No record yet. This takes no memory.
    pub fn new(alloc: Global) -> Occurrences
        ensures { (k : ℕ) → counts_view result k ≡ 0 }
    {
        Occurrences {
            latest: None,
            run: Vec::new(alloc),
            others: BTreeMap::new(alloc),
        }
    }

    /// How many records of a number there were.
    pub fn count(&self, number: u32) -> u32
        ensures { result ≡ counts_view self.now number }
    {
        match self.latest {
            Some((latest, count)) if latest == number => count,
            _ => kept_count(&self.run, &self.others, number),
        }
    }

    /// One more record of a number.
    #[inline(always)]
    pub(crate) fn add(&mut self, number: u32) -> Result<(), AllocError>
        requires { counts_view self.old number < 2 ^ 32 - 1 }
        ensures added { OnOk result ((k : ℕ) → counts_view self.new k ≡ one_more_of number (counts_view self.old) k) }
        ensures same { OnErr result ((k : ℕ) → counts_view self.new k ≡ counts_view self.old k) }
    {
        match self.latest {
            Some((latest, count)) if latest == number => {
                self.latest = Some((number, count + 1));
                return Ok(());
            }
            Some((latest, count)) => keep(&mut self.run, &mut self.others, latest, count)?,
            None => {}
        }
        let count = kept_count(&self.run, &self.others, number);
        self.latest = Some((number, count + 1));
        Ok(())
    }
}
