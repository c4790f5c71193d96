//! The numbers of the groups that are open inside one another.

ghost use Rattle.std.specs.Prelude.{◌≡◌, ◌<◌, ◌∷◌, [], length, drop, slice_get};

use crate::limits::MAX_DEPTH;
use std::marker::Model;

const MAX_OPEN: usize = MAX_DEPTH as usize;

/// The numbers of the groups that are open, at most 100. A contract sees them innermost first.
#[derive(Debug, Drop)]
pub(crate) struct OpenGroups {
    numbers: [u32; MAX_OPEN],
    len: usize,
}

impl Model for OpenGroups {
    ghost use Rattle.std.specs.Prelude.{ℕ, List, take, reverse, ◌≤◌};

    ghost Value = { List ℕ };

    ghost view = { λ g. reverse (take g.len g.numbers) };

    ghost invariant = { λ g. g.len ≤ 100 };
}

impl OpenGroups {
    /// The group of this number alone.
    #[inline]
    pub(crate) fn new(number: u32) -> OpenGroups
        ensures { result ≡ number ∷ [] }
    {
        let mut numbers = [0; MAX_OPEN];
        numbers[0] = number;
        OpenGroups { numbers, len: 1 }
    }

    #[inline]
    pub(crate) fn len(&self) -> usize
        ensures { result ≡ length self.now }
    {
        self.len
    }

    /// The number of the innermost group.
    #[inline]
    pub(crate) fn innermost(&self) -> u32
        requires { 0 < length self.now }
        ensures { slice_get self.now 0 ≡ Some result }
    {
        self.numbers[self.len - 1]
    }

    #[inline]
    pub(crate) fn push(&mut self, number: u32)
        requires { length self.old < 100 }
        ensures { self.new ≡ number ∷ self.old }
    {
        self.numbers[self.len] = number;
        self.len += 1;
    }

    #[inline]
    pub(crate) fn pop(&mut self)
        requires { 0 < length self.old }
        ensures { self.new ≡ drop 1 self.old }
    {
        self.len -= 1;
    }
}
