//! Devices over bytes in memory. They move at most a given number of bytes a call, and can fail at a given call.

ghost use Rattle.std.specs.Prelude.{◌≡◌, ◌≢◌, ◌<◌, ◌≤◌, ◌++◌, ◌↔◌, [], length, take, drop, min};
ghost use Rattle.std.specs.Prelude.{Some, None, true, false, is_none, IsOk, IsErr, IfOk, OnOk, OnErr};
ghost use Rattle.std.specs.Io.KnownBytes.{ReadConsumes, WriteAppends};
ghost use Rattle.pb_wire.specs.Plan.{after_call};

use crate::device::{DeviceFault, Input, Output};
use std::alloc::Global;

/// When a device in memory fails: never, or once, at the call that comes after this many others.
#[derive(Clone, Copy, Debug, PartialEq, Eq)]
pub struct FailurePlan {
    pub fails_after: Option<u64>,
}

impl FailurePlan {
    pub const NEVER: FailurePlan = FailurePlan { fails_after: None };

    /// Counts one call, and says whether it fails.
    pub fn count_call(&mut self) -> bool
        ensures fails { result ≡ true ↔ self.old.fails_after ≡ Some 0 }
        ensures never { self.old.fails_after ≡ None → (result ≡ false) × (self.new.fails_after ≡ None) }
        ensures counted { self.new.fails_after ≡ after_call self.old.fails_after }
    {
        match self.fails_after {
            None => false,
            Some(0) => {
                self.fails_after = None;
                true
            }
            Some(others) => {
                self.fails_after = Some(others - 1);
                false
            }
        }
    }
}

/// An input that gives the bytes of a slice.
#[derive(Drop)]
pub struct MemInput<'a> {
    left: &'a [u8],
    most: usize,
    plan: FailurePlan,
    failures: u64,
    ghost moves: { 0 < most },
}

impl<'a> MemInput<'a> {
    /// Gives at most `most` bytes a call, and fails by the plan.
    pub fn new(bytes: &'a [u8], most: usize, plan: FailurePlan) -> MemInput<'a>
        requires { 0 < most }
        ensures left { ⟦<MemInput<'static> as Input>⟧.left result ≡ Some bytes.entry.now }
        ensures steady { ⟦<MemInput<'static> as Input>⟧.is_steady result ≡ is_none plan.fails_after }
        ensures most { result.most ≡ most }
        ensures plan { result.plan ≡ plan }
    {
        MemInput {
            left: bytes,
            most,
            plan,
            failures: 0,
        }
    }
}

impl Input for MemInput<'_> {
    ghost left = { λ s. Some s.left.now };

    ghost failures = { λ s. s.failures };

    ghost is_steady = { λ s. is_none s.plan.fails_after };

    /// Gives the next bytes: as many as `most`, the buffer's space and the bytes that are left allow, or none at the call that fails
    /// by the plan.
    fn read(&mut self, into: &mut [u8]) -> Result<usize, DeviceFault>
        ensures count { IfOk result (λ n. n ≤ length into.new) }
        ensures bytes { ReadConsumes (Some self.old.left.now) (Some self.new.left.now) result into.new }
        ensures kept { OnOk result (self.new.failures ≡ self.old.failures) }
        ensures failed { OnErr result (self.new.failures ≢ self.old.failures) }
        ensures succeeds { is_none self.old.plan.fails_after ≡ true → IsOk result }
        ensures steady { is_none self.old.plan.fails_after ≡ true → is_none self.new.plan.fails_after ≡ true }
        ensures given { IfOk result (λ n. n ≡ min (min self.old.most (length into.old)) (length self.old.left.now)) }
        ensures front { IfOk result (λ n. into.new ≡ take n self.old.left.now ++ drop n into.old) }
        ensures rest { IfOk result (λ n. self.new.left.now ≡ drop n self.old.left.now) }
        ensures nothing { OnErr result ((self.new.left.now ≡ self.old.left.now) × (into.new ≡ into.old)) }
        ensures planned { IsErr result ↔ self.old.plan.fails_after ≡ Some 0 }
        ensures plan { self.new.plan.fails_after ≡ after_call self.old.plan.fails_after }
        ensures most { self.new.most ≡ self.old.most }
    {
        if self.plan.count_call() {
            self.failures = self.failures.wrapping_add(1);
            return Err(DeviceFault);
        }
        let count = self.most.min(into.len()).min(self.left.len());
        let (front, rest) = self.left.split_at(count);
        into[..count].copy_from_slice(front);
        self.left = rest;
        Ok(count)
    }
}

/// An output that keeps what is written.
#[derive(Drop)]
pub struct MemOutput {
    bytes: Vec<u8>,
    most: usize,
    plan: FailurePlan,
    failures: u64,
    ghost moves: { 0 < most },
}

impl MemOutput {
    /// Takes at most `most` bytes a call, and fails by the plan and where memory runs out.
    pub fn new(alloc: Global, most: usize, plan: FailurePlan) -> MemOutput
        requires { 0 < most }
        ensures written { ⟦<MemOutput as Output>⟧.written result ≡ Some [] }
        ensures most { result.most ≡ most }
        ensures plan { result.plan ≡ plan }
    {
        MemOutput {
            bytes: Vec::new(alloc),
            most,
            plan,
            failures: 0,
        }
    }

    /// What was written.
    pub fn bytes(&self) -> &[u8]
        ensures { ⟦<MemOutput as Output>⟧.written self.now ≡ Some result.now }
    {
        self.bytes.as_slice()
    }
}

impl Output for MemOutput {
    ghost written = { λ s. Some s.bytes.items };

    ghost failures = { λ s. s.failures };

    /// Takes the first bytes, as many as `most` allows, or none at the call that fails by the plan or where memory runs
    /// out.
    fn write(&mut self, bytes: &[u8]) -> Result<usize, DeviceFault>
        ensures count { IfOk result (λ n. n ≤ length bytes.now) }
        ensures some { IfOk result (λ n. 0 < length bytes.now → 0 < n) }
        ensures bytes { WriteAppends (Some self.old.bytes.items) (Some self.new.bytes.items) result bytes.now }
        ensures kept { OnOk result (self.new.failures ≡ self.old.failures) }
        ensures failed { OnErr result (self.new.failures ≢ self.old.failures) }
        ensures taken { IfOk result (λ n. n ≡ min self.old.most (length bytes.now)) }
        ensures planned { self.old.plan.fails_after ≡ Some 0 → IsErr result }
        ensures plan { self.new.plan.fails_after ≡ after_call self.old.plan.fails_after }
        ensures most { self.new.most ≡ self.old.most }
    {
        let count = self.most.min(bytes.len());
        if self.plan.count_call() || self.bytes.extend_from_slice(&bytes[..count]).is_err() {
            self.failures = self.failures.wrapping_add(1);
            return Err(DeviceFault);
        }
        Ok(count)
    }
}
