//! A source in memory that fails at planned calls: the test double of an input.
//!
//! The state is the bytes left, a limit on the length of a piece, the plan of failures and a count
//! of faults (`specs/MemSource.antt`). The bytes taken are a prefix of those given, and the limit
//! is at least 1. A planned `take` fails after a given number of bytes; no other call fails, except
//! that memory may run out. Each answer is also within the promises of `Source`.

ghost use Rattle.std.specs.Prelude.{◌≡◌, ◌-◌, ◌^◌, ◌≤◌, true, [], IfOk, OnOk, OnErr};
ghost use Rattle.sis_outside.specs.Calls.{SourceKeeps, bytes_of};
ghost use Rattle.sis_outside.specs.MemSource.{TakesByPlan};
ghost use Rattle.sis_outside.specs.Plan.{with_failure, nothing_planned};

use crate::plan::Plan;
use crate::source::{Source, TakeFault};
use std::alloc::{AllocError, Global};
use std::marker::Model;

/// A source of given bytes, which fails at planned calls.
#[derive(Drop)]
pub struct MemSource {
    bytes: Vec<u8>,
    taken: usize,
    most: usize,
    plan: Plan,
    faults: u64,
}

impl Model for MemSource {
    ghost use Rattle.std.specs.Prelude.{◌≤◌, drop, vec_len};
    ghost use Rattle.sis_outside.specs.MemSource.{SourceState};

    ghost Value = { SourceState };

    ghost view = { λ s. record
        { left = drop s.taken s.bytes.items; most = s.most; schedule = s.plan; faults = s.faults } };

    ghost invariant = { λ s. (s.taken ≤ vec_len s.bytes) × (1 ≤ s.most) };
}

impl MemSource {
    /// A source of these bytes, in pieces as long as is asked for, with no planned failure.
    pub fn new(alloc: Global, bytes: &[u8]) -> Result<Self, AllocError>
        ensures { IfOk result (λ made. made ≡ record
            { left = bytes.now; most = 2 ^ 64 - 1; schedule = nothing_planned; faults = 0 }) }
    {
        Ok(MemSource {
            bytes: bytes.to_vec(alloc)?,
            taken: 0,
            most: usize::MAX,
            plan: Plan::new(alloc),
            faults: 0,
        })
    }

    /// Limits each piece to `most` bytes from now on.
    pub fn limit_pieces(&mut self, most: usize)
        requires { 1 ≤ most }
        ensures { self.new ≡ record self.old { most = most } }
    {
        self.most = most;
    }

    /// Plans that the take of this number, counted from 0, fails after `passes` bytes are gone, or
    /// after as many as are asked for if those are fewer.
    pub fn fail_at(&mut self, call: usize, passes: usize) -> Result<(), AllocError>
        ensures ok { OnOk result (self.new ≡ record self.old
            { schedule = with_failure self.old.schedule call passes }) }
        ensures err { OnErr result (self.new ≡ self.old) }
    {
        self.plan.add(call, passes)
    }

    /// The bytes that are left.
    pub fn left(&self) -> &[u8]
        ensures { result.now ≡ self.now.left }
    {
        &self.bytes[self.taken..]
    }

    /// The number of takes that failed, at most the greatest `u64`.
    pub fn faults(&self) -> u64
        ensures { result ≡ self.now.faults }
    {
        self.faults
    }
}

impl Source for MemSource {
    ghost tells = { λ _. true };

    ghost left = { λ s. s.left };

    ghost faults = { λ s. s.faults };

    ghost calls = { SourceKeeps (λ s. true) (λ s. s.left) (λ s. s.faults) };

    ghost keeps = { λ old call new kept. kept };

    fn take(&mut self, alloc: Global, max: usize) -> Result<Vec<u8>, TakeFault>
        requires { 1 ≤ max }
        ensures calls { SourceKeeps (λ s. true) (λ s. s.left) (λ s. s.faults) self.old (record
            { max = max; answer = bytes_of result }) self.new }
        ensures plan { TakesByPlan self.old max result self.new }
    {
        let rest = self.bytes.len() - self.taken;
        match self.plan.next_call() {
            None => {
                let count = max.min(self.most).min(rest);
                match self.bytes[self.taken..self.taken + count].to_vec(alloc) {
                    Ok(piece) => {
                        self.taken += count;
                        Ok(piece)
                    }
                    Err(_) => Err(TakeFault::Memory),
                }
            }
            Some(passes) => {
                self.taken += max.min(passes).min(rest);
                self.faults = self.faults.saturating_add(1);
                Err(TakeFault::Failed)
            }
        }
    }
}
