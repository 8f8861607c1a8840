//! A sink in memory that fails at planned calls: the test double of an output.
//!
//! The state is all bytes written, the plan of failures and a count of faults
//! (`specs/MemSink.antt`). A planned `put` fails after a given number of bytes of its piece; no
//! other call fails, except that memory may run out. Each answer is also within the promises of
//! `Sink`.

ghost use Rattle.std.specs.Prelude.{◌≡◌, [], true, OnOk, OnErr};
ghost use Rattle.sis_outside.specs.Calls.{SinkKeeps};
ghost use Rattle.sis_outside.specs.MemSink.{PutsByPlan};
ghost use Rattle.sis_outside.specs.Plan.{with_failure, nothing_planned};

use crate::plan::Plan;
use crate::sink::{PutFault, Sink};
use std::alloc::{AllocError, Global};
use std::marker::Model;

/// A sink that keeps what is written, and fails at planned calls.
#[derive(Drop)]
pub struct MemSink {
    written: Vec<u8>,
    plan: Plan,
    faults: u64,
}

impl Model for MemSink {
    ghost use Rattle.sis_outside.specs.MemSink.{SinkState};

    ghost Value = { SinkState };

    ghost view = { λ s. record
        { written = s.written.items; schedule = s.plan; faults = s.faults } };
}

impl MemSink {
    /// A sink into which nothing was written, with no planned failure; takes no memory.
    pub fn new(alloc: Global) -> Self
        ensures { result ≡ record { written = []; schedule = nothing_planned; faults = 0 } }
    {
        MemSink {
            written: Vec::new(alloc),
            plan: Plan::new(alloc),
            faults: 0,
        }
    }

    /// Plans that the put of this number, counted from 0, fails after `passes` bytes of its piece.
    pub fn fail_at(&mut self, call: usize, passes: usize) -> Result<(), AllocError>
        ensures ok { OnOk result (self.new ≡ record self.old
            { schedule = with_failure self.old.schedule call passes }) }
        ensures err { OnErr result (self.new ≡ self.old) }
    {
        self.plan.add(call, passes)
    }

    /// All bytes that were written.
    pub fn written(&self) -> &[u8]
        ensures { result.now ≡ self.now.written }
    {
        self.written.as_slice()
    }

    /// The number of puts that failed, at most the greatest `u64`.
    pub fn faults(&self) -> u64
        ensures { result ≡ self.now.faults }
    {
        self.faults
    }
}

impl Sink for MemSink {
    ghost tells = { λ _. true };

    ghost written = { λ s. s.written };

    ghost faults = { λ s. s.faults };

    ghost calls = { SinkKeeps (λ s. true) (λ s. s.written) (λ s. s.faults) };

    ghost keeps = { λ old call new kept. kept };

    fn put(&mut self, piece: &[u8]) -> Result<(), PutFault>
        ensures calls { SinkKeeps (λ s. true) (λ s. s.written) (λ s. s.faults) self.old (record
            { piece = piece.now; answer = result }) self.new }
        ensures plan { PutsByPlan self.old piece.now result self.new }
    {
        match self.plan.next_call() {
            None => {
                if self.written.extend_from_slice(piece).is_err() {
                    return Err(PutFault::Memory);
                }
                Ok(())
            }
            Some(passes) => {
                if self
                    .written
                    .extend_from_slice(&piece[..passes.min(piece.len())])
                    .is_err()
                {
                    return Err(PutFault::Memory);
                }
                self.faults = self.faults.saturating_add(1);
                Err(PutFault::Failed)
            }
        }
    }
}
