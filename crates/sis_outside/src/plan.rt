//! The plan of the calls of an in-memory object that are to fail. Calls are numbered from 0 in the
//! order in which they are made; the first entry for a call counts (`specs/Plan.antt`).

ghost use Rattle.std.specs.Prelude.{◌≡◌, [], OnOk, OnErr};
ghost use Rattle.sis_outside.specs.Plan.{next_failure, after_call, with_failure, nothing_planned, passes_at};

use std::alloc::{AllocError, Global};
use std::marker::Model;

/// A planned failure: the number of the call, and how many bytes pass before it fails.
#[derive(Clone, Copy, Debug)]
pub struct Failure {
    pub call: usize,
    pub passes: usize,
}

/// Which calls are planned to fail, and how many were made.
#[derive(Drop)]
pub struct Plan {
    failures: Vec<Failure>,
    calls: usize,
}

impl Model for Plan {
    ghost use Rattle.sis_outside.specs.Plan.{Schedule};

    ghost Value = { Schedule };

    ghost view = { λ p. record { failures = p.failures.items; calls = p.calls } };
}

impl Plan {
    /// A plan without failures, and before any call.
    pub fn new(alloc: Global) -> Self
        ensures { result ≡ nothing_planned }
    {
        Plan {
            failures: Vec::new(alloc),
            calls: 0,
        }
    }

    /// Plans that the call of this number fails after `passes` bytes.
    pub fn add(&mut self, call: usize, passes: usize) -> Result<(), AllocError>
        ensures ok { OnOk result (self.new ≡ with_failure self.old call passes) }
        ensures err { OnErr result (self.new ≡ self.old) }
    {
        self.failures.push(Failure { call, passes })?;
        Ok(())
    }

    /// Counts a call, and returns how many bytes pass before it fails, if it is planned to fail.
    pub fn next_call(&mut self) -> Option<usize>
        ensures failure { result ≡ next_failure self.old }
        ensures counted { self.new ≡ after_call self.old }
    {
        let found = passes_of(self.failures.as_slice(), self.calls);
        self.calls = self.calls.saturating_add(1);
        found
    }
}

/// How many bytes pass before the call fails, by the first entry for it.
fn passes_of(failures: &[Failure], call: usize) -> Option<usize>
    ensures { result ≡ passes_at failures.now call }
{
    failures
        .iter()
        .find(|failure| failure.call == call)
        .map(|failure| failure.passes)
}
