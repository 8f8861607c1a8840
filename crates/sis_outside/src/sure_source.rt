//! A source in memory that never fails: its count of faults is always 0. Only memory may run out,
//! and then nothing is taken.

ghost use Rattle.std.specs.Prelude.{◌≡◌, ◌≤◌, true, IfOk};
ghost use Rattle.sis_outside.specs.Calls.{SourceKeeps, bytes_of};

use crate::source::{Source, TakeFault};
use std::alloc::{AllocError, Global};
use std::marker::Model;

/// A source of given bytes, which never fails unless memory runs out. Contracts see it as the bytes
/// that are left.
#[derive(Drop)]
pub struct SureSource {
    bytes: Vec<u8>,
    taken: usize,
}

impl Model for SureSource {
    ghost use Rattle.std.specs.Prelude.{◌≤◌, ℕ, List, drop, vec_len};

    ghost Value = { List ℕ };

    ghost view = { λ s. drop s.taken s.bytes.items };

    ghost invariant = { λ s. s.taken ≤ vec_len s.bytes };
}

impl SureSource {
    /// A source of these bytes, in pieces as long as is asked for.
    pub fn new(alloc: Global, bytes: &[u8]) -> Result<Self, AllocError>
        ensures { IfOk result (λ made. made ≡ bytes.now) }
    {
        Ok(SureSource {
            bytes: bytes.to_vec(alloc)?,
            taken: 0,
        })
    }

    /// The bytes that are left.
    pub fn left(&self) -> &[u8]
        ensures { result.now ≡ self.now }
    {
        &self.bytes[self.taken..]
    }
}

impl Source for SureSource {
    ghost tells = { λ _. true };

    ghost left = { λ s. s };

    ghost faults = { λ _. 0 };

    ghost calls = { SourceKeeps (λ _. true) (λ s. s) (λ _. 0) };

    ghost keeps = { λ old call new kept. kept };

    fn take(&mut self, alloc: Global, max: usize) -> Result<Vec<u8>, TakeFault> {
        let count = max.min(self.bytes.len() - self.taken);
        match self.bytes[self.taken..self.taken + count].to_vec(alloc) {
            Ok(piece) => {
                self.taken += count;
                Ok(piece)
            }
            Err(_) => Err(TakeFault::Memory),
        }
    }
}
