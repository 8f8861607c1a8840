//! A sink in memory that never fails: its count of faults is always 0. Only memory may run out, and
//! then nothing is written.

ghost use Rattle.std.specs.Prelude.{◌≡◌, [], true};
ghost use Rattle.sis_outside.specs.Calls.{SinkKeeps};

use crate::sink::{PutFault, Sink};
use std::alloc::Global;
use std::marker::Model;

/// A sink that keeps what is written, and never fails unless memory runs out. Contracts see it as
/// the bytes written.
#[derive(Drop)]
pub struct SureSink {
    written: Vec<u8>,
}

impl Model for SureSink {
    ghost use Rattle.std.specs.Prelude.{ℕ, List};

    ghost Value = { List ℕ };

    ghost view = { λ s. s.written.items };
}

impl SureSink {
    /// A sink into which nothing was written; takes no memory.
    pub fn new(alloc: Global) -> Self
        ensures { result ≡ [] }
    {
        SureSink {
            written: Vec::new(alloc),
        }
    }

    /// All bytes that were written.
    pub fn written(&self) -> &[u8]
        ensures { result.now ≡ self.now }
    {
        self.written.as_slice()
    }
}

impl Sink for SureSink {
    ghost tells = { λ _. true };

    ghost written = { λ s. s };

    ghost faults = { λ _. 0 };

    ghost calls = { SinkKeeps (λ _. true) (λ s. s) (λ _. 0) };

    ghost keeps = { λ old call new kept. kept };

    fn put(&mut self, piece: &[u8]) -> Result<(), PutFault> {
        match self.written.extend_from_slice(piece) {
            Ok(()) => Ok(()),
            Err(_) => Err(PutFault::Memory),
        }
    }
}
