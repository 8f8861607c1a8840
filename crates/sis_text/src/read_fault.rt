//! How a reader fails: its text has a fault, or memory ran out.

use std::alloc::{AllocError, AllocFailed};

/// Why a reading ends without what it should read. `F` has the faults of the reader's texts.
#[derive(Debug, Drop)]
pub enum ReadFault<F> {
    /// The text has a fault.
    Fault(F),
    /// Memory ran out.
    Memory,
}

impl<F> From<AllocError> for ReadFault<F> {
    ghost use Rattle.std.specs.Prelude.{◌≡◌};
    ghost use Rattle.sis_text.specs.declared.read_fault.ReadFault.TheVariants.{Memory};

    ghost from_gives = { λ _ fault. fault ≡ Memory };

    fn from(_error: AllocError) -> Self {
        ReadFault::Memory
    }
}

impl<T: Drop, F> From<AllocFailed<T>> for ReadFault<F> {
    ghost use Rattle.std.specs.Prelude.{◌≡◌};
    ghost use Rattle.sis_text.specs.declared.read_fault.ReadFault.TheVariants.{Memory};

    ghost from_gives = { λ _ fault. fault ≡ Memory };

    fn from(_error: AllocFailed<T>) -> Self {
        ReadFault::Memory
    }
}
