//! Why a case has no answer.

use std::alloc::{AllocError, AllocFailed};

/// Why a case has no answer.
#[derive(Debug, Drop)]
pub enum CaseFault {
    /// Its lines do not fit its call.
    Bad,
    /// Memory ran out.
    Memory,
}

impl From<AllocError> for CaseFault {
    fn from(_error: AllocError) -> Self {
        CaseFault::Memory
    }
}

impl<T: Drop> From<AllocFailed<T>> for CaseFault {
    fn from(_error: AllocFailed<T>) -> Self {
        CaseFault::Memory
    }
}
