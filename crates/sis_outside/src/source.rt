//! The trait of a source of bytes, taken piece by piece. Each call promises the relation `calls`;
//! `keeps` says what follows from it for every source.

ghost use Rattle.std.specs.Prelude.{ℕ, ◌≤◌, Bool, List};
ghost use Rattle.sis_outside.specs.Calls.{TakeCall, SourceKeeps, bytes_of};

use std::alloc::Global;
use thiserror::Error;

/// Why a take returned no piece.
#[derive(Clone, Copy, Debug, PartialEq, Eq, Error)]
pub enum TakeFault {
    /// The outside failed, and counted it.
    #[error("the input failed")]
    Failed,
    /// Memory ran out; nothing was taken.
    #[error("out of memory")]
    Memory,
}

/// Bytes that are taken from the front.
///
/// Contracts see whether the source shows its bytes (`tells`), the bytes left if it does, and how
/// often it failed. `calls` and `keeps` are as in `Store`.
pub trait Source {
    ghost tells: { Self → Bool };

    ghost left: { Self → List ℕ };

    ghost faults: { Self → ℕ };

    ghost calls: { Self → TakeCall → Self → Type 0 };

    /// The next bytes, at least one and at most `max`, or none exactly at the end.
    ///
    /// After `Failed`, which is answered only if the faults rose, at most `max` bytes are gone.
    /// `Memory` takes nothing.
    fn take(&mut self, alloc: Global, max: usize) -> Result<Vec<u8>, TakeFault>
        requires { 1 ≤ max }
        ensures calls { calls self.old (record { max = max; answer = bytes_of result }) self.new };

    ghost keeps: { (old : Self) (call : TakeCall) (new : Self) → calls old call new
        → SourceKeeps tells left faults old call new };
}
