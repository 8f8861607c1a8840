//! The trait of a sink of bytes, written piece by piece. Each call promises the relation `calls`;
//! `keeps` says what follows from it for every sink.

ghost use Rattle.std.specs.Prelude.{ℕ, Bool, List};
ghost use Rattle.sis_outside.specs.Calls.{PutCall, SinkKeeps};

use thiserror::Error;

/// Why a put did not write its piece.
#[derive(Clone, Copy, Debug, PartialEq, Eq, Error)]
pub enum PutFault {
    /// The outside failed, and counted it.
    #[error("the output failed")]
    Failed,
    /// Memory ran out; nothing was written.
    #[error("out of memory")]
    Memory,
}

/// Bytes that are written one piece after the other.
///
/// Contracts see whether the sink shows its bytes (`tells`), the bytes written if it does, and how
/// often it failed. `calls` and `keeps` are as in `Store`.
pub trait Sink {
    ghost tells: { Self → Bool };

    ghost written: { Self → List ℕ };

    ghost faults: { Self → ℕ };

    ghost calls: { Self → PutCall → Self → Type 0 };

    /// Writes the whole piece after what was written before.
    ///
    /// After `Failed`, which is answered only if the faults rose, a prefix of the piece is written.
    /// `Memory` writes nothing.
    fn put(&mut self, piece: &[u8]) -> Result<(), PutFault>
        ensures calls { calls self.old (record { piece = piece.now; answer = result }) self.new };

    ghost keeps: { (old : Self) (call : PutCall) (new : Self) → calls old call new
        → SinkKeeps tells written faults old call new };
}
