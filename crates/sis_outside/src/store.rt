//! The trait of a store of files by name, which loads and saves whole files. Each call promises the
//! relation `calls`; `keeps` says what follows from it for every store.

ghost use Rattle.std.specs.Prelude.{ℕ, ◌-◌, ◌^◌, ◌<◌, Bool};
ghost use Rattle.sis_outside.specs.Calls.{StoreCall, Load, Save, StoreKeeps, bytes_of};
ghost use Rattle.sis_outside.specs.Files.{Files};

use std::alloc::Global;
use thiserror::Error;

/// Why a load returned no file.
#[derive(Clone, Copy, Debug, PartialEq, Eq, Error)]
pub enum LoadFault {
    /// There is no file of this name.
    #[error("no such file")]
    Missing,
    /// The file has more bytes than were asked for; the number is one more than those.
    #[error("the file has {0} bytes or more")]
    TooLong(usize),
    /// The outside failed, and counted it.
    #[error("the load failed")]
    Failed,
    /// Memory ran out.
    #[error("out of memory")]
    Memory,
}

/// Why a save did not set its file.
#[derive(Clone, Copy, Debug, PartialEq, Eq, Error)]
pub enum SaveFault {
    /// The outside failed, and counted it.
    #[error("the save failed")]
    Failed,
    /// Memory ran out; nothing has changed.
    #[error("out of memory")]
    Memory,
}

/// Files by name.
///
/// Contracts see whether the store shows its files (`tells`), the files themselves if it does, how
/// often it failed and how often a name was missed. `calls` relates the store before a call, the
/// call with its answer, and the store after it; each method promises that relation alone. `keeps`
/// says what follows from it for every store: no call changes whether it shows its files, no count
/// falls, and each answer has its cause and is within its bound.
pub trait Store {
    ghost tells: { Self → Bool };

    ghost files: { Self → Files };

    ghost faults: { Self → ℕ };

    ghost misses: { Self → ℕ };

    ghost calls: { Self → StoreCall → Self → Type 0 };

    /// The bytes of the file `name`, of which there are at most `max`; the files stay as they are.
    ///
    /// `Missing` is answered only if there is no such file and the misses rose, `TooLong` with `max
    /// + 1` only if the file has more bytes, and `Failed` only if the faults rose.
    fn load(&mut self, alloc: Global, name: &str, max: usize) -> Result<Vec<u8>, LoadFault>
        requires { max < 2 ^ 64 - 1 }
        ensures calls { calls self.old (Load name.now max (bytes_of result)) self.new };

    /// Sets the file of a name to these bytes, also in place of an old one; all other files stay.
    ///
    /// After `Failed`, which is answered only if the faults rose, the file is as before or has a
    /// prefix of the bytes. `Memory` changes nothing.
    fn save(&mut self, name: &str, bytes: &[u8]) -> Result<(), SaveFault>
        ensures calls { calls self.old (Save name.now bytes.now result) self.new };

    ghost keeps: { (old : Self) (call : StoreCall) (new : Self) → calls old call new
        → StoreKeeps tells files faults misses old call new };
}
