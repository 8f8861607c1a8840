//! Why the best candidate is not found: a table has too many kernels, or memory ran out.

use circuit_model::Name;
use std::alloc::AllocError;

/// Why candidates are not listed, or their savings are not kept.
#[derive(Debug, PartialEq, Drop)]
pub enum SavingsFault {
    /// The table of this name has more than `MAX_KERNELS` kernels.
    ManyKernels(Name),
    /// There is not enough memory.
    Memory,
}

impl From<AllocError> for SavingsFault {
    ghost use Rattle.std.specs.Prelude.{◌≡◌};
    ghost use Rattle.net_savings.specs.declared.fault.SavingsFault.TheVariants.{Memory};

    ghost from_gives = { λ _ fault. fault ≡ Memory };

    fn from(_error: AllocError) -> SavingsFault {
        SavingsFault::Memory
    }
}
