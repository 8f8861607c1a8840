//! Why nothing is extracted: too many kernels, no room for a table, or memory ran out.

use circuit_model::Name;
use net_savings::SavingsFault;
use std::alloc::AllocError;

/// Why a network is not extracted.
#[derive(Debug, PartialEq, Drop)]
pub enum ExtractFault {
    /// The table of this name has more than `MAX_KERNELS` kernels.
    KernelLimit(Name),
    /// There would be more tables and latches than are allowed.
    NodeLimit,
    /// There is not enough memory.
    Memory,
}

impl From<AllocError> for ExtractFault {
    ghost use Rattle.std.specs.Prelude.{◌≡◌};
    ghost use Rattle.net_extract.specs.declared.fault.ExtractFault.TheVariants.{Memory};

    ghost from_gives = { λ _ fault. fault ≡ Memory };

    fn from(_error: AllocError) -> ExtractFault {
        ExtractFault::Memory
    }
}

impl From<SavingsFault> for ExtractFault {
    ghost use Rattle.std.specs.Prelude.{◌≡◌};
    ghost use Rattle.net_extract.specs.Going.{fault_of};

    ghost from_gives = { λ savings fault. fault ≡ fault_of savings };

    fn from(savings: SavingsFault) -> ExtractFault {
        match savings {
            SavingsFault::ManyKernels(name) => ExtractFault::KernelLimit(name),
            SavingsFault::Memory => ExtractFault::Memory,
        }
    }
}
