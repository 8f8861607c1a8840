//! Why candidates are not listed: too many kernels, or memory ran out.

use alg_kernel::KernelFault;
use std::alloc::AllocError;

/// Why the candidates of a table are not listed.
#[derive(Clone, Copy, Debug, PartialEq, Eq, Drop)]
pub enum ListFault {
    /// The table has more than `MAX_KERNELS` kernels.
    ManyKernels,
    /// There is not enough memory.
    Memory,
}

impl From<AllocError> for ListFault {
    ghost use Rattle.std.specs.Prelude.{◌≡◌};
    ghost use Rattle.net_candidates.specs.declared.fault.ListFault.TheVariants.{Memory};

    ghost from_gives = { λ _ fault. fault ≡ Memory };

    fn from(_error: AllocError) -> ListFault {
        ListFault::Memory
    }
}

impl From<KernelFault> for ListFault {
    ghost use Rattle.std.specs.Prelude.{◌≡◌};
    ghost use Rattle.net_candidates.specs.Faults.{fault_of};

    ghost from_gives = { λ kernels fault. fault ≡ fault_of kernels };

    fn from(kernels: KernelFault) -> ListFault {
        match kernels {
            KernelFault::KernelLimit => ListFault::ManyKernels,
            KernelFault::Memory => ListFault::Memory,
        }
    }
}
