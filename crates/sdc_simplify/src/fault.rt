//! Why a network is not simplified: a list of rows is too long, or memory ran out.

use circuit_model::Name;
use std::alloc::AllocError;

/// Why a network is not simplified.
#[derive(Debug, PartialEq, Drop)]
pub enum SimplifyFault {
    /// The table of this name has phase 0, and the list of the rows where it is 1 has more than
    /// `MAX_ROWS` rows.
    CubeLimit(Name),
    /// There is not enough memory.
    Memory,
}

impl From<AllocError> for SimplifyFault {
    ghost use Rattle.std.specs.Prelude.{◌≡◌};
    ghost use Rattle.sdc_simplify.specs.declared.fault.SimplifyFault.TheVariants.{Memory};

    ghost from_gives = { λ _ fault. fault ≡ Memory };

    fn from(_error: AllocError) -> SimplifyFault {
        SimplifyFault::Memory
    }
}
