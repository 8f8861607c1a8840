//! Why a network is not fully simplified: a list of rows or a function is too big, or memory ran
//! out.

use circuit_model::Name;
use std::alloc::AllocError;

/// Why a network is not fully simplified.
#[derive(Debug, PartialEq, Drop)]
pub enum FullFault {
    /// The table of this name has phase 0, and the list of the rows where it is 1 has more than
    /// `MAX_ROWS` rows.
    CubeLimit(Name),
    /// While the table of this name was simplified, a function was above the limit of the object of
    /// functions.
    TooBig(Name),
    /// There is not enough memory.
    Memory,
}

impl From<AllocError> for FullFault {
    ghost use Rattle.std.specs.Prelude.{◌≡◌};
    ghost use Rattle.odc_simplify.specs.declared.fault.FullFault.TheVariants.{Memory};

    ghost from_gives = { λ _ fault. fault ≡ Memory };

    fn from(_error: AllocError) -> FullFault {
        FullFault::Memory
    }
}
