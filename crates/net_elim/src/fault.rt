//! Why a network is not collapsed: a result is too large or too wide, or memory ran out.

ghost use Rattle.std.specs.Prelude.{◌≡◌};
ghost use Rattle.net_elim.specs.Collapse.{told};

use alg_tables::ComposeFault;
use circuit_model::Name;
use std::alloc::AllocError;

/// Why a network is not collapsed.
#[derive(Debug, PartialEq, Drop)]
pub enum CollapseFault {
    /// A list of rows, or what the table of this name becomes, has more than `MAX_ROWS` rows.
    CubeLimit(Name),
    /// What the table of this name becomes has so many inputs, more than 1,000.
    TooWide(Name, usize),
    /// There is not enough memory.
    Memory,
}

impl From<AllocError> for CollapseFault {
    ghost use Rattle.std.specs.Prelude.{◌≡◌};
    ghost use Rattle.net_elim.specs.declared.fault.CollapseFault.TheVariants.{Memory};

    ghost from_gives = { λ _ fault. fault ≡ Memory };

    fn from(_error: AllocError) -> CollapseFault {
        CollapseFault::Memory
    }
}

// The fault of a network for that of the table of a name.
pub(crate) fn fault_of(name: Name, fault: ComposeFault) -> CollapseFault
    ensures { result ≡ told name fault }
{
    match fault {
        ComposeFault::CubeLimit => CollapseFault::CubeLimit(name),
        ComposeFault::TooWide(count) => CollapseFault::TooWide(name, count),
        ComposeFault::Memory => CollapseFault::Memory,
    }
}
