//! Why the functions of signals were not made: a function is too big, or memory ran out.
//!
//! A fault of `func_core` has no name of a signal; `fault_at` and `renamed` add the name of the
//! signal for which the function was made.

ghost use Rattle.std.specs.Prelude.{◌≡◌, ℕ, List};
ghost use Rattle.net_func.specs.Signals.{Blames};

use circuit_model::Name;
use func_core::FuncFault;
use sis_base::Copied;
use std::alloc::{AllocError, Global};

/// Why no functions were made.
#[derive(Debug, PartialEq, Drop)]
pub enum NetFuncFault {
    /// A part of a function is above the object's limit; the name is that of its signal.
    TooBig(Name),
    /// There is not enough memory.
    Memory,
}

impl From<AllocError> for NetFuncFault {
    ghost use Rattle.std.specs.Prelude.{◌≡◌};
    ghost use Rattle.net_func.specs.declared.fault.NetFuncFault.TheVariants.{Memory};

    ghost from_gives = { λ _ fault. fault ≡ Memory };

    fn from(_failed: AllocError) -> NetFuncFault {
        NetFuncFault::Memory
    }
}

/// A fault of a function, with the name of its signal.
pub(crate) fn fault_at(alloc: Global, fault: FuncFault, name: &Name) -> NetFuncFault
    ensures { Blames result (λ blamed. (blamed ≡ name.now) × (fault ≡ FuncFault.TooBig)) }
{
    match fault {
        FuncFault::TooBig => match name.copy(alloc) {
            Ok(blamed) => NetFuncFault::TooBig(blamed),
            Err(_failed) => NetFuncFault::Memory,
        },
        FuncFault::Memory => NetFuncFault::Memory,
    }
}

/// A fault of any signal, blamed on another one instead.
pub(crate) fn renamed(alloc: Global, fault: NetFuncFault, name: &Name) -> NetFuncFault
    ensures { Blames result (λ blamed. (blamed ≡ name.now)
        × ((part : List ℕ) × (fault ≡ NetFuncFault.TooBig part))) }
{
    match fault {
        NetFuncFault::TooBig(_part) => match name.copy(alloc) {
            Ok(blamed) => NetFuncFault::TooBig(blamed),
            Err(_failed) => NetFuncFault::Memory,
        },
        NetFuncFault::Memory => NetFuncFault::Memory,
    }
}
