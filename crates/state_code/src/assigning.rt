//! The network of a machine by the codes of its states. `assign` returns exactly what `HasAssigned`
//! of `specs/Assigned.antt` allows: the encoded circuit and the codes, or `TooWide` if inputs and
//! state bits are more than `MAX_INPUTS`.

ghost use Rattle.std.specs.Prelude.{◌≡◌, ◌≤◌, IfOk};
ghost use Rattle.circuit_model.specs.MachineSoundness.{IsSoundMachine};
ghost use Rattle.net_core.specs.Reads.{HasBounds};
ghost use Rattle.state_code.specs.Codes.{width_of, leaf_count, codes_of};
ghost use Rattle.state_code.specs.Encoded.{encoded};
ghost use Rattle.state_code.specs.Assigned.{HasAssigned};

use crate::codes::{Codes, Style, code_width, codes_of};
use crate::encoding::encoded;
use crate::tables::Coding;
use circuit_model::{Machine, Name};
use cube_cover::Row;
use net_core::Network;
use sis_base::Copied;
use sis_base::limits::MAX_INPUTS;
use std::alloc::{AllocError, Global};

/// Why there is no network: inputs and state bits are too many, with the machine's name and their
/// number; or memory ran out.
#[derive(Debug, Drop)]
pub enum CodeFault {
    TooWide(Name, usize),
    Memory,
}

impl From<AllocError> for CodeFault {
    ghost use Rattle.std.specs.Prelude.{◌≡◌};
    ghost use Rattle.state_code.specs.declared.assigning.CodeFault.TheVariants.{Memory};

    ghost from_gives = { λ _ fault. fault ≡ Memory };

    fn from(_error: AllocError) -> CodeFault {
        CodeFault::Memory
    }
}

/// The network and the codes.
fn encode<R: Row>(
    alloc: Global,
    machine: &Machine,
    coding: Coding,
) -> Result<(Network<R>, Codes), AllocError>
    requires sound { IsSoundMachine machine.now }
    requires width { coding.width ≡ width_of coding.style machine.now }
    requires few { leaf_count coding.style machine.now ≤ MAX_INPUTS }
    ensures network { IfOk result (λ made. made.0 ≡ encoded coding.style machine.now) }
    ensures codes { IfOk result (λ made. made.1 ≡ codes_of coding.style machine.now) }
{
    let network = Network::from_circuit(alloc, encoded(alloc, machine, coding)?)?;
    let codes = codes_of(alloc, coding.style, coding.width, machine.states.as_slice())?;
    Ok((network, codes))
}

/// The network of a machine whose states are coded in latches, and the codes; `TooWide` if inputs
/// and state bits are too many.
pub fn assign<R: Row>(
    alloc: Global,
    machine: &Machine,
    style: Style,
) -> Result<(Network<R>, Codes), CodeFault>
    requires { IsSoundMachine machine.now }
    ensures assigned { HasAssigned machine.now style result }
    ensures bounds { IfOk result (λ made. HasBounds made.0) }
{
    let width = code_width(style, machine.states.len());
    let count = machine.inputs.len() + width;
    if count > MAX_INPUTS {
        let name = machine.name.copy(alloc)?;
        return Err(CodeFault::TooWide(name, count));
    }
    Ok(encode(alloc, machine, Coding { style, width })?)
}
