//! What the commands print of tables as algebra: factored forms and kernels.
//!
//! After `print_factor` and `print_kernel` of SIS (UCB/ERL M92/41). `factors` and `kernels` make
//! the texts; this module chooses the tables, in the order of the network, and refuses a name
//! without a table or a table with too many kernels. A factored form is a choice, so each call
//! promises a relation from the network to the text or the refusal, and not one text.

ghost use Rattle.std.specs.Prelude.{◌≡◌};
ghost use Rattle.circuit_model.specs.Values.{driver};
ghost use Rattle.sis_session.specs.Commands.{FactorsTold, FactorTold, KernelsTold, KernelTold, ToldBy};
ghost use Rattle.sis_session.specs.Methods.{IsToldBy};

use crate::refusal::{Refusal, StepFault};
use crate::{KernelFault, factor_line, factor_lines, kernel_lines};
use cube_cover::PlainRow;
use net_core::Network;
use sis_base::Copied;
use sis_script::RawWord;
use std::alloc::Global;

/// The line of the factored form of the table of a name.
fn named_factor(
    alloc: Global,
    network: &Network<PlainRow>,
    name: &RawWord,
) -> Result<Vec<u8>, StepFault>
    ensures { IsToldBy (FactorTold name.now (driver network.now.tables name.now)) result }
{
    network.sound();
    match network.table(name) {
        Some(table) => {
            let written = table.to_written(alloc, name)?;
            Ok(factor_line(alloc, &written)?)
        }
        None => Err(StepFault::Refused(Refusal::NoSignal(name.copy(alloc)?))),
    }
}

/// The lines of the factored forms of all tables.
fn all_factors(alloc: Global, network: &Network<PlainRow>) -> Result<Vec<u8>, StepFault>
    ensures { IsToldBy (FactorsTold None network.now) result }
{
    network.sound();
    let circuit = network.to_circuit(alloc)?;
    Ok(factor_lines(alloc, circuit.tables.as_slice())?)
}

/// What `print_factor` prints.
pub fn print_factor(
    alloc: Global,
    network: &Option<Network<PlainRow>>,
    name: &Option<RawWord>,
) -> Result<Vec<u8>, StepFault>
    ensures { IsToldBy (ToldBy (FactorsTold name.now) network.now) result }
{
    let Some(network) = network else {
        return Err(StepFault::Refused(Refusal::NoNetwork));
    };
    match name {
        None => all_factors(alloc, network),
        Some(name) => named_factor(alloc, network, name),
    }
}

/// The lines of the kernels of the table of a name.
fn named_kernels(
    alloc: Global,
    network: &Network<PlainRow>,
    name: &RawWord,
) -> Result<Vec<u8>, StepFault>
    ensures { IsToldBy (KernelTold name.now (driver network.now.tables name.now)) result }
{
    network.sound();
    let Some(table) = network.table(name) else {
        return Err(StepFault::Refused(Refusal::NoSignal(name.copy(alloc)?)));
    };
    let written = table.to_written(alloc, name)?;
    match kernel_lines(alloc, &written) {
        Ok(text) => Ok(text),
        Err(KernelFault::KernelLimit) => {
            Err(StepFault::Refused(Refusal::KernelLimit(name.copy(alloc)?)))
        }
        Err(KernelFault::Memory) => Err(StepFault::Memory),
    }
}

/// What `print_kernel` prints.
pub fn print_kernel(
    alloc: Global,
    network: &Option<Network<PlainRow>>,
    name: &RawWord,
) -> Result<Vec<u8>, StepFault>
    ensures { IsToldBy (ToldBy (KernelsTold name.now) network.now) result }
{
    match network {
        Some(network) => named_kernels(alloc, network, name),
        None => Err(StepFault::Refused(Refusal::NoNetwork)),
    }
}
