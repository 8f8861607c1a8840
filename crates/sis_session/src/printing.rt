//! The texts of the commands that print or write.
//!
//! A text is complete before the outside is asked for anything, so that a command that is refused,
//! or runs out of memory, prints nothing. A command that prints is one function here and one arm of
//! `step`. Each answer is the text that `specs/Commands.antt` defines, a refusal that it defines,
//! or want of memory.

ghost use Rattle.std.specs.Prelude.{◌≡◌, Ok, flat_map, IfSome};
ghost use Rattle.sis_base.specs.Written.{lines_text};
ghost use Rattle.circuit_model.specs.Text.{table_lines};
ghost use Rattle.circuit_model.specs.Values.{driver};
ghost use Rattle.net_core.specs.Reads.{HasBounds};
ghost use Rattle.sis_session.specs.Commands.{Just, ToldBy, latches_told, machine_of, named_told, netlist_of, network_of, stats_told, tables_told, written_text};
ghost use Rattle.sis_session.specs.Methods.{IsTold, IsToldBy};
ghost use Rattle.sis_session.specs.Replies.{echo_line, stats_of};

use crate::refusal::{Refusal, StepFault};
use crate::texts::{Stats, echo_text, stats_text};
use blif_write::{circuit_text, latches_text, netlist_text, table_text, tables_text};
use circuit_model::Machine;
use cube_cover::PlainRow;
use kiss_format::machine_text;
use net_core::Network;
use netlist::Mapped;
use sis_base::Copied;
use sis_script::{RawWord, RawWords};
use std::alloc::Global;

/// What `echo` prints.
pub fn echo(alloc: Global, words: &RawWords) -> Result<Vec<u8>, StepFault>
    ensures { IsTold (Ok (echo_line words.now)) result }
{
    Ok(echo_text(alloc, words.as_slice())?)
}

/// The size of a network; takes no memory.
#[tactic(auto, unfolding(crate::specs::Replies::stats_of))]
pub fn stats_of(network: &Network<PlainRow>) -> Stats
    requires { HasBounds network.now }
    ensures { result ≡ stats_of network.now }
{
    Stats {
        sizes: network.sizes(),
        lits: network.lits(),
    }
}

/// What `print_stats` prints.
pub fn print_stats(alloc: Global, network: &Option<Network<PlainRow>>) -> Result<Vec<u8>, StepFault>
    requires { IfSome network.now HasBounds }
    ensures { IsToldBy (ToldBy (Just stats_told) network.now) result }
{
    match network {
        Some(network) => Ok(stats_text(alloc, network.name().as_slice(), stats_of(network))?),
        None => Err(StepFault::Refused(Refusal::NoNetwork)),
    }
}

/// The text of the table of a name.
fn named_text(
    alloc: Global,
    network: &Network<PlainRow>,
    name: &RawWord,
) -> Result<Vec<u8>, StepFault>
    ensures { IsTold (named_told name.now (driver network.now.tables name.now)) result }
{
    match network.table(name) {
        Some(table) => {
            let written = table.to_written(alloc, name)?;
            Ok(table_text(alloc, &written)?)
        }
        None => Err(StepFault::Refused(Refusal::NoSignal(name.copy(alloc)?))),
    }
}

/// The text of all tables.
fn all_text(alloc: Global, network: &Network<PlainRow>) -> Result<Vec<u8>, StepFault>
    ensures { IsTold (Ok (lines_text (flat_map table_lines network.now.tables))) result }
{
    let circuit = network.to_circuit(alloc)?;
    Ok(tables_text(alloc, circuit.tables.as_slice())?)
}

/// What `print` prints.
pub fn print(
    alloc: Global,
    network: &Option<Network<PlainRow>>,
    name: &Option<RawWord>,
) -> Result<Vec<u8>, StepFault>
    ensures { IsToldBy (ToldBy (Just (tables_told name.now)) network.now) result }
{
    let Some(network) = network else {
        return Err(StepFault::Refused(Refusal::NoNetwork));
    };
    match name {
        None => all_text(alloc, network),
        Some(name) => named_text(alloc, network, name),
    }
}

/// What `print_latch` prints.
pub fn print_latch(alloc: Global, network: &Option<Network<PlainRow>>) -> Result<Vec<u8>, StepFault>
    ensures { IsToldBy (ToldBy (Just latches_told) network.now) result }
{
    let Some(network) = network else {
        return Err(StepFault::Refused(Refusal::NoNetwork));
    };
    let circuit = network.to_circuit(alloc)?;
    Ok(latches_text(alloc, &circuit.timing, circuit.latches.as_slice())?)
}

/// What `write_blif` writes.
pub fn network_text(
    alloc: Global,
    network: &Option<Network<PlainRow>>,
) -> Result<Vec<u8>, StepFault>
    ensures { IsTold (written_text (network_of network.now)) result }
{
    let Some(network) = network else {
        return Err(StepFault::Refused(Refusal::NoNetwork));
    };
    let mut text = Vec::new(alloc);
    circuit_text(alloc, &network.to_circuit(alloc)?, &mut text)?;
    Ok(text)
}

/// What `write_blif -n` writes.
pub fn netlist_told(alloc: Global, netlist: &Option<Mapped>) -> Result<Vec<u8>, StepFault>
    ensures { IsTold (written_text (netlist_of netlist.now)) result }
{
    let Some(netlist) = netlist else {
        return Err(StepFault::Refused(Refusal::NotMapped));
    };
    let mut text = Vec::new(alloc);
    netlist_text(alloc, netlist, &mut text)?;
    Ok(text)
}

/// What `write_kiss` writes.
pub fn machine_told(alloc: Global, machine: &Option<Machine>) -> Result<Vec<u8>, StepFault>
    ensures { IsTold (written_text (machine_of machine.now)) result }
{
    let Some(machine) = machine else {
        return Err(StepFault::Refused(Refusal::NoMachine));
    };
    let mut text = Vec::new(alloc);
    machine_text(alloc, machine, &mut text)?;
    Ok(text)
}
