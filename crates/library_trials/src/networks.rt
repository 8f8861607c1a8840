//! Cases of networks: changes of one table at a time, the working network, and the commands that
//! change a network whole.
//!
//! The case's text is read as a network. `answer` makes one call on a name and prints its result
//! and the network after it; `put_work` prints what the working network answers; `put_command`
//! prints the network that a command makes, or `refused`, and `put_full` that of full
//! simplification, or its fault. A text that is no network is a bad case.

ghost use Rattle.std.specs.Prelude.{◌≡◌, ℕ, true, false, List, map};
ghost use Rattle.circuit_model.specs.Names.{has};
ghost use Rattle.circuit_model.specs.Soundness.{outputs_of};
ghost use Rattle.circuit_laws.specs.Edits.{constant_table};
ghost use Rattle.net_core.specs.Tables.{named, IsOverInputs};

use crate::functions::limit_of;
use crate::needed::is_needed;
use crate::puts::{put_circuit, put_names, put_table, put_text, put_value};
use crate::reads::network;
use circuit_model::Name;
use cube_cover::{Cover, PlainRow};
use func_core::{Functions, PlainFunctions};
use func_shared::SharedFunctions;
use line_words::name_of;
use net_candidates::Rule as Extraction;
use net_core::{AddFault, CoverTable, Network, tidy};
use net_decomp::{Rule, decompose};
use net_elim::{collapse, eliminate};
use net_extract::extract;
use net_resub::resubstitute;
use net_sweep::{SweepFault, Swept, sweep};
use net_work::WorkingNetwork;
use odc_simplify::full_simplify;
use sdc_simplify::simplify;
use sis_base::Sequence;
use std::alloc::{AllocError, Global};
use trial_cases::{Case, CaseFault};

/// Appends the answer to a case of a network: the result of the call on a name, and the network
/// after it.
pub fn answer(
    alloc: Global,
    out: &mut Vec<u8>,
    case: &Case<'_>,
    text: &[u8],
) -> Result<(), CaseFault> {
    let name = name_of(alloc, case.word(2).as_bytes())?;
    let mut network = network(alloc, text)?;
    change(alloc, out, &mut network, case.word(1), &name)?;
    put_network(alloc, out, &network)
}

/// Appends the text of a network.
fn put_network(
    alloc: Global,
    out: &mut Vec<u8>,
    network: &Network<PlainRow>,
) -> Result<(), CaseFault> {
    let circuit = network.to_circuit(alloc)?;
    put_circuit(alloc, out, &circuit)
}

/// Makes a call on a network and a name, and appends its result.
fn change(
    alloc: Global,
    out: &mut Vec<u8>,
    network: &mut Network<PlainRow>,
    call: &str,
    name: &Name,
) -> Result<(), CaseFault> {
    match call {
        "order" => put_names(out, network.order(alloc)?.as_slice()),
        "readers" => put_names(out, network.readers(alloc, name)?.as_slice()),
        "copy" => put_network(alloc, out, &network.copy(alloc)?),
        "tidy" => put_tidy(alloc, out, network, name),
        "replace" => Ok(replace(alloc, network, name)),
        "remove" => Ok(remove(alloc, network, name)?),
        "add" => put_value(alloc, out, &add_constant(alloc, network)),
        "sweep" => put_value(alloc, out, &sweep_in_place(alloc, network)),
        _ => Err(CaseFault::Bad),
    }
}

/// Replaces a network by the swept one, and returns how many tables and latches were removed.
fn sweep_in_place(alloc: Global, network: &mut Network<PlainRow>) -> Result<Swept, SweepFault> {
    let (made, swept) = sweep(alloc, network)?;
    *network = made;
    Ok(swept)
}

/// The constant 0.
#[tactic(auto, unfolding(net_core::specs::Tables::named))]
fn constant(alloc: Global) -> CoverTable<PlainRow>
    ensures over { IsOverInputs result }
    ensures written { (name : List ℕ) → named name result ≡ constant_table name false }
{
    CoverTable {
        inputs: Sequence::new(alloc),
        cover: Cover::new(alloc, 0),
        phase: true,
    }
}

/// Whether a table has the name.
pub fn has_table(network: &Network<PlainRow>, name: &Name) -> bool
    ensures { result ≡ has (outputs_of network.now.tables) name.now }
{
    network.table(name).is_some()
}

/// Replaces a table by the constant 0.
fn put_constant(alloc: Global, network: &mut Network<PlainRow>, name: &Name)
    requires { has (outputs_of network.old.tables) name.now ≡ true }
{
    network.sound();
    network.replace(name, constant(alloc));
}

/// Replaces the table of a name by the constant 0, if there is one.
fn replace(alloc: Global, network: &mut Network<PlainRow>, name: &Name) {
    if has_table(network, name) {
        put_constant(alloc, network, name);
    }
}

/// Removes the table or latch of a name that nothing reads.
fn remove(alloc: Global, network: &mut Network<PlainRow>, name: &Name) -> Result<(), AllocError> {
    let circuit = network.to_circuit(alloc)?;
    if !is_needed(&circuit, name) {
        network.remove(name);
    }
    Ok(())
}

/// Adds the constant 0.
fn add_constant(alloc: Global, network: &mut Network<PlainRow>) -> Result<Name, AddFault> {
    network.add(alloc, constant(alloc))
}

/// Appends the normal form of a copy of the table of a name.
fn put_tidy(
    alloc: Global,
    out: &mut Vec<u8>,
    network: &Network<PlainRow>,
    name: &Name,
) -> Result<(), CaseFault> {
    match network.table(name) {
        None => put_text(out, b"no table"),
        Some(table) => {
            let made = tidy(alloc, &table.copy(alloc)?)?;
            put_table(alloc, out, &made.to_written(alloc, name)?)
        }
    }
}

/// Appends what the working form of a network answers: the indices of its tables in order, the
/// readers of a signal, the elimination value of the first table, and the name that a new one would
/// get.
pub fn put_work(
    alloc: Global,
    out: &mut Vec<u8>,
    case: &Case<'_>,
    text: &[u8],
) -> Result<(), CaseFault> {
    let name = name_of(alloc, case.word(1).as_bytes())?;
    let work = WorkingNetwork::from_network(alloc, network(alloc, text)?)?;
    put_told(alloc, out, &work, &name)
}

/// Appends what a working form answers.
fn put_told(
    alloc: Global,
    out: &mut Vec<u8>,
    work: &WorkingNetwork<PlainRow>,
    name: &Name,
) -> Result<(), CaseFault> {
    put_value(alloc, out, &work.order(alloc)?)?;
    put_value(alloc, out, &work.readers(alloc, name)?)?;
    put_value(alloc, out, &work.value(0)?)?;
    put_names(out, &[work.new_name(alloc)?])
}

/// The network that a command makes, if it is not refused.
fn changed(alloc: Global, network: &Network<PlainRow>, command: &str) -> Option<Network<PlainRow>> {
    match command {
        "sweep" => sweep(alloc, network).ok().map(|(made, _)| made),
        "eliminate" => eliminate(alloc, network, -1, 1_000_000).ok(),
        "collapse" => collapse(alloc, network).ok(),
        "decomp" => decompose(alloc, network, Rule::Shared).ok(),
        "tech_decomp" => decompose(alloc, network, Rule::Gates(2, 2)).ok(),
        "fx" => extract(alloc, network, Extraction::Fx).ok(),
        "gkx" => extract(alloc, network, Extraction::Gkx).ok(),
        "gcx" => extract(alloc, network, Extraction::Gcx).ok(),
        "resub" => resubstitute(alloc, network).ok(),
        "simplify" => simplify(alloc, network).ok(),
        _ => None,
    }
}

/// Appends the network that a command makes of that of a text.
pub fn put_command(
    alloc: Global,
    out: &mut Vec<u8>,
    case: &Case<'_>,
    text: &[u8],
) -> Result<(), CaseFault> {
    let network = network(alloc, text)?;
    match &changed(alloc, &network, case.word(1)) {
        None => put_text(out, b"refused"),
        Some(made) => put_network(alloc, out, made),
    }
}

/// Appends the network that full simplification makes of that of a text, or its fault, by the kind
/// of functions and a limit.
pub fn put_full(
    alloc: Global,
    out: &mut Vec<u8>,
    case: &Case<'_>,
    text: &[u8],
) -> Result<(), CaseFault> {
    let limit = limit_of(case)?;
    let network = network(alloc, text)?;
    match case.word(1) {
        "plain" => put_by(alloc, out, &mut PlainFunctions::new(alloc, limit), &network),
        "shared" => put_by(
            alloc,
            out,
            &mut SharedFunctions::new(alloc, limit),
            &network,
        ),
        _ => Err(CaseFault::Bad),
    }
}

/// Appends the network that full simplification makes by an object of functions, or its fault.
fn put_by<F: Functions>(
    alloc: Global,
    out: &mut Vec<u8>,
    functions: &mut F,
    network: &Network<PlainRow>,
) -> Result<(), CaseFault> {
    match &full_simplify(alloc, network, functions) {
        Ok(made) => put_network(alloc, out, made),
        Err(fault) => put_value(alloc, out, fault),
    }
}
