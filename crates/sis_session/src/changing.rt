//! The commands that change the network: each makes a new network and leaves the old one.
//!
//! The new network keeps the bounds within which literals are counted (`HasBounds`). If a command
//! is refused, the old network stays; if it is done, the session keeps the old one for `undo`.
//! `change_network` is the one call that the session makes: it turns the faults of the libraries
//! into refusals, and its answer is one of those that `Changes` of `specs/Commands.antt` allows, or
//! want of memory.

ghost use Rattle.std.specs.Prelude.{◌≡◌, IfOk};
ghost use Rattle.circuit_laws.specs.Chains.{Chain};
ghost use Rattle.net_elim.specs.Eliminating.{eliminate_step};
ghost use Rattle.net_core.specs.Reads.{HasBounds};
ghost use Rattle.sis_script.specs.declared.command.Change.TheVariants.{Collapse, FullSimplify, Simplify};
ghost use Rattle.sis_session.specs.Commands.{Decomposes, Extracts};
ghost use Rattle.sis_session.specs.Methods.{IsChanged, IsMadeBy};

use crate::refusal::{Refusal, StepFault};
use crate::session::MAX_FUNCTION;
use cube_cover::PlainRow;
use func_shared::SharedFunctions;
use net_candidates::Rule as Extraction;
use net_core::{AddFault, Network};
use net_decomp::{Rule, decompose};
use net_elim::{CollapseFault, collapse, eliminate};
use net_extract::{ExtractFault, extract};
use net_resub::resubstitute;
use net_sweep::{SweepFault, sweep};
use odc_simplify::{FullFault, full_simplify};
use sdc_simplify::{SimplifyFault, simplify};
use sis_script::Change;
use std::alloc::{AllocError, Global};

/// A network after elimination.
fn eliminated(
    alloc: Global,
    network: &Network<PlainRow>,
    threshold: i32,
    rows: u32,
) -> Result<Network<PlainRow>, AllocError>
    requires { HasBounds network.now }
    ensures chain { IfOk result (λ new. Chain (eliminate_step threshold rows) network.now new) }
    ensures bounds { IfOk result HasBounds }
{
    eliminate(alloc, network, threshold, rows as usize)
}

/// A network after collapse, or the refusal of a table into which another cannot be eliminated.
fn collapsed(alloc: Global, network: &Network<PlainRow>) -> Result<Network<PlainRow>, StepFault>
    requires { HasBounds network.now }
    ensures changes { IsChanged Collapse network.now result }
    ensures bounds { IfOk result HasBounds }
{
    match collapse(alloc, network) {
        Ok(new) => Ok(new),
        Err(CollapseFault::CubeLimit(name)) => { Err(StepFault::Refused(Refusal::CubeLimit(name))) }
        Err(CollapseFault::TooWide(name, count)) => {
            Err(StepFault::Refused(Refusal::TooWide(name, count)))
        }
        Err(CollapseFault::Memory) => Err(StepFault::Memory),
    }
}

/// A network after simplification, or the refusal of a table whose list of rows is too long.
fn simplified(alloc: Global, network: &Network<PlainRow>) -> Result<Network<PlainRow>, StepFault>
    requires { HasBounds network.now }
    ensures changes { IsChanged Simplify network.now result }
    ensures bounds { IfOk result HasBounds }
{
    match simplify(alloc, network) {
        Ok(new) => Ok(new),
        Err(SimplifyFault::CubeLimit(name)) => Err(StepFault::Refused(Refusal::CubeLimit(name))),
        Err(SimplifyFault::Memory) => Err(StepFault::Memory),
    }
}

/// A network after full simplification, or the refusal of a table in whose turn a list of rows is
/// too long or a function is too big.
fn fully_simplified(
    alloc: Global,
    network: &Network<PlainRow>,
) -> Result<Network<PlainRow>, StepFault>
    requires { HasBounds network.now }
    ensures changes { IsChanged FullSimplify network.now result }
    ensures bounds { IfOk result HasBounds }
{
    let mut functions = SharedFunctions::new(alloc, MAX_FUNCTION);
    match full_simplify(alloc, network, &mut functions) {
        Ok(new) => Ok(new),
        Err(FullFault::CubeLimit(name)) => Err(StepFault::Refused(Refusal::CubeLimit(name))),
        Err(FullFault::TooBig(name)) => Err(StepFault::Refused(Refusal::TooBig(name))),
        Err(FullFault::Memory) => Err(StepFault::Memory),
    }
}

/// A network after extraction by a rule, or the refusal of a table with too many kernels, or of one
/// more table.
fn extracted(
    alloc: Global,
    network: &Network<PlainRow>,
    rule: Extraction,
) -> Result<Network<PlainRow>, StepFault>
    requires { HasBounds network.now }
    ensures extracted { IsMadeBy (Extracts rule network.now) result }
    ensures bounds { IfOk result HasBounds }
{
    match extract(alloc, network, rule) {
        Ok(new) => Ok(new),
        Err(ExtractFault::KernelLimit(name)) => {
            Err(StepFault::Refused(Refusal::KernelLimit(name)))
        }
        Err(ExtractFault::NodeLimit) => Err(StepFault::Refused(Refusal::NodeLimit)),
        Err(ExtractFault::Memory) => Err(StepFault::Memory),
    }
}

/// A network after decomposition by a rule, or the refusal if there is no room.
fn decomposed(
    alloc: Global,
    network: &Network<PlainRow>,
    rule: Rule,
) -> Result<Network<PlainRow>, StepFault>
    requires { HasBounds network.now }
    ensures decomposed { IsMadeBy (Decomposes rule network.now) result }
    ensures bounds { IfOk result HasBounds }
{
    match decompose(alloc, network, rule) {
        Ok(new) => Ok(new),
        Err(AddFault::NodeLimit) => Err(StepFault::Refused(Refusal::NodeLimit)),
        Err(AddFault::Memory) => Err(StepFault::Memory),
    }
}

/// The new network that a change makes; the old one stays.
pub fn change_network(
    alloc: Global,
    network: &Network<PlainRow>,
    change: Change,
) -> Result<Network<PlainRow>, StepFault>
    requires { HasBounds network.now }
    ensures changes { IsChanged change network.now result }
    ensures bounds { IfOk result HasBounds }
{
    match change {
        Change::Sweep => match sweep(alloc, network) {
            Ok((swept, _)) => Ok(swept),
            Err(SweepFault::Memory) => Err(StepFault::Memory),
        },
        Change::Eliminate(threshold, rows) => match eliminated(alloc, network, threshold, rows) {
            Ok(new) => Ok(new),
            Err(_) => Err(StepFault::Memory),
        },
        Change::Collapse => collapsed(alloc, network),
        Change::Simplify => simplified(alloc, network),
        Change::FullSimplify => fully_simplified(alloc, network),
        Change::Fx => extracted(alloc, network, Extraction::Fx),
        Change::Gkx => extracted(alloc, network, Extraction::Gkx),
        Change::Gcx => extracted(alloc, network, Extraction::Gcx),
        Change::Resub => match resubstitute(alloc, network) {
            Ok(new) => Ok(new),
            Err(_) => Err(StepFault::Memory),
        },
        Change::Decomp => decomposed(alloc, network, Rule::Shared),
        Change::TechDecomp(products, sums) => decomposed(
            alloc,
            network,
            Rule::Gates(products as usize, sums as usize),
        ),
    }
}
