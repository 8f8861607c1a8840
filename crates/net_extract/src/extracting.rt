//! Extraction: the best candidate becomes a table, step by step, until none saves a literal.
//!
//! Source: the SIS report (UCB/ERL M92/41), `fx`, `gkx` and `gcx`. Callers rely on `HasExtracted`:
//! the end of the chain of steps, or the refusal that stops it; and on bounds to stay.

ghost use Rattle.std.specs.Prelude.{IfOk, OnOk, IfErr};
ghost use Rattle.circuit_model.specs.Soundness.{IsSound};
ghost use Rattle.net_candidates.specs.Extracting.{IsExtracted};
ghost use Rattle.net_core.specs.Reads.{HasBounds};
ghost use Rattle.net_work.specs.Placed.{circuit_of};
ghost use Rattle.net_extract.specs.Going.{IsEnd};
ghost use Rattle.net_extract.specs.Extract.{HasExtracted};

use crate::fault::ExtractFault;
use crate::known::known_of;
use crate::stepping::step;
use cube_cover::Row;
use net_candidates::Rule;
use net_core::Network;
use net_work::WorkingNetwork;
use std::alloc::Global;

// Takes steps until none applies.
fn take_steps<R: Row>(
    alloc: Global,
    work: &mut WorkingNetwork<R>,
    rule: Rule,
) -> Result<(), ExtractFault>
    requires { IsSound (circuit_of work.old) }
    ensures sound { OnOk result (IsSound (circuit_of work.new)) }
    ensures extracted { OnOk result (IsExtracted rule (circuit_of work.old) (circuit_of work.new)) }
    ensures bounds { OnOk result (HasBounds (circuit_of work.old)
        → HasBounds (circuit_of work.new)) }
    ensures stopped { IfErr result (IsEnd rule (circuit_of work.old)) }
{
    let mut known = known_of(alloc, work, rule)?;
    while step(alloc, work, &mut known, rule)? {}
    Ok(())
}

/// A new network, after extraction; the given one stays. Candidates of a rule are extracted as long
/// as one saves literals: always the one that saves most, the first of several. New tables are
/// last, under the least free names. `KernelLimit` has the name of the first table with more than
/// `MAX_KERNELS` kernels, if kernels are asked for. `NodeLimit` only if a candidate saves literals
/// and with its table there would be more than `MAX_NODES` tables and latches, those of the
/// don't-care part included.
pub fn extract<R: Row>(
    alloc: Global,
    network: &Network<R>,
    rule: Rule,
) -> Result<Network<R>, ExtractFault>
    ensures extracted { HasExtracted rule network.now result }
    ensures bounds { HasBounds network.now → IfOk result HasBounds }
{
    let mut work = WorkingNetwork::of(alloc, network)?;
    take_steps(alloc, &mut work, rule)?;
    Ok(work.into_network())
}
