//! Decomposition: each table in the order of indices is decomposed until it is done.
//!
//! Source: the SIS report (UCB/ERL M92/41), `decomp` and `tech_decomp`; De Micheli, "Synthesis and
//! Optimization of Digital Circuits", chapter 8. Tables added meanwhile come last and are
//! decomposed in turn. Invariant (`IsAlong`): steps lead to the current network, and the tables at
//! lower indices are done. Callers rely on the end of the chain of steps, or on `NodeLimit` only if
//! a step has no room.

ghost use Rattle.std.specs.Prelude.{◌≡◌, ◌+◌, IfOk, IfErr, OnOk};
ghost use Rattle.circuit_model.specs.Soundness.{IsSound};
ghost use Rattle.net_decomp.specs.Decomposed.{IsDecomposed, IsFull};
ghost use Rattle.net_core.specs.Fresh.{node_count};
ghost use Rattle.net_core.specs.Reads.{HasBounds};
ghost use Rattle.net_core.specs.declared.adding.AddFault.TheVariants.{NodeLimit};
ghost use Rattle.net_work.specs.Placed.{circuit_of};
ghost use Rattle.net_decomp.specs.Cursor.{AreDone, IsAlong};
ghost use Rattle.net_decomp.specs.Decompose.{HasDecomposed};

use crate::Rule;
use crate::stepping::part_once;
use crate::sums::part_sum;
use cube_cover::Row;
use net_core::{AddFault, Network};
use net_work::WorkingNetwork;
use std::alloc::Global;

// Decomposes the table at an index until it is done; returns the number of nodes then.
fn part_until_done<R: Row>(
    alloc: Global,
    work: &mut WorkingNetwork<R>,
    nodes: u128,
    place: usize,
    rule: Rule,
) -> Result<u128, AddFault>
    requires sound { IsSound (circuit_of work.old) }
    requires nodes { nodes ≡ node_count (circuit_of work.old) }
    requires done { AreDone rule place work.old.slots }
    ensures nodes { IfOk result (λ now. now ≡ node_count (circuit_of work.new)) }
    ensures along { OnOk result (IsAlong rule (place + 1) work.old work.new) }
    ensures full { IfErr result (λ fault. fault ≡ NodeLimit → IsFull rule (circuit_of work.old)) }
{
    let mut count = nodes;
    while let Some(now) = part_once(alloc, work, count, place, rule)? {
        count = part_sum(alloc, work, now, place, rule)?;
    }
    Ok(count)
}

// Decomposes the tables at all indices until they are done, those included that are added
// meanwhile.
fn part_all<R: Row>(
    alloc: Global,
    work: &mut WorkingNetwork<R>,
    nodes: u128,
    rule: Rule,
) -> Result<(), AddFault>
    requires sound { IsSound (circuit_of work.old) }
    requires nodes { nodes ≡ node_count (circuit_of work.old) }
    ensures sound { OnOk result (IsSound (circuit_of work.new)) }
    ensures decomposed { OnOk result
        (IsDecomposed rule (circuit_of work.old) (circuit_of work.new)) }
    ensures bounds { OnOk result (HasBounds (circuit_of work.old)
        → HasBounds (circuit_of work.new)) }
    ensures full { IfErr result (λ fault. fault ≡ NodeLimit → IsFull rule (circuit_of work.old)) }
{
    let mut count = nodes;
    let mut place = 0;
    while place < work.len() {
        count = part_until_done(alloc, work, count, place, rule)?;
        place += 1;
    }
    Ok(())
}

// The number of tables and latches of a network, the tables of the don't-care part included.
fn nodes_of<R: Row>(network: &Network<R>) -> u128
    ensures { result ≡ node_count network.now }
{
    let sizes = network.sizes();
    sizes.tables as u128 + sizes.latches as u128 + sizes.dont_cares as u128
}

/// A new network, decomposed; the given one stays. Tables are decomposed by a rule until all are
/// done, always the earliest one that is not; parts become tables, which are last, under the least
/// free names. `NodeLimit` only if a step has parts and with them there would be more than
/// `MAX_NODES` tables and latches, those of the don't-care part included. `Memory` also if a table
/// would have 2^30 inputs or 2^33 rows, in its normal form or, for a sum of single literals, before
/// it; no clause says so.
pub fn decompose<R: Row>(
    alloc: Global,
    network: &Network<R>,
    rule: Rule,
) -> Result<Network<R>, AddFault>
    ensures decomposed { HasDecomposed rule network.now result }
    ensures bounds { HasBounds network.now → IfOk result HasBounds }
{
    let nodes = nodes_of(network);
    let mut work = WorkingNetwork::of(alloc, network)?;
    part_all(alloc, &mut work, nodes, rule)?;
    Ok(work.into_network())
}
