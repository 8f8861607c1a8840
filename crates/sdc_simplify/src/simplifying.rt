//! Simplification of a network: each table in topological order becomes minimal under its local
//! don't-cares.
//!
//! Source: the SIS report (UCB/ERL M92/41), `simplify`. The order is that of the network at the
//! start, the don't-cares those of the network at the table's turn. Callers rely on exactly the
//! simplified network, or exactly the refusal.

ghost use Rattle.std.specs.Prelude.{◌≡◌, Some, None, [], map, IfOk, IfErr, OnOk};
ghost use Rattle.circuit_model.specs.Soundness.{IsSound};
ghost use Rattle.sdc_simplify.specs.Local.{is_local};
ghost use Rattle.sdc_simplify.specs.Simplified.{with_minimum, minimum_refusal, simplified, simplify_refusal};
ghost use Rattle.net_core.specs.Reads.{HasBounds};
ghost use Rattle.net_work.specs.Placed.{standing, circuit_of, name_at};
ghost use Rattle.net_work.specs.Along.{IsAlong};
ghost use Rattle.circuit_order.specs.Order.{order_of};
ghost use Rattle.sdc_simplify.specs.Simplify.{IsCause, HasSimplified};

use crate::fault::SimplifyFault;
use crate::turns::minimize_at;
use cube_cover::Row;
use net_core::Network;
use net_work::WorkingNetwork;
use std::alloc::Global;

// The tables at indices, which are in topological order, become minimal one after the other. After
// an error the network may be any.
fn minimize_along<R: Row>(
    alloc: Global,
    work: &mut WorkingNetwork<R>,
    places: &[usize],
) -> Result<(), SimplifyFault>
    requires sound { IsSound (circuit_of work.old) }
    requires order { map (name_at work.old.slots) places.now
        ≡ map Some (order_of (standing work.old.slots)) }
    ensures along { OnOk result (IsAlong (with_minimum is_local) minimum_refusal
        (order_of (standing work.old.slots)) [] work.old work.new) }
    ensures fault { IfErr result (λ fault. IsCause (simplify_refusal (circuit_of work.old)) fault) }
{
    for place in places {
        minimize_at(alloc, work, *place)?;
    }
    Ok(())
}

// All tables become minimal, in topological order. After an error the network may be any.
fn minimize_all<R: Row>(alloc: Global, work: &mut WorkingNetwork<R>) -> Result<(), SimplifyFault>
    requires { IsSound (circuit_of work.old) }
    ensures simplified { OnOk result (circuit_of work.new ≡ simplified (circuit_of work.old)) }
    ensures none { OnOk result (simplify_refusal (circuit_of work.old) ≡ None) }
    ensures sound { OnOk result (IsSound (circuit_of work.new)) }
    ensures fault { IfErr result (λ fault. IsCause (simplify_refusal (circuit_of work.old)) fault) }
{
    let places = work.order(alloc)?;
    minimize_along(alloc, work, places.as_slice())
}

/// A new network, simplified; the given one stays. Each table in topological order becomes minimal
/// under its local don't-cares. `CubeLimit` has the name of the first table, in that order, of
/// phase 0 whose list of the rows where it is 1 then has more than `MAX_ROWS` rows.
pub fn simplify<R: Row>(alloc: Global, network: &Network<R>) -> Result<Network<R>, SimplifyFault>
    ensures simplified { HasSimplified network.now result }
    ensures bounds { HasBounds network.now → IfOk result HasBounds }
{
    let mut work = WorkingNetwork::of(alloc, network)?;
    match minimize_all(alloc, &mut work) {
        Ok(()) => Ok(work.into_network()),
        Err(fault) => Err(fault),
    }
}
