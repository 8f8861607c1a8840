//! Collapse of a network to tables over inputs and latches alone.
//!
//! Source: the SIS report (UCB/ERL M92/41), `collapse`; De Micheli, "Synthesis and Optimization of
//! Digital Circuits", chapter 8. Each table in topological order is composed into its fanouts, and
//! then the tables that drive no output and no latch are removed. Invariant (`IsAlong`): what is
//! left of the order leads where the whole order leads, and refuses what it refuses. Callers rely
//! on exactly the collapsed network, or exactly the refusal.

ghost use Rattle.std.specs.Prelude.{◌≡◌, Some, None, [], map, IfOk, IfErr, OnOk};
ghost use Rattle.circuit_model.specs.Soundness.{IsSound};
ghost use Rattle.net_elim.specs.Collapsing.{with_put, put_refusal, collapsed, collapse_refusal};
ghost use Rattle.net_core.specs.Reads.{HasBounds};
ghost use Rattle.net_work.specs.Placed.{standing, circuit_of, name_at};
ghost use Rattle.net_work.specs.Along.{IsAlong};
ghost use Rattle.circuit_order.specs.Order.{order_of};
ghost use Rattle.net_elim.specs.Collapse.{IsCause, HasCollapsed};

use crate::collapse_step::put_at;
use crate::cutting::cut_inner;
use crate::fault::CollapseFault;
use cube_cover::Row;
use net_core::Network;
use net_work::WorkingNetwork;
use std::alloc::Global;

// Composes the tables at indices, which are in topological order, into their fanouts one after the
// other.
fn put_along<R: Row>(
    alloc: Global,
    work: &mut WorkingNetwork<R>,
    places: &[usize],
) -> Result<(), CollapseFault>
    requires sound { IsSound (circuit_of work.old) }
    requires order { map (name_at work.old.slots) places.now
        ≡ map Some (order_of (standing work.old.slots)) }
    ensures along { OnOk result (IsAlong with_put put_refusal
        (order_of (standing work.old.slots)) [] work.old work.new) }
    ensures fault { IfErr result (λ fault. IsCause (collapse_refusal (circuit_of work.old)) fault) }
{
    for place in places {
        put_at(alloc, work, *place)?;
    }
    Ok(())
}

// Composes all tables into their fanouts, in topological order.
fn put_all<R: Row>(alloc: Global, work: &mut WorkingNetwork<R>) -> Result<(), CollapseFault>
    requires { IsSound (circuit_of work.old) }
    ensures along { OnOk result (IsAlong with_put put_refusal
        (order_of (standing work.old.slots)) [] work.old work.new) }
    ensures fault { IfErr result (λ fault. IsCause (collapse_refusal (circuit_of work.old)) fault) }
{
    let places = work.order(alloc)?;
    put_along(alloc, work, places.as_slice())
}

// Composes all tables into their fanouts, in topological order, and then removes the inner ones.
// After an error the network may be any.
fn collapse_tables<R: Row>(alloc: Global, work: &mut WorkingNetwork<R>) -> Result<(), CollapseFault>
    requires { IsSound (circuit_of work.old) }
    ensures collapsed { OnOk result (circuit_of work.new ≡ collapsed (circuit_of work.old)) }
    ensures none { OnOk result (collapse_refusal (circuit_of work.old) ≡ None) }
    ensures fault { IfErr result (λ fault. IsCause (collapse_refusal (circuit_of work.old)) fault) }
{
    put_all(alloc, work)?;
    cut_inner(alloc, work)?;
    Ok(())
}

/// A new network, collapsed; the given one stays. Each table in topological order is composed into
/// all its fanouts; then the inner tables are removed, and what is left reads inputs and latches
/// alone. `CubeLimit` has the name of the first fanout for which a list of rows, or the result, has
/// more than `MAX_ROWS` rows; else `TooWide` has its name and the number of its inputs if these are
/// more than 1,000. It is the first such fanout, tables in topological order and the fanouts of
/// each in table order.
pub fn collapse<R: Row>(alloc: Global, network: &Network<R>) -> Result<Network<R>, CollapseFault>
    ensures collapsed { HasCollapsed network.now result }
    ensures bounds { HasBounds network.now → IfOk result HasBounds }
{
    let mut work = WorkingNetwork::of(alloc, network)?;
    match collapse_tables(alloc, &mut work) {
        Ok(()) => Ok(work.into_network()),
        Err(fault) => Err(fault),
    }
}
