//! Sweep of a network.
//!
//! Source: the SIS manual (UCB/ERL M92/41), `sweep`. The first five rules run until none applies;
//! then `dangling_step` removes what is not needed, and they run again, until nothing is removed.
//! `sweep` promises the end of a chain of `sweep_step`, so that the new network is sound, refines
//! the old one and has the finished form; it keeps within the bounds of the old network. The
//! network given stays as it is.

ghost use Rattle.std.specs.Prelude.{◌≡◌, None, IfOk, OnOk};
ghost use Rattle.circuit_model.specs.Soundness.{IsSound};
ghost use Rattle.circuit_laws.specs.Chains.{Chain};
ghost use Rattle.net_core.specs.Reads.{HasBounds};
ghost use Rattle.net_wires.specs.Keeping.{IsKept};
ghost use Rattle.net_wires.specs.Rules.{fix_constant_latch, sweep_step};
ghost use Rattle.net_wires.specs.Sweeping.{IsSwept, tables_gone, latches_gone};
ghost use Rattle.net_sweep.specs.Settled.{table_step, is_candidate, AreCandidates, HasLed};
ghost use Rattle.net_sweep.specs.Latches.{left_at, with_latches, IsReady, IsNextStep};
ghost use Rattle.net_sweep.specs.declared.sweeping.SweepFault.TheVariants.{Memory};

use crate::applying::all_candidates;
use crate::counting::count_undriven;
use crate::idle::empty_at_step;
use crate::latches::TrackedLatches;
use crate::queues::Candidates;
use crate::steps::{next_step, take_step};
use crate::tracking::{tracked_latches, with_tracked_latches};
use circuit_model::Circuit;
use cube_cover::Row;
use net_core::Network;
use net_wires::{AliasedTables, dangling_step};
use sis_base::Whole;
use std::alloc::{AllocError, Global};

/// The numbers of tables and latches that a sweep removed; a latch that became a table counts as a
/// latch alone.
#[derive(Clone, Copy, Debug, PartialEq, Eq)]
pub struct Swept {
    /// The number of the tables' signals that no table drives any more.
    pub tables: usize,
    /// The difference in the number of latches.
    pub latches: usize,
}

/// Why a sweep failed.
#[derive(Clone, Copy, Debug, PartialEq, Eq, Drop)]
pub enum SweepFault {
    /// There was not enough memory.
    Memory,
}

impl From<AllocError> for SweepFault {
    ghost from_gives = { λ _ fault. fault ≡ Memory };

    fn from(_error: AllocError) -> SweepFault {
        SweepFault::Memory
    }
}

// Takes steps of the first five rules until none applies.
fn take_steps<R: Row>(
    alloc: Global,
    aliased: &mut AliasedTables,
    candidates: &mut Candidates,
    tracked: &mut TrackedLatches,
) -> Result<(), AllocError>
    requires sound { IsSound (with_latches aliased.old (left_at tracked.old.slots.items)) }
    requires candidates { AreCandidates (is_candidate candidates.old) aliased.old.tables }
    requires ready { IsReady tracked.old aliased.old }
    ensures led { OnOk result (HasLed (with_latches aliased.old (left_at tracked.old.slots.items))
        (with_latches aliased.new (left_at tracked.new.slots.items))) }
    ensures next { OnOk result (IsNextStep aliased.new tracked.new.slots.items None) }
{
    while let Some(step) = next_step::<R>(alloc, aliased, candidates, tracked)? {
        take_step::<R>(alloc, step, aliased, candidates, tracked)?;
        empty_at_step(alloc, step, aliased, tracked)?;
    }
    Ok(())
}

// Takes steps of the first five rules until none applies, starting where one does.
fn settle<R: Row>(
    alloc: Global,
    aliased: &mut AliasedTables,
    tracked: &mut TrackedLatches,
) -> Result<(), AllocError>
    requires sound { IsSound (with_latches aliased.old (left_at tracked.old.slots.items)) }
    requires ready { IsReady tracked.old aliased.old }
    ensures led { OnOk result (HasLed (with_latches aliased.old (left_at tracked.old.slots.items))
        (with_latches aliased.new (left_at tracked.new.slots.items))) }
    ensures next { OnOk result (IsNextStep aliased.new tracked.new.slots.items None) }
{
    let mut candidates = all_candidates::<R>(alloc, aliased)?;
    take_steps::<R>(alloc, aliased, &mut candidates, tracked)
}

// The circuit to which none of the first five rules applies any more, with its latches in
// `tracked`.
fn settled_beside<R: Row>(
    alloc: Global,
    circuit: Circuit,
    tracked: &mut TrackedLatches,
) -> Result<Circuit, AllocError>
    requires sound { IsSound (with_latches circuit (left_at tracked.old.slots.items)) }
    requires ready { IsReady tracked.old circuit }
    ensures led { IfOk result (λ end. HasLed
        (with_latches circuit (left_at tracked.old.slots.items))
        (with_latches end (left_at tracked.new.slots.items))) }
    ensures next { IfOk result (λ end. IsNextStep end tracked.new.slots.items None) }
{
    let mut aliased = AliasedTables::from_circuit(alloc, circuit)?;
    settle::<R>(alloc, &mut aliased, tracked)?;
    aliased.into_circuit(alloc)
}

// The circuit to which none of the first five rules applies any more.
fn settled<R: Row>(alloc: Global, circuit: Circuit) -> Result<Circuit, AllocError>
    requires { IsSound circuit }
    ensures led { IfOk result (λ end. HasLed circuit end) }
    ensures tables { IfOk result (λ end. table_step end ≡ None) }
    ensures latches { IfOk result (λ end. fix_constant_latch end ≡ None) }
{
    let mut tracked = tracked_latches(alloc, &circuit)?;
    let end = settled_beside::<R>(alloc, circuit, &mut tracked)?;
    with_tracked_latches(alloc, end, &tracked)
}

// The circuit to which no step applies any more.
fn finished<R: Row>(alloc: Global, circuit: Circuit) -> Result<Circuit, AllocError>
    requires { IsSound circuit }
    ensures chain { IfOk result (λ end. Chain sweep_step circuit end) }
    ensures sound { IfOk result (λ end. IsSound end) }
{
    let begun = settled::<R>(alloc, circuit)?;
    // A whole, so that one call drops it.
    let mut end = Whole { it: begun };
    while let Some(next) = dangling_step(alloc, &end.it)? {
        // Dropped first, so that no more than two circuits are held.
        drop(end);
        let further = settled::<R>(alloc, next)?;
        end = Whole { it: further };
    }
    Ok(end.into_it())
}

// The numbers of a network's tables and latches that a circuit no longer has.
fn gone<R: Row>(alloc: Global, network: &Network<R>, end: &Circuit) -> Result<Swept, AllocError>
    ensures tables { IfOk result (λ swept. swept.tables ≡ tables_gone network.now end.now) }
    ensures latches { IfOk result (λ swept. swept.latches ≡ latches_gone network.now end.now) }
{
    let count = count_undriven(alloc, network, end.tables.as_slice())?;
    Ok(Swept {
        tables: count,
        latches: network.latches().len().saturating_sub(end.latches.len()),
    })
}

/// The network after sweep, beside the given one, which stays: the end of the chain of steps, and
/// the numbers of removed tables and latches.
pub fn sweep<R: Row>(alloc: Global, network: &Network<R>) -> Result<(Network<R>, Swept), SweepFault>
    ensures chain { IfOk result (λ made. Chain sweep_step network.now made.0) }
    ensures kept { IfOk result (λ made. IsKept network.now made.0) }
    ensures finished { IfOk result (λ made. IsSwept made.0) }
    ensures counts { IfOk result (λ made. (made.1.tables ≡ tables_gone network.now made.0)
        × (made.1.latches ≡ latches_gone network.now made.0)) }
    ensures bounds { HasBounds network.now → IfOk result (λ made. HasBounds made.0) }
{
    network.sound();
    let circuit = network.to_circuit(alloc)?;
    let end = finished::<R>(alloc, circuit)?;
    // A whole, so that one call drops it.
    let swept_end = Whole { it: end };
    let swept = gone(alloc, network, &swept_end.it)?;
    let made = Network::from_circuit(alloc, swept_end.into_it())?;
    Ok((made, swept))
}
