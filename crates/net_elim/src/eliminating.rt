//! Elimination, step by step, until no inner table is left that may be eliminated.
//!
//! Source: Brayton, Rudell, Sangiovanni-Vincentelli and Wang, "MIS: A Multiple-Level Logic
//! Optimization System" (1987), and the SIS report (UCB/ERL M92/41), `eliminate`. A step composes
//! the first inner table of least value into all its fanouts and removes it; one that a fanout
//! refuses is passed over until a step touches it. Callers rely on `Chain`: the end of exactly
//! these steps.

ghost use Rattle.std.specs.Prelude.{◌≡◌, ℕ, ℤ, ◌+◌, ◌^◌, ◌<◌, Ok, Bool, true, false, not, ◌&&◌, if◌then◌else◌, Some, None, length, is_some, slice_set, int_lt, IfOk, OnOk};
ghost use Rattle.circuit_model.specs.Soundness.{IsSound};
ghost use Rattle.circuit_model.specs.declared.circuit.Table.{Table};
ghost use Rattle.circuit_laws.specs.Chains.{Chain};
ghost use Rattle.net_elim.specs.Eliminating.{all_take, with_eliminated, eliminate_step};
ghost use Rattle.net_core.specs.Reads.{HasBounds};
ghost use Rattle.net_readers.specs.Fanouts.{is_in};
ghost use Rattle.net_work.specs.Placed.{standing, circuit_of, table_at, with_slot};
ghost use Rattle.net_elim.specs.Putting.{with_put};
ghost use Rattle.net_elim.specs.Touching.{AreRenewed};
ghost use Rattle.net_elim.specs.Waiting.{when, worth_at, IsPutAt, AreWaiting};

use crate::putting::{PutFault, put_at};
use crate::touching::touched_by;
use crate::waiting::{Waiting, next, put};
use cube_cover::Row;
use net_core::Network;
use net_work::WorkingNetwork;
use std::alloc::{AllocError, Global};

/// Eliminates the table at an index: it is composed into all its fanouts, and removed. False if a
/// fanout cannot take it, and then nothing changed. After an error the network may be any.
pub(crate) fn eliminate_at<R: Row>(
    alloc: Global,
    work: &mut WorkingNetwork<R>,
    place: usize,
    rows: usize,
) -> Result<bool, AllocError>
    requires sound { IsSound (circuit_of work.old) }
    requires there { is_some (table_at work.old.slots place) ≡ true }
    ensures answer { IfOk result (λ done. (inner : Table)
        → table_at work.old.slots place ≡ Some inner
        → done ≡ all_take rows (circuit_of work.old) inner) }
    ensures done { IfOk result (λ done. done ≡ true → (inner : Table)
        → table_at work.old.slots place ≡ Some inner
        → work.new ≡ with_slot (with_put inner work.old) place None) }
    ensures circuit { IfOk result (λ done. done ≡ true → (inner : Table)
        → table_at work.old.slots place ≡ Some inner
        → circuit_of work.new ≡ with_eliminated (circuit_of work.old) inner) }
    ensures same { IfOk result (λ done. done ≡ false → work.new ≡ work.old) }
{
    match put_at(alloc, work, place, rows) {
        Ok(()) => {
            work.remove(alloc, place)?;
            Ok(true)
        }
        Err(PutFault::Refused) => Ok(false),
        Err(PutFault::Memory) => Err(AllocError),
    }
}

// A value, if it counts and is not above a threshold.
fn counted(
    counts: bool,
    value: Result<i128, AllocError>,
    threshold: i32,
) -> Result<Option<i128>, AllocError>
    ensures { IfOk result (λ made. (worth : ℤ) × (value ≡ Ok worth)
        × (made ≡ when (counts && not (int_lt threshold worth)) worth)) }
{
    match value {
        Err(fault) => Err(fault),
        Ok(value) => {
            if counts && value <= i128::from(threshold) {
                Ok(Some(value))
            } else {
                Ok(None)
            }
        }
    }
}

// The elimination value of the table at an index, if it is no root and its value is not above a
// threshold.
fn worth_of<R: Row>(
    work: &WorkingNetwork<R>,
    place: usize,
    threshold: i32,
) -> Result<Option<i128>, AllocError>
    ensures { IfOk result (λ value. value ≡ worth_at threshold work.now place) }
{
    match work.entry(place) {
        None => Ok(None),
        Some(entry) => counted(work.is_inner(&entry.output), work.value(place), threshold),
    }
}

// Recomputes the value of the table at an index.
fn renew<R: Row>(
    alloc: Global,
    work: &WorkingNetwork<R>,
    place: usize,
    threshold: i32,
    waiting: &mut Waiting,
) -> Result<(), AllocError>
    ensures { OnOk result (IsPutAt place (worth_at threshold work.now place)
        waiting.old waiting.new) }
{
    put(alloc, waiting, place, worth_of(work, place, threshold)?)
}

// The values of the tables at all indices.
fn all_worths<R: Row>(
    alloc: Global,
    work: &WorkingNetwork<R>,
    threshold: i32,
) -> Result<Waiting, AllocError>
    ensures { IfOk result (λ waiting. (rows : ℕ) → AreWaiting threshold rows work.now waiting) }
{
    let mut waiting = Waiting::new(alloc);
    for place in 0..work.len() {
        renew(alloc, work, place, threshold, &mut waiting)?;
    }
    Ok(waiting)
}

// Recomputes the values of the tables at some indices.
fn renew_all<R: Row>(
    alloc: Global,
    work: &WorkingNetwork<R>,
    places: &[usize],
    threshold: i32,
    waiting: &mut Waiting,
) -> Result<(), AllocError>
    ensures { OnOk result (AreRenewed threshold work.now places.now waiting.old waiting.new) }
{
    for place in places {
        renew(alloc, work, *place, threshold, waiting)?;
    }
    Ok(())
}

// Eliminates the table at an index, if its fanouts can take it, and recomputes the values that this
// may change.
fn try_at<R: Row>(
    alloc: Global,
    work: &mut WorkingNetwork<R>,
    waiting: &mut Waiting,
    place: usize,
    threshold: i32,
    rows: usize,
) -> Result<bool, AllocError>
    requires sound { IsSound (circuit_of work.old) }
    requires there { is_some (table_at work.old.slots place) ≡ true }
    requires waiting { AreWaiting threshold rows work.old waiting.old }
    ensures answer { IfOk result (λ done. (inner : Table)
        → table_at work.old.slots place ≡ Some inner
        → done ≡ all_take rows (circuit_of work.old) inner) }
    ensures done { IfOk result (λ done. done ≡ true → (inner : Table)
        → table_at work.old.slots place ≡ Some inner
        → work.new ≡ with_slot (with_put inner work.old) place None) }
    ensures circuit { IfOk result (λ done. done ≡ true → (inner : Table)
        → table_at work.old.slots place ≡ Some inner
        → circuit_of work.new ≡ with_eliminated (circuit_of work.old) inner) }
    ensures same { IfOk result (λ done. done ≡ false
        → (work.new ≡ work.old) × (waiting.new ≡ waiting.old)) }
    ensures waiting { OnOk result (AreWaiting threshold rows work.new waiting.new) }
{
    let touched = touched_by(alloc, work, place)?;
    if eliminate_at(alloc, work, place, rows)? {
        renew_all(alloc, work, touched.as_slice(), threshold, waiting)?;
        Ok(true)
    } else {
        Ok(false)
    }
}

// Takes the next step, if there is one: the first table of least value that its fanouts can take is
// eliminated. One that they refuse leaves the queue until a step touches it.
fn take_step<R: Row>(
    alloc: Global,
    work: &mut WorkingNetwork<R>,
    waiting: &mut Waiting,
    threshold: i32,
    rows: usize,
) -> Result<bool, AllocError>
    requires sound { IsSound (circuit_of work.old) }
    requires waiting { AreWaiting threshold rows work.old waiting.old }
    ensures step { IfOk result (λ taken. eliminate_step threshold rows (circuit_of work.old)
        ≡ (if taken then Some (circuit_of work.new) else None)) }
    ensures same { IfOk result (λ taken. taken ≡ false → work.new ≡ work.old) }
    ensures fewer { IfOk result (λ taken. taken ≡ true
        → length (standing work.new.slots) < length (standing work.old.slots)) }
    ensures waiting { OnOk result (AreWaiting threshold rows work.new waiting.new) }
{
    while let Some(place) = next(waiting) {
        if try_at(alloc, work, waiting, place, threshold, rows)? {
            return Ok(true);
        }
        waiting.remove(&place);
    }
    Ok(false)
}

// Takes steps until none applies.
fn take_steps<R: Row>(
    alloc: Global,
    work: &mut WorkingNetwork<R>,
    threshold: i32,
    rows: usize,
) -> Result<(), AllocError>
    requires { IsSound (circuit_of work.old) }
    ensures sound { OnOk result (IsSound (circuit_of work.new)) }
    ensures chain { OnOk result (Chain (eliminate_step threshold rows) (circuit_of work.old)
        (circuit_of work.new)) }
{
    let mut waiting = all_worths(alloc, work, threshold)?;
    while take_step(alloc, work, &mut waiting, threshold, rows)? {}
    Ok(())
}

/// A new network, after elimination; the given one stays. Eliminates the first inner table of least
/// value, not above the threshold, that all its fanouts can take with no list of more than
/// `MAX_ROWS` rows and no result of more than `rows` rows or `MAX_INPUTS` inputs, until there is
/// none.
pub fn eliminate<R: Row>(
    alloc: Global,
    network: &Network<R>,
    threshold: i32,
    rows: usize,
) -> Result<Network<R>, AllocError>
    ensures chain { IfOk result (λ new. Chain (eliminate_step threshold rows) network.now new) }
    ensures bounds { rows + 1 < 2 ^ 33 → HasBounds network.now → IfOk result HasBounds }
{
    let mut work = WorkingNetwork::of(alloc, network)?;
    take_steps(alloc, &mut work, threshold, rows)?;
    Ok(work.into_network())
}
