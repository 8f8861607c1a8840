//! Whether a cover fits the limit of inputs: neither its table nor a table divided by it exceeds
//! `MAX_INPUTS`.
//!
//! Division adds at most one input, so only tables that have `MAX_INPUTS` inputs or more are
//! divided for the test. Callers rely on `LeavesNarrow`.

ghost use Rattle.std.specs.Prelude.{◌≤◌, ◌↔◌, IfOk, IsTrue};
ghost use Rattle.std.specs.List.{AllByRecursion};
ghost use Rattle.circuit_model.specs.Soundness.{IsSound};
ghost use Rattle.net_core.specs.Fresh.{IsNewName};
ghost use Rattle.net_work.specs.Placed.{standing, circuit_of, table_at};
ghost use Rattle.net_candidates.specs.Candidates.{literals_in};
ghost use Rattle.net_savings.specs.Saving.{IsNarrowIn, LeavesNarrow};

use crate::saving::{loss_of, places_for};
use alg_tables::cover_table;
use circuit_model::Name;
use cover_names::Cube;
use cube_cover::Row;
use net_core::CoverTable;
use net_work::WorkingNetwork;
use sis_base::limits::MAX_INPUTS;
use std::alloc::{AllocError, Global};

// Whether the table at an index, if there is one, stays as it is or becomes narrow. Division adds
// at most one input, so only a table that has as many inputs as are allowed is divided for the
// test.
fn is_narrow_at<R: Row>(
    alloc: Global,
    work: &WorkingNetwork<R>,
    name: &Name,
    cover: &[Cube],
    place: usize,
) -> Result<bool, AllocError>
    requires sound { IsSound (circuit_of work.now) }
    requires free { IsNewName (circuit_of work.now) name.now }
    ensures { IfOk result (λ narrow. IsTrue narrow ↔ IsNarrowIn name.now cover.now
        (table_at work.now.slots place)) }
{
    match work.entry(place) {
        None => Ok(true),
        Some(entry) => {
            if entry.table.inputs.len() < MAX_INPUTS {
                Ok(true)
            } else {
                let loss = loss_of(alloc, &entry.table, name, cover)?;
                Ok(loss.is_some())
            }
        }
    }
}

// Whether all tables at some indices stay as they are or become narrow.
fn are_narrow_at<R: Row>(
    alloc: Global,
    work: &WorkingNetwork<R>,
    name: &Name,
    cover: &[Cube],
    places: &[usize],
) -> Result<bool, AllocError>
    requires sound { IsSound (circuit_of work.now) }
    requires free { IsNewName (circuit_of work.now) name.now }
    ensures { IfOk result (λ narrow. IsTrue narrow ↔ AllByRecursion
        (λ place. IsNarrowIn name.now cover.now (table_at work.now.slots place)) places.now) }
{
    for place in places {
        if !is_narrow_at(alloc, work, name, cover, *place)? {
            return Ok(false);
        }
    }
    Ok(true)
}

/// Whether all tables fit the limit if a cover is extracted under a new name: neither its own table
/// nor any table that it changes then has more than `MAX_INPUTS` inputs.
pub fn fits_input_limit<R: Row>(
    alloc: Global,
    work: &WorkingNetwork<R>,
    name: &Name,
    cover: &[Cube],
) -> Result<bool, AllocError>
    requires sound { IsSound (circuit_of work.now) }
    requires free { IsNewName (circuit_of work.now) name.now }
    requires some { 1 ≤ literals_in cover.now }
    ensures { IfOk result (λ narrow. IsTrue narrow ↔ LeavesNarrow
        (standing work.now.slots) name.now cover.now) }
{
    let table: CoverTable<R> = cover_table(alloc, cover)?;
    if MAX_INPUTS < table.inputs.len() {
        return Ok(false);
    }
    let places = places_for(alloc, work, cover)?;
    are_narrow_at(alloc, work, name, cover, places.as_slice())
}
