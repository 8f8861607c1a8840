//! The gains of all tables of a network, counted from the beginning.
//!
//! Names of all tables and inputs get numbers, and so do names in brackets ahead of time, since new
//! tables take the first free ones. There are no gains if a table has a row twice, an index is
//! empty, or a name has no number; no clause says when. Callers rely on gains, if there are any, to
//! be those of all tables (`AreCounted`).

ghost use Rattle.std.specs.Prelude.{◌≡◌, true, Option, List, [], ◌∷◌, ◌++◌, IfOk};
ghost use Rattle.circuit_model.specs.declared.circuit.Table.{Table};
ghost use Rattle.net_work.specs.Placed.{table_at};
ghost use Rattle.net_extract.specs.Known.{IsCounted, AreCounted};

use circuit_model::Name;
use cube_cover::Row;
use net_core::{Entry, bracketed_name};
use net_gains::DivisorGains;
use net_work::WorkingNetwork;
use sis_base::Copied;
use std::alloc::{AllocError, Global};

// How many names in brackets get numbers ahead of time, however few tables there are.
const NAMES_AHEAD: u64 = 1_000;

// Appends the names of a table and its inputs.
fn push_entry<R: Row>(
    alloc: Global,
    names: &mut Vec<Name>,
    entry: &Entry<R>,
) -> Result<(), AllocError> {
    for input in entry.table.inputs.as_slice() {
        names.push(input.copy(alloc)?)?;
    }
    names.push(entry.output.copy(alloc)?)?;
    Ok(())
}

// Appends the names of the table at an index and its inputs.
fn push_place<R: Row>(
    alloc: Global,
    names: &mut Vec<Name>,
    work: &WorkingNetwork<R>,
    place: usize,
) -> Result<(), AllocError> {
    match work.entry(place) {
        None => Ok(()),
        Some(entry) => push_entry(alloc, names, entry),
    }
}

// Appends the first names in brackets.
fn push_bracketed(alloc: Global, names: &mut Vec<Name>, count: u64) -> Result<(), AllocError> {
    for number in 0..count {
        names.push(bracketed_name(alloc, number)?)?;
    }
    Ok(())
}

// The names of all tables and inputs, and names in brackets, of which new tables take the first
// that are free.
fn names_of<R: Row>(alloc: Global, work: &WorkingNetwork<R>) -> Result<Vec<Name>, AllocError> {
    let mut names = Vec::new(alloc);
    for place in 0..work.len() {
        push_place(alloc, &mut names, work, place)?;
    }
    let ahead = (work.len() as u64)
        .saturating_mul(2)
        .saturating_add(NAMES_AHEAD);
    push_bracketed(alloc, &mut names, ahead)?;
    Ok(names)
}

// Appends the table at an index to the gains; false if there is none, it has a row twice, or an
// input has no number.
fn count_at<R: Row>(
    alloc: Global,
    work: &WorkingNetwork<R>,
    gains: &mut DivisorGains,
    place: usize,
) -> Result<bool, AllocError>
    ensures { IfOk result (λ counted. counted ≡ true → (slots : List (Option Table))
        → IsCounted slots gains.old → IsCounted (slots ++ table_at work.now.slots place ∷ [])
        gains.new) }
{
    match work.entry(place) {
        None => Ok(false),
        Some(entry) => gains.push(alloc, &entry.table),
    }
}

/// The gains of all tables; none if an index is empty, a table has a row twice, or an input has no
/// number, which no clause says. Also an error if a total or the number of names is too large for a
/// machine word.
pub(crate) fn count<R: Row>(
    alloc: Global,
    work: &WorkingNetwork<R>,
) -> Result<Option<DivisorGains>, AllocError>
    ensures { IfOk result (λ found. AreCounted work.now.slots found) }
{
    let names = names_of(alloc, work)?;
    let mut gains = DivisorGains::new(alloc, names)?;
    for place in 0..work.len() {
        if !count_at(alloc, work, &mut gains, place)? {
            return Ok(None);
        }
    }
    Ok(Some(gains))
}
