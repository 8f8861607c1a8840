//! One step of extraction: the best candidate becomes a table, and all earlier tables are divided
//! by it.
//!
//! Source: Brayton, Rudell, Sangiovanni-Vincentelli and Wang, "MIS: A Multiple-Level Logic
//! Optimization System" (1987); the SIS report (UCB/ERL M92/41), `fx`, `gkx` and `gcx`. Only tables
//! that may read all names of the candidate are divided; no other table would change. Invariant:
//! what is known of gains and savings is that of the current network. Callers rely on `IsTaken`,
//! which leaves fewer literals, on false exactly if no candidate saves a literal, and on
//! `NodeLimit` only if there is no room.

ghost use Rattle.std.specs.Prelude.{◌≡◌, ◌≤◌, ◌<◌, true, false, Some, None, length, IfOk, IfErr, OnOk, MatchOption};
ghost use Rattle.std.specs.List.{AllByRecursion};
ghost use Rattle.circuit_model.specs.Names.{all_different};
ghost use Rattle.circuit_model.specs.Soundness.{IsSound};
ghost use Rattle.net_candidates.specs.Candidates.{literals_in};
ghost use Rattle.net_candidates.specs.Extracting.{IsDone};
ghost use Rattle.net_core.specs.Places.{written_of};
ghost use Rattle.net_core.specs.Reads.{IsBounded};
ghost use Rattle.net_core.specs.Tables.{IsOverInputs};
ghost use Rattle.alg_tables.specs.Dividing.{divided};
ghost use Rattle.net_work.specs.Placed.{standing, circuit_of, table_at, with_slot};
ghost use Rattle.net_extract.specs.Dividing.{divided_slot, with_divided, IsMade, IsMadeAt, IsAdded};
ghost use Rattle.net_extract.specs.Going.{IsStopped, IsNotAdded, IsPut, IsTaken};
ghost use Rattle.net_extract.specs.Known.{AreCounted, AreSaved, StaySaved};

use crate::fault::ExtractFault;
use crate::finding::best_known;
use crate::known::{Known, add_known, set_known};
use alg_tables::{cover_table, divided_table};
use circuit_model::Name;
use cover_names::Cube;
use cube_cover::Row;
use net_candidates::Rule;
use net_core::{AddFault, CoverTable, Entry, bounded};
use net_savings::places_for;
use net_work::WorkingNetwork;
use std::alloc::{AllocError, Global};

// Adds the table of a cover.
fn add_table<R: Row>(
    alloc: Global,
    work: &mut WorkingNetwork<R>,
    known: &mut Known,
    cover: &[Cube],
) -> Result<Name, ExtractFault>
    requires known { AreCounted work.old.slots known.old.gains }
    ensures added { IfOk result (λ name. IsAdded cover.now name work.old work.new) }
    ensures known { IfOk result (λ _. AreCounted work.new.slots known.new.gains) }
    ensures saved { IfOk result (λ _. StaySaved work.old known.old.savings work.new
        known.new.savings) }
    ensures fault { IfErr result (IsNotAdded (circuit_of work.old)) }
{
    let made = cover_table(alloc, cover)?;
    let table = bounded(made)?;
    match add_known(alloc, work, known, table) {
        Ok(name) => Ok(name),
        Err(AddFault::NodeLimit) => Err(ExtractFault::NodeLimit),
        Err(AddFault::Memory) => Err(ExtractFault::Memory),
    }
}

// What a table becomes if it is divided; none if it stays as it is.
fn divided_of<R: Row>(
    alloc: Global,
    entry: &Entry<R>,
    name: &Name,
    cover: &[Cube],
) -> Result<Option<CoverTable<R>>, AllocError>
    requires over { IsOverInputs entry.now.table }
    requires once { all_different entry.now.table.inputs ≡ true }
    ensures { IfOk result (λ found. MatchOption found
        (divided name.now true cover.now (written_of entry.now) ≡ written_of entry.now)
        (IsMade name.now cover.now (written_of entry.now))) }
{
    match divided_table(alloc, &entry.table, name, true, cover)? {
        None => Ok(None),
        Some(made) => {
            let table = bounded(made)?;
            Ok(Some(table))
        }
    }
}

// What the table at an index becomes if it is divided; none if it stays as it is, or if there is
// none.
fn divided_at<R: Row>(
    alloc: Global,
    work: &WorkingNetwork<R>,
    name: &Name,
    cover: &[Cube],
    place: usize,
) -> Result<Option<CoverTable<R>>, AllocError>
    ensures { IfOk result (λ found. MatchOption found
        (divided_slot name.now cover.now (table_at work.now.slots place)
        ≡ table_at work.now.slots place) (IsMadeAt name.now cover.now work.now.slots place)) }
{
    match work.entry(place) {
        None => Ok(None),
        Some(entry) => divided_of(alloc, entry, name, cover),
    }
}

// Divides the table at an index, if there is one.
fn divide_at<R: Row>(
    alloc: Global,
    work: &mut WorkingNetwork<R>,
    known: &mut Known,
    name: &Name,
    cover: &[Cube],
    place: usize,
) -> Result<(), AllocError>
    requires known { AreCounted work.old.slots known.old.gains }
    ensures known { OnOk result (AreCounted work.new.slots known.new.gains) }
    ensures saved { OnOk result (StaySaved work.old known.old.savings work.new known.new.savings) }
    ensures divided { OnOk result (work.new ≡ with_slot work.old place
        (divided_slot name.now cover.now (table_at work.old.slots place))) }
    ensures bounded { OnOk result (AllByRecursion IsBounded (standing work.old.slots)
        → AllByRecursion IsBounded (standing work.new.slots)) }
{
    match divided_at(alloc, work, name, cover, place)? {
        None => Ok(()),
        Some(table) => set_known(alloc, work, known, place, table),
    }
}

// Divides the tables at some indices.
fn divide_places<R: Row>(
    alloc: Global,
    work: &mut WorkingNetwork<R>,
    known: &mut Known,
    name: &Name,
    cover: &[Cube],
    places: &[usize],
) -> Result<(), AllocError>
    requires known { AreCounted work.old.slots known.old.gains }
    ensures known { OnOk result (AreCounted work.new.slots known.new.gains) }
    ensures saved { OnOk result (StaySaved work.old known.old.savings work.new known.new.savings) }
    ensures divided { OnOk result (work.new ≡ with_divided name.now cover.now places.now work.old) }
    ensures bounded { OnOk result (AllByRecursion IsBounded (standing work.old.slots)
        → AllByRecursion IsBounded (standing work.new.slots)) }
{
    for place in places {
        divide_at(alloc, work, known, name, cover, *place)?;
    }
    Ok(())
}

// Extracts a cover: tables that may read all that it reads are divided, and the others stay as they
// are. `NodeLimit` if there is no room for its table. After an error the network may be any.
fn put<R: Row>(
    alloc: Global,
    work: &mut WorkingNetwork<R>,
    known: &mut Known,
    cover: &[Cube],
) -> Result<(), ExtractFault>
    requires some { 1 ≤ literals_in cover.now }
    requires known { AreCounted work.old.slots known.old.gains }
    ensures put { OnOk result (IsPut cover.now work.old work.new) }
    ensures known { OnOk result (AreCounted work.new.slots known.new.gains) }
    ensures saved { OnOk result (StaySaved work.old known.old.savings work.new known.new.savings) }
    ensures fault { IfErr result (IsNotAdded (circuit_of work.old)) }
{
    let places = places_for(alloc, work, cover)?;
    let name = add_table(alloc, work, known, cover)?;
    divide_places(alloc, work, known, &name, cover, places.as_slice())?;
    Ok(())
}

/// Extracts the best candidate; false if none saves a literal. After an error the network may be
/// any.
pub(crate) fn step<R: Row>(
    alloc: Global,
    work: &mut WorkingNetwork<R>,
    known: &mut Known,
    rule: Rule,
) -> Result<bool, ExtractFault>
    requires sound { IsSound (circuit_of work.old) }
    requires known { AreCounted work.old.slots known.old.gains }
    requires saved { AreSaved rule work.old known.old.savings }
    ensures known { OnOk result (AreCounted work.new.slots known.new.gains) }
    ensures saved { OnOk result (AreSaved rule work.new known.new.savings) }
    ensures done { IfOk result (λ taken. taken ≡ false → (work.new ≡ work.old) × IsDone rule
        (circuit_of work.old)) }
    ensures taken { IfOk result (λ taken. taken ≡ true → IsTaken rule work.old work.new) }
    ensures stopped { IfErr result (IsStopped rule (circuit_of work.old)) }
{
    let name = work.new_name(alloc)?;
    match best_known(alloc, work, rule, &name, known)? {
        None => Ok(false),
        Some(cover) => {
            put(alloc, work, known, cover.as_slice())?;
            Ok(true)
        }
    }
}
