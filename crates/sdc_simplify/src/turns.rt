//! One step of simplification: the table at an index is replaced by its minimum under its local
//! don't-cares.
//!
//! Source: De Micheli, "Synthesis and Optimization of Digital Circuits", chapters 7 and 8.
//! `on_cover` gives the rows where the function is 1, of a table of either phase; `least_cover`
//! makes them prime and irredundant, where the points that violate a tie are free; then the table
//! is brought to its normal form. Callers rely on `minimized` of `specs/Minimized.antt`, and on a
//! refusal only if the list of rows where the function is 1 must be made and has more than
//! `MAX_ROWS` rows.

ghost use Rattle.std.specs.Prelude.{◌≡◌, ℕ, true, false, Some, List, map, length, is_some, IfOk, IfErr, OnOk};
ghost use Rattle.circuit_model.specs.Names.{all_different};
ghost use Rattle.circuit_model.specs.Soundness.{IsSound};
ghost use Rattle.circuit_model.specs.declared.circuit.Circuit.{Circuit};
ghost use Rattle.circuit_model.specs.declared.circuit.Table.{Table};
ghost use Rattle.cover_min.specs.Minimum.{minimum_rows};
ghost use Rattle.cover_search.specs.Ties.{meaning_of};
ghost use Rattle.sdc_simplify.specs.Local.{is_local};
ghost use Rattle.sdc_simplify.specs.Minimized.{on_rows, minimized, is_list_long};
ghost use Rattle.net_core.specs.Places.{written_of};
ghost use Rattle.net_core.specs.Tables.{named, HasCharacters, IsOverInputs};
ghost use Rattle.net_work.specs.Placed.{circuit_of, table_at, with_slot};
ghost use Rattle.sdc_simplify.specs.Simplify.{IsCause};
ghost use Rattle.sdc_simplify.specs.Simplified.{own_refusal};
ghost use Rattle.sdc_simplify.specs.Turns.{AreLocal, AreOfWidth, seen};

use crate::fault::SimplifyFault;
use crate::ties::ties_at;
use circuit_model::Name;
use cover_min::{OracleFault, prime_irredundant};
use cover_ops::{ListFault, on_list};
use cover_search::{NodeConstraint, TiedCover};
use cube_cover::{Cover, Row};
use net_core::{CoverTable, Entry, tidy};
use net_work::WorkingNetwork;
use sis_base::Copied;
use sis_base::limits::MAX_ROWS;
use std::alloc::{AllocError, Global};

// The fault of a list that was not made for the table of a name.
fn fault_of(alloc: Global, name: &Name, fault: ListFault) -> SimplifyFault
    ensures limit { fault ≡ ListFault.CubeLimit → IsCause (Some name.now) result }
    ensures memory { fault ≡ ListFault.Memory → result ≡ SimplifyFault.Memory }
{
    match fault {
        ListFault::Memory => SimplifyFault::Memory,
        ListFault::CubeLimit => match name.copy(alloc) {
            Ok(name) => SimplifyFault::CubeLimit(name),
            Err(_) => SimplifyFault::Memory,
        },
    }
}

/// The rows where the table of a name is 1: its own rows if its phase is 1, and the list of the
/// rows where it is 1 otherwise. `CubeLimit` with the name if that list must be made and has more
/// than `MAX_ROWS` rows.
pub fn on_cover<R: Row>(
    alloc: Global,
    name: &Name,
    table: &CoverTable<R>,
) -> Result<Cover<R>, SimplifyFault>
    requires { IsOverInputs table.now }
    ensures rows { IfOk result (λ made. made ≡ record {
      width = length table.now.inputs;
      rows = on_rows (named name.now table.now);
    }) }
    ensures within { OnOk result (is_list_long (named name.now table.now) ≡ false) }
    ensures fault { IfErr result (λ fault.
        IsCause (own_refusal (named name.now table.now)) fault) }
{
    let cover = &table.cover;
    if table.phase {
        return Ok(cover.copy(alloc)?);
    }
    match on_list(alloc, cover, false, MAX_ROWS) {
        Ok(list) => Ok(list),
        Err(fault) => Err(fault_of(alloc, name, fault)),
    }
}

// The minimum of a cover, where the points that violate a tie are free.
fn least_cover<R: Row>(
    alloc: Global,
    cover: Cover<R>,
    ties: Vec<NodeConstraint<R>>,
) -> Result<Cover<R>, AllocError>
    requires { AreOfWidth cover.width ties.items }
    ensures { IfOk result (λ made. made ≡ record cover {
      rows = minimum_rows (meaning_of (record {
        width = cover.width;
        rows = cover.rows;
        ties =
            seen ties.items;
      })) cover.rows;
    }) }
{
    let mut oracle = TiedCover::new(cover.copy(alloc)?, ties);
    match prime_irredundant(alloc, cover, &mut oracle) {
        Ok(least) => Ok(least),
        Err(OracleFault::Memory) => Err(AllocError),
        Err(OracleFault::Refused) => unreachable!(),
    }
}

// The minimum of a table, given the ties that describe its local don't-cares.
fn least_table<R: Row>(
    alloc: Global,
    entry: &Entry<R>,
    ties: Vec<NodeConstraint<R>>,
) -> Result<CoverTable<R>, SimplifyFault>
    requires over { IsOverInputs entry.now.table }
    requires shaped { HasCharacters (length entry.now.table.inputs) (written_of entry.now).rows }
    requires wide { AreOfWidth (length entry.now.table.inputs) ties.items }
    ensures minimized { IfOk result (λ made. (circuit : Circuit) → AreLocal circuit
        (written_of entry.now) ties.items → named entry.now.output made ≡ minimized
        (written_of entry.now) (is_local circuit (written_of entry.now))) }
    ensures over { IfOk result IsOverInputs }
    ensures once { IfOk result (λ made. all_different made.inputs ≡ true) }
    ensures within { OnOk result (is_list_long (written_of entry.now) ≡ false) }
    ensures fault { IfErr result (λ fault. IsCause (own_refusal (written_of entry.now)) fault) }
{
    let cover = on_cover(alloc, &entry.output, &entry.table)?;
    let least = CoverTable {
        inputs: entry.table.inputs.copy(alloc)?,
        cover: least_cover(alloc, cover, ties)?,
        phase: true,
    };
    let made = tidy(alloc, &least)?;
    Ok(made)
}

// The minimum of the table at an index under its local don't-cares.
fn least_at<R: Row>(
    alloc: Global,
    work: &WorkingNetwork<R>,
    place: usize,
) -> Result<CoverTable<R>, SimplifyFault>
    requires sound { IsSound (circuit_of work.now) }
    requires there { is_some (table_at work.now.slots place) ≡ true }
    ensures minimized { IfOk result (λ made. (table : Table) → table_at work.now.slots place
        ≡ Some table → named table.output made ≡ minimized table
        (is_local (circuit_of work.now) table)) }
    ensures over { IfOk result IsOverInputs }
    ensures once { IfOk result (λ made. all_different made.inputs ≡ true) }
    ensures within { OnOk result ((table : Table) → table_at work.now.slots place ≡ Some table
        → is_list_long table ≡ false) }
    ensures fault { IfErr result (λ fault. (table : Table) → table_at work.now.slots place
        ≡ Some table → IsCause (own_refusal table) fault) }
{
    let ties = ties_at(alloc, work, place)?;
    match work.entry(place) {
        None => unreachable!(),
        Some(entry) => least_table(alloc, entry, ties),
    }
}

/// Replaces the table at an index by its minimum under its local don't-cares; refused if its
/// on-list must be made and is too long. After an error for want of memory the network may be any.
pub(crate) fn minimize_at<R: Row>(
    alloc: Global,
    work: &mut WorkingNetwork<R>,
    place: usize,
) -> Result<(), SimplifyFault>
    requires sound { IsSound (circuit_of work.old) }
    requires there { is_some (table_at work.old.slots place) ≡ true }
    ensures minimized { OnOk result ((table : Table) → table_at work.old.slots place
        ≡ Some table → work.new ≡ with_slot work.old place
        (Some (minimized table (is_local (circuit_of work.old) table)))) }
    ensures within { OnOk result ((table : Table) → table_at work.old.slots place ≡ Some table
        → is_list_long table ≡ false) }
    ensures fault { IfErr result (λ fault. (table : Table) → table_at work.old.slots place
        ≡ Some table → IsCause (own_refusal table) fault) }
{
    let table = least_at(alloc, work, place)?;
    work.set(alloc, place, table)?;
    Ok(())
}
