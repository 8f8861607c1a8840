//! What a circuit needs: the outputs, the latches that the don't-care part reads, and all that the
//! tables and latches that are needed read.
//!
//! Source: the SIS manual (UCB/ERL M92/41), `sweep`: nodes that do not lead to an output are
//! removed. The needed names are a worklist, processed in the order in which they are found; the
//! table and the latch of each are looked up once.

ghost use Rattle.std.specs.Prelude.{◌≡◌, ℕ, ◌||◌, true, List, slice_get, bytes_eq, IfOk, OnOk};
ghost use Rattle.indexmap.specs.IndexMap.{get};
ghost use Rattle.circuit_model.specs.Names.{has, all_different};
ghost use Rattle.circuit_model.specs.Runs.{latch_outputs};
ghost use Rattle.circuit_model.specs.Soundness.{outputs_of};
ghost use Rattle.circuit_tables.specs.Listing.{names_with};
ghost use Rattle.net_wires.specs.Needed.{dont_care_reads, is_needed};
ghost use Rattle.net_wires.specs.Rules.{remove_dangling};
ghost use Rattle.net_wires.specs.Places.{LeadsToTables, LeadsToLatches};
ghost use Rattle.net_wires.specs.Reading.{read_by_tables, read_by_latches, held_by, IsReached};

use crate::leaves::leaves_read;
use crate::parts::{are_all_among, latches_among, tables_among, with_parts};
use crate::places::{latch_of, latch_places, table_of, table_places};
use circuit_model::{Circuit, Latch, Name, Table};
use indexmap::{IndexMap, IndexSet};
use sis_base::{Copied, Whole};
use std::alloc::{AllocError, Global};

// Adds names, each at the end if it is new.
fn add_names(alloc: Global, names: &mut IndexSet<Name>, more: &[Name]) -> Result<(), AllocError>
    ensures { OnOk result (names.new.keys ≡ names_with names.old.keys more.now) }
{
    for name in more {
        names.insert_full(name.copy(alloc)?)?;
    }
    Ok(())
}

// Adds the inputs of a signal's table.
fn add_inputs(
    alloc: Global,
    names: &mut IndexSet<Name>,
    name: &Name,
    tables: &[Table],
    places: &IndexMap<Name, usize>,
) -> Result<(), AllocError>
    requires differ { all_different (outputs_of tables.now) ≡ true }
    requires placed { LeadsToTables (get bytes_eq places.now) tables.now }
    ensures { OnOk result (names.new.keys ≡ names_with names.old.keys
        (read_by_tables name.now tables.now)) }
{
    match table_of(places, tables, name) {
        None => Ok(()),
        Some(table) => add_names(alloc, names, table.inputs.as_slice()),
    }
}

// Adds the input of a signal's latch.
fn add_held(
    alloc: Global,
    names: &mut IndexSet<Name>,
    name: &Name,
    latches: &[Latch],
    places: &IndexMap<Name, usize>,
) -> Result<(), AllocError>
    requires differ { all_different (held_by latches.now) ≡ true }
    requires placed { LeadsToLatches (get bytes_eq places.now) latches.now }
    ensures { OnOk result (names.new.keys ≡ names_with names.old.keys
        (read_by_latches name.now latches.now)) }
{
    match latch_of(places, latches, name) {
        None => Ok(()),
        Some(latch) => {
            names.insert_full(latch.input.copy(alloc)?)?;
            Ok(())
        }
    }
}

// A copy of the name at an index.
fn name_at(alloc: Global, names: &IndexSet<Name>, place: usize) -> Result<Option<Name>, AllocError>
    ensures { IfOk result (λ name. name ≡ slice_get names.now.keys place) }
{
    match names.as_slice().get(place) {
        None => Ok(None),
        Some(name) => Ok(Some(name.copy(alloc)?)),
    }
}

// The given names and all names to which tables and latches lead from them.
fn reached(
    alloc: Global,
    roots: IndexSet<Name>,
    tables: &[Table],
    table_places: &IndexMap<Name, usize>,
    latches: &[Latch],
    latch_places: &IndexMap<Name, usize>,
) -> Result<IndexSet<Name>, AllocError>
    requires tables_differ { all_different (outputs_of tables.now) ≡ true }
    requires tables_placed { LeadsToTables (get bytes_eq table_places.now) tables.now }
    requires latches_differ { all_different (held_by latches.now) ≡ true }
    requires latches_placed { LeadsToLatches (get bytes_eq latch_places.now) latches.now }
    ensures { IfOk result (λ names. IsReached roots.keys tables.now latches.now names.keys) }
{
    let mut names = roots;
    // no set holds so many names, so the loop never runs out
    for next in 0..usize::MAX {
        match name_at(alloc, &names, next)? {
            None => return Ok(names),
            Some(name) => {
                add_inputs(alloc, &mut names, &name, tables, table_places)?;
                add_held(alloc, &mut names, &name, latches, latch_places)?;
            }
        }
    }
    Err(AllocError)
}

// What is needed from the start: the outputs, and what the don't-care part reads.
fn roots(alloc: Global, circuit: &Circuit) -> Result<IndexSet<Name>, AllocError>
    ensures { IfOk result (λ names. (name : List ℕ) → has names.keys name
        ≡ (has circuit.now.outputs name || dont_care_reads circuit.now name)) }
{
    let mut names = leaves_read(alloc, circuit)?;
    add_names(alloc, &mut names, circuit.outputs.as_slice())?;
    Ok(names)
}

// The names that are needed.
fn needed_names(alloc: Global, circuit: &Circuit) -> Result<IndexSet<Name>, AllocError>
    requires tables_differ { all_different (outputs_of circuit.now.tables) ≡ true }
    requires latches_differ { all_different (latch_outputs circuit.now) ≡ true }
    ensures { IfOk result (λ names. (name : List ℕ) → has names.keys name
        ≡ is_needed circuit.now name) }
{
    let tables = circuit.tables.as_slice();
    let latches = circuit.latches.as_slice();
    // Wholes, so that one call drops each.
    let to_tables = Whole {
        it: table_places(alloc, tables)?,
    };
    let to_latches = Whole {
        it: latch_places(alloc, latches)?,
    };
    let begun = roots(alloc, circuit)?;
    let names = reached(alloc, begun, tables, &to_tables.it, latches, &to_latches.it)?;
    Ok(names)
}

/// The circuit without what is not needed; `None` if everything is needed. No two tables and no two
/// latches may have the same signal.
pub fn dangling_step(alloc: Global, circuit: &Circuit) -> Result<Option<Circuit>, AllocError>
    requires tables_differ { all_different (outputs_of circuit.now.tables) ≡ true }
    requires latches_differ { all_different (latch_outputs circuit.now) ≡ true }
    ensures { IfOk result (λ next. next ≡ remove_dangling circuit.now) }
{
    // A whole, so that one call drops it.
    let needed = needed_names(alloc, circuit)?;
    let needed = Whole { it: needed };
    if are_all_among(circuit, &needed.it) {
        return Ok(None);
    }
    let tables = tables_among(alloc, circuit.tables.as_slice(), &needed.it)?;
    let latches = latches_among(alloc, circuit.latches.as_slice(), &needed.it)?;
    let made = with_parts(alloc, circuit, tables, latches)?;
    Ok(Some(made))
}
