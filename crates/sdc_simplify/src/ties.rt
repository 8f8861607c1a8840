//! The ties that describe the local don't-cares of a table: one for each input whose table reads
//! only what the table reads.
//!
//! Source: De Micheli, "Synthesis and Optimization of Digital Circuits", chapter 8 (satisfiability
//! don't-care conditions). A tie says that the bit of an input is the value of the input's own
//! table, whose cover is rewritten over the inputs of the outer table. Callers rely on `AreLocal`:
//! a point keeps all ties exactly if it is no local don't-care.

ghost use Rattle.std.specs.Prelude.{◌≡◌, ℕ, ◌<◌, true, false, not, Some, List, [], map, is_some, length, position, bytes_eq, slice_index_or, IfOk, OnOk};
ghost use Rattle.std.specs.List.{list_all};
ghost use Rattle.circuit_model.specs.Names.{has, all_different};
ghost use Rattle.circuit_model.specs.Soundness.{IsSound};
ghost use Rattle.circuit_model.specs.declared.circuit.Table.{Table};
ghost use Rattle.sdc_simplify.specs.Local.{differs};
ghost use Rattle.net_core.specs.Places.{written_of};
ghost use Rattle.net_core.specs.Tables.{IsOverInputs};
ghost use Rattle.net_work.specs.Placed.{circuit_of, table_at};
ghost use Rattle.alg_tables.specs.Taking.{entries};
ghost use Rattle.sdc_simplify.specs.Turns.{AreLocal, IsSpread, IsTiedMore, differs_there};

use alg_tables::place_among;
use circuit_model::{Name, has_name};
use cover_ops::place_rows;
use cover_search::NodeConstraint;
use cube_cover::{Cover, Row};
use net_core::{CoverTable, Entry};
use net_work::WorkingNetwork;
use std::alloc::{AllocError, Global};

// Whether all of some other names stand among names.
fn are_among(names: &[Name], others: &[Name]) -> bool
    ensures { result ≡ list_all (has names.now) others.now }
{
    others.iter().all(|name| has_name(names, name))
}

// The index of a name in a list that has it.
fn known_place(names: &[Name], name: &Name) -> usize
    requires { has names.now name.now ≡ true }
    ensures { Some result ≡ position (bytes_eq name.now) names.now }
{
    match place_among(names, name) {
        Some(place) => place,
        None => unreachable!(),
    }
}

// The index in a list of each of some other names, all of which are in it.
fn known_places(alloc: Global, names: &[Name], others: &[Name]) -> Result<Vec<usize>, AllocError>
    requires { list_all (has names.now) others.now ≡ true }
    ensures { IfOk result (λ places. map Some places.items ≡ entries names.now others.now) }
{
    let mut places = Vec::with_capacity(alloc, others.len())?;
    for name in others {
        places.push(known_place(names, name))?;
    }
    Ok(places)
}

// The cover of a table rewritten over a list of names that has all its inputs.
fn spread_cover<R: Row>(
    alloc: Global,
    names: &[Name],
    inner: &CoverTable<R>,
) -> Result<Cover<R>, AllocError>
    requires once { all_different names.now ≡ true }
    requires among { list_all (has names.now) inner.now.inputs ≡ true }
    requires over { IsOverInputs inner.now }
    requires inner_once { all_different inner.now.inputs ≡ true }
    ensures { IfOk result (λ made. IsSpread names.now inner.now.inputs inner.now.cover.rows made) }
{
    let places = known_places(alloc, names, inner.inputs.as_slice())?;
    let width = names.len();
    let rows = place_rows(alloc, inner.cover.rows(), places.as_slice(), width)?;
    Ok(Cover::of(width, rows))
}

// Appends the tie between an input of a table and the inner table that drives it, if that one reads
// only what the table reads.
fn push_tie<R: Row>(
    alloc: Global,
    ties: &mut Vec<NodeConstraint<R>>,
    entry: &Entry<R>,
    place: usize,
    inner: &Entry<R>,
) -> Result<(), AllocError>
    requires place { place < length entry.now.table.inputs }
    requires once { all_different entry.now.table.inputs ≡ true }
    requires inner_over { IsOverInputs inner.now.table }
    requires inner_once { all_different inner.now.table.inputs ≡ true }
    ensures { OnOk result (IsTiedMore (length entry.now.table.inputs) ties.old.items ties.new.items
        (λ point. not (differs (written_of entry.now) point
        (slice_index_or entry.now.table.inputs place []) (written_of inner.now)))) }
{
    let names = entry.table.inputs.as_slice();
    if !are_among(names, inner.table.inputs.as_slice()) {
        return Ok(());
    }
    let cover = spread_cover(alloc, names, &inner.table)?;
    ties.push(NodeConstraint {
        place,
        cover,
        phase: inner.table.phase,
    })?;
    Ok(())
}

// Appends the tie of an input of a table, if a table drives it that reads only what the table
// reads.
fn push_tie_at<R: Row>(
    alloc: Global,
    work: &WorkingNetwork<R>,
    ties: &mut Vec<NodeConstraint<R>>,
    entry: &Entry<R>,
    place: usize,
    input: &Name,
) -> Result<(), AllocError>
    requires sound { IsSound (circuit_of work.now) }
    requires place { place < length entry.now.table.inputs }
    requires input { input.now ≡ slice_index_or entry.now.table.inputs place [] }
    requires once { all_different entry.now.table.inputs ≡ true }
    ensures { OnOk result (IsTiedMore (length entry.now.table.inputs) ties.old.items ties.new.items
        (λ point. not (differs_there (circuit_of work.now) (written_of entry.now) point input.now))) }
{
    match work.place_of(input) {
        None => Ok(()),
        Some(at) => match work.entry(at) {
            None => unreachable!(),
            Some(inner) => push_tie(alloc, ties, entry, place, inner),
        },
    }
}

// The ties of a table.
fn ties_of<R: Row>(
    alloc: Global,
    work: &WorkingNetwork<R>,
    entry: &Entry<R>,
) -> Result<Vec<NodeConstraint<R>>, AllocError>
    requires sound { IsSound (circuit_of work.now) }
    requires once { all_different entry.now.table.inputs ≡ true }
    ensures { IfOk result (λ ties. AreLocal (circuit_of work.now) (written_of entry.now) ties.items) }
{
    let mut ties = Vec::new(alloc);
    for (place, input) in entry.table.inputs.as_slice().iter().enumerate() {
        push_tie_at(alloc, work, &mut ties, entry, place, input)?;
    }
    Ok(ties)
}

/// The ties of the table at an index.
pub(crate) fn ties_at<R: Row>(
    alloc: Global,
    work: &WorkingNetwork<R>,
    place: usize,
) -> Result<Vec<NodeConstraint<R>>, AllocError>
    requires sound { IsSound (circuit_of work.now) }
    requires there { is_some (table_at work.now.slots place) ≡ true }
    ensures { IfOk result (λ ties. (table : Table) → table_at work.now.slots place ≡ Some table
        → AreLocal (circuit_of work.now) table ties.items) }
{
    match work.entry(place) {
        None => unreachable!(),
        Some(entry) => ties_of(alloc, work, entry),
    }
}
