//! Folds a table: merges the columns of an input that is listed more than once.
//!
//! The distinct inputs come in the order of their first appearance. The characters of a row under
//! one input are merged, and a row is dropped if they ask the input for both 0 and 1: such a cube
//! is empty (De Micheli, "Synthesis and Optimization of Digital Circuits", chapter 7). A table of
//! phase 0 that loses all its rows becomes the constant 1. Source of the tables: the BLIF appendix
//! of the SIS report (UCB/ERL M92/41), `.names`. `fold_laws` states the properties of the result.

ghost use Rattle.std.specs.Prelude.{◌≡◌, ◌==◌, ◌&&◌, not, Some, None, ◌++◌, map, length, replicate, slice_index_or, slice_set, bytes_eq, option_to_list, IfOk, OnOk, if◌then◌else◌};
ghost use Rattle.std.specs.List.{filter_map};
ghost use Rattle.circuit_model.specs.declared.circuit.Tri.TheVariants.{Free};
ghost use Rattle.circuit_tables.specs.Folding.{merged, each_once, folded_rows, constant_one, with_rows, folded};
ghost use Rattle.circuit_tables.specs.Listing.{places_of, merge_row, dashes_of};

use circuit_model::{Name, Row, Rows, Table, Tri, names_copied};
use indexmap::IndexSet;
use sis_base::{Copied, Sequence};
use std::alloc::{AllocError, Global};

/// Distinct names, and the index among them of each name of a list.
struct Once {
    names: IndexSet<Name>,
    places: Vec<usize>,
}

// By hand, so that one call drops both fields.
impl Drop for Once {
    fn drop(self) {
        let Once {
            names: _names,
            places: _places,
        } = self;
    }
}

/// The distinct names of the inputs, and the index of each input among them.
fn once_of(alloc: Global, inputs: &[Name]) -> Result<Once, AllocError>
    ensures names { IfOk result (λ once. once.names.keys ≡ each_once inputs.now) }
    ensures places { IfOk result (λ once. once.places.items ≡ places_of inputs.now) }
{
    let mut names = IndexSet::new(alloc);
    let mut places = Vec::with_capacity(alloc, inputs.len())?;
    for name in inputs {
        let (place, _) = names.insert_full(name.copy(alloc)?)?;
        places.push(place)?;
    }
    Ok(Once { names, places })
}

/// What two characters ask for together.
fn merge(first: Tri, second: Tri) -> Option<Tri>
    ensures { result ≡ merged first second }
{
    match (first, second) {
        (Tri::Free, other) => Some(other),
        (Tri::Zero, Tri::Zero) | (Tri::Zero, Tri::Free) => Some(Tri::Zero),
        (Tri::One, Tri::One) | (Tri::One, Tri::Free) => Some(Tri::One),
        (Tri::Zero, Tri::One) | (Tri::One, Tri::Zero) => None,
    }
}

/// A row of dashes, one for each name.
fn dashes(alloc: Global, names: &[Name]) -> Result<Vec<Tri>, AllocError>
    ensures { IfOk result (λ made. made.items ≡ dashes_of names.now) }
{
    let mut made = Vec::with_capacity(alloc, names.len())?;
    for _name in names {
        made.push(Tri::Free)?;
    }
    Ok(made)
}

/// The character in a column; a dash if there is no such column.
fn at(out: &[Tri], place: usize) -> Tri
    ensures { result ≡ slice_index_or out.now place Free }
{
    out.get(place).copied().unwrap_or(Tri::Free)
}

/// Sets the character in a column, if the row has it.
fn put(out: &mut Vec<Tri>, place: usize, character: Tri)
    ensures { out.new.items ≡ slice_set out.old.items place character }
{
    if place < out.len() {
        out[place] = character;
    }
}

/// Merges a row's characters into the columns of `out`. Returns whether no column is asked for both
/// bits.
fn merge_into(out: &mut Vec<Tri>, places: &[usize], row: &[Tri]) -> bool
    ensures { merge_row out.old.items places.now row.now
        ≡ (if result then Some out.new.items else None) }
{
    for i in 0..places.len() {
        if i >= row.len() {
            return true;
        }
        match merge(at(out.as_slice(), places[i]), row[i]) {
            None => return false,
            Some(both) => put(out, places[i], both),
        }
    }
    true
}

/// The row over the distinct names; none if it asks one of them for both bits.
fn merged_row(
    alloc: Global,
    names: &[Name],
    places: &[usize],
    row: &[Tri],
) -> Result<Option<Row>, AllocError>
    ensures { IfOk result (λ made. made ≡ merge_row (dashes_of names.now) places.now row.now) }
{
    let mut out = dashes(alloc, names)?;
    if merge_into(&mut out, places, row) {
        return Ok(Some(Row::from_vec(out)));
    }
    Ok(None)
}

/// Puts a row, where there is one, behind the last.
pub fn add_row(rows: &mut Rows, row: Option<Row>) -> Result<(), AllocError>
    ensures { OnOk result (rows.new ≡ rows.old ++ option_to_list row) }
{
    if let Some(row) = row {
        rows.push(row)?;
    }
    Ok(())
}

/// The rows over the distinct names, without those that ask a name for both bits.
fn merged_rows(
    alloc: Global,
    names: &[Name],
    places: &[usize],
    rows: &[Row],
) -> Result<Rows, AllocError>
    ensures { IfOk result (λ made. made ≡ filter_map
        (merge_row (dashes_of names.now) places.now) rows.now) }
{
    let mut made = Sequence::new(alloc);
    for row in rows {
        add_row(&mut made, merged_row(alloc, names, places, row.as_slice())?)?;
    }
    Ok(made)
}

/// The table of the constant 1.
pub(crate) fn constant_one(alloc: Global, output: Name) -> Result<Table, AllocError>
    ensures { IfOk result (λ made. made ≡ constant_one output) }
{
    let mut rows = Sequence::new(alloc);
    rows.push(Row::new(alloc))?;
    Ok(Table {
        inputs: Sequence::new(alloc),
        output,
        rows,
        phase: true,
    })
}

/// Whether a table with these rows and this phase is 1 everywhere: no row says where it is 0.
fn is_one(rows: &Rows, phase: bool) -> bool
    ensures { result ≡ ((length rows.now == 0) && not phase) }
{
    rows.is_empty() && !phase
}

/// The folded table; one whose inputs are all different is returned as it is.
pub fn merge_repeated_inputs(alloc: Global, table: Table) -> Result<Table, AllocError>
    ensures { IfOk result (λ made. made ≡ folded table) }
{
    let once = once_of(alloc, table.inputs.as_slice())?;
    if once.names.len() == table.inputs.len() {
        return Ok(table);
    }
    let inputs = names_copied(alloc, once.names.as_slice())?;
    let rows = merged_rows(
        alloc,
        inputs.as_slice(),
        once.places.as_slice(),
        table.rows.as_slice(),
    )?;
    let Table {
        inputs: _,
        output,
        rows: _,
        phase,
    } = table;
    if is_one(&rows, phase) {
        let made = constant_one(alloc, output)?;
        return Ok(made);
    }
    Ok(Table {
        inputs,
        output,
        rows,
        phase,
    })
}
