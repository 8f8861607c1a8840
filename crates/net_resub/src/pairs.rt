//! One division: what a table becomes if it is divided by another one's rows, and how many literals
//! that saves.
//!
//! Source: Brayton, Rudell, Sangiovanni-Vincentelli and Wang, "MIS: A Multiple-Level Logic
//! Optimization System" (1987); the SIS report (UCB/ERL M92/41), `resub`. A division that would
//! need a name that the dividend does not read is not tried, as it saves nothing. Callers rely on
//! `saving_at` exactly: 0 for a division of a table by itself, by a signal that it reads already,
//! or with a result of more than `MAX_INPUTS` inputs.

ghost use Rattle.std.specs.Prelude.{◌≡◌, ℕ, ◌-◌, ◌<◌, ltb, true, not, ◌||◌, Some, None, List, length, is_some, slice_index_or, if◌then◌else◌, IfOk, IfSome};
ghost use Rattle.circuit_model.specs.Names.{has, all_different};
ghost use Rattle.circuit_model.specs.Counts.{literals_of_table};
ghost use Rattle.circuit_model.specs.declared.circuit.Table.{Table};
ghost use Rattle.net_core.specs.Places.{written_of};
ghost use Rattle.net_core.specs.Reads.{IsBounded};
ghost use Rattle.net_core.specs.Tables.{named, IsOverInputs};
ghost use Rattle.net_work.specs.Placed.{table_at};
ghost use Rattle.net_resub.specs.Resubbed.{row_cubes, resubbed};
ghost use Rattle.cover_names.specs.Cubes.{cube_over, is_over};
ghost use Rattle.net_resub.specs.Pairs.{saving_of, saving_at, is_cube_over};

use alg_div::literals_of;
use alg_tables::divided_table;
use circuit_model::{Name, has_name};
use cover_names::{Cube, cube_over};
use cube_cover::Row;
use net_core::{CoverTable, Entry, bounded};
use net_work::{WorkingNetwork, literal_count};
use sis_base::limits::MAX_INPUTS;
use std::alloc::{AllocError, Global};

// The cubes of a table's rows, in their order.
fn row_cubes<R: Row>(alloc: Global, entry: &Entry<R>) -> Result<Vec<Cube>, AllocError>
    ensures { IfOk result (λ cubes. cubes.items ≡ row_cubes (written_of entry.now)) }
{
    let rows = entry.table.cover.rows();
    let mut cubes = Vec::with_capacity(alloc, rows.len())?;
    for row in rows {
        let literals = literals_of(alloc, row)?;
        cubes.push(cube_over(alloc, entry.table.inputs.as_slice(), literals.as_slice())?)?;
    }
    Ok(cubes)
}

/// The literal of a row in a column; a dash past its last.
pub(crate) fn item_at<R: Row>(row: &R, place: usize) -> Option<bool>
    ensures { result ≡ slice_index_or (R.literals row.now) place None }
{
    if place < row.width() {
        row.at(place)
    } else {
        None
    }
}

// Whether a column has a dash, or its name is among names.
fn is_dash_or_among(names: &[Name], name: &Name, item: Option<bool>) -> bool
    ensures { result ≡ (not (is_some item) || has names.now name.now) }
{
    item.is_none() || has_name(names, name)
}

// Whether all literals of a row over inputs have one of some names.
fn is_row_over<R: Row>(names: &[Name], inputs: &[Name], row: &R) -> bool
    ensures { result ≡ is_cube_over names.now (cube_over inputs.now (R.literals row.now)) }
{
    for (place, input) in inputs.iter().enumerate() {
        if !is_dash_or_among(names, input, item_at(row, place)) {
            return false;
        }
    }
    true
}

// Whether all literals of a table's rows have one of some names: only then may a table with these
// inputs be divided by it.
fn is_table_over<R: Row>(names: &[Name], by: &Entry<R>) -> bool
    ensures { result ≡ is_over names.now (row_cubes (written_of by.now)) }
{
    let inputs = by.table.inputs.as_slice();
    let rows = by.table.cover.rows();
    for row in rows {
        if !is_row_over(names, inputs, row) {
            return false;
        }
    }
    true
}

// What a table becomes if it is divided by another one; none if it does not change.
fn resubbed_table<R: Row>(
    alloc: Global,
    entry: &Entry<R>,
    by: &Entry<R>,
) -> Result<Option<CoverTable<R>>, AllocError>
    requires { IsOverInputs entry.now.table }
    ensures some { IfOk result (λ found. IfSome found
        (λ made. named entry.now.output made ≡ resubbed (written_of by.now)
        (written_of entry.now))) }
    ensures over { IfOk result (λ found. IfSome found IsOverInputs) }
    ensures none { IfOk result (λ found. found ≡ None → resubbed (written_of by.now)
        (written_of entry.now) ≡ written_of entry.now) }
{
    let cubes = row_cubes(alloc, by)?;
    divided_table(
        alloc,
        &entry.table,
        &by.output,
        by.table.phase,
        cubes.as_slice(),
    )
}

// How many literals are saved if a table is replaced by another one; 0 if that is too wide.
fn saved<R: Row>(table: &CoverTable<R>, made: &CoverTable<R>) -> u128
    ensures { (name : List ℕ) → result ≡ (if ltb MAX_INPUTS
        (length made.now.inputs) then 0 else literals_of_table
        (named name table.now) - literals_of_table (named name made.now)) }
{
    if made.inputs.len() > MAX_INPUTS {
        0
    } else {
        literal_count(table).saturating_sub(literal_count(made))
    }
}

// How many literals the division of a table by another one saves.
fn saving_of<R: Row>(alloc: Global, entry: &Entry<R>, by: &Entry<R>) -> Result<u128, AllocError>
    requires { IsOverInputs entry.now.table }
    ensures { IfOk result (λ saving. saving ≡ saving_of (written_of by.now) (written_of entry.now)) }
{
    let inputs = entry.table.inputs.as_slice();
    if has_name(inputs, &by.output) {
        return Ok(0);
    }
    if !is_table_over(inputs, by) {
        return Ok(0);
    }
    match resubbed_table(alloc, entry, by)? {
        None => Ok(0),
        Some(made) => Ok(saved(&entry.table, &made)),
    }
}

/// How many literals the division of the table at an index by that at another one saves.
pub(crate) fn saving_at<R: Row>(
    alloc: Global,
    work: &WorkingNetwork<R>,
    place: usize,
    by: usize,
) -> Result<u128, AllocError>
    ensures { IfOk result (λ saving. saving ≡ saving_at work.now.slots place by) }
{
    if place == by {
        return Ok(0);
    }
    match work.entry(place) {
        None => Ok(0),
        Some(entry) => match work.entry(by) {
            None => Ok(0),
            Some(by) => saving_of(alloc, entry, by),
        },
    }
}

// What a table becomes if it is divided by another one, which saves literals.
fn divided_by<R: Row>(
    alloc: Global,
    entry: &Entry<R>,
    by: &Entry<R>,
) -> Result<CoverTable<R>, AllocError>
    requires over { IsOverInputs entry.now.table }
    requires saves { 0 < saving_of (written_of by.now) (written_of entry.now) }
    ensures is { IfOk result (λ made. named entry.now.output made ≡ resubbed (written_of by.now)
        (written_of entry.now)) }
    ensures over { IfOk result IsOverInputs }
    ensures bounded { IfOk result (λ made. (name : List ℕ) → IsBounded (named name made)) }
{
    match resubbed_table(alloc, entry, by)? {
        None => unreachable!(),
        Some(made) => bounded(made),
    }
}

/// What the table at an index becomes if it is divided by that at another one, which saves
/// literals.
pub(crate) fn divided_at<R: Row>(
    alloc: Global,
    work: &WorkingNetwork<R>,
    place: usize,
    by: usize,
) -> Result<CoverTable<R>, AllocError>
    requires { 0 < saving_at work.now.slots place by }
    ensures is { IfOk result (λ made. (table other : Table) → table_at work.now.slots place
        ≡ Some table → table_at work.now.slots by ≡ Some other → named table.output made
        ≡ resubbed other table) }
    ensures over { IfOk result IsOverInputs }
    ensures once { IfOk result (λ made. all_different made.inputs ≡ true) }
    ensures bounded { IfOk result (λ made. (name : List ℕ) → IsBounded (named name made)) }
{
    match work.entry(place) {
        None => unreachable!(),
        Some(entry) => match work.entry(by) {
            None => unreachable!(),
            Some(by) => divided_by(alloc, entry, by),
        },
    }
}
