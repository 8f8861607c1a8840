//! Tables simplified by a constant input, and tables that read one signal instead of another.
//!
//! Source: the SIS manual (UCB/ERL M92/41), `sweep`. In `at_bit` a literal of the constant signal
//! is removed, or its row is if the literal contradicts the bit; in `rewired` one input replaces
//! another, with its column complemented if asked. Both tidy the result, and copy a table that does
//! not read the signal. Rows must have a character for each input.

ghost use Rattle.std.specs.Prelude.{◌≡◌, Bool, true, false, Option, Some, None, List, [], ◌∷◌, length, map, bytes_eq, if◌then◌else◌, IfOk};
ghost use Rattle.std.specs.List.{filter_map, list_any};
ghost use Rattle.circuit_model.specs.Values.{table_value};
ghost use Rattle.circuit_model.specs.declared.circuit.Tri.TheVariants.{Free};
ghost use Rattle.net_core.specs.Tables.{HasCharacters};
ghost use Rattle.net_sweep.specs.Columns.{opens_at_one, row_at_marks};
ghost use Rattle.net_wires.specs.Rules.{asks_against, at_bit, renamed, row_turned, rewired, is_inverter};

use circuit_model::{Name, Names, Row, Rows, Table, Tri, has_name};
use circuit_tables::{add_row, tidied_table};
use net_wires::rows_over;
use sis_base::{Copied, Sequence};
use std::alloc::{AllocError, Global};

// The character of a place in a row where a signal has a bit: none is left where the row asks for
// the other one.
fn place_at_bit(is_signal: bool, bit: bool, place: Tri) -> Option<Tri>
    ensures { result ≡ (if is_signal then (if asks_against bit place then None else Some Free) else
        Some place) }
{
    if !is_signal {
        return Some(place);
    }
    match (bit, place) {
        (true, Tri::Zero) | (false, Tri::One) => None,
        _ => Some(Tri::Free),
    }
}

// For each input, whether it is the signal.
fn columns_of(alloc: Global, name: &Name, inputs: &[Name]) -> Result<Vec<bool>, AllocError>
    ensures { IfOk result (λ marks. marks.items ≡ map (bytes_eq name.now) inputs.now) }
{
    let mut marks = Vec::with_capacity(alloc, inputs.len())?;
    for input in inputs {
        marks.push(*name == *input)?;
    }
    Ok(marks)
}

// A row in which the signal of the marked columns has a bit, unless the row is removed.
fn row_at_bit(
    alloc: Global,
    bit: bool,
    marks: &[bool],
    row: &[Tri],
) -> Result<Option<Row>, AllocError>
    requires { length row.now ≡ length marks.now }
    ensures { IfOk result (λ made. made ≡ row_at_marks bit marks.now row.now) }
{
    let mut made = Row::new(alloc);
    for (i, mark) in marks.iter().enumerate() {
        match place_at_bit(*mark, bit, row[i]) {
            None => return Ok(None),
            Some(place) => made.push(place)?,
        }
    }
    Ok(Some(made))
}

// The rows that are left where the signal at the marked places has a bit.
fn rows_at_bit(alloc: Global, bit: bool, marks: &[bool], rows: &[Row]) -> Result<Rows, AllocError>
    requires { HasCharacters (length marks.now) rows.now }
    ensures { IfOk result (λ made. made ≡ filter_map (row_at_marks bit marks.now) rows.now) }
{
    let mut made = Sequence::new(alloc);
    for row in rows {
        let left = row_at_bit(alloc, bit, marks, row.as_slice())?;
        add_row(&mut made, left)?;
    }
    Ok(made)
}

// A table that reads a signal of the given bit, simplified by it and tidied; another table is
// copied.
#[tactic(auto, unfolding(net_wires::specs::Rules::at_bit))]
pub(crate) fn at_bit(
    alloc: Global,
    table: &Table,
    name: &Name,
    bit: bool,
) -> Result<Table, AllocError>
    requires { HasCharacters (length table.now.inputs) table.now.rows }
    ensures { IfOk result (λ made. made ≡ at_bit name.now bit table.now) }
{
    if !has_name(table.inputs.as_slice(), name) {
        return table.copy(alloc);
    }
    let marks = columns_of(alloc, name, table.inputs.as_slice())?;
    let rows = rows_at_bit(alloc, bit, marks.as_slice(), table.rows.as_slice())?;
    let put = Table {
        inputs: table.inputs.copy(alloc)?,
        output: table.output.copy(alloc)?,
        rows,
        phase: table.phase,
    };
    tidied_table(alloc, put)
}

// The rows of a table, with the columns of a signal complemented if it is read through an inverter.
fn rows_rewired(
    alloc: Global,
    table: &Table,
    name: &Name,
    inverts: bool,
) -> Result<Rows, AllocError>
    requires { HasCharacters (length table.now.inputs) table.now.rows }
    ensures { IfOk result (λ made. made ≡ (if inverts then map
        (row_turned name.now table.now.inputs) table.now.rows else table.now.rows)) }
{
    if !inverts {
        return table.rows.copy(alloc);
    }
    let marks = columns_of(alloc, name, table.inputs.as_slice())?;
    rows_over(alloc, marks.as_slice(), table.rows.as_slice())
}

// A name, or the one that replaces it.
fn renamed(alloc: Global, from: &Name, to: &Name, name: &Name) -> Result<Name, AllocError>
    ensures { IfOk result (λ made. made ≡ renamed from.now to.now name.now) }
{
    if *from == *name {
        return to.copy(alloc);
    }
    name.copy(alloc)
}

// Names with one replaced by another.
fn names_renamed(alloc: Global, from: &Name, to: &Name, names: &[Name]) -> Result<Names, AllocError>
    ensures { IfOk result (λ made. made ≡ map (renamed from.now to.now) names.now) }
{
    let mut made = Vec::with_capacity(alloc, names.len())?;
    for name in names {
        made.push(renamed(alloc, from, to, name)?)?;
    }
    Ok(Sequence::from_vec(made))
}

// A table that reads one signal instead of another, complemented if asked, tidied; a table that
// does not read it is copied.
#[tactic(auto, unfolding(net_wires::specs::Rules::rewired))]
pub(crate) fn rewired(
    alloc: Global,
    table: &Table,
    from: &Name,
    to: &Name,
    inverts: bool,
) -> Result<Table, AllocError>
    requires { HasCharacters (length table.now.inputs) table.now.rows }
    ensures { IfOk result (λ made. made ≡ rewired from.now to.now inverts table.now) }
{
    if !has_name(table.inputs.as_slice(), from) {
        return table.copy(alloc);
    }
    let rows = rows_rewired(alloc, table, from, inverts)?;
    let read = Table {
        inputs: names_renamed(alloc, from, to, table.inputs.as_slice())?,
        output: table.output.copy(alloc)?,
        rows,
        phase: table.phase,
    };
    tidied_table(alloc, read)
}

// Whether a row lets its first input be 1.
fn is_open_at_one(row: &Row) -> bool
    ensures { result ≡ opens_at_one row.now }
{
    match row.as_slice().first() {
        Some(Tri::Zero) => false,
        _ => true,
    }
}

// Whether some row lets its first input be 1.
fn are_open_at_one(rows: &[Row]) -> bool
    ensures { result ≡ list_any opens_at_one rows.now }
{
    rows.iter().any(|row| is_open_at_one(row))
}

// Whether a table of one input is 0 if that input is 1.
#[tactic(auto, using(crate::proofs::RowSteps::inverts_positive, crate::proofs::RowSteps::inverts_negative))]
pub(crate) fn is_inverter(table: &Table) -> bool
    ensures { result ≡ is_inverter table.now }
{
    let is_matched = are_open_at_one(table.rows.as_slice());
    if table.phase {
        return !is_matched;
    }
    is_matched
}
