//! Edges from names to names, complemented or not, and tables rewritten over the edges of their
//! inputs.
//!
//! Source: Brace, Rudell and Bryant, "Efficient Implementation of a BDD Package" (1990),
//! complemented edges. A name without an edge in the map leads to itself, not complemented.
//! `table_over` replaces each input by the name of its edge and complements its column if the edge
//! is complemented; output and phase stay. A table is consumed, and its rows are rewritten only if
//! some edge is complemented.

ghost use Rattle.std.specs.Prelude.{◌≡◌, ◌++◌, ℕ, Bool, Some, None, List, [], ◌∷◌, map, unwrap_or, slice_get, bytes_eq, false, if◌then◌else◌, IfOk, OnOk};
ghost use Rattle.std.specs.List.{list_any};
ghost use Rattle.indexmap.specs.IndexMap.{get};
ghost use Rattle.net_wires.specs.Rules.{turned_over};
ghost use Rattle.net_wires.specs.Aliases.{edge_of, with_edge, complement_marks, row_over, table_over};

use circuit_model::{Name, Names, Row, Rows, Table, Tables, Tri};
use indexmap::IndexMap;
use sis_base::{Copied, Sequence};
use std::alloc::{AllocError, Global};

/// An edge: another name, or its complement.
#[derive(Drop)]
pub(crate) struct Edge {
    pub(crate) name: Name,
    pub(crate) is_complemented: bool,
}

// Whether the edge of a name is complemented.
fn is_complemented(edges: &IndexMap<Name, Edge>, name: &Name) -> bool
    ensures { result ≡ (edge_of (get bytes_eq edges.now) name.now).is_complemented }
{
    match edges.get(name) {
        None => false,
        Some(edge) => edge.is_complemented,
    }
}

// The name to which the edge of a name leads; the name itself if it has no edge.
pub(crate) fn name_of<'a>(edges: &'a IndexMap<Name, Edge>, name: &'a Name) -> &'a Name
    ensures { result.now ≡ (edge_of (get bytes_eq edges.now) name.now).name }
{
    match edges.get(name) {
        None => name,
        Some(edge) => &edge.name,
    }
}

// Copies the edge of a name.
pub(crate) fn edge_from(
    alloc: Global,
    edges: &IndexMap<Name, Edge>,
    name: &Name,
) -> Result<Edge, AllocError>
    ensures { IfOk result (λ made. made ≡ edge_of (get bytes_eq edges.now) name.now) }
{
    Ok(Edge {
        name: name_of(edges, name).copy(alloc)?,
        is_complemented: is_complemented(edges, name),
    })
}

// Sets the edge of a name.
pub(crate) fn set_edge(
    edges: &mut IndexMap<Name, Edge>,
    name: Name,
    to: Edge,
) -> Result<(), AllocError>
    ensures { OnOk result ((other : List ℕ) → edge_of (get bytes_eq edges.new) other
        ≡ with_edge name to (edge_of (get bytes_eq edges.old)) other) }
{
    let _before = edges.insert(name, to)?;
    Ok(())
}

// The name to which the edge of a name leads; consumes the name.
fn name_over(alloc: Global, edges: &IndexMap<Name, Edge>, name: Name) -> Result<Name, AllocError>
    ensures { IfOk result (λ made. made ≡ (edge_of (get bytes_eq edges.now) name).name) }
{
    match edges.get(&name) {
        None => Ok(name),
        Some(edge) => edge.name.copy(alloc),
    }
}

// The names to which the edges of names lead; consumes the names.
fn names_over(
    alloc: Global,
    edges: &IndexMap<Name, Edge>,
    names: Names,
) -> Result<Names, AllocError>
    ensures { IfOk result (λ made. made ≡ map (λ name. (edge_of (get bytes_eq edges.now) name).name)
        names) }
{
    let mut made = Vec::with_capacity(alloc, names.len())?;
    for name in names.into_vec() {
        made.push(name_over(alloc, edges, name)?)?;
    }
    Ok(Sequence::from_vec(made))
}

// For each input, whether its edge is complemented.
fn complemented_inputs(
    alloc: Global,
    edges: &IndexMap<Name, Edge>,
    inputs: &[Name],
) -> Result<Vec<bool>, AllocError>
    ensures { IfOk result (λ marks. marks.items ≡ complement_marks
        (edge_of (get bytes_eq edges.now)) inputs.now) }
{
    let mut marks = Vec::with_capacity(alloc, inputs.len())?;
    for input in inputs {
        marks.push(is_complemented(edges, input))?;
    }
    Ok(marks)
}

// Whether a column is marked.
fn is_marked(marks: &[bool], place: usize) -> bool
    ensures { result ≡ unwrap_or (slice_get marks.now place) false }
{
    marks.get(place).copied().unwrap_or(false)
}

// A character, complemented if asked; a dash stays.
fn place_over(turns: bool, place: Tri) -> Tri
    ensures { result ≡ (if turns then turned_over place else place) }
{
    if !turns {
        return place;
    }
    match place {
        Tri::Zero => Tri::One,
        Tri::One => Tri::Zero,
        Tri::Free => Tri::Free,
    }
}

// A row with the characters in marked columns complemented.
fn row_over(alloc: Global, marks: &[bool], row: &[Tri]) -> Result<Row, AllocError>
    ensures { IfOk result (λ made. made ≡ row_over marks.now row.now) }
{
    let mut made = Row::new(alloc);
    for (i, place) in row.iter().enumerate() {
        made.push(place_over(is_marked(marks, i), *place))?;
    }
    Ok(made)
}

/// Rows with the characters in marked columns complemented; a column without a mark stays.
pub fn rows_over(alloc: Global, marks: &[bool], rows: &[Row]) -> Result<Rows, AllocError>
    ensures { IfOk result (λ made. made ≡ map (row_over marks.now) rows.now) }
{
    let mut made = Vec::with_capacity(alloc, rows.len())?;
    for row in rows {
        made.push(row_over(alloc, marks, row.as_slice())?)?;
    }
    Ok(Sequence::from_vec(made))
}

// Whether some column is marked.
fn is_any_marked(marks: &[bool]) -> bool
    ensures { result ≡ list_any (λ mark. mark) marks.now }
{
    marks.iter().any(|mark| *mark)
}

// The rows of a table with the characters in marked columns complemented; if no column is marked,
// the rows themselves.
fn table_rows_over(alloc: Global, marks: &[bool], rows: Rows) -> Result<Rows, AllocError>
    ensures { IfOk result (λ made. made ≡ map (row_over marks.now) rows) }
{
    if is_any_marked(marks) {
        return rows_over(alloc, marks, rows.as_slice());
    }
    Ok(rows)
}

// A table rewritten over the edges of its inputs; consumes the table.
pub(crate) fn table_over(
    alloc: Global,
    edges: &IndexMap<Name, Edge>,
    table: Table,
) -> Result<Table, AllocError>
    ensures { IfOk result (λ made. made ≡ table_over (edge_of (get bytes_eq edges.now)) table) }
{
    let Table {
        inputs,
        output,
        rows,
        phase,
    } = table;
    let marks = complemented_inputs(alloc, edges, inputs.as_slice())?;
    Ok(Table {
        rows: table_rows_over(alloc, marks.as_slice(), rows)?,
        inputs: names_over(alloc, edges, inputs)?,
        output,
        phase,
    })
}

// Tables rewritten over the edges of their inputs; consumes the tables.
pub(crate) fn tables_over(
    alloc: Global,
    edges: &IndexMap<Name, Edge>,
    tables: Tables,
) -> Result<Tables, AllocError>
    ensures { IfOk result (λ made. made ≡ map (table_over (edge_of (get bytes_eq edges.now)))
        tables) }
{
    let mut made = Vec::with_capacity(alloc, tables.len())?;
    for table in tables.into_vec() {
        made.push(table_over(alloc, edges, table)?)?;
    }
    Ok(Sequence::from_vec(made))
}
