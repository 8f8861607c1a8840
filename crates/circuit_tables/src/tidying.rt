//! The tidy normal form of a table: `tidied_table`.
//!
//! First repeated inputs are folded, and a table of phase 0 without rows becomes the constant 1.
//! Then rows that equal an earlier one are removed, and last the inputs without a literal in any
//! row. So the inputs are the syntactic support of the cover (De Micheli, "Synthesis and
//! Optimization of Digital Circuits", chapters 7 and 8). `tidy_laws` states that the value stays,
//! that the result is tidy, and that a tidy table stays as it is.

ghost use Rattle.std.specs.Prelude.{◌≡◌, ℕ, ◌||◌, false, List, [], ◌∷◌, ◌++◌, map, bytes_eq, slice_index_or, if◌then◌else◌, IfOk, OnOk};
ghost use Rattle.indexmap.specs.IndexSet.{contains};
ghost use Rattle.circuit_tables.specs.Tidy.{tidied, chosen, narrowed, rows_once, with_phase_one, with_rows_once, row_text};

use crate::folding::{constant_one, merge_repeated_inputs};
use crate::rows::{has_row_or_phase, text_of, used_places};
use circuit_model::{Name, Row, Rows, Table, Tri};
use indexmap::IndexSet;
use sis_base::{Copied, Sequence};
use std::alloc::{AllocError, Global};

// Whether an index is marked.
fn is_marked(marks: &[bool], place: usize) -> bool
    ensures { result ≡ slice_index_or marks.now place false }
{
    match marks.get(place) {
        None => false,
        Some(mark) => *mark,
    }
}

// Appends a copy of an item, if it is marked.
fn push_marked<T: Copied + Drop>(
    alloc: Global,
    made: &mut Sequence<T>,
    mark: bool,
    item: &T,
) -> Result<(), AllocError>
    ensures { OnOk result (made.new ≡ made.old ++ (if mark then item.now ∷ [] else [])) }
{
    if mark {
        made.push(item.copy(alloc)?)?;
    }
    Ok(())
}

// Copies the items that are marked.
fn chosen_items<T: Copied + Drop>(
    alloc: Global,
    marks: &[bool],
    items: &[T],
) -> Result<Sequence<T>, AllocError>
    ensures { IfOk result (λ made. made ≡ chosen marks.now items.now) }
{
    let mut made = Sequence::new(alloc);
    for (i, item) in items.iter().enumerate() {
        push_marked(alloc, &mut made, is_marked(marks, i), item)?;
    }
    Ok(made)
}

// Appends a character to a row, if it is marked.
fn push_character(row: &mut Row, mark: bool, character: Tri) -> Result<(), AllocError>
    ensures { OnOk result (row.new ≡ row.old ++ (if mark then character ∷ [] else [])) }
{
    if mark {
        row.push(character)?;
    }
    Ok(())
}

// The marked columns of a row.
fn chosen_row(alloc: Global, marks: &[bool], row: &[Tri]) -> Result<Row, AllocError>
    ensures { IfOk result (λ made. made ≡ chosen marks.now row.now) }
{
    let mut made = Row::new(alloc);
    for (i, character) in row.iter().enumerate() {
        push_character(&mut made, is_marked(marks, i), *character)?;
    }
    Ok(made)
}

// The marked columns of each row.
fn chosen_rows(alloc: Global, marks: &[bool], rows: &[Row]) -> Result<Rows, AllocError>
    ensures { IfOk result (λ made. made ≡ map (chosen marks.now) rows.now) }
{
    let mut made = Vec::with_capacity(alloc, rows.len())?;
    for row in rows {
        made.push(chosen_row(alloc, marks, row.as_slice())?)?;
    }
    Ok(Sequence::from_vec(made))
}

// The table without the inputs that have no literal.
#[tactic(auto, unfolding(crate::specs::Tidy::narrowed))]
fn narrowed(alloc: Global, table: Table) -> Result<Table, AllocError>
    ensures { IfOk result (λ made. made ≡ narrowed table) }
{
    let marks = used_places(alloc, table.inputs.as_slice(), table.rows.as_slice())?;
    Ok(Table {
        inputs: chosen_items(alloc, marks.as_slice(), table.inputs.as_slice())?,
        rows: chosen_rows(alloc, marks.as_slice(), table.rows.as_slice())?,
        ..table
    })
}

// Appends a row that is not among those seen, and adds it to them.
fn push_new(
    alloc: Global,
    seen: &mut IndexSet<Name>,
    made: &mut Rows,
    row: Row,
) -> Result<(), AllocError>
    ensures rows { OnOk result (made.new ≡ made.old ++
        (if contains bytes_eq seen.old (row_text row) then [] else row ∷ [])) }
    ensures seen { OnOk result ((text : List ℕ) → contains bytes_eq seen.new text
        ≡ (bytes_eq (row_text row) text || contains bytes_eq seen.old text)) }
{
    let text = text_of(alloc, row.as_slice())?;
    if seen.insert(text)? {
        made.push(row)?;
    }
    Ok(())
}

// The rows, without those that equal an earlier one.
fn rows_once(alloc: Global, rows: Rows) -> Result<Rows, AllocError>
    ensures { IfOk result (λ made. made ≡ rows_once rows) }
{
    let mut seen = IndexSet::new(alloc);
    let mut made = Sequence::new(alloc);
    for row in rows.into_vec() {
        push_new(alloc, &mut seen, &mut made, row)?;
    }
    Ok(made)
}

// The table, or the constant 1 where no row is left at phase 0.
#[tactic(auto, unfolding(crate::specs::Tidy::with_phase_one))]
fn with_phase_one(alloc: Global, table: Table) -> Result<Table, AllocError>
    ensures { IfOk result (λ made. made ≡ with_phase_one table) }
{
    if has_row_or_phase(table.rows.as_slice(), table.phase) {
        return Ok(table);
    }
    constant_one(alloc, table.output)
}

// The table without repeated rows.
fn with_rows_once(alloc: Global, table: Table) -> Result<Table, AllocError>
    ensures { IfOk result (λ made. made ≡ with_rows_once table) }
{
    Ok(Table {
        rows: rows_once(alloc, table.rows)?,
        ..table
    })
}

/// The tidy table: repeated inputs are folded, then rows that equal an earlier one are removed,
/// then inputs without a literal. If the phase is 0 and no row is left, it is the constant 1.
#[tactic(auto, unfolding(crate::specs::Tidy::tidied))]
pub fn tidied_table(alloc: Global, table: Table) -> Result<Table, AllocError>
    ensures { IfOk result (λ made. made ≡ tidied table) }
{
    let folded = merge_repeated_inputs(alloc, table)?;
    let open = with_phase_one(alloc, folded)?;
    let once = with_rows_once(alloc, open)?;
    narrowed(alloc, once)
}
