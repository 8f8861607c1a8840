//! Rows of tables: the text of a row, by which rows are compared, and the marks of the inputs that
//! have a literal in some row, the syntactic support of a cover.

ghost use Rattle.std.specs.Prelude.{◌≡◌, slice_index_or, map, IfOk};
ghost use Rattle.std.specs.List.{list_any};
ghost use Rattle.circuit_model.specs.Counts.{is_literal};
ghost use Rattle.circuit_model.specs.Text.{character};
ghost use Rattle.circuit_model.specs.declared.circuit.Tri.TheVariants.{Free};
ghost use Rattle.circuit_tables.specs.Tidy.{row_text, used_places, some_row_or_phase_one};

use circuit_model::{Name, Row, Tri};
use std::alloc::{AllocError, Global};

// The byte of a character of a row.
fn byte_of(place: Tri) -> u8
    ensures { result ≡ character place }
{
    match place {
        Tri::Zero => b'0',
        Tri::One => b'1',
        Tri::Free => b'-',
    }
}

// The text of a row, as in a file.
pub(crate) fn text_of(alloc: Global, row: &[Tri]) -> Result<Name, AllocError>
    ensures { IfOk result (λ text. text ≡ row_text row.now) }
{
    let mut made = Name::new(alloc);
    for place in row {
        made.push(byte_of(*place))?;
    }
    Ok(made)
}

// Whether a row has a literal in a column.
fn has_literal(row: &Row, place: usize) -> bool
    ensures { result ≡ is_literal (slice_index_or row.now place Free) }
{
    match row.as_slice().get(place) {
        None => false,
        Some(Tri::Free) => false,
        Some(_) => true,
    }
}

// Whether some row has a literal in a column.
fn is_place_used(rows: &[Row], place: usize) -> bool
    ensures { result ≡ list_any (λ row. is_literal (slice_index_or row place Free)) rows.now }
{
    rows.iter().any(|row| has_literal(row, place))
}

// For each input, whether some row has a literal of it.
pub(crate) fn used_places(
    alloc: Global,
    inputs: &[Name],
    rows: &[Row],
) -> Result<Vec<bool>, AllocError>
    ensures { IfOk result (λ marks. marks.items ≡ used_places inputs.now rows.now) }
{
    let mut marks = Vec::with_capacity(alloc, inputs.len())?;
    for place in 0..inputs.len() {
        marks.push(is_place_used(rows, place))?;
    }
    Ok(marks)
}

// Whether there is a row or the phase is 1.
pub(crate) fn has_row_or_phase(rows: &[Row], phase: bool) -> bool
    ensures { result ≡ some_row_or_phase_one rows.now phase }
{
    match rows.first() {
        None => phase,
        Some(_) => true,
    }
}
