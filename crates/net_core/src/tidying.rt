//! Tidy tables whose rows are a cover: each input once and with a literal, no row twice.
//!
//! The rows stay rows. One is known from an earlier one by its text, and each is narrowed to the
//! columns with a literal, the syntactic support of the cover (De Micheli, "Synthesis and
//! Optimization of Digital Circuits", chapters 7 and 8). Only a table that lists an input twice, or
//! has phase 0 and no row, goes by way of circuit_tables, which says what tidy is.

ghost use Rattle.std.specs.Prelude.{◌≡◌, ℕ, ◌<◌, ◌||◌, ◌&&◌, None, List, [], ◌∷◌, ◌++◌, length, map, bytes_eq, slice_index_or, if◌then◌else◌, IfOk, OnOk};
ghost use Rattle.std.specs.List.{list_any, range_with_len};
ghost use Rattle.sis_base.specs.Rows.{HasWidth};
ghost use Rattle.indexmap.specs.IndexSet.{contains};
ghost use Rattle.circuit_model.specs.Counts.{is_literal};
ghost use Rattle.circuit_model.specs.Names.{all_different};
ghost use Rattle.circuit_model.specs.Text.{character};
ghost use Rattle.circuit_model.specs.declared.circuit.Tri.TheVariants.{Free};
ghost use Rattle.circuit_model.specs.declared.circuit.Table.{Table as TheWritten};
ghost use Rattle.circuit_tables.specs.Tidy.{tidied, chosen, narrowed, rows_once, with_rows_once, row_text, used_places, some_row_or_phase_one};
ghost use Rattle.net_core.specs.Tables.{character_of, characters_of, named, IsOverInputs};

use crate::table::CoverTable;
use circuit_model::{Name, Names, Rows, Table, names_copied};
use circuit_tables::{merge_repeated_inputs, tidied_table};
use cube_cover::{Cover, Row};
use indexmap::IndexSet;
use sis_base::{Copied, Sequence};
use std::alloc::{AllocError, Global};

// The byte of a literal or dash in the text of a row.
fn byte_of(literal: Option<bool>) -> u8
    ensures { result ≡ character (character_of literal) }
{
    match literal {
        Some(false) => b'0',
        Some(true) => b'1',
        None => b'-',
    }
}

// The text of a row, as in a file.
fn text_of<R: Row>(alloc: Global, row: &R) -> Result<Name, AllocError>
    ensures { IfOk result (λ text. text ≡ row_text (characters_of (R.literals row.now))) }
{
    let mut made = Name::new(alloc);
    for place in 0..row.width() {
        made.push(byte_of(row.at(place)))?;
    }
    Ok(made)
}

// Appends a copy of a row that is not among those seen, and adds it to them.
fn push_new<R: Row>(
    alloc: Global,
    seen: &mut IndexSet<Name>,
    made: &mut Vec<R>,
    row: &R,
) -> Result<(), AllocError>
    ensures rows { OnOk result (map characters_of (map R.literals made.new.items)
        ≡ map characters_of (map R.literals made.old.items) ++
        (if contains bytes_eq seen.old (row_text (characters_of (R.literals row.now))) then []
        else characters_of (R.literals row.now) ∷ [])) }
    ensures seen { OnOk result ((text : List ℕ) → contains bytes_eq seen.new text
        ≡ (bytes_eq (row_text (characters_of (R.literals row.now))) text
        || contains bytes_eq seen.old text)) }
{
    let text = text_of(alloc, row)?;
    if seen.insert(text)? {
        made.push(row.copy(alloc)?)?;
    }
    Ok(())
}

// Copies of the rows, without those that equal an earlier one.
fn rows_once<R: Row>(alloc: Global, rows: &[R]) -> Result<Vec<R>, AllocError>
    ensures { IfOk result (λ made. map characters_of (map R.literals made.items)
        ≡ rows_once (map characters_of (map R.literals rows.now))) }
{
    let mut seen = IndexSet::new(alloc);
    let mut made = Vec::new(alloc);
    for row in rows {
        push_new(alloc, &mut seen, &mut made, row)?;
    }
    Ok(made)
}

// Whether a row has a literal in a column.
fn has_literal<R: Row>(row: &R, place: usize) -> bool
    ensures { result ≡ is_literal (character_of (slice_index_or (R.literals row.now) place None)) }
{
    place < row.width() && row.at(place).is_some()
}

// Whether some row has a literal in a column.
fn is_place_used<R: Row>(rows: &[R], place: usize) -> bool
    ensures { result ≡ list_any (λ row. is_literal (slice_index_or row place Free))
        (map characters_of (map R.literals rows.now)) }
{
    for row in rows {
        if has_literal(row, place) {
            return true;
        }
    }
    false
}

// The columns in which some row has a literal.
fn used_columns<R: Row>(
    alloc: Global,
    inputs: &[Name],
    rows: &[R],
) -> Result<Vec<usize>, AllocError>
    ensures { IfOk result (λ places. places.items ≡ chosen
        (used_places inputs.now (map characters_of (map R.literals rows.now)))
        (range_with_len 0 (length inputs.now))) }
{
    let mut places = Vec::with_capacity(alloc, inputs.len())?;
    for place in 0..inputs.len() {
        if is_place_used(rows, place) {
            places.push(place)?;
        }
    }
    Ok(places)
}

// Copies of the names at some places, in their order.
fn names_at(alloc: Global, names: &[Name], places: &[usize]) -> Result<Names, AllocError>
    requires { (i : ℕ) → i < length places.now → slice_index_or places.now i 0 < length names.now }
    ensures { IfOk result (λ made. made
        ≡ map (λ place. slice_index_or names.now place []) places.now) }
{
    let mut made = Vec::with_capacity(alloc, places.len())?;
    for place in places {
        made.push(names[*place].copy(alloc)?)?;
    }
    Ok(Sequence::from_vec(made))
}

// The columns at some places of each row.
fn rows_kept<R: Row>(alloc: Global, rows: &[R], places: &[usize]) -> Result<Vec<R>, AllocError>
    ensures { IfOk result (λ made. map R.literals made.items
        ≡ map (λ row. map (λ place. slice_index_or (R.literals row) place None) places.now)
        rows.now) }
{
    let mut made = Vec::with_capacity(alloc, rows.len())?;
    for row in rows {
        made.push(row.keep(alloc, places)?)?;
    }
    Ok(made)
}

// The table over the inputs at some places, which are those that have a literal.
fn kept_table<R: Row>(
    alloc: Global,
    inputs: &[Name],
    rows: &[R],
    places: &[usize],
    phase: bool,
) -> Result<CoverTable<R>, AllocError>
    requires widths { HasWidth (length inputs.now) (map R.literals rows.now) }
    requires used { places.now ≡ chosen
        (used_places inputs.now (map characters_of (map R.literals rows.now)))
        (range_with_len 0 (length inputs.now)) }
    ensures narrow { IfOk result (λ made. (name : List ℕ) → named name made
        ≡ narrowed (record {
          inputs = inputs.now;
          output = name;
          rows = map characters_of (map R.literals rows.now);
          phase = phase;
        })) }
    ensures over { IfOk result IsOverInputs }
{
    let names = names_at(alloc, inputs, places)?;
    let kept = rows_kept(alloc, rows, places)?;
    Ok(CoverTable {
        inputs: names,
        cover: Cover::of(places.len(), kept),
        phase,
    })
}

// The table over those of the inputs that have a literal.
fn narrowed<R: Row>(
    alloc: Global,
    inputs: &Names,
    rows: Vec<R>,
    phase: bool,
) -> Result<CoverTable<R>, AllocError>
    requires { HasWidth (length inputs.now) (map R.literals rows.items) }
    ensures narrow { IfOk result (λ made. (name : List ℕ) → named name made
        ≡ narrowed (record {
          inputs = inputs.now;
          output = name;
          rows = map characters_of (map R.literals rows.items);
          phase = phase;
        })) }
    ensures over { IfOk result IsOverInputs }
{
    let places = used_columns(alloc, inputs.as_slice(), rows.as_slice())?;
    if places.len() == inputs.len() {
        return Ok(CoverTable {
            inputs: inputs.copy(alloc)?,
            cover: Cover::of(inputs.len(), rows),
            phase,
        });
    }
    let made = kept_table(
        alloc,
        inputs.as_slice(),
        rows.as_slice(),
        places.as_slice(),
        phase,
    )?;
    Ok(made)
}

// Whether no name is listed twice: a table of these inputs is not folded.
fn names_differ(alloc: Global, names: &[Name]) -> Result<bool, AllocError>
    ensures { IfOk result (λ answer. answer ≡ all_different names.now) }
{
    let folded = merge_repeated_inputs(
        alloc,
        Table {
            inputs: names_copied(alloc, names)?,
            output: Name::new(alloc),
            rows: Rows::new(alloc),
            phase: true,
        },
    )?;
    Ok(folded.inputs.len() == names.len())
}

// Whether there is a row or the phase is 1.
fn has_row_or_phase<R: Row>(rows: &[R], phase: bool) -> bool
    ensures { result ≡ some_row_or_phase_one (map characters_of (map R.literals rows.now)) phase }
{
    match rows.first() {
        None => phase,
        Some(_) => true,
    }
}

// Whether no input is listed twice, and there is a row or the phase is 1.
fn is_plain<R: Row>(alloc: Global, table: &CoverTable<R>) -> Result<bool, AllocError>
    ensures { IfOk result (λ answer. answer ≡ (all_different table.now.inputs
        && some_row_or_phase_one (map characters_of table.now.cover.rows) table.now.phase)) }
{
    let differ = names_differ(alloc, table.inputs.as_slice())?;
    Ok(differ && has_row_or_phase(table.cover.rows(), table.phase))
}

// The tidy table by way of characters.
fn tidy_written<R: Row>(alloc: Global, table: &CoverTable<R>) -> Result<CoverTable<R>, AllocError>
    requires { IsOverInputs table.now }
    ensures tidy { IfOk result (λ made. (name : List ℕ) → named name made ≡ tidied
        (named name table.now)) }
    ensures over { IfOk result IsOverInputs }
{
    let unnamed = Name::new(alloc);
    let written = table.to_written(alloc, &unnamed)?;
    let _of_one_width = table.cover.rows();
    let made = tidied_table(alloc, written)?;
    let tidy = CoverTable::from_written(alloc, &made)?;
    Ok(tidy)
}

/// The tidy table: inputs listed twice are folded, rows that equal earlier ones are removed, a
/// table of phase 0 without rows becomes the constant 1, and inputs without a literal are removed.
/// Its cover has a column for each input.
pub fn tidy<R: Row>(alloc: Global, table: &CoverTable<R>) -> Result<CoverTable<R>, AllocError>
    requires { IsOverInputs table.now }
    ensures tidy { IfOk result (λ made. (name : List ℕ) → named name made ≡ tidied
        (named name table.now)) }
    ensures over { IfOk result IsOverInputs }
{
    if !is_plain(alloc, table)? {
        return tidy_written(alloc, table);
    }
    let rows = rows_once(alloc, table.cover.rows())?;
    let made = narrowed(alloc, &table.inputs, rows, table.phase)?;
    Ok(made)
}
