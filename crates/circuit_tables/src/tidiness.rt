//! The test for the tidy normal form: each input once and with a literal, no row twice, phase 1 if
//! there is no row. Names and the texts of rows are compared in hash sets.

ghost use Rattle.std.specs.Prelude.{◌≡◌, map, IfOk};
ghost use Rattle.std.specs.List.{list_all};
ghost use Rattle.circuit_model.specs.Names.{all_different};
ghost use Rattle.circuit_tables.specs.Tidy.{is_tidy, used_places, rows_differ, row_text};

use crate::rows::{has_row_or_phase, text_of, used_places};
use circuit_model::{Name, Names, Row, Table};
use indexmap::IndexSet;
use sis_base::{Copied, Sequence};
use std::alloc::{AllocError, Global};

// Whether no name occurs twice.
fn names_differ(alloc: Global, names: &[Name]) -> Result<bool, AllocError>
    ensures { IfOk result (λ answer. answer ≡ all_different names.now) }
{
    let mut seen = IndexSet::new(alloc);
    for name in names {
        seen.insert_full(name.copy(alloc)?)?;
    }
    Ok(seen.len() == names.len())
}

// The texts of rows.
fn texts_of(alloc: Global, rows: &[Row]) -> Result<Names, AllocError>
    ensures { IfOk result (λ texts. texts ≡ map row_text rows.now) }
{
    let mut made = Vec::with_capacity(alloc, rows.len())?;
    for row in rows {
        made.push(text_of(alloc, row.as_slice())?)?;
    }
    Ok(Sequence::from_vec(made))
}

// Whether no row occurs twice.
#[tactic(auto, using(crate::proofs::Steps::texts_differ))]
fn rows_differ(alloc: Global, rows: &[Row]) -> Result<bool, AllocError>
    ensures { IfOk result (λ answer. answer ≡ rows_differ rows.now) }
{
    let texts = texts_of(alloc, rows)?;
    names_differ(alloc, texts.as_slice())
}

// Whether all marks are set.
fn are_marked(marks: &[bool]) -> bool
    ensures { result ≡ list_all (λ mark. mark) marks.now }
{
    marks.iter().all(|mark| *mark)
}

// Whether each input has a literal in some row.
fn are_used(alloc: Global, inputs: &[Name], rows: &[Row]) -> Result<bool, AllocError>
    ensures { IfOk result (λ answer. answer ≡ list_all (λ used. used)
        (used_places inputs.now rows.now)) }
{
    let marks = used_places(alloc, inputs, rows)?;
    Ok(are_marked(marks.as_slice()))
}

/// Whether a table is tidy: each input occurs once and has a literal, no row occurs twice, and the
/// phase is 1 if there is no row.
#[tactic(auto, unfolding(crate::specs::Tidy::is_tidy))]
pub fn is_tidy_table(alloc: Global, table: &Table) -> Result<bool, AllocError>
    ensures { IfOk result (λ answer. answer ≡ is_tidy table.now) }
{
    let differ = names_differ(alloc, table.inputs.as_slice())?;
    let used = are_used(alloc, table.inputs.as_slice(), table.rows.as_slice())?;
    let once = rows_differ(alloc, table.rows.as_slice())?;
    let some = has_row_or_phase(table.rows.as_slice(), table.phase);
    Ok(differ && used && once && some)
}
