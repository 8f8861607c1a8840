//! Tables whose rows are a cover, and the conversions between them and the tables of circuits.
//!
//! Source: BLIF appendix of the SIS report (UCB/ERL M92/41), `.names`; De Micheli, "Synthesis and
//! Optimization of Digital Circuits", chapter 8 (the local function of a node). A character 0, 1 or
//! - of a row is a negative literal, a positive literal or a dash. A `CoverTable` has no name of its
//! own: `to_written` takes one. The cover must have a column for each input (`IsOverInputs`), which
//! `from_written` ensures.

ghost use Rattle.std.specs.Prelude.{◌≡◌, ℕ, List, length, map, IfOk};
ghost use Rattle.std.specs.List.{AllByRecursion};
ghost use Rattle.circuit_model.specs.Values.{literal_of};
ghost use Rattle.net_core.specs.Reads.{IsBounded};
ghost use Rattle.net_core.specs.Tables.{character_of, places_of, characters_of, covered, named, HasCharacters};

use circuit_model::{Name, Names, Row as Characters, Rows, Table, Tri};
use cube_cover::{Cover, Row};
use sis_base::{Copied, Sequence};
use std::alloc::{AllocError, Global};

/// A table of so many inputs is not made: that is answered as want of memory.
const INPUT_BOUND: usize = 1 << 30;

/// Nor is a table of so many rows.
const ROW_BOUND: usize = 1 << 33;

/// A table: where some row of the cover matches the inputs' bits the value is `phase`, else the
/// other bit.
#[derive(Drop)]
pub struct CoverTable<R: Row> {
    pub inputs: Names,
    pub cover: Cover<R>,
    pub phase: bool,
}

// The literal or dash of a character.
fn place_from(character: Tri) -> Option<bool>
    ensures { result ≡ literal_of character }
{
    match character {
        Tri::Zero => Some(false),
        Tri::One => Some(true),
        Tri::Free => None,
    }
}

// The character of a literal or dash.
fn character_from(place: Option<bool>) -> Tri
    ensures { result ≡ character_of place }
{
    match place {
        Some(false) => Tri::Zero,
        Some(true) => Tri::One,
        None => Tri::Free,
    }
}

// The row with the literals of characters.
fn row_from<R: Row>(alloc: Global, characters: &[Tri]) -> Result<R, AllocError>
    ensures { IfOk result (λ row. R.literals row ≡ places_of characters.now) }
{
    let mut row = R::dashes(alloc, characters.len())?;
    for (place, character) in characters.iter().enumerate() {
        row.set(place, place_from(*character));
    }
    Ok(row)
}

// The rows of rows of characters, in order.
fn rows_from<R: Row>(alloc: Global, rows: &[Characters]) -> Result<Vec<R>, AllocError>
    ensures { IfOk result (λ made. map R.literals made.items ≡ map places_of rows.now) }
{
    let mut made = Vec::with_capacity(alloc, rows.len())?;
    for characters in rows {
        made.push(row_from(alloc, characters.as_slice())?)?;
    }
    Ok(made)
}

// The characters of a row.
fn characters_from<R: Row>(alloc: Global, row: &R) -> Result<Characters, AllocError>
    ensures { IfOk result (λ made. made ≡ characters_of (R.literals row.now)) }
{
    let mut made = Characters::new(alloc);
    for place in 0..row.width() {
        made.push(character_from(row.at(place)))?;
    }
    Ok(made)
}

// The characters of rows, in order.
fn all_characters<R: Row>(alloc: Global, rows: &[R]) -> Result<Rows, AllocError>
    ensures { IfOk result (λ made. made ≡ map characters_of (map R.literals rows.now)) }
{
    let mut made = Vec::with_capacity(alloc, rows.len())?;
    for row in rows {
        made.push(characters_from(alloc, row)?)?;
    }
    Ok(Sequence::from_vec(made))
}

impl<R: Row> CoverTable<R> {
    /// Copies the table.
    pub fn copy(&self, alloc: Global) -> Result<CoverTable<R>, AllocError>
        ensures { IfOk result (λ made. made ≡ self.now) }
    {
        Ok(CoverTable {
            inputs: self.inputs.copy(alloc)?,
            cover: self.cover.copy(alloc)?,
            phase: self.phase,
        })
    }

    // The table over inputs that move over, with the literals of rows of characters.
    #[tactic(auto, using(crate::proofs::Rows::width_of_characters))]
    pub(crate) fn over(
        alloc: Global,
        inputs: Names,
        rows: &[Characters],
        phase: bool,
    ) -> Result<CoverTable<R>, AllocError>
        requires { HasCharacters (length inputs) rows.now }
        ensures { IfOk result (λ table. table ≡ record {
          inputs = inputs;
          cover = record
              { width = length inputs; rows = map places_of rows.now };
          phase = phase;
        }) }
    {
        let cover = Cover::of(inputs.len(), rows_from(alloc, rows)?);
        Ok(CoverTable {
            inputs,
            cover,
            phase,
        })
    }

    /// The table with the inputs, rows and phase of a circuit's table. Each row must have a
    /// character for each input.
    #[tactic(auto, unfolding(crate::specs::Tables::covered))]
    pub fn from_written(alloc: Global, written: &Table) -> Result<CoverTable<R>, AllocError>
        requires { HasCharacters (length written.now.inputs) written.now.rows }
        ensures { IfOk result (λ table. table ≡ covered written.now) }
    {
        let inputs = written.inputs.copy(alloc)?;
        let table = CoverTable::over(alloc, inputs, written.rows.as_slice(), written.phase)?;
        Ok(table)
    }

    /// The table of a circuit that drives the name by this table.
    #[tactic(auto, unfolding(crate::specs::Tables::named))]
    pub fn to_written(&self, alloc: Global, name: &Name) -> Result<Table, AllocError>
        ensures { IfOk result (λ written. written ≡ named name.now self.now) }
    {
        Ok(Table {
            inputs: self.inputs.copy(alloc)?,
            output: name.copy(alloc)?,
            rows: all_characters(alloc, self.cover.rows())?,
            phase: self.phase,
        })
    }
}

/// A table, unless it is as large as none is made.
pub fn bounded<R: Row>(table: CoverTable<R>) -> Result<CoverTable<R>, AllocError>
    ensures { IfOk result (λ made. (made ≡ table) × ((name : List ℕ) → IsBounded
        (named name table))) }
{
    if table.inputs.len() < INPUT_BOUND && table.cover.rows().len() < ROW_BOUND {
        Ok(table)
    } else {
        Err(AllocError)
    }
}
