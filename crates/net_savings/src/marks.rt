//! Rows, and for each of their literals which of them have it.
//!
//! Source: the project's own. Whether a row has all literals of a cube is read off the marks of its
//! literals, one list of marks after the other. Callers rely on `has_holder` and `count_holders`:
//! the answers are exact. Which literals of the rows are marked beforehand no clause says.

ghost use Rattle.std.specs.Prelude.{◌≡◌, Bool, true, Some, length, map, replicate, if◌then◌else◌, IfOk, OnOk};
ghost use Rattle.std.specs.Simd.Lanes.{zip2};
ghost use Rattle.std.specs.List.{list_any};
ghost use Rattle.indexmap.specs.IndexMap.{get};
ghost use Rattle.net_candidates.specs.Candidates.{same_literal};
ghost use Rattle.net_candidates.specs.Pairs.{has_all};
ghost use Rattle.net_candidates.specs.Spots.{many};
ghost use Rattle.cover_names.specs.declared.literal.Literal.{Literal};
ghost use Rattle.net_savings.specs.Meeting.{both, AreMarks};

use circuit_model::Name;
use cover_names::{Cube, Literal};
use indexmap::IndexMap;
use net_candidates::has_literal;
use sis_base::Copied;
use std::alloc::{AllocError, Global};
use std::marker::Model;

/// Rows; contracts see these, in order.
#[derive(Drop)]
pub(crate) struct RowMarks {
    rows: Vec<Cube>,
    marks: IndexMap<Literal, Vec<bool>>,
}

impl Model for RowMarks {
    ghost use Rattle.std.specs.Prelude.{List};
    ghost use Rattle.indexmap.specs.IndexMap.{get};
    ghost use Rattle.net_candidates.specs.Candidates.{same_literal};
    ghost use Rattle.cover_names.specs.Literals.{Cube};
    ghost use Rattle.net_savings.specs.Meeting.{AreMarks};

    ghost Value = { List Cube };

    ghost view = { λ r. r.rows.items };

    ghost invariant = { λ r. AreMarks r.rows.items (get same_literal r.marks) };
}

// For each of some rows whether it has a literal.
fn marks_of(alloc: Global, rows: &[Cube], literal: &Literal) -> Result<Vec<bool>, AllocError>
    ensures { IfOk result (λ marks. marks.items ≡ map
        (list_any (same_literal literal.now)) rows.now) }
{
    let mut marks = Vec::with_capacity(alloc, rows.len())?;
    for row in rows {
        marks.push(has_literal(row.as_slice(), literal))?;
    }
    Ok(marks)
}

// Sets the marks of a literal.
fn put_marks(
    marks: &mut IndexMap<Literal, Vec<bool>>,
    literal: Literal,
    made: Vec<bool>,
) -> Result<(), AllocError>
    ensures { OnOk result ((other : Literal) → get same_literal marks.new other
        ≡ (if same_literal literal other then Some made else get same_literal marks.old other)) }
{
    let _none = marks.insert(literal, made)?;
    Ok(())
}

// Marks the rows that have a literal, unless they are marked.
fn mark_literal(
    alloc: Global,
    rows: &[Cube],
    marks: &mut IndexMap<Literal, Vec<bool>>,
    literal: &Literal,
) -> Result<(), AllocError>
    requires { AreMarks rows.now (get same_literal marks.old) }
    ensures { OnOk result (AreMarks rows.now (get same_literal marks.new)) }
{
    if marks.contains_key(literal) {
        return Ok(());
    }
    let made = marks_of(alloc, rows, literal)?;
    let key = literal.copy(alloc)?;
    put_marks(marks, key, made)?;
    Ok(())
}

// Marks the rows that have a literal of a cube, for each of its literals.
fn mark_literals(
    alloc: Global,
    rows: &[Cube],
    marks: &mut IndexMap<Literal, Vec<bool>>,
    cube: &[Literal],
) -> Result<(), AllocError>
    requires { AreMarks rows.now (get same_literal marks.old) }
    ensures { OnOk result (AreMarks rows.now (get same_literal marks.new)) }
{
    for literal in cube {
        mark_literal(alloc, rows, marks, literal)?;
    }
    Ok(())
}

// Marks the rows by all their literals.
fn mark_rows(
    alloc: Global,
    rows: &[Cube],
    marks: &mut IndexMap<Literal, Vec<bool>>,
) -> Result<(), AllocError>
    requires { AreMarks rows.now (get same_literal marks.old) }
    ensures { OnOk result (AreMarks rows.now (get same_literal marks.new)) }
{
    for row in rows {
        mark_literals(alloc, rows, marks, row.as_slice())?;
    }
    Ok(())
}

// Marks the rows by both literals of some names.
fn mark_names(
    alloc: Global,
    rows: &[Cube],
    marks: &mut IndexMap<Literal, Vec<bool>>,
    names: &[Name],
) -> Result<(), AllocError>
    requires { AreMarks rows.now (get same_literal marks.old) }
    ensures { OnOk result (AreMarks rows.now (get same_literal marks.new)) }
{
    for name in names {
        for bit in [false, true] {
            let literal = Literal {
                name: name.copy(alloc)?,
                bit,
            };
            mark_literal(alloc, rows, marks, &literal)?;
        }
    }
    Ok(())
}

// Keeps of some marks those that are set in another list too.
fn keep_common(held: &mut [bool], others: &[bool])
    requires { length held.old ≡ length others.now }
    ensures { held.new ≡ zip2 both held.old others.now }
{
    for place in 0..held.len() {
        held[place] &= others[place];
    }
}

/// Whether a mark is set.
pub(crate) fn is_some_set(marks: &[bool]) -> bool
    ensures { result ≡ list_any (λ (mark : Bool). mark) marks.now }
{
    marks.iter().any(|mark| *mark)
}

// The number of marks that are set.
fn count_set(marks: &[bool]) -> usize
    ensures { result ≡ many (λ (mark : Bool). mark) marks.now }
{
    marks.iter().filter(|mark| **mark).count()
}

// So many marks that are set.
fn set_marks(alloc: Global, count: usize) -> Result<Vec<bool>, AllocError>
    ensures { IfOk result (λ marks. marks.items ≡ replicate count true) }
{
    vec![in alloc; true; count]
}

impl RowMarks {
    /// Rows, marked by their literals.
    pub(crate) fn new(alloc: Global, rows: Vec<Cube>) -> Result<RowMarks, AllocError>
        ensures { IfOk result (λ made. made ≡ rows.items) }
    {
        let mut marks = IndexMap::new(alloc);
        mark_rows(alloc, rows.as_slice(), &mut marks)?;
        Ok(RowMarks { rows, marks })
    }

    /// Rows, marked by the literals of some names alone.
    pub(crate) fn by_names(
        alloc: Global,
        rows: Vec<Cube>,
        names: &[Name],
    ) -> Result<RowMarks, AllocError>
        ensures { IfOk result (λ made. made ≡ rows.items) }
    {
        let mut marks = IndexMap::new(alloc);
        mark_names(alloc, rows.as_slice(), &mut marks, names)?;
        Ok(RowMarks { rows, marks })
    }

    // Keeps of some marks of rows those of rows that have a literal.
    fn keep_with(
        &self,
        alloc: Global,
        held: &mut [bool],
        literal: &Literal,
    ) -> Result<(), AllocError>
        requires { length held.old ≡ length self.now }
        ensures { OnOk result (held.new ≡ zip2 both held.old
            (map (list_any (same_literal literal.now)) self.now)) }
    {
        match self.marks.get(literal) {
            None => {
                let marks = marks_of(alloc, self.rows.as_slice(), literal)?;
                keep_common(held, marks.as_slice());
                Ok(())
            }
            Some(marks) => {
                keep_common(held, marks.as_slice());
                Ok(())
            }
        }
    }

    /// For each row whether it has all literals of a cube.
    pub(crate) fn holders(&self, alloc: Global, cube: &[Literal]) -> Result<Vec<bool>, AllocError>
        ensures { IfOk result (λ held. held.items ≡ map (has_all cube.now) self.now) }
    {
        let mut held = set_marks(alloc, self.rows.len())?;
        for literal in cube {
            self.keep_with(alloc, held.as_mut_slice(), literal)?;
        }
        Ok(held)
    }

    /// Whether a row has all literals of a cube.
    pub(crate) fn has_holder(&self, alloc: Global, cube: &[Literal]) -> Result<bool, AllocError>
        ensures { IfOk result (λ held. held ≡ list_any (has_all cube.now) self.now) }
    {
        let held = self.holders(alloc, cube)?;
        Ok(is_some_set(held.as_slice()))
    }

    /// The number of rows that have all literals of a cube.
    pub(crate) fn count_holders(&self, alloc: Global, cube: &[Literal]) -> Result<usize, AllocError>
        ensures { IfOk result (λ count. count ≡ many (has_all cube.now) self.now) }
    {
        let held = self.holders(alloc, cube)?;
        Ok(count_set(held.as_slice()))
    }
}
