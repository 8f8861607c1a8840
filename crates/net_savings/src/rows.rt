//! The rows of the tables that read some names.
//!
//! Source: Brayton, Rudell, Sangiovanni-Vincentelli and Wang, "MIS: A Multiple-Level Logic
//! Optimization System" (1987): the value of a divisor. Each row that contains a cube loses the
//! cube's literals and gains one. So what one cube saves is found by marks of rows, and only those
//! tables are looked at whose rows do not tell it. A cover of several cubes divides only a table
//! with a row for each of them, which marks tell too. This is done for cubes of names that many
//! tables or many rows read; which names they are no clause says. Callers rely on `IsIndex` of
//! `specs/Indexed.antt`.

ghost use Rattle.std.specs.Prelude.{◌≡◌, ◌-◌, ◌++◌, ◌∷◌, [], Bool, false, true, ℕ, List, drop, map, take, IfOk, IsTrue, OnOk};
ghost use Rattle.std.specs.List.{list_all, list_any};
ghost use Rattle.circuit_model.specs.Names.{has};
ghost use Rattle.circuit_model.specs.Soundness.{IsSound};
ghost use Rattle.cover_names.specs.declared.literal.Literal.{Literal};
ghost use Rattle.alg_div.specs.Cubes.{Has};
ghost use Rattle.net_candidates.specs.Pairs.{has_all};
ghost use Rattle.net_candidates.proofs.Sums.{AreOnce};
ghost use Rattle.net_core.specs.Places.{written_of};
ghost use Rattle.net_core.specs.Tables.{IsOverInputs};
ghost use Rattle.net_work.specs.Placed.{circuit_of};
ghost use Rattle.net_readers.specs.Fanouts.{is_in};
ghost use Rattle.net_savings.specs.Indexed.{AreTold, IsRead, IncludeReaders, IsIndex, is_known, rows_in, marks_in};
ghost use Rattle.net_savings.specs.declared.rows.RowSpan.{RowSpan};

use crate::by_rows::are_distinct;
use crate::marks::{RowMarks, is_some_set};
use crate::meeting::{is_apart, push_rows};
use crate::sharing::push_readers;
use circuit_model::Name;
use cover_names::{Cube, Literal};
use cube_cover::Row;
use indexmap::IndexSet;
use net_core::Entry;
use net_work::WorkingNetwork;
use sis_base::Copied;
use sis_base::limits::MAX_INPUTS;
use std::alloc::{AllocError, Global};

/// The tables that read a name of so few readers are looked at one by one.
const FEW_READERS: usize = 8;

/// A table of more rows is not looked at for each cube, even if it alone reads a name.
const FEW_ROWS: usize = 16;

/// So few names are not worth an index.
const FEW_NAMES: usize = 3;

/// So many pairs of a row and a name are looked at for an index at most.
const MANY_PAIRS: usize = 1 << 18;

/// So many cubes are looked for with each name at least.
const CUBES_PER_NAME: usize = 16;

/// The rows of the table at an index: from one place among rows up to another.
#[derive(Clone, Copy)]
pub(crate) struct RowSpan {
    pub(crate) place: usize,
    pub(crate) start: usize,
    pub(crate) end: usize,
}

/// The rows of tables, and the indices of the tables whose rows do not tell what they lose.
pub(crate) struct RowIndex {
    // All tables that read one of these are known.
    pub(crate) names: IndexSet<Name>,
    // The rows of the tables that are told by them.
    pub(crate) rows: RowMarks,
    // Where the rows of each of these tables are.
    pub(crate) spans: Vec<RowSpan>,
    // The indices of the other tables.
    pub(crate) others: Vec<usize>,
}

// By hand, so that functions that own an index drop it in one call.
impl Drop for RowIndex {
    fn drop(self) {
        let RowIndex {
            names: _names,
            rows: _rows,
            spans: _spans,
            others: _others,
        } = self;
    }
}

// Adds the rows of a table to others, with their span, or its index to other indices.
fn add_entry<R: Row>(
    alloc: Global,
    entry: &Entry<R>,
    place: usize,
    rows: &mut Vec<Cube>,
    spans: &mut Vec<RowSpan>,
    others: &mut Vec<usize>,
) -> Result<(), AllocError>
    requires { IsOverInputs entry.now.table }
    ensures { OnOk result (IsRead (written_of entry.now) place rows.old.items spans.old.items
        others.old.items rows.new.items spans.new.items others.new.items) }
{
    if entry.table.inputs.len() < MAX_INPUTS && are_distinct(alloc, entry.table.cover.rows())? {
        let start = rows.len();
        push_rows(alloc, rows, &entry.table)?;
        let end = rows.len();
        spans.push(RowSpan { place, start, end })?;
    } else {
        others.push(place)?;
    }
    Ok(())
}

// Adds the rows of the table at an index to others, or the index to other indices.
fn add_place<R: Row>(
    alloc: Global,
    work: &WorkingNetwork<R>,
    place: usize,
    rows: &mut Vec<Cube>,
    spans: &mut Vec<RowSpan>,
    others: &mut Vec<usize>,
) -> Result<(), AllocError>
    requires { IsSound (circuit_of work.now) }
    ensures { OnOk result ((places : List ℕ) → AreTold work.now places rows.old.items
        spans.old.items others.old.items → AreTold work.now (places ++ place ∷ [])
        rows.new.items spans.new.items others.new.items) }
{
    match work.entry(place) {
        None => Ok(()),
        Some(entry) => {
            add_entry(alloc, entry, place, rows, spans, others)?;
            Ok(())
        }
    }
}

// The rows of the tables at some indices that are told by them, with their spans, and the indices
// of the others.
fn rows_at<R: Row>(
    alloc: Global,
    work: &WorkingNetwork<R>,
    places: &[usize],
) -> Result<(Vec<Cube>, Vec<RowSpan>, Vec<usize>), AllocError>
    requires { IsSound (circuit_of work.now) }
    ensures { IfOk result (λ made. AreTold work.now places.now made.0.items made.1.items
        made.2.items) }
{
    let mut rows = Vec::new(alloc);
    let mut spans = Vec::new(alloc);
    let mut others = Vec::new(alloc);
    for place in places {
        add_place(alloc, work, *place, &mut rows, &mut spans, &mut others)?;
    }
    Ok((rows, spans, others))
}

// Indices, each once; in rising order, which no clause says.
fn each_once(places: Vec<usize>) -> Vec<usize>
    ensures all { (at : ℕ) → is_in places.items at ≡ true → is_in result.items at ≡ true }
    ensures once { AreOnce result.items }
{
    let mut sorted = places;
    sorted.sort_unstable();
    sorted.dedup();
    sorted
}

// The indices of the tables that read one of some names, each once.
fn readers_of<R: Row>(
    alloc: Global,
    work: &WorkingNetwork<R>,
    names: &[Name],
) -> Result<Vec<usize>, AllocError>
    ensures all { IfOk result (λ places. IncludeReaders work.now.slots names.now places.items) }
    ensures once { IfOk result (λ places. AreOnce places.items) }
{
    let mut places = Vec::new(alloc);
    for name in names {
        push_readers(alloc, work, name, &mut places)?;
    }
    Ok(each_once(places))
}

// Adds the inputs of the table at an index to names, those that many tables read if its rows are
// few, and returns how many sets of them there are, the empty one included; no clause says so.
fn add_inputs<R: Row>(
    alloc: Global,
    work: &WorkingNetwork<R>,
    place: usize,
    names: &mut IndexSet<Name>,
) -> Result<usize, AllocError> {
    let mut sets: usize = 1;
    if let Some(entry) = work.entry(place) {
        let has_many_rows = FEW_ROWS < entry.table.cover.rows().len();
        for input in entry.table.inputs.as_slice() {
            if has_many_rows || FEW_READERS < work.reader_count(input) {
                names.insert(input.copy(alloc)?)?;
                sets = sets.saturating_mul(2);
            }
        }
    }
    Ok(sets)
}

// The number of rows of the tables at some indices; no clause says so.
fn row_count<R: Row>(work: &WorkingNetwork<R>, places: &[usize]) -> usize {
    let mut count: usize = 0;
    for place in places {
        if let Some(entry) = work.entry(*place) {
            count = count.saturating_add(entry.table.cover.rows().len());
        }
    }
    count
}

// Whether so many rows, those of all tables that read some names, are many more than those of the
// tables that read one of them; no clause says so.
fn are_spread<R: Row>(
    alloc: Global,
    work: &WorkingNetwork<R>,
    names: &[Name],
    rows: usize,
) -> Result<bool, AllocError> {
    let mut total: usize = 0;
    for name in names {
        let readers = work.readers(alloc, name)?;
        total = total.saturating_add(row_count(work, readers.into_vec().as_slice()));
    }
    Ok(total.saturating_mul(FEW_READERS) < rows.saturating_mul(names.len()))
}

// Whether an index of the rows that read some names costs more than it is worth; no clause says so.
fn is_costly<R: Row>(
    alloc: Global,
    work: &WorkingNetwork<R>,
    names: &[Name],
) -> Result<bool, AllocError> {
    let places = readers_of(alloc, work, names)?;
    let rows = row_count(work, places.as_slice());
    if MANY_PAIRS < rows.saturating_mul(names.len()) {
        return Ok(true);
    }
    are_spread(alloc, work, names, rows)
}

// Inputs of the tables at some indices that many tables or many rows read; none if an index of
// them is not worth its cost. No clause says which names they are.
fn common_inputs<R: Row>(
    alloc: Global,
    work: &WorkingNetwork<R>,
    places: &[usize],
) -> Result<IndexSet<Name>, AllocError> {
    let mut names = IndexSet::new(alloc);
    let mut cubes: usize = 0;
    for place in places {
        cubes = cubes.saturating_add(add_inputs(alloc, work, *place, &mut names)?);
    }
    if names.len() <= FEW_NAMES
        || cubes / CUBES_PER_NAME < names.len()
        || is_costly(alloc, work, names.as_slice())?
    {
        return Ok(IndexSet::new(alloc));
    }
    Ok(names)
}

// Whether one of the marks of a span's rows is set; if not, none of them is.
fn is_marked(marks: &[bool], span: &RowSpan) -> bool
    ensures { result ≡ false → marks_in span.now marks.now ≡ false }
{
    match marks.get(span.start..span.end) {
        None => true,
        Some(some) => is_some_set(some),
    }
}

// Whether for each list of marks one of those of a span's rows is set.
fn holds_each(lists: &[Vec<bool>], span: &RowSpan) -> bool
    ensures { list_all (λ marks. marks_in span.now marks.items) lists.now ≡ true
        → result ≡ true }
{
    for marks in lists {
        if !is_marked(marks.as_slice(), span) {
            return false;
        }
    }
    true
}

// The indices of the spans for which one mark of each list is set.
fn held_places(
    alloc: Global,
    spans: &[RowSpan],
    lists: &[Vec<bool>],
) -> Result<Vec<usize>, AllocError>
    ensures { IfOk result (λ places. (span : RowSpan) → Has span spans.now
        → list_all (λ marks. marks_in span marks.items) lists.now ≡ true
        → is_in places.items span.place ≡ true) }
{
    let mut places = Vec::new(alloc);
    for span in spans {
        if holds_each(lists, span) {
            places.push(span.place)?;
        }
    }
    Ok(places)
}

impl RowIndex {
    /// The rows of the tables that read one of some inputs of the tables at some indices.
    pub(crate) fn of_readers<R: Row>(
        alloc: Global,
        work: &WorkingNetwork<R>,
        places: &[usize],
    ) -> Result<RowIndex, AllocError>
        requires { IsSound (circuit_of work.now) }
        ensures { IfOk result (IsIndex work.now) }
    {
        let names = common_inputs(alloc, work, places)?;
        let readers = readers_of(alloc, work, names.as_slice())?;
        let (rows, spans, others) = rows_at(alloc, work, readers.as_slice())?;
        let rows = RowMarks::by_names(alloc, rows, names.as_slice())?;
        Ok(RowIndex {
            names,
            rows,
            spans,
            others,
        })
    }

    /// Whether all names of a cube's literals are indexed.
    pub(crate) fn knows(&self, cube: &[Literal]) -> bool
        ensures { result ≡ list_all (λ (literal : Literal). has self.now.names.keys literal.name)
            cube.now }
    {
        cube.iter()
            .all(|literal| self.names.contains(&literal.name))
    }

    /// Whether the index tells of a cover which tables it divides: all its names are indexed, and
    /// none occurs twice in a cube.
    pub(crate) fn knows_all(&self, cover: &[Cube]) -> bool
        ensures { result ≡ is_known self.now.names.keys cover.now }
    {
        for cube in cover {
            if !is_apart(cube.as_slice()) || !self.knows(cube.as_slice()) {
                return false;
            }
        }
        true
    }

    // For each cube of a cover the marks of the rows that have all its literals.
    fn marks_of_each(&self, alloc: Global, cover: &[Cube]) -> Result<Vec<Vec<bool>>, AllocError>
        ensures { IfOk result (λ lists. map (λ marks. marks.items) lists.items
            ≡ map (λ cube. map (has_all cube) self.now.rows) cover.now) }
    {
        let mut lists = Vec::with_capacity(alloc, cover.len())?;
        for cube in cover {
            lists.push(self.rows.holders(alloc, cube.as_slice())?)?;
        }
        Ok(lists)
    }

    /// Indices, each once: those of the tables that their rows do not tell, and of the others those
    /// with a row for each cube of a cover that has all its literals.
    pub(crate) fn met_places(&self, alloc: Global, cover: &[Cube]) -> Result<Vec<usize>, AllocError>
        ensures once { IfOk result (λ places. AreOnce places.items) }
        ensures others { IfOk result (λ places. (at : ℕ) → is_in self.now.others.items at ≡ true
            → is_in places.items at ≡ true) }
        ensures met { IfOk result (λ places. (span : RowSpan) → Has span self.now.spans.items
            → list_all (λ cube. list_any (has_all cube) (rows_in self.now.rows span)) cover.now
            ≡ true → is_in places.items span.place ≡ true) }
    {
        let lists = self.marks_of_each(alloc, cover)?;
        let mut places = held_places(alloc, self.spans.as_slice(), lists.as_slice())?;
        places.extend_from_slice(self.others.as_slice())?;
        Ok(each_once(places))
    }
}
