//! Counts of the literals in open columns, by which the tautology test chooses where to split.
//!
//! Source: Brayton et al., "Logic Minimization Algorithms for VLSI Synthesis" (unate reduction, the
//! choice of the splitting variable). No answer depends on the counts: what they say is tested
//! before it is used, and no contract speaks of them. A row is known by its index. `literals` has
//! for each row the columns of its literals, so that no count visits a row's dashes; a column is
//! open if the given row has a dash there.

use crate::row::Row;
use std::alloc::{AllocError, Global};

/// The numbers of rows with the positive and with the negative literal in each open column.
#[derive(Drop)]
pub struct Counts {
    positive: Vec<usize>,
    negative: Vec<usize>,
}

/// A row without literals in open columns, as a position in the list of indices, if there is one;
/// and a column to split at.
#[derive(Clone, Copy)]
pub struct SplitChoice {
    pub row: Option<usize>,
    pub place: usize,
}

// The columns of a row's literals, in order; columns past 32 bits are left out.
fn literals_of<R: Row>(alloc: Global, row: &R) -> Result<Vec<u32>, AllocError> {
    let mut literals = Vec::new(alloc);
    let mut from = 0;
    while let Some(place) = row.next_literal(from) {
        if let Ok(number) = u32::try_from(place) {
            literals.push(number)?;
        }
        from = place + 1;
    }
    Ok(literals)
}

/// The columns of each row's literals.
pub fn literals_of_rows<R: Row>(alloc: Global, rows: &[R]) -> Result<Vec<Vec<u32>>, AllocError> {
    let mut literals = Vec::with_capacity(alloc, rows.len())?;
    for row in rows {
        literals.push(literals_of(alloc, row)?)?;
    }
    Ok(literals)
}

// The columns of the literals of the row at an index.
fn literal_places(literals: &[Vec<u32>], number: usize) -> &[u32] {
    if number < literals.len() {
        return literals[number].as_slice();
    }
    &[]
}

// Increments the count of a column.
fn count_at(counts: &mut [usize], place: usize) {
    if place < counts.len() {
        counts[place] = counts[place].saturating_add(1);
    }
}

// Whether the given row has a dash in a column.
fn is_open<R: Row>(given: &R, place: usize) -> bool {
    place < given.width() && given.at(place).is_none()
}

// Counts a row's literals in open columns, by polarity.
fn count_row<R: Row>(given: &R, row: &R, places: &[u32], counts: &mut Counts) {
    for number in places {
        let place = *number as usize;
        if place < row.width() && is_open(given, place) {
            match row.at(place) {
                None => (),
                Some(true) => count_at(counts.positive.as_mut_slice(), place),
                Some(false) => count_at(counts.negative.as_mut_slice(), place),
            }
        }
    }
}

/// Counts the literals in open columns of the rows at some indices.
pub fn counts_of<R: Row>(
    alloc: Global,
    given: &R,
    rows: &[R],
    literals: &[Vec<u32>],
    numbers: &[usize],
) -> Result<Counts, AllocError> {
    let mut counts = Counts {
        positive: vec![in alloc; 0; given.width()]?,
        negative: vec![in alloc; 0; given.width()]?,
    };
    for number in numbers {
        if *number < rows.len() {
            count_row(
                given,
                &rows[*number],
                literal_places(literals, *number),
                &mut counts,
            );
        }
    }
    Ok(counts)
}

impl Counts {
    /// Whether a column has literals, all of one polarity.
    pub fn is_one_sided(&self, place: usize) -> bool {
        if place >= self.positive.len() || place >= self.negative.len() {
            return false;
        }
        (self.positive[place] == 0) != (self.negative[place] == 0)
    }
}

// Whether the given row has each of a row's literals, which are in these columns.
fn stands_in<R: Row>(given: &R, row: &R, places: &[u32]) -> bool {
    for number in places {
        let place = *number as usize;
        if place >= given.width() || place >= row.width() || given.at(place) != row.at(place) {
            return false;
        }
    }
    true
}

/// The position of the first row all of whose literals are in the given row, if there is one.
pub fn first_within<R: Row>(
    given: &R,
    rows: &[R],
    literals: &[Vec<u32>],
    numbers: &[usize],
) -> Option<usize> {
    for (i, number) in numbers.iter().enumerate() {
        if *number < rows.len()
            && stands_in(given, &rows[*number], literal_places(literals, *number))
        {
            return Some(i);
        }
    }
    None
}

// The number of columns that are open.
fn open_count<R: Row>(given: &R, places: &[u32]) -> usize {
    let mut open: usize = 0;
    for place in places {
        if is_open(given, *place as usize) {
            open = open.saturating_add(1);
        }
    }
    open
}

// Counts the columns that are open.
fn count_open<R: Row>(given: &R, places: &[u32], counts: &mut [usize]) {
    for place in places {
        if is_open(given, *place as usize) {
            count_at(counts, *place as usize);
        }
    }
}

// Sets all counts to 0.
fn clear(counts: &mut [usize]) {
    for count in counts.iter_mut() {
        *count = 0;
    }
}

// Counts, by column, the open literals of the rows that have the fewest of them. If a row has none,
// returns its position at once.
fn count_short<R: Row>(
    given: &R,
    literals: &[Vec<u32>],
    numbers: &[usize],
    counts: &mut [usize],
) -> Option<usize> {
    let mut least = usize::MAX;
    for (i, number) in numbers.iter().enumerate() {
        let places = literal_places(literals, *number);
        let open = open_count(given, places);
        if open == 0 {
            return Some(i);
        }
        if open < least {
            least = open;
            clear(counts);
        }
        if open == least {
            count_open(given, places, counts);
        }
    }
    None
}

// The first index of the greatest count.
fn greatest_at(counts: &[usize]) -> usize {
    let mut best = 0;
    let mut most = 0;
    for (place, count) in counts.iter().enumerate() {
        if *count > most {
            best = place;
            most = *count;
        }
    }
    best
}

/// The position of a row without open literals, if there is one; and the column to split at, in
/// which the rows with the fewest open literals have most literals: there the halves are decided
/// soonest.
pub fn choose_split<R: Row>(
    alloc: Global,
    given: &R,
    literals: &[Vec<u32>],
    numbers: &[usize],
) -> Result<SplitChoice, AllocError> {
    let mut counts = vec![in alloc; 0; given.width()]?;
    let row = count_short(given, literals, numbers, counts.as_mut_slice());
    let place = greatest_at(counts.as_slice());
    Ok(SplitChoice { row, place })
}
