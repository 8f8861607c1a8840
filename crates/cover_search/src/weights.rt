//! Weights of literals by polarity, by which the search chooses the column to split at and the bit
//! to try there first.
//!
//! Source: Davis, Logemann and Loveland, "A machine program for theorem-proving" (Communications of
//! the ACM 5, 1962: unit rows first). No answer depends on the weights, and no contract speaks of
//! them. A column is open if the given row has a dash there. Each literal of a row in an open
//! column adds the row's weight: to the other bit if the rows must give 0, to its own bit if they
//! must give 1. A row with k open literals has a weight of 2^(40-2k), or 1 from k = 20 on; if the
//! rows must give 1, it is divided by their number. If the rows must give 0, a row of one open
//! literal forces its bit, and no weights are computed. Rows are read literal by literal, so that
//! their dashes cost nothing.

ghost use Rattle.std.specs.Prelude.{◌+◌, ◌^◌, ◌<◌, ◌≤◌, length, IfSome};

use crate::constraint::Constraint;
use crate::narrow::known_wanted;
use cube_cover::Row;
use std::alloc::{AllocError, Global};

/// The column to split at, and the bit to try first.
#[derive(Clone, Copy)]
pub struct SplitChoice {
    pub place: usize,
    pub bit: bool,
}

// For each column the weights of its positive and of its negative literal; 0 if it is not open.
#[derive(Drop)]
struct PolarityWeights {
    positive: Vec<u64>,
    negative: Vec<u64>,
}

// Adds to the weight of a column.
fn add_weight(weights: &mut [u64], place: usize, weight: u64) {
    if place < weights.len() {
        weights[place] = weights[place].saturating_add(weight);
    }
}

impl PolarityWeights {
    // Adds to the weight of the literal of a bit in a column.
    fn add(&mut self, place: usize, bit: bool, weight: u64) {
        if bit {
            add_weight(self.positive.as_mut_slice(), place, weight);
        } else {
            add_weight(self.negative.as_mut_slice(), place, weight);
        }
    }
}

// Whether the given row has a dash in a column.
fn is_open<R: Row>(given: &R, place: usize) -> bool {
    place < given.width() && given.at(place).is_none()
}

// The first column at or after a place that is open and in which a row has a literal, with its bit.
fn next_open<R: Row>(given: &R, row: &R, from: usize) -> Option<(usize, bool)>
    ensures onward { IfSome result (λ next. (from ≤ next.0)
        × (next.0 < length (R.literals row.now))) }
    ensures fits { IfSome result (λ next. next.0 + 1 < 2 ^ 64) }
{
    let mut next = from;
    while let Some(place) = row.next_literal(next) {
        if is_open(given, place) {
            return row.at(place).map(|bit| (place, bit));
        }
        next = place + 1;
    }
    None
}

// The number of open columns in which a row has a literal.
fn open_literals<R: Row>(given: &R, row: &R) -> usize {
    let mut count: usize = 0;
    let mut from = 0;
    while let Some((place, _)) = next_open(given, row, from) {
        count = count.saturating_add(1);
        from = place + 1;
    }
    count
}

// The weight of a row with this number of open literals.
fn row_weight(open: usize) -> u64 {
    if open >= 20 {
        return 1;
    }
    1 << (40 - 2 * open)
}

// A part of a weight.
fn share_of(weight: u64, parts: usize) -> u64 {
    if parts == 0 {
        return weight;
    }
    weight / (parts as u64)
}

// Adds a part of a row's weight, for its literals or against them.
fn weigh_row<R: Row>(
    weights: &mut PolarityWeights,
    given: &R,
    row: &R,
    is_for: bool,
    parts: usize,
) {
    let weight = share_of(row_weight(open_literals(given, row)), parts);
    let mut from = 0;
    while let Some((place, bit)) = next_open(given, row, from) {
        weights.add(place, bit == is_for, weight);
        from = place + 1;
    }
}

// Adds the weights of rows.
fn weigh_rows<R: Row>(
    weights: &mut PolarityWeights,
    given: &R,
    rows: &[&R],
    is_for: bool,
    parts: usize,
) {
    for row in rows {
        weigh_row(weights, given, *row, is_for, parts);
    }
}

// Adds the weight of a row of one literal for a bit in a column, if that is open.
fn weigh_bit<R: Row>(weights: &mut PolarityWeights, given: &R, place: usize, bit: bool) {
    if is_open(given, place) {
        weights.add(place, bit, row_weight(1));
    }
}

// Whether some row has no literal in an open column.
fn some_is_closed<R: Row>(given: &R, rows: &[&R]) -> bool {
    for row in rows {
        if next_open(given, *row, 0).is_none() {
            return true;
        }
    }
    false
}

// Adds the weight of a constraint whose tie is to an open column: for the bit that follows, if the
// rows' value is evident; else lighter weights against the rows, so that their value is decided
// soon.
fn weigh_tie<R: Row>(
    weights: &mut PolarityWeights,
    given: &R,
    rows: &[&R],
    place: usize,
    phase: bool,
) {
    if rows.len() == 0 {
        weigh_bit(weights, given, place, !phase);
    } else if some_is_closed(given, rows) {
        weigh_bit(weights, given, place, phase);
    } else {
        weigh_rows(weights, given, rows, false, 16);
    }
}

// Adds the weights of a constraint.
fn weigh_constraint<R: Row>(weights: &mut PolarityWeights, given: &R, constraint: &Constraint<R>) {
    match known_wanted(given, constraint.tie(), constraint.bit()) {
        Some(true) => weigh_rows(
            weights,
            given,
            constraint.rows(),
            true,
            constraint.rows().len(),
        ),
        Some(false) => weigh_rows(weights, given, constraint.rows(), false, 1),
        None => match constraint.tie() {
            None => (),
            Some(place) => weigh_tie(weights, given, constraint.rows(), place, constraint.bit()),
        },
    }
}

// The column with most weight, the first of several, and the bit that has more of it there.
fn heaviest_choice(weights: &PolarityWeights) -> SplitChoice {
    let mut choice = SplitChoice {
        place: 0,
        bit: false,
    };
    let mut most: u64 = 0;
    for (place, positive) in weights.positive.iter().enumerate() {
        if place < weights.negative.len() {
            let negative = weights.negative[place];
            if positive.saturating_add(negative) > most {
                most = positive.saturating_add(negative);
                choice = SplitChoice {
                    place,
                    bit: *positive > negative,
                };
            }
        }
    }
    choice
}

// The one open column in which a row has a literal, and the bit that makes the row 0; none if it
// has no open literal, or more than one.
fn forced_by_row<R: Row>(given: &R, row: &R) -> Option<SplitChoice> {
    let (place, bit) = next_open(given, row, 0)?;
    if next_open(given, row, place + 1).is_some() {
        return None;
    }
    Some(SplitChoice { place, bit: !bit })
}

// The choice forced by the first row with one open literal, if the rows must give 0.
fn forced_by_constraint<R: Row>(given: &R, constraint: &Constraint<R>) -> Option<SplitChoice> {
    if known_wanted(given, constraint.tie(), constraint.bit()) != Some(false) {
        return None;
    }
    for row in constraint.rows() {
        let forced = forced_by_row(given, *row);
        if forced.is_some() {
            return forced;
        }
    }
    None
}

// The choice forced by a row of one open literal, if there is such a row.
fn forced<R: Row>(given: &R, constraints: &[Constraint<R>]) -> Option<SplitChoice> {
    for constraint in constraints {
        let forced = forced_by_constraint(given, constraint);
        if forced.is_some() {
            return forced;
        }
    }
    None
}

// The weights of all constraints.
fn weights_of<R: Row>(
    alloc: Global,
    given: &R,
    constraints: &[Constraint<R>],
) -> Result<PolarityWeights, AllocError> {
    let mut weights = PolarityWeights {
        positive: vec![in alloc; 0; given.width()]?,
        negative: vec![in alloc; 0; given.width()]?,
    };
    for constraint in constraints {
        weigh_constraint(&mut weights, given, constraint);
    }
    Ok(weights)
}

/// Where to split: as a row of one open literal forces, else by the weights of all constraints.
pub fn choose<R: Row>(
    alloc: Global,
    given: &R,
    constraints: &[Constraint<R>],
) -> Result<SplitChoice, AllocError> {
    if let Some(choice) = forced(given, constraints) {
        return Ok(choice);
    }
    let weights = weights_of(alloc, given, constraints)?;
    Ok(heaviest_choice(&weights))
}

/// The open columns in which the positive literal has more weight, in order.
pub fn places_for_one<R: Row>(
    alloc: Global,
    given: &R,
    constraints: &[Constraint<R>],
) -> Result<Vec<usize>, AllocError> {
    let weights = weights_of(alloc, given, constraints)?;
    let mut ones = Vec::new(alloc);
    for (place, positive) in weights.positive.iter().enumerate() {
        if place < weights.negative.len() && *positive > weights.negative[place] {
            ones.push(place)?;
        }
    }
    Ok(ones)
}
