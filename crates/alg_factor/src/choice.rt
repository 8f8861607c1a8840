//! The literal that occurs in most rows, and the division of rows by it.
//!
//! Source: Brayton, Rudell, Sangiovanni-Vincentelli and Wang, "MIS: A Multiple-Level Logic
//! Optimization System" (1987), best literal. Literals are ranked by column, then 0 before 1; of
//! those in as many rows the first is chosen, so that the choice is unique. `best_literal` returns
//! none if no literal occurs in two rows. `part_rows` keeps the order of rows and removes the
//! literal from those that have it.

ghost use Rattle.std.specs.Prelude.{◌≡◌, ℕ, ◌+◌, ◌*◌, ◌^◌, ◌<◌, ◌≤◌, Bool, true, false, Option, None, List, length, map, slice_index_or, slice_set, IfOk, MatchOption};
ghost use Rattle.sis_base.specs.Rows.{HasWidth};
ghost use Rattle.cube_cover.specs.Literals.{literal_occurrences, literal_count};
ghost use Rattle.alg_factor.specs.Forms.{with_literal, no_literal, rank, IsChosen, NoneShared};
ghost use Rattle.alg_factor.specs.Choices.{IsBest, greater};

use cube_cover::{Row, is_literal};
use std::alloc::{AllocError, Global};

/// A literal, by its column and its bit, and the number of rows that have it.
#[derive(Clone, Copy)]
pub struct Best {
    pub place: usize,
    pub bit: bool,
    pub count: usize,
}

/// The numbers of rows with the negative and with the positive literal of a column.
#[derive(Clone, Copy)]
pub(crate) struct PolarityCounts {
    negative: usize,
    positive: usize,
}

// Adds one to the count of the literal's polarity.
fn add_literal(counts: PolarityCounts, literal: Option<bool>) -> PolarityCounts
    requires negative { counts.negative + 1 < 2 ^ 64 }
    requires positive { counts.positive + 1 < 2 ^ 64 }
    ensures negative { result.negative ≡ counts.negative + literal_count false literal }
    ensures positive { result.positive ≡ counts.positive + literal_count true literal }
{
    match literal {
        None => counts,
        Some(true) => PolarityCounts {
            negative: counts.negative,
            positive: counts.positive + 1,
        },
        Some(false) => PolarityCounts {
            negative: counts.negative + 1,
            positive: counts.positive,
        },
    }
}

// The numbers of rows with each literal of a column.
#[tactic(auto, using(cube_cover::proofs::Points::width_read), unfolding(cube_cover::specs::Literals::literal_occurrences))]
fn polarity_counts_at<R: Row>(width: usize, rows: &[R], place: usize) -> PolarityCounts
    requires widths { HasWidth width (map R.literals rows.now) }
    requires place { place < width }
    ensures negative { result.negative ≡ literal_occurrences place false (map R.literals rows.now) }
    ensures positive { result.positive ≡ literal_occurrences place true (map R.literals rows.now) }
{
    let mut counts = PolarityCounts {
        negative: 0,
        positive: 0,
    };
    for row in rows {
        counts = add_literal(counts, row.at(place));
    }
    counts
}

// The next literal if it occurs in two rows and in more than the best so far, else the best so far.
fn greater_of(best: Option<Best>, next: Best) -> Option<Best>
    ensures { result ≡ greater best next }
{
    match best {
        None => { if next.count < 2 { None } else { Some(next) } }
        Some(known) => {
            if known.count < next.count {
                Some(next)
            } else {
                Some(known)
            }
        }
    }
}

// The best literal after both literals of one more column.
fn best_after<R: Row>(width: usize, rows: &[R], place: usize, best: Option<Best>) -> Option<Best>
    requires widths { HasWidth width (map R.literals rows.now) }
    requires place { place < width }
    requires best { IsBest (2 * place) (map R.literals rows.now) best }
    ensures { IsBest (2 * (place + 1)) (map R.literals rows.now) result }
{
    let counts = polarity_counts_at(width, rows, place);
    let negative = greater_of(
        best,
        Best {
            place,
            bit: false,
            count: counts.negative,
        },
    );
    greater_of(
        negative,
        Best {
            place,
            bit: true,
            count: counts.positive,
        },
    )
}

/// The literal in most rows; of those in as many, the first by column and then 0 before 1. `None`
/// if no literal occurs in two rows.
#[tactic(auto, using(crate::proofs::Choosing::best_answer))]
pub fn best_literal<R: Row>(width: usize, rows: &[R]) -> Option<Best>
    requires { HasWidth width (map R.literals rows.now) }
    ensures { MatchOption result (NoneShared (map R.literals rows.now))
        (λ best. (best.place < width) × IsChosen best.place best.bit (map R.literals rows.now)) }
{
    let mut best = None;
    for place in 0..width {
        best = best_after(width, rows, place, best);
    }
    best
}

/// The rows that have a literal, without it, and the others.
#[derive(Drop)]
pub struct Parts<R: Row> {
    pub with: Vec<R>,
    pub others: Vec<R>,
}

// A row without its literal at a place.
fn clear_literal<R: Row>(row: R, place: usize) -> R
    requires { place < length (R.literals row) }
    ensures { R.literals result ≡ slice_set (R.literals row) place None }
{
    let mut made = row;
    made.set(place, None);
    made
}

/// Divides rows by a literal, in order.
#[tactic(auto, using(cube_cover::proofs::Points::width_read, crate::proofs::PartedRows::with_keep, crate::proofs::PartedRows::with_skip, crate::proofs::PartedRows::others_keep, crate::proofs::PartedRows::others_skip), unfolding(crate::specs::Forms::with_literal, crate::specs::Forms::no_literal))]
pub fn part_rows<R: Row>(
    alloc: Global,
    width: usize,
    rows: Vec<R>,
    place: usize,
    bit: bool,
) -> Result<Parts<R>, AllocError>
    requires widths { HasWidth width (map R.literals rows.items) }
    requires place { place < width }
    ensures with { IfOk result (λ parts. map R.literals parts.with.items ≡ with_literal place bit
        (map R.literals rows.items)) }
    ensures others { IfOk result (λ parts. map R.literals parts.others.items ≡ no_literal place bit
        (map R.literals rows.items)) }
{
    let mut with = Vec::new(alloc);
    let mut others = Vec::new(alloc);
    for row in rows {
        if is_literal(row.at(place), bit) {
            with.push(clear_literal(row, place))?;
        } else {
            others.push(row)?;
        }
    }
    Ok(Parts { with, others })
}
