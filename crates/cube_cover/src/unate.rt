//! Unate reduction: drops rows that the tautology test does not need, since they contradict the
//! given row or have a literal whose column has one polarity only.
//!
//! Source: Brayton et al., "Logic Minimization Algorithms for VLSI Synthesis" (unate reduction).
//! Promised: the rows that are left cover each point of the given row exactly if all rows do.

ghost use Rattle.std.specs.Prelude.{◌≡◌, ℕ, ◌+◌, ◌^◌, ◌<◌, ◌≤◌, Bool, true, false, Option, None, List, length, map, slice_index_or, IfOk};
ghost use Rattle.sis_base.specs.Rows.{HasWidth};
ghost use Rattle.cube_cover.specs.Covers.{picked_rows};
ghost use Rattle.cube_cover.specs.Literals.{literal_occurrences, literal_count};
ghost use Rattle.cube_cover.specs.Reductions.{IsUnateReduction};

use crate::counts::counts_of;
use crate::picks::{is_dash, literal_at, pick_agreeing, pick_dashed};
use crate::row::Row;
use std::alloc::{AllocError, Global};

// The numbers of rows with the positive and with the negative literal in a column.
#[derive(Clone, Copy)]
struct PolarityCounts {
    positive: usize,
    negative: usize,
}

// Adds one to the count of the literal's polarity.
fn add_literal(counts: PolarityCounts, place: Option<bool>) -> PolarityCounts
    requires positive { counts.positive + literal_count true place < 2 ^ 64 }
    requires negative { counts.negative + literal_count false place < 2 ^ 64 }
    ensures positive { result.positive ≡ counts.positive + literal_count true place }
    ensures negative { result.negative ≡ counts.negative + literal_count false place }
    ensures both { result.positive + result.negative ≤ counts.positive + counts.negative + 1 }
{
    match place {
        None => counts,
        Some(true) => PolarityCounts {
            positive: counts.positive + 1,
            negative: counts.negative,
        },
        Some(false) => PolarityCounts {
            positive: counts.positive,
            negative: counts.negative + 1,
        },
    }
}

// Counts the literals of the selected rows in a column, by polarity.
#[tactic(auto, unfolding(crate::specs::Literals::literal_occurrences))]
fn polarity_counts_at<R: Row>(rows: &[R], numbers: &[usize], place: usize) -> PolarityCounts
    ensures positive { result.positive ≡ literal_occurrences place true
        (picked_rows (map R.literals rows.now) numbers.now) }
    ensures negative { result.negative ≡ literal_occurrences place false
        (picked_rows (map R.literals rows.now) numbers.now) }
    ensures both { result.positive + result.negative ≤ length numbers.now }
{
    let mut counts = PolarityCounts {
        positive: 0,
        negative: 0,
    };
    for number in numbers {
        counts = add_literal(counts, literal_at(rows, *number, place));
    }
    counts
}

// The selected rows that agree with the given row's literal in a column; all of them if it has
// none.
#[tactic(auto, using(crate::proofs::Dashed::agreeing_reduction, crate::proofs::Dashed::reduction_same))]
fn pick_consistent<R: Row>(
    alloc: Global,
    given: &R,
    rows: &[R],
    numbers: &[usize],
    place: usize,
) -> Result<Vec<usize>, AllocError>
    requires { HasWidth (length (R.literals given.now))
        (picked_rows (map R.literals rows.now) numbers.now) }
    ensures { IfOk result (λ made. IsUnateReduction (R.literals given.now)
        (picked_rows (map R.literals rows.now) numbers.now)
        (picked_rows (map R.literals rows.now) made.items)) }
{
    if place < given.width() {
        match given.at(place) {
            None => (),
            Some(bit) => {
                let part = pick_agreeing(alloc, rows, numbers, place, bit)?;
                return Ok(part);
            }
        }
    }
    let all = Vec::from_slice(alloc, numbers)?;
    Ok(all)
}

// The selected rows with a dash in a column, if the given row has a dash there and the rows'
// literals there are all of one polarity; else all rows. The column is looked at only if
// `is_one_sided` says so.
#[tactic(auto, using(crate::proofs::Dashed::dashed_reduction, crate::proofs::Dashed::reduction_same))]
fn reduce_at<R: Row>(
    alloc: Global,
    given: &R,
    rows: &[R],
    numbers: Vec<usize>,
    place: usize,
    is_one_sided: bool,
) -> Result<Vec<usize>, AllocError>
    requires widths { HasWidth (length (R.literals given.now))
        (picked_rows (map R.literals rows.now) numbers.items) }
    requires place { place < length (R.literals given.now) }
    ensures { IfOk result (λ made. IsUnateReduction (R.literals given.now)
        (picked_rows (map R.literals rows.now) numbers.items)
        (picked_rows (map R.literals rows.now) made.items)) }
{
    if is_one_sided && is_dash(given.at(place)) {
        let counts = polarity_counts_at(rows, numbers.as_slice(), place);
        if counts.positive == 0 {
            let kept = pick_dashed(alloc, rows, numbers.as_slice(), place)?;
            return Ok(kept);
        }
        if counts.negative == 0 {
            let kept = pick_dashed(alloc, rows, numbers.as_slice(), place)?;
            return Ok(kept);
        }
    }
    Ok(numbers)
}

// Goes over the columns once, and drops the rows with a literal in an open column that has one
// polarity only.
#[tactic(auto, using(crate::proofs::Dashed::reduction_more, crate::proofs::Dashed::reduction_same))]
fn reduce_once<R: Row>(
    alloc: Global,
    given: &R,
    rows: &[R],
    literals: &[Vec<u32>],
    numbers: Vec<usize>,
) -> Result<Vec<usize>, AllocError>
    requires { HasWidth (length (R.literals given.now))
        (picked_rows (map R.literals rows.now) numbers.items) }
    ensures { IfOk result (λ made. IsUnateReduction (R.literals given.now)
        (picked_rows (map R.literals rows.now) numbers.items)
        (picked_rows (map R.literals rows.now) made.items)) }
{
    let counts = counts_of(alloc, given, rows, literals, numbers.as_slice())?;
    let mut kept = numbers;
    for place in 0..given.width() {
        let is_one_sided = counts.is_one_sided(place);
        kept = reduce_at(alloc, given, rows, kept, place, is_one_sided)?;
    }
    Ok(kept)
}

/// The selected rows that still count: those that agree with the given row in the column decided
/// last, and have no literal in an open column that has one polarity only. Each round but the last
/// clears a column, so as many rounds as columns suffice.
#[tactic(auto, using(crate::proofs::Dashed::reduction_more, crate::proofs::Dashed::reduction_same))]
pub fn reduce<R: Row>(
    alloc: Global,
    given: &R,
    rows: &[R],
    literals: &[Vec<u32>],
    numbers: &[usize],
    last: usize,
) -> Result<Vec<usize>, AllocError>
    requires { HasWidth (length (R.literals given.now))
        (picked_rows (map R.literals rows.now) numbers.now) }
    ensures { IfOk result (λ made. IsUnateReduction (R.literals given.now)
        (picked_rows (map R.literals rows.now) numbers.now)
        (picked_rows (map R.literals rows.now) made.items)) }
{
    let mut kept = pick_consistent(alloc, given, rows, numbers, last)?;
    for _round in 0..given.width() {
        let before = kept.len();
        kept = reduce_once(alloc, given, rows, literals, kept)?;
        if kept.len() == before {
            return Ok(kept);
        }
    }
    Ok(kept)
}
