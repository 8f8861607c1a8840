//! The tautology test: whether each point of a cover's width is matched by some row.
//!
//! Source: Brayton et al., "Logic Minimization Algorithms for VLSI Synthesis" (the tautology test).
//! The answer is exact. The rows are not copied. The search splits on one input after another. A
//! given row has the literals of the inputs decided so far, and a list has the indices of the rows
//! that still count, so that a level holds one row and an index for each row that is left there.

ghost use Rattle.std.specs.Prelude.{◌≡◌, ℕ, ◌<◌, ◌↔◌, Bool, true, Option, Some, None, List, length, map, IfOk, IsTrue};
ghost use Rattle.sis_base.specs.Rows.{HasWidth};
ghost use Rattle.cube_cover.specs.Covers.{picked_rows, IsCovered, IsTautology};
ghost use Rattle.cube_cover.specs.Literals.{some_contains};

use crate::counts::{choose_split, first_within, literals_of_rows};
use crate::cover::Cover;
use crate::picks::{all_numbers, has_points};
use crate::row::{Row, dash_of, row_with};
use crate::unate::reduce;
use crate::volume::is_too_small;
use std::alloc::{AllocError, Global};

impl<R: Row> Cover<R> {
    /// Whether some row matches each point of the width.
    pub fn is_tautology(&self, alloc: Global) -> Result<bool, AllocError>
        ensures { IfOk result (λ answer. IsTrue answer ↔ IsTautology self.now) }
    {
        if is_too_small(self.rows()) {
            Ok(false)
        } else {
            every_point(alloc, self.width(), self.rows())
        }
    }
}

// Whether some row matches each point of the width.
fn every_point<R: Row>(alloc: Global, width: usize, rows: &[R]) -> Result<bool, AllocError>
    requires { HasWidth width (map R.literals rows.now) }
    ensures { IfOk result (λ answer. IsTrue answer ↔ IsTautology
        (record { width = width; rows = map R.literals rows.now })) }
{
    let given: R = R::dashes(alloc, width)?;
    let literals = literals_of_rows(alloc, rows)?;
    let all = all_numbers(alloc, rows)?;
    let answer = is_covered(alloc, &given, rows, literals.as_slice(), all.as_slice(), 0)?;
    Ok(answer)
}

// Whether the row at a position in the list of indices, if there is one, contains each point of the
// given row.
#[tactic(auto, using(crate::proofs::Points::width_read, crate::proofs::Splits::some_contains_at))]
fn choice_has_points<R: Row>(
    given: &R,
    rows: &[R],
    numbers: &[usize],
    choice: Option<usize>,
) -> bool
    requires { HasWidth (length (R.literals given.now))
        (picked_rows (map R.literals rows.now) numbers.now) }
    ensures { IsTrue result → some_contains (R.literals given.now)
        (picked_rows (map R.literals rows.now) numbers.now) ≡ true }
{
    match choice {
        None => false,
        Some(i) => {
            if i >= numbers.len() {
                return false;
            }
            has_points(given, rows, numbers[i])
        }
    }
}

// Whether one of the selected rows contains each point of the given row.
#[tactic(auto, using(crate::proofs::Points::width_read), unfolding(crate::specs::Literals::some_contains))]
fn some_has_points<R: Row>(given: &R, rows: &[R], numbers: &[usize]) -> bool
    requires { HasWidth (length (R.literals given.now))
        (picked_rows (map R.literals rows.now) numbers.now) }
    ensures { result ≡ some_contains (R.literals given.now)
        (picked_rows (map R.literals rows.now) numbers.now) }
{
    for number in numbers {
        if has_points(given, rows, *number) {
            return true;
        }
    }
    false
}

// Whether some rows have each point of the given one; `last` is the place decided last, of which
// nothing is asked. Looks for a row that decides at once, before rows are left out: one after the
// other goes in a chain of implications, each in a round of its own. Then leaves out rows that do
// not count, and splits at a dash until a row or the want of rows decides.
fn is_covered<R: Row>(
    alloc: Global,
    given: &R,
    rows: &[R],
    literals: &[Vec<u32>],
    numbers: &[usize],
    last: usize,
) -> Result<bool, AllocError>
    requires { HasWidth (length (R.literals given.now))
        (picked_rows (map R.literals rows.now) numbers.now) }
    ensures { IfOk result (λ answer. IsTrue answer ↔ IsCovered (R.literals given.now)
        (picked_rows (map R.literals rows.now) numbers.now)) }
{
    let within = first_within(given, rows, literals, numbers);
    if choice_has_points(given, rows, numbers, within) {
        return Ok(true);
    }
    let kept = reduce(alloc, given, rows, literals, numbers, last)?;
    if kept.len() == 0 {
        return Ok(false);
    }
    let choice = choose_split(alloc, given, literals, kept.as_slice())?;
    if choice_has_points(given, rows, kept.as_slice(), choice.row) {
        return Ok(true);
    }
    match dash_of(given, choice.place) {
        None => Ok(some_has_points(given, rows, kept.as_slice())),
        Some(place) => {
            let low = row_with(alloc, given, place, false)?;
            let low_answer = is_covered(alloc, &low, rows, literals, kept.as_slice(), place)?;
            if !low_answer {
                return Ok(low_answer);
            }
            let high = row_with(alloc, given, place, true)?;
            let high_answer = is_covered(alloc, &high, rows, literals, kept.as_slice(), place)?;
            Ok(high_answer)
        }
    }
}
