//! Whether a row has a point at which all constraints are satisfied.
//!
//! Source: Davis, Logemann and Loveland, "A machine program for theorem-proving" (Communications of
//! the ACM 5, 1962), and De Micheli, "Synthesis and Optimization of Digital Circuits", chapter 7
//! (recursion on cofactors). Promised: the answer is exact. A likely point is tried first. Then the
//! search splits on the dashes of the given row. At each level the constraints are narrowed to the
//! literal decided last; satisfied ones are dropped, and one that cannot be satisfied ends the
//! branch. Then a column is chosen by weights of literals, and the likelier bit is tried first.

ghost use Rattle.std.specs.Prelude.{◌≡◌, ◌<◌, true, Some, None, length, IfOk};
ghost use Rattle.std.specs.List.{list_all};
ghost use Rattle.sis_base.specs.Rows.{HasWidth};
ghost use Rattle.cover_min.specs.Points.{has_point};
ghost use Rattle.cover_search.specs.Searches.{AllWide, IsPart, filled_at, satisfies_all, wanted_at, is_satisfied_at, is_positive};

use crate::constraint::Constraint;
use crate::narrow::{by_phase, literal_at, open_constraints, some_row_contains};
use crate::weights::{choose, places_for_one};
use cube_cover::{Row, dash_of, first_dash, row_with};
use std::alloc::{AllocError, Global};

// Whether a literal is positive.
fn positive(literal: Option<bool>) -> bool
    ensures { result ≡ is_positive literal }
{
    match literal {
        None => false,
        Some(bit) => bit,
    }
}

// The bit that a constraint wants at the one point of a row without a dash.
fn wanted<R: Row>(given: &R, tie: Option<usize>, bit: bool) -> bool
    ensures { result ≡ wanted_at (R.literals given.now) tie bit }
{
    match tie {
        None => bit,
        Some(place) => by_phase(bit, positive(literal_at(given, place, None))),
    }
}

// Whether a constraint is satisfied at the one point of a row without a dash.
fn is_satisfied<R: Row>(given: &R, constraint: &Constraint<R>) -> bool
    requires { HasWidth (length (R.literals given.now)) constraint.now.rows }
    ensures { result ≡ is_satisfied_at (R.literals given.now) constraint.now }
{
    let wanted = wanted(given, constraint.tie(), constraint.bit());
    some_row_contains(given, constraint.rows()) == wanted
}

// Whether all constraints are satisfied at the one point of a row without a dash.
#[tactic(auto, using(crate::proofs::Satisfying::wide_at))]
fn are_satisfied<R: Row>(given: &R, constraints: &[Constraint<R>]) -> bool
    requires { AllWide (length (R.literals given.now)) constraints.now }
    ensures { result ≡ list_all (is_satisfied_at (R.literals given.now)) constraints.now }
{
    for constraint in constraints {
        if !is_satisfied(given, constraint) {
            return false;
        }
    }
    true
}

// Sets a literal in a column where the row has a dash.
fn fill_at<R: Row>(row: &mut R, place: usize, bit: bool)
    ensures { R.literals row.new ≡ filled_at (R.literals row.old) place bit }
{
    if place < row.width() && row.at(place).is_none() {
        row.set(place, Some(bit));
    }
}

// A row of likely bits: the given one with a literal for each dash, chosen by the weights of
// literals.
fn likely_row<R: Row>(
    alloc: Global,
    given: &R,
    constraints: &[Constraint<R>],
) -> Result<R, AllocError>
    ensures { IfOk result (λ made. IsPart (R.literals given.now) (R.literals made)) }
{
    let ones = places_for_one(alloc, given, constraints)?;
    let mut made = given.copy(alloc)?;
    for place in ones.iter() {
        fill_at(&mut made, *place, true);
    }
    for place in 0..given.width() {
        fill_at(&mut made, place, false);
    }
    Ok(made)
}

// Whether all constraints are satisfied at the one point of a row; false if it has a dash.
fn are_satisfied_at<R: Row>(row: &R, constraints: &[Constraint<R>]) -> bool
    requires { AllWide (length (R.literals row.now)) constraints.now }
    ensures { result ≡ true → has_point (satisfies_all constraints.now) (R.literals row.now)
        ≡ true }
{
    match first_dash(row) {
        None => are_satisfied(row, constraints),
        Some(_place) => false,
    }
}

// Whether all constraints are satisfied at a likely point of the given row. This point is tried
// first.
fn are_satisfied_likely<R: Row>(
    alloc: Global,
    given: &R,
    constraints: &[Constraint<R>],
) -> Result<bool, AllocError>
    requires { AllWide (length (R.literals given.now)) constraints.now }
    ensures { IfOk result (λ answer. answer ≡ true → has_point (satisfies_all constraints.now)
        (R.literals given.now) ≡ true) }
{
    let row = likely_row(alloc, given, constraints)?;
    Ok(are_satisfied_at(&row, constraints))
}

// Whether the row has a point at which all constraints are satisfied; `last` is the column decided
// last, of which nothing is required.
fn is_satisfiable_below<R: Row>(
    alloc: Global,
    given: &R,
    constraints: &[Constraint<R>],
    last: usize,
) -> Result<bool, AllocError>
    requires { AllWide (length (R.literals given.now)) constraints.now }
    ensures { IfOk result (λ answer. answer ≡ has_point (satisfies_all constraints.now)
        (R.literals given.now)) }
{
    let found = open_constraints(alloc, given, constraints, last)?;
    match found {
        None => Ok(false),
        Some(left) => {
            if left.len() == 0 {
                return Ok(true);
            }
            let choice = choose(alloc, given, left.as_slice())?;
            match dash_of(given, choice.place) {
                None => Ok(are_satisfied(given, left.as_slice())),
                Some(place) => {
                    let first = row_with(alloc, given, place, choice.bit)?;
                    let first_answer = is_satisfiable_below(alloc, &first, left.as_slice(), place)?;
                    if first_answer {
                        return Ok(first_answer);
                    }
                    let second = row_with(alloc, given, place, !choice.bit)?;
                    let second_answer = is_satisfiable_below(
                        alloc,
                        &second,
                        left.as_slice(),
                        place,
                    )?;
                    Ok(second_answer)
                }
            }
        }
    }
}

/// Whether the row has a point at which all constraints are satisfied. Their rows have its width.
pub fn is_satisfiable<R: Row>(
    alloc: Global,
    given: &R,
    constraints: &[Constraint<R>],
) -> Result<bool, AllocError>
    requires { AllWide (length (R.literals given.now)) constraints.now }
    ensures { IfOk result (λ answer. answer ≡ has_point (satisfies_all constraints.now)
        (R.literals given.now)) }
{
    let found = open_constraints(alloc, given, constraints, 0)?;
    match found {
        None => Ok(false),
        Some(left) => {
            if left.len() == 0 {
                return Ok(true);
            }
            let satisfied = are_satisfied_likely(alloc, given, left.as_slice())?;
            if satisfied {
                return Ok(satisfied);
            }
            let answer = is_satisfiable_below(alloc, given, left.as_slice(), 0)?;
            Ok(answer)
        }
    }
}
