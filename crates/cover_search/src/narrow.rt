//! What is left of constraints within a row.
//!
//! Source: De Micheli, "Synthesis and Optimization of Digital Circuits", chapter 7 (cofactors with
//! respect to a row). Rows of a constraint that have no point of the given row can be dropped. A
//! constraint that is satisfied at all points of the given row is dropped, and one that is
//! satisfied at none ends the search there. Promised: the constraints that are left are satisfied
//! at the same points of the given row. A constraint counts as decided only if a row has all points
//! of the given row or no row is left (`verdict_within` of `specs/Searches.antt`).

ghost use Rattle.std.specs.Prelude.{◌≡◌, true, false, Some, length, map, slice_index_or, MatchOption, IfOk, OnOk};
ghost use Rattle.sis_base.specs.Rows.{phase_value, HasWidth};
ghost use Rattle.cube_cover.specs.Covers.{agreeing_rows};
ghost use Rattle.cube_cover.specs.Literals.{rows_intersect, some_contains};
ghost use Rattle.cover_search.specs.Searches.{AllWide, IsLeft, SameWithin, satisfies_all, meeting_rows, narrowed, narrowed_rows, known_by_phase, wanted_within, value_within, verdict_of, verdict_within, with_open};

use crate::constraint::Constraint;
use cube_cover::{Row, contains_row, literal_agrees};
use std::alloc::{AllocError, Global};

/// The literal in a column of a row; `past` if it has no such column.
pub fn literal_at<R: Row>(row: &R, place: usize, past: Option<bool>) -> Option<bool>
    ensures { result ≡ slice_index_or (R.literals row.now) place past }
{
    if place >= row.width() {
        return past;
    }
    row.at(place)
}

/// A bit by a phase.
pub fn by_phase(phase: bool, bit: bool) -> bool
    ensures { result ≡ phase_value phase bit }
{
    phase == bit
}

// Whether two rows have a point in common.
fn meets<R: Row>(row: &R, other: &R) -> bool
    requires { length (R.literals row.now) ≡ length (R.literals other.now) }
    ensures { result ≡ rows_intersect (R.literals row.now) (R.literals other.now) }
{
    row.intersects(other)
}

/// The rows that have a point of the given one; all have its width.
#[tactic(auto, using(cube_cover::proofs::Points::width_read), unfolding(crate::specs::Searches::meeting_rows))]
pub fn rows_within<'a, R: Row>(
    alloc: Global,
    given: &R,
    rows: &'a [R],
) -> Result<Vec<&'a R>, AllocError>
    requires { HasWidth (length (R.literals given.now)) (map R.literals rows.now) }
    ensures { IfOk result (λ made. map (λ row. R.literals row.now) made.items ≡ meeting_rows
        (R.literals given.now) (map R.literals rows.now)) }
{
    let mut made = Vec::new(alloc);
    for row in rows {
        if meets(row, given) {
            made.push(row)?;
        }
    }
    Ok(made)
}

// Copies the references.
fn all_rows<'a, R: Row>(alloc: Global, rows: &[&'a R]) -> Result<Vec<&'a R>, AllocError>
    ensures { IfOk result (λ made. map (λ row. R.literals row.now) made.items ≡ map
        (λ row. R.literals row.now) rows.now) }
{
    let mut made = Vec::with_capacity(alloc, rows.len())?;
    for row in rows {
        made.push(*row)?;
    }
    Ok(made)
}

// The rows that agree with a bit in a column.
#[tactic(auto, unfolding(cube_cover::specs::Covers::agreeing_rows))]
fn rows_agreeing<'a, R: Row>(
    alloc: Global,
    rows: &[&'a R],
    place: usize,
    bit: bool,
) -> Result<Vec<&'a R>, AllocError>
    ensures { IfOk result (λ made. map (λ row. R.literals row.now) made.items
        ≡ agreeing_rows place bit (map (λ row. R.literals row.now) rows.now)) }
{
    let mut made = Vec::new(alloc);
    for row in rows {
        if literal_agrees(literal_at(*row, place, None), bit) {
            made.push(*row)?;
        }
    }
    Ok(made)
}

// The rows that agree with a literal in a column; all rows for a dash.
fn narrowed_to<'a, R: Row>(
    alloc: Global,
    rows: &[&'a R],
    place: usize,
    literal: Option<bool>,
) -> Result<Vec<&'a R>, AllocError>
    ensures { IfOk result (λ made. map (λ row. R.literals row.now) made.items
        ≡ narrowed_rows literal place (map (λ row. R.literals row.now) rows.now)) }
{
    match literal {
        None => all_rows(alloc, rows),
        Some(bit) => rows_agreeing(alloc, rows, place, bit),
    }
}

// The constraint with those of its rows that agree with the given row in a column.
fn narrowed_constraint<'a, R: Row>(
    alloc: Global,
    given: &R,
    constraint: &Constraint<'a, R>,
    place: usize,
) -> Result<Constraint<'a, R>, AllocError>
    ensures { IfOk result (λ made. made ≡ narrowed (R.literals given.now) place constraint.now) }
{
    let rows = narrowed_to(
        alloc,
        constraint.rows(),
        place,
        literal_at(given, place, None),
    )?;
    Ok(Constraint::new(constraint.tie(), constraint.bit(), rows))
}

/// Whether one of the rows contains each point of the given one.
#[tactic(auto, using(cube_cover::proofs::Points::width_read), unfolding(cube_cover::specs::Literals::some_contains))]
pub fn some_row_contains<R: Row>(given: &R, rows: &[&R]) -> bool
    requires { HasWidth (length (R.literals given.now)) (map (λ row. R.literals row.now) rows.now) }
    ensures { result ≡ some_contains (R.literals given.now)
        (map (λ row. R.literals row.now) rows.now) }
{
    for row in rows {
        if contains_row(*row, given) {
            return true;
        }
    }
    false
}

// The value of the rows at all points of the given one, if it is evident.
fn known_value<R: Row>(given: &R, rows: &[&R]) -> Option<bool>
    requires { HasWidth (length (R.literals given.now)) (map (λ row. R.literals row.now) rows.now) }
    ensures { result ≡ value_within (R.literals given.now)
        (map (λ row. R.literals row.now) rows.now) }
{
    if rows.len() == 0 {
        return Some(false);
    }
    if some_row_contains(given, rows) {
        return Some(true);
    }
    None
}

// A bit by a phase, if it is known.
fn known_bit(phase: bool, literal: Option<bool>) -> Option<bool>
    ensures { result ≡ known_by_phase phase literal }
{
    match literal {
        None => None,
        Some(bit) => Some(by_phase(phase, bit)),
    }
}

/// The bit that a constraint wants at all points of the given row, if it is one bit.
pub fn known_wanted<R: Row>(given: &R, tie: Option<usize>, bit: bool) -> Option<bool>
    ensures { result ≡ wanted_within (R.literals given.now) tie bit }
{
    match tie {
        None => Some(bit),
        Some(place) => known_bit(bit, literal_at(given, place, Some(false))),
    }
}

// Whether two bits are equal, if both are known.
fn compared(wanted: Option<bool>, value: Option<bool>) -> Option<bool>
    ensures { result ≡ verdict_of wanted value }
{
    match wanted {
        None => None,
        Some(bit) => match value {
            None => None,
            Some(other) => Some(bit == other),
        },
    }
}

// Whether a constraint is satisfied at all points of the given row, or at none, if that is evident.
#[tactic(auto, unfolding(crate::specs::Searches::verdict_within))]
fn verdict<R: Row>(given: &R, constraint: &Constraint<R>) -> Option<bool>
    requires { HasWidth (length (R.literals given.now)) constraint.now.rows }
    ensures { result ≡ verdict_within (R.literals given.now) constraint.now }
{
    let wanted = known_wanted(given, constraint.tie(), constraint.bit());
    compared(wanted, known_value(given, constraint.rows()))
}

// Whether it is known that a constraint cannot be satisfied.
fn is_hopeless(verdict: Option<bool>) -> bool
    ensures { (result ≡ true → verdict ≡ Some false) × (verdict ≡ Some false → result ≡ true) }
{
    match verdict {
        None => false,
        Some(met) => !met,
    }
}

// Appends a constraint that is not decided.
fn keep_open<'a, R: Row>(
    left: &mut Vec<Constraint<'a, R>>,
    constraint: Constraint<'a, R>,
    verdict: Option<bool>,
) -> Result<(), AllocError>
    ensures { OnOk result (left.new.items ≡ with_open left.old.items constraint.entry verdict) }
{
    match verdict {
        None => {
            left.push(constraint)?;
            Ok(())
        }
        Some(_met) => Ok(()),
    }
}

/// What is left of constraints within the given row, whose width their rows have: each with the
/// rows that agree in a column, and without those that are satisfied. `None` if one evidently
/// cannot be satisfied.
#[tactic(auto, using(crate::proofs::Satisfying::narrowed_wide))]
pub fn open_constraints<'a, R: Row>(
    alloc: Global,
    given: &R,
    constraints: &[Constraint<'a, R>],
    place: usize,
) -> Result<Option<Vec<Constraint<'a, R>>>, AllocError>
    requires { AllWide (length (R.literals given.now)) constraints.now }
    ensures { IfOk result (λ found. MatchOption found
        (SameWithin (R.literals given.now) (satisfies_all constraints.now) (λ point. false))
        (λ left. IsLeft (R.literals given.now) constraints.now left.items)) }
{
    let mut left = Vec::new(alloc);
    for constraint in constraints {
        let constraint_left = narrowed_constraint(alloc, given, constraint, place)?;
        let known = verdict(given, &constraint_left);
        if is_hopeless(known) {
            return Ok(None);
        }
        keep_open(&mut left, constraint_left, known)?;
    }
    Ok(Some(left))
}
