//! The minimum of a cover: each row is expanded to a prime, then redundant rows are removed.
//!
//! Source: Brayton et al., "Logic Minimization Algorithms for VLSI Synthesis" (expand and
//! irredundant). Each literal and each row costs one test of the oracle. While rows are removed,
//! one row is held apart and the others are in order in the cover that the oracle is shown. A row
//! that is kept is exchanged with the next one, in constant time; no clause says so.

ghost use Rattle.std.specs.Prelude.{◌≡◌, ◌<◌, ◌≤◌, Err, ◌∷◌, ◌++◌, [], length, map, take, drop, option_map, IfOk, OnOk};
ghost use Rattle.sis_base.specs.Rows.{HasWidth};
ghost use Rattle.cover_min.specs.Minimum.{widened_at, widened, with_needed, needed_behind, minimum_rows};
ghost use Rattle.cover_min.specs.Refusals.{RefusesTo, RefusesLiteral, RefusesRow, RefusesMinimum};
ghost use Rattle.cover_min.specs.Trimming.{RefusesAt, Holds};

use crate::oracle::{Oracle, OracleFault};
use cube_cover::{Cover, Row};
use std::alloc::{AllocError, Global};
use std::mem;

/// The minimum of a cover of the oracle's width. First each row is expanded: its literals are
/// removed, in order, as long as the row has no point at which the function must be 0. Then rows
/// are removed, in order, that no point needs at which the function must be 1.
///
/// `Refused` exactly if the oracle refuses one of these tests. On an error the cover is lost, and
/// the oracle is still ready.
pub fn prime_irredundant<R: Row, O: Oracle<R>>(
    alloc: Global,
    cover: Cover<R>,
    oracle: &mut O,
) -> Result<Cover<R>, OracleFault>
    requires ready { O.IsReady oracle.old }
    requires width { cover.width ≡ (O.meaning oracle.old).width }
    ensures stays { O.Stays oracle.old oracle.new }
    ensures minimum { IfOk result (λ least.
        least ≡ record cover { rows = minimum_rows (O.meaning oracle.old) cover.rows }) }
    ensures passed { OnOk result (
        RefusesMinimum (O.meaning oracle.old) (O.refusals oracle.old) cover.rows → ⊥) }
    ensures refused { result ≡ Err OracleFault.Refused
        → RefusesMinimum (O.meaning oracle.old) (O.refusals oracle.old) cover.rows }
{
    let primes = primes_of(alloc, cover, oracle)?;
    needed_of(alloc, primes, oracle)
}

// Removes the literal in a column, if possible; a dash is not tested.
fn widen_at<R: Row, O: Oracle<R>>(
    alloc: Global,
    row: &mut R,
    place: usize,
    oracle: &mut O,
) -> Result<(), OracleFault>
    requires ready { O.IsReady oracle.old }
    requires width { length (R.literals row.old) ≡ (O.meaning oracle.old).width }
    requires place { place < length (R.literals row.old) }
    ensures stays { O.Stays oracle.old oracle.new }
    ensures widened { OnOk result (R.literals row.new ≡ widened_at (O.meaning oracle.old).off
        (R.literals row.old) place) }
    ensures passed { OnOk result (RefusesAt (O.refusals oracle.old) (R.literals row.old) place → ⊥) }
    ensures refused { result ≡ Err OracleFault.Refused
        → RefusesAt (O.refusals oracle.old) (R.literals row.old) place }
{
    let literal = row.at(place);
    if literal.is_none() {
        return Ok(());
    }
    row.set(place, None);
    if oracle.meets_off(alloc, row)? {
        row.set(place, literal);
    }
    Ok(())
}

// The expanded row: only the literals that must stay.
fn prime_of<R: Row, O: Oracle<R>>(
    alloc: Global,
    mut row: R,
    oracle: &mut O,
) -> Result<R, OracleFault>
    requires ready { O.IsReady oracle.old }
    requires width { length (R.literals row) ≡ (O.meaning oracle.old).width }
    ensures stays { O.Stays oracle.old oracle.new }
    ensures widened { IfOk result (λ prime. R.literals prime ≡ widened (O.meaning oracle.old).off
        (R.literals row)) }
    ensures passed { OnOk result
        (RefusesTo (O.meaning oracle.old) (O.refusals oracle.old) (R.literals row)
        (length (R.literals row)) → ⊥) }
    ensures refused { result ≡ Err OracleFault.Refused
        → RefusesTo (O.meaning oracle.old) (O.refusals oracle.old) (R.literals row)
        (length (R.literals row)) }
{
    for place in 0..row.width() {
        widen_at(alloc, &mut row, place, oracle)?;
    }
    Ok(row)
}

// The cover with each row expanded.
fn primes_of<R: Row, O: Oracle<R>>(
    alloc: Global,
    cover: Cover<R>,
    oracle: &mut O,
) -> Result<Cover<R>, OracleFault>
    requires ready { O.IsReady oracle.old }
    requires width { cover.width ≡ (O.meaning oracle.old).width }
    ensures stays { O.Stays oracle.old oracle.new }
    ensures widened { IfOk result (λ primes. primes
        ≡ record cover { rows = map (widened (O.meaning oracle.old).off) cover.rows }) }
    ensures widths { HasWidth cover.width cover.rows }
    ensures passed { OnOk result (
        RefusesLiteral (O.meaning oracle.old) (O.refusals oracle.old) cover.rows → ⊥) }
    ensures refused { result ≡ Err OracleFault.Refused
        → RefusesLiteral (O.meaning oracle.old) (O.refusals oracle.old) cover.rows }
{
    let mut primes = Cover::new(alloc, cover.width());
    for row in cover.into_rows() {
        primes.push(prime_of(alloc, row, oracle)?)?;
    }
    Ok(primes)
}

// The rows that were kept and, from index `place` on, those still to come, without the first of
// these, which is held in `hand`.
#[derive(Drop)]
struct Held<R: Row> {
    others: Cover<R>,
    place: usize,
    hand: Option<R>,
}

// Removes the row at an index and holds it, if there is one.
fn taken_out<R: Row>(others: Cover<R>, place: usize) -> Held<R>
    requires { place ≤ length others.rows }
    ensures held { Holds (take place others.rows) (drop place others.rows) result.others
        result.place (option_map R.literals result.hand) }
    ensures width { result.others.width ≡ others.width }
    ensures widths { HasWidth others.width others.rows }
{
    if place == others.rows().len() {
        return Held {
            others,
            place,
            hand: None,
        };
    }
    let width = others.width();
    let mut rows = others.into_rows();
    let row = rows.remove(place);
    Held {
        others: Cover::of(width, rows),
        place,
        hand: Some(row),
    }
}

// Sets a row at an index and holds the row that was there, if there was one.
fn put_in<R: Row>(mut others: Cover<R>, place: usize, row: R) -> Result<Held<R>, AllocError>
    requires place { place ≤ length others.rows }
    requires width { length (R.literals row) ≡ others.width }
    ensures held { IfOk result (λ held. Holds (take place others.rows ++ R.literals row ∷ [])
        (drop place others.rows) held.others held.place (option_map R.literals held.hand)) }
    ensures width { IfOk result (λ held. held.others.width ≡ others.width) }
{
    if place == others.rows().len() {
        others.push(row)?;
        return Ok(Held {
            others,
            place: place + 1,
            hand: None,
        });
    }
    let width = others.width();
    let mut rows = others.into_rows();
    let next = mem::replace(&mut rows[place], row);
    Ok(Held {
        others: Cover::of(width, rows),
        place: place + 1,
        hand: Some(next),
    })
}

// Keeps the held row, or drops it, and holds the next.
fn judged<R: Row, O: Oracle<R>>(
    alloc: Global,
    others: Cover<R>,
    place: usize,
    row: R,
    oracle: &mut O,
) -> Result<Held<R>, OracleFault>
    requires ready { O.IsReady oracle.old }
    requires place { place ≤ length others.rows }
    requires width { others.width ≡ (O.meaning oracle.old).width }
    requires row { length (R.literals row) ≡ (O.meaning oracle.old).width }
    ensures stays { O.Stays oracle.old oracle.new }
    ensures held { IfOk result (λ held. Holds (with_needed (O.meaning oracle.old).on
        (take place others.rows) (R.literals row) (drop place others.rows))
        (drop place others.rows) held.others held.place (option_map R.literals held.hand)) }
    ensures width { IfOk result (λ held. held.others.width ≡ others.width) }
    ensures passed { OnOk result ((O.refusals oracle.old).own (R.literals row) others.rows → ⊥) }
    ensures refused { result ≡ Err OracleFault.Refused
        → (O.refusals oracle.old).own (R.literals row) others.rows }
{
    if oracle.has_own_point(alloc, &row, &others)? {
        Ok(put_in(others, place, row)?)
    } else {
        Ok(taken_out(others, place))
    }
}

// The rows of a cover that are needed.
fn needed_of<R: Row, O: Oracle<R>>(
    alloc: Global,
    cover: Cover<R>,
    oracle: &mut O,
) -> Result<Cover<R>, OracleFault>
    requires ready { O.IsReady oracle.old }
    requires width { cover.width ≡ (O.meaning oracle.old).width }
    ensures stays { O.Stays oracle.old oracle.new }
    ensures needed { IfOk result (λ left. left ≡ record cover
        { rows = needed_behind (O.meaning oracle.old).on [] cover.rows }) }
    ensures passed { OnOk result (
        RefusesRow (O.meaning oracle.old) (O.refusals oracle.old) [] cover.rows → ⊥) }
    ensures refused { result ≡ Err OracleFault.Refused
        → RefusesRow (O.meaning oracle.old) (O.refusals oracle.old) [] cover.rows }
{
    let mut held = taken_out(cover, 0);
    loop {
        let Held {
            others,
            place,
            hand,
        } = held;
        let Some(row) = hand else {
            return Ok(others);
        };
        held = judged(alloc, others, place, row, oracle)?;
    }
}
