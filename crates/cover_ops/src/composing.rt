//! The composition of one table's cover into another's (elimination of a node into a fanout).
//!
//! Source: SIS report, UCB/ERL M92/41 (eliminate, collapse); De Micheli, "Synthesis and
//! Optimization of Digital Circuits", chapter 8. The outer cover has the inner table's signal as
//! input x. Inputs that only the inner table has take x's columns, in order. Rows without a literal
//! of x stay, and the others are multiplied by the inner rows for their literal, of which empty
//! products are dropped. Where the inner phase does not give these rows, the list of `on_list`
//! does. `compose` promises the exact rows and the value at every point, and `CubeLimit` exactly
//! where a limit is exceeded.

ghost use Rattle.std.specs.Prelude.{[], ◌∷◌, ◌≡◌, ◌≢◌, ℕ, ◌+◌, ◌-◌, ◌^◌, ◌<◌, ◌≤◌, ◌↔◌, Bool, true, false, not, Option, None, List, ◌++◌, length, map, replicate, slice_index_or, IfSome, IfOk, OnOk, IsTrue};
ghost use Rattle.sis_base.specs.Rows.{HasWidth, IsPoint, some_matches, value_by_phase};
ghost use Rattle.cube_cover.specs.Covers.{Intersects};
ghost use Rattle.cube_cover.specs.Literals.{rows_intersect};
ghost use Rattle.cover_ops.specs.Shannon.{bits_equal, list_rows};
ghost use Rattle.cover_ops.specs.Composed.{AreBelow, AreEntries, IsTooLong, count_new, outer_place, targets, outer_row, inner_row, row_products, composed_row, composed_rows, cover_for, asks, placed_rows, composition, inner_point, outer_point};

use crate::list::{ListFault, on_list};
use cube_cover::{Cover, Row, is_literal};
use std::alloc::{AllocError, Global};

// The number of inputs that the outer cover lacks.
#[tactic(auto, unfolding(crate::specs::Composed::count_new))]
fn new_inputs(places: &[Option<usize>]) -> usize
    ensures count { result ≡ count_new places.now }
    ensures few { result ≤ length places.now }
{
    let mut added = 0;
    for place in places {
        added += one_if_new(*place);
    }
    added
}

// 1 for an input that the outer cover lacks, else 0.
#[tactic(auto, unfolding(crate::specs::Composed::count_new))]
fn one_if_new(place: Option<usize>) -> usize
    ensures count { result ≡ count_new (place ∷ []) }
    ensures few { result ≤ 1 }
{
    match place {
        None => 1,
        Some(_) => 0,
    }
}

// The number of inputs of the result, if it fits a machine word.
fn result_width(width: usize, added: usize) -> Option<usize>
    requires { 0 < width }
    ensures { IfSome result (λ made. (made ≡ width + added - 1) × (width + added < 2 ^ 64)) }
{
    match width.checked_add(added) {
        None => None,
        Some(total) => Some(total - 1),
    }
}

// The column in the result of a column of the outer cover other than x.
fn moved_place(x: usize, added: usize, place: usize) -> usize
    requires fits { place + added < 2 ^ 64 }
    requires apart { place ≢ x }
    ensures { result ≡ outer_place x added place }
{
    if place < x { place } else { place + added - 1 }
}

// The column in the result of each input of the inner table.
#[tactic(auto, unfolding(crate::specs::Composed::targets, crate::specs::Composed::AreEntries, crate::specs::Composed::count_new))]
fn target_list(
    alloc: Global,
    x: usize,
    added: usize,
    width: usize,
    places: &[Option<usize>],
) -> Result<Vec<usize>, AllocError>
    requires entries { AreEntries width x places.now }
    requires fits { width + added < 2 ^ 64 }
    requires place { x < width }
    requires count { count_new places.now ≡ added }
    ensures { IfOk result (λ list. list.items ≡ targets x added x places.now) }
{
    let mut list = Vec::new(alloc);
    let mut next = x;
    for place in places {
        match *place {
            None => {
                list.push(next)?;
                next += 1;
            }
            Some(other) => {
                list.push(moved_place(x, added, other))?;
            }
        }
    }
    Ok(list)
}

// The literal that an outer row has in a column of the result.
#[tactic(auto, using(crate::proofs::Compositions::opened_front, crate::proofs::Compositions::opened_middle, crate::proofs::Compositions::opened_back))]
fn opened_place<R: Row>(row: &R, x: usize, added: usize, place: usize) -> Option<bool>
    requires x { x < length (R.literals row.now) }
    requires fits { length (R.literals row.now) + added < 2 ^ 64 }
    requires place { place < length (R.literals row.now) + added - 1 }
    ensures { result ≡ slice_index_or (outer_row x added (R.literals row.now)) place None }
{
    if place < x {
        return row.at(place);
    }
    if place < x + added {
        return None;
    }
    row.at(place - added + 1)
}

// An outer row over the inputs of the result, without its literal of x.
fn opened_row<R: Row>(
    alloc: Global,
    row: &R,
    x: usize,
    added: usize,
    width: usize,
) -> Result<R, AllocError>
    requires x { x < length (R.literals row.now) }
    requires fits { length (R.literals row.now) + added < 2 ^ 64 }
    requires width { width ≡ length (R.literals row.now) + added - 1 }
    ensures { IfOk result (λ made. R.literals made ≡ outer_row x added (R.literals row.now)) }
{
    let mut made = R::dashes(alloc, width)?;
    for place in 0..width {
        made.set(place, opened_place(row, x, added, place));
    }
    Ok(made)
}

// An inner row over the inputs of the result.
#[tactic(auto, using(crate::proofs::Compositions::below_at), unfolding(crate::specs::Composed::inner_row))]
fn placed_row<R: Row>(
    alloc: Global,
    row: &R,
    places: &[usize],
    width: usize,
) -> Result<R, AllocError>
    requires many { length (R.literals row.now) ≡ length places.now }
    requires below { AreBelow width places.now }
    ensures { IfOk result (λ made. R.literals made ≡ inner_row (replicate width None) places.now
        (R.literals row.now)) }
{
    let mut made = R::dashes(alloc, width)?;
    for (i, place) in places.iter().enumerate() {
        made.set(*place, row.at(i));
    }
    Ok(made)
}

/// Moves the literals of rows to other columns, in rows of the given width: `places` has for each
/// input of the rows its new column, below the width. If no column occurs twice, the new rows match
/// a point of that width exactly if the rows match its bits in these columns.
#[tactic(auto, using(cube_cover::proofs::Points::width_read))]
pub fn place_rows<R: Row>(
    alloc: Global,
    rows: &[R],
    places: &[usize],
    width: usize,
) -> Result<Vec<R>, AllocError>
    requires widths { HasWidth (length places.now) (map R.literals rows.now) }
    requires below { AreBelow width places.now }
    ensures { IfOk result (λ made. map R.literals made.items ≡ placed_rows width places.now
        (map R.literals rows.now)) }
{
    let mut made = Vec::new(alloc);
    for row in rows {
        made.push(placed_row(alloc, row, places, width)?)?;
    }
    Ok(made)
}

// Whether some row has the literal of a bit at a place.
#[tactic(auto, using(cube_cover::proofs::Points::width_read), unfolding(crate::specs::Composed::asks))]
fn asks_for<R: Row>(rows: &[R], width: usize, x: usize, bit: bool) -> bool
    requires widths { HasWidth width (map R.literals rows.now) }
    requires place { x < width }
    ensures { result ≡ asks x bit (map R.literals rows.now) }
{
    for row in rows {
        if is_literal(row.at(x), bit) {
            return true;
        }
    }
    false
}

// Whether no literals of two rows contradict.
#[tactic(auto, using(crate::proofs::Compositions::intersects_test))]
fn are_intersecting<R: Row>(row: &R, other: &R) -> bool
    requires { length (R.literals row.now) ≡ length (R.literals other.now) }
    ensures by_literals { result ≡ rows_intersect (R.literals row.now) (R.literals other.now) }
    ensures points { IsTrue result → Intersects (R.literals row.now) (R.literals other.now) }
{
    row.intersects(other)
}

// Appends the products of a row with other rows; empty products are dropped.
#[tactic(auto, using(cube_cover::proofs::Points::width_read), unfolding(crate::specs::Composed::row_products))]
fn with_products<R: Row>(
    alloc: Global,
    list: Vec<R>,
    row: &R,
    others: &[R],
    limit: usize,
) -> Result<Vec<R>, ListFault>
    requires widths { HasWidth (length (R.literals row.now)) (map R.literals others.now) }
    requires within { length list.items ≤ limit }
    ensures ok { IfOk result (λ made. map R.literals made.items
        ≡ map R.literals list.items ++ row_products (R.literals row.now)
        (map R.literals others.now)) }
    ensures within { IfOk result (λ made. length made.items ≤ limit) }
    ensures limit { result ≡ Err ListFault.CubeLimit → limit < length list.items + length
        (row_products (R.literals row.now) (map R.literals others.now)) }
{
    let mut made = list;
    for other in others {
        if are_intersecting(row, other) {
            if made.len() >= limit {
                return Err(ListFault::CubeLimit);
            }
            let product = row.product(alloc, other)?;
            made.push(product)?;
        }
    }
    Ok(made)
}

// Appends a row.
fn with_row<R: Row>(list: Vec<R>, row: R, limit: usize) -> Result<Vec<R>, ListFault>
    ensures ok { IfOk result (λ made. map R.literals made.items
        ≡ map R.literals list.items ++ R.literals row ∷ []) }
    ensures within { IfOk result (λ made. length made.items ≤ limit) }
    ensures limit { result ≡ Err ListFault.CubeLimit → limit < length list.items + 1 }
{
    let mut made = list;
    if made.len() >= limit {
        return Err(ListFault::CubeLimit);
    }
    made.push(row)?;
    Ok(made)
}

// Appends the rows that an outer row becomes.
fn with_composed<R: Row>(
    alloc: Global,
    list: Vec<R>,
    row: &R,
    x: usize,
    added: usize,
    on: &[R],
    off: &[R],
    limit: usize,
) -> Result<Vec<R>, ListFault>
    requires x { x < length (R.literals row.now) }
    requires fits { length (R.literals row.now) + added < 2 ^ 64 }
    requires on { HasWidth (length (R.literals row.now) + added - 1) (map R.literals on.now) }
    requires off { HasWidth (length (R.literals row.now) + added - 1) (map R.literals off.now) }
    requires within { length list.items ≤ limit }
    ensures ok { IfOk result (λ made. map R.literals made.items
        ≡ map R.literals list.items ++ composed_row (slice_index_or (R.literals row.now) x None)
        (outer_row x added (R.literals row.now)) (map R.literals on.now) (map R.literals off.now)) }
    ensures within { IfOk result (λ made. length made.items ≤ limit) }
    ensures limit { result ≡ Err ListFault.CubeLimit → limit < length list.items + length
        (composed_row (slice_index_or (R.literals row.now) x None)
        (outer_row x added (R.literals row.now)) (map R.literals on.now) (map R.literals off.now)) }
{
    let width = row.width() + added - 1;
    let wide = opened_row(alloc, row, x, added, width)?;
    match row.at(x) {
        None => with_row(list, wide, limit),
        Some(true) => with_products(alloc, list, &wide, on, limit),
        Some(false) => with_products(alloc, list, &wide, off, limit),
    }
}

// The rows that all outer rows become.
fn all_composed<R: Row>(
    alloc: Global,
    rows: &[R],
    width: usize,
    x: usize,
    added: usize,
    on: &[R],
    off: &[R],
    limit: usize,
) -> Result<Vec<R>, ListFault>
    requires widths { HasWidth width (map R.literals rows.now) }
    requires x { x < width }
    requires fits { width + added < 2 ^ 64 }
    requires on { HasWidth (width + added - 1) (map R.literals on.now) }
    requires off { HasWidth (width + added - 1) (map R.literals off.now) }
    ensures ok { IfOk result (λ made. map R.literals made.items ≡ composed_rows x added
        (map R.literals on.now) (map R.literals off.now) (map R.literals rows.now)) }
    ensures within { OnOk result (length (composed_rows x added (map R.literals on.now)
        (map R.literals off.now) (map R.literals rows.now)) ≤ limit) }
    ensures limit { result ≡ Err ListFault.CubeLimit → limit < length
        (composed_rows x added (map R.literals on.now) (map R.literals off.now)
        (map R.literals rows.now)) }
{
    let mut made = Vec::new(alloc);
    for row in rows {
        made = with_composed(alloc, made, row, x, added, on, off, limit)?;
    }
    Ok(made)
}

// The inner rows for a value, over the inputs of the result; none if no outer row has that literal
// of x.
fn inner_rows<R: Row>(
    alloc: Global,
    outer: &Cover<R>,
    x: usize,
    inner: &Cover<R>,
    phase: bool,
    bit: bool,
    places: &[usize],
    width: usize,
    limit: usize,
) -> Result<Vec<R>, ListFault>
    requires x { x < outer.now.width }
    requires many { length places.now ≡ inner.now.width }
    requires below { AreBelow width places.now }
    ensures ok { IfOk result (λ made. asks x bit outer.now.rows ≡ true → map R.literals made.items
        ≡ placed_rows width places.now (cover_for inner.now phase bit)) }
    ensures widths { IfOk result (λ made. HasWidth width (map R.literals made.items)) }
    ensures inner { HasWidth inner.now.width inner.now.rows }
    ensures within { OnOk result (asks x bit outer.now.rows ≡ true → bits_equal bit phase ≡ false
        → length (list_rows inner.now.width false inner.now.rows) ≤ limit) }
    ensures limit { result ≡ Err ListFault.CubeLimit → (asks x bit outer.now.rows ≡ true)
        × (bits_equal bit phase ≡ false) × (limit < length
        (list_rows inner.now.width false inner.now.rows)) }
{
    let rows = inner.rows();
    if !asks_for(outer.rows(), outer.width(), x, bit) {
        let none = Vec::new(alloc);
        return Ok(none);
    }
    if bit == phase {
        let own = place_rows(alloc, rows, places, width)?;
        return Ok(own);
    }
    let list = on_list(alloc, inner, false, limit)?;
    let made = place_rows(alloc, list.rows(), places, width)?;
    Ok(made)
}

/// Composes an inner table's cover into an outer cover in place of the input in column `x`.
/// `places` has an entry for each input of the inner table: its column in the outer cover, or
/// `None` if the outer cover lacks it; these inputs take x's columns, in order. The outer table's
/// phase stays.
///
/// A row with the literal 1 of x becomes its products with the inner rows that give 1, one with the
/// literal 0 those with the rows that give 0; empty products are dropped. If the inner phase does
/// not give these rows, the inner table's list does. `CubeLimit` exactly if a list that is needed
/// has more than `list_limit` rows, or the result more than `limit`.
pub fn compose<R: Row>(
    alloc: Global,
    outer: &Cover<R>,
    x: usize,
    inner: &Cover<R>,
    phase: bool,
    places: &[Option<usize>],
    list_limit: usize,
    limit: usize,
) -> Result<Cover<R>, ListFault>
    requires x { x < outer.now.width }
    requires many { length places.now ≡ inner.now.width }
    requires entries { AreEntries outer.now.width x places.now }
    ensures ok { IfOk result (λ made. made ≡ composition outer.now x inner.now phase places.now) }
    ensures value { IfOk result (λ made. (point : List Bool) → IsPoint made.width point
        → some_matches made.rows point ≡ some_matches outer.now.rows
        (outer_point x (count_new places.now) (value_by_phase phase inner.now.rows
        (inner_point (targets x (count_new places.now) x places.now) point)) point)) }
    ensures within { OnOk result (IsTooLong list_limit limit outer.now x inner.now phase places.now
        → ⊥) }
    ensures limit { result ≡ Err ListFault.CubeLimit
        → IsTooLong list_limit limit outer.now x inner.now phase places.now }
{
    let added = new_inputs(places);
    let wide = match result_width(outer.width(), added) {
        None => return Err(ListFault::Memory),
        Some(wide) => wide,
    };
    let at = target_list(alloc, x, added, outer.width(), places)?;
    let on = inner_rows(
        alloc,
        outer,
        x,
        inner,
        phase,
        true,
        at.as_slice(),
        wide,
        list_limit,
    )?;
    let off = inner_rows(
        alloc,
        outer,
        x,
        inner,
        phase,
        false,
        at.as_slice(),
        wide,
        list_limit,
    )?;
    let made = all_composed(
        alloc,
        outer.rows(),
        outer.width(),
        x,
        added,
        on.as_slice(),
        off.as_slice(),
        limit,
    )?;
    Ok(Cover::of(wide, made))
}
