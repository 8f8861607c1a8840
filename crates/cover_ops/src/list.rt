//! Lists of rows by Shannon expansion, computed on cofactors.
//!
//! Source: Brayton et al., "Logic Minimization Algorithms for VLSI Synthesis" (Shannon expansion of
//! a cover). The list of a function has one row of dashes for the constant 1 and none for 0. An
//! input on which the function does not depend gets a dash; otherwise the rows of the half at 0
//! come before those of the half at 1. So the list depends on the function alone, not on the cover.
//! `on_list` and `off_list` fail with `CubeLimit` exactly if the list has more rows than the limit.

ghost use Rattle.std.specs.Prelude.{◌≡◌, ℕ, ◌+◌, ◌^◌, ◌<◌, ◌≤◌, ◌↔◌, Bool, true, false, not, List, ◌++◌, length, map, drop, IfOk, OnOk, IsTrue};
ghost use Rattle.sis_base.specs.Rows.{HasWidth, IsPoint, some_matches, value_by_phase};
ghost use Rattle.cube_cover.specs.Covers.{agreeing_rows};
ghost use Rattle.cube_cover.specs.Literals.{some_literal, all_dashes, some_dashes};
ghost use Rattle.cover_ops.specs.Shannon.{list_rows};
ghost use Rattle.cover_ops.specs.Halves.{constant_list, list_from, marked_rows, IsJoined};

use cube_cover::{Cover, Row, literal_agrees};
use std::alloc::{AllocError, AllocFailed, Global};

/// Why there is no list.
#[derive(Clone, Copy, Debug, PartialEq, Eq)]
pub enum ListFault {
    /// The list has more rows than the limit.
    CubeLimit,
    /// There is not enough memory, or the result's width does not fit a machine word.
    Memory,
}

impl From<AllocError> for ListFault {
    ghost use Rattle.std.specs.Prelude.{◌≡◌};
    ghost use Rattle.cover_ops.specs.declared.list.ListFault.TheVariants.{Memory};

    ghost from_gives = { λ _ fault. fault ≡ Memory };

    fn from(_error: AllocError) -> ListFault {
        ListFault::Memory
    }
}

impl<T: Drop> From<AllocFailed<T>> for ListFault {
    ghost use Rattle.std.specs.Prelude.{◌≡◌};
    ghost use Rattle.cover_ops.specs.declared.list.ListFault.TheVariants.{Memory};

    ghost from_gives = { λ _ fault. fault ≡ Memory };

    fn from(_error: AllocFailed<T>) -> ListFault {
        ListFault::Memory
    }
}

// One row of dashes for the constant 1, no row for 0.
fn constant_rows<R: Row>(
    alloc: Global,
    width: usize,
    value: bool,
    limit: usize,
) -> Result<Vec<R>, ListFault>
    ensures ok { IfOk result (λ list. map R.literals list.items ≡ constant_list width value) }
    ensures within { OnOk result (length (constant_list width value) ≤ limit) }
    ensures limit { result ≡ Err ListFault.CubeLimit → limit < length (constant_list width value) }
{
    let mut list = Vec::new(alloc);
    if !value {
        return Ok(list);
    }
    if limit == 0 {
        return Err(ListFault::CubeLimit);
    }
    let row = R::dashes(alloc, width)?;
    list.push(row)?;
    Ok(list)
}

// Whether a row has no literal from a column on.
fn is_free<R: Row>(row: &R, place: usize) -> bool
    ensures { result ≡ all_dashes (drop place (R.literals row.now)) }
{
    row.next_literal(place).is_none()
}

// Whether some row has no literal from a column on.
#[tactic(auto, unfolding(cube_cover::specs::Literals::some_dashes))]
fn some_free<R: Row>(rows: &[&R], place: usize) -> bool
    ensures { result ≡ some_dashes (map (drop place) (map (λ row. R.literals row.now) rows.now)) }
{
    for row in rows {
        if is_free(*row, place) {
            return true;
        }
    }
    false
}

// Whether some row has a literal in a column.
#[tactic(auto, using(cube_cover::proofs::Points::width_read), unfolding(cube_cover::specs::Literals::some_literal))]
fn any_literal<R: Row>(rows: &[&R], width: usize, place: usize) -> bool
    requires widths { HasWidth width (map (λ row. R.literals row.now) rows.now) }
    requires place { place < width }
    ensures { result ≡ some_literal place (map (λ row. R.literals row.now) rows.now) }
{
    for row in rows {
        if row.at(place).is_some() {
            return true;
        }
    }
    false
}

// The rows that agree with a bit at a place.
#[tactic(auto, using(cube_cover::proofs::Points::width_read), unfolding(cube_cover::specs::Covers::agreeing_rows))]
fn rows_agreeing<'a, R: Row>(
    alloc: Global,
    rows: &[&'a R],
    width: usize,
    place: usize,
    bit: bool,
) -> Result<Vec<&'a R>, AllocError>
    requires widths { HasWidth width (map (λ row. R.literals row.now) rows.now) }
    requires place { place < width }
    ensures { IfOk result (λ part. map (λ row. R.literals row.now) part.items
        ≡ agreeing_rows place bit (map (λ row. R.literals row.now) rows.now)) }
{
    let mut part = Vec::new(alloc);
    for row in rows {
        if literal_agrees(row.at(place), bit) {
            part.push(*row)?;
        }
    }
    Ok(part)
}

// Whether two lists have equal rows, in order.
fn equal_lists<R: Row>(low: &[R], high: &[R], width: usize) -> bool
    requires low { HasWidth width (map R.literals low.now) }
    requires high { HasWidth width (map R.literals high.now) }
    ensures { IsTrue result ↔ (map R.literals low.now ≡ map R.literals high.now) }
{
    if low.len() != high.len() {
        return false;
    }
    for (i, row) in low.iter().enumerate() {
        if !row.is_equal(&high[i]) {
            return false;
        }
    }
    true
}

// Appends rows, each with a literal set in a column.
#[tactic(auto, using(cube_cover::proofs::Points::width_read))]
fn with_marked<R: Row>(
    list: Vec<R>,
    rows: Vec<R>,
    width: usize,
    place: usize,
    bit: bool,
) -> Result<Vec<R>, AllocError>
    requires widths { HasWidth width (map R.literals rows.items) }
    requires place { place < width }
    ensures { IfOk result (λ made. map R.literals made.items
        ≡ map R.literals list.items ++ marked_rows place bit (map R.literals rows.items)) }
{
    let mut made = list;
    for row in rows {
        let mut more = row;
        more.set(place, Some(bit));
        made.push(more)?;
    }
    Ok(made)
}

// Joins the lists of the halves at a column into the list of the whole, which is counted before it
// is made.
fn join_halves<R: Row>(
    alloc: Global,
    low: Vec<R>,
    high: Vec<R>,
    width: usize,
    place: usize,
    limit: usize,
) -> Result<Vec<R>, ListFault>
    requires low { HasWidth width (map R.literals low.items) }
    requires high { HasWidth width (map R.literals high.items) }
    requires place { place < width }
    requires within { length low.items ≤ limit }
    ensures ok { IfOk result (λ list. IsJoined place (map R.literals low.items)
        (map R.literals high.items) (map R.literals list.items)) }
    ensures within { IfOk result (λ list. length list.items ≤ limit) }
    ensures limit { result ≡ Err ListFault.CubeLimit
        → (map R.literals low.items ≡ map R.literals high.items → ⊥)
        × (limit < length low.items + length high.items) }
{
    if equal_lists(low.as_slice(), high.as_slice(), width) {
        return Ok(low);
    }
    if high.len() > limit - low.len() {
        return Err(ListFault::CubeLimit);
    }
    let first = with_marked(Vec::new(alloc), low, width, place, false)?;
    let list = with_marked(first, high, width, place, true)?;
    Ok(list)
}

// The list of the function that the rows give from a column on, where `left` columns remain.
fn rows_from<R: Row>(
    alloc: Global,
    rows: &[&R],
    width: usize,
    phase: bool,
    place: usize,
    left: usize,
    limit: usize,
) -> Result<Vec<R>, ListFault>
    requires widths { HasWidth width (map (λ row. R.literals row.now) rows.now) }
    requires places { place + left ≡ width }
    ensures ok { IfOk result (λ list. map R.literals list.items ≡ list_from place left phase
        (map (λ row. R.literals row.now) rows.now)) }
    ensures within { OnOk result (length (list_from place left phase
        (map (λ row. R.literals row.now) rows.now)) ≤ limit) }
    ensures limit { result ≡ Err ListFault.CubeLimit → limit < length
        (list_from place left phase (map (λ row. R.literals row.now) rows.now)) }
{
    if rows.len() == 0 {
        return constant_rows(alloc, width, !phase, limit);
    }
    if left == 0 {
        return constant_rows(alloc, width, phase, limit);
    }
    if some_free(rows, place) {
        return constant_rows(alloc, width, phase, limit);
    }
    if !any_literal(rows, width, place) {
        return rows_from(alloc, rows, width, phase, place + 1, left - 1, limit);
    }
    let low_rows = rows_agreeing(alloc, rows, width, place, false)?;
    let lows = low_rows.as_slice();
    let low = rows_from(alloc, lows, width, phase, place + 1, left - 1, limit)?;
    let high_rows = rows_agreeing(alloc, rows, width, place, true)?;
    let highs = high_rows.as_slice();
    let high = rows_from(alloc, highs, width, phase, place + 1, left - 1, limit)?;
    let list = join_halves(alloc, low, high, width, place, limit)?;
    Ok(list)
}

// Borrows the rows, in order.
fn references<'a, R: Row>(alloc: Global, rows: &'a [R]) -> Result<Vec<&'a R>, AllocError>
    ensures { IfOk result (λ made. map (λ row. R.literals row.now) made.items
        ≡ map R.literals rows.now) }
{
    let mut made = Vec::with_capacity(alloc, rows.len())?;
    for row in rows {
        made.push(row)?;
    }
    Ok(made)
}

/// The on-list of the function that a cover gives by a phase, over the cover's inputs. `CubeLimit`
/// exactly if it has more than `limit` rows.
pub fn on_list<R: Row>(
    alloc: Global,
    f: &Cover<R>,
    phase: bool,
    limit: usize,
) -> Result<Cover<R>, ListFault>
    ensures ok { IfOk result (λ list. list ≡ record
        { width = f.now.width; rows = list_rows f.now.width phase f.now.rows }) }
    ensures value { IfOk result (λ list. (point : List Bool) → IsPoint f.now.width point
        → some_matches list.rows point ≡ value_by_phase phase f.now.rows point) }
    ensures within { OnOk result (length (list_rows f.now.width phase f.now.rows) ≤ limit) }
    ensures limit { result ≡ Err ListFault.CubeLimit → limit < length
        (list_rows f.now.width phase f.now.rows) }
{
    let rows = references(alloc, f.rows())?;
    let width = f.width();
    let list = rows_from(alloc, rows.as_slice(), width, phase, 0, width, limit)?;
    Ok(Cover::of(width, list))
}

/// The off-list of the function that a cover gives by a phase, which is the on-list of its
/// complement. `CubeLimit` exactly if it has more than `limit` rows.
pub fn off_list<R: Row>(
    alloc: Global,
    f: &Cover<R>,
    phase: bool,
    limit: usize,
) -> Result<Cover<R>, ListFault>
    ensures ok { IfOk result (λ list. list ≡ record
        { width = f.now.width; rows = list_rows f.now.width (not phase) f.now.rows }) }
    ensures value { IfOk result (λ list. (point : List Bool) → IsPoint f.now.width point
        → some_matches list.rows point ≡ not (value_by_phase phase f.now.rows point)) }
    ensures within { OnOk result (length (list_rows f.now.width (not phase) f.now.rows) ≤ limit) }
    ensures limit { result ≡ Err ListFault.CubeLimit → limit < length
        (list_rows f.now.width (not phase) f.now.rows) }
{
    let list = on_list(alloc, f, !phase, limit)?;
    Ok(list)
}
