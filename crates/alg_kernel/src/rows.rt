//! Operations on rows for the search for kernels: the rows with a literal, the common cube of rows,
//! and rows made cube-free.
//!
//! Source: Brayton and McMullen, "The Decomposition and Factorization of Boolean Expressions"
//! (1982). Rows are vectors of optional literals of one width. `sort_rows` makes their normal form:
//! increasing, each once.

ghost use Rattle.std.specs.Prelude.{◌≡◌, ℕ, ◌<◌, Bool, Option, None, List, length, map, slice_index_or, IfOk};
ghost use Rattle.sis_base.specs.Rows.{HasWidth};
ghost use Rattle.alg_div.specs.Steps.{strip, literals_in};
ghost use Rattle.alg_kernel.specs.Kernels.{row_cmp, Ascends};
ghost use Rattle.cube_cover.specs.Literals.{has_literal};
ghost use Rattle.alg_kernel.specs.Search.{holding_rows, both, both_rows, common_cube, AreSame};

use alg_div::{copy_of, strip_row};
use cube_cover::is_literal;
use std::alloc::{AllocError, Global};

// Sorts rows in increasing order, each once.
pub fn sort_rows(rows: Vec<Vec<Option<bool>>>) -> Vec<Vec<Option<bool>>>
    ensures order { Ascends row_cmp (literals_in result.items) }
    ensures same { AreSame (literals_in rows.items) (literals_in result.items) }
{
    let mut sorted = rows;
    sorted.sort_unstable();
    sorted.dedup();
    sorted
}

// Whether a row has a literal.
fn row_has_literal(row: &[Option<bool>], place: usize, bit: bool) -> bool
    requires { place < length row.now }
    ensures { result ≡ has_literal (slice_index_or row.now place None) bit }
{
    is_literal(row[place], bit)
}

// The number of rows with a literal.
#[tactic(auto, unfolding(crate::specs::Search::holding_rows))]
pub fn count_at(width: usize, rows: &[Vec<Option<bool>>], place: usize, bit: bool) -> usize
    requires width { HasWidth width (literals_in rows.now) }
    requires place { place < width }
    ensures { result ≡ length (holding_rows place bit (literals_in rows.now)) }
{
    let mut count = 0;
    for row in rows {
        if row_has_literal(row.as_slice(), place, bit) {
            count += 1;
        }
    }
    count
}

// Copies of the rows that have a literal.
#[tactic(auto, unfolding(crate::specs::Search::holding_rows))]
pub fn rows_at(
    alloc: Global,
    width: usize,
    rows: &[Vec<Option<bool>>],
    place: usize,
    bit: bool,
) -> Result<Vec<Vec<Option<bool>>>, AllocError>
    requires width { HasWidth width (literals_in rows.now) }
    requires place { place < width }
    ensures { IfOk result (λ made. literals_in made.items ≡ holding_rows place bit
        (literals_in rows.now)) }
{
    let mut made = Vec::new(alloc);
    for row in rows {
        if row_has_literal(row.as_slice(), place, bit) {
            made.push(copy_of(alloc, row.as_slice())?)?;
        }
    }
    Ok(made)
}

// Copies of rows.
pub fn copies_of(
    alloc: Global,
    rows: &[Vec<Option<bool>>],
) -> Result<Vec<Vec<Option<bool>>>, AllocError>
    ensures { IfOk result (λ made. literals_in made.items ≡ literals_in rows.now) }
{
    let mut made = Vec::with_capacity(alloc, rows.len())?;
    for row in rows {
        made.push(copy_of(alloc, row.as_slice())?)?;
    }
    Ok(made)
}

// The literal that both have, if it is the same.
fn shared_literal(literal: Option<bool>, other: Option<bool>) -> Option<bool>
    ensures { result ≡ both literal other }
{
    match literal {
        None => None,
        Some(bit) => {
            if is_literal(other, bit) {
                literal
            } else {
                None
            }
        }
    }
}

// Removes from a cube the literals that a row lacks.
fn meet(cube: &mut Vec<Option<bool>>, row: &[Option<bool>])
    requires { length cube.old.items ≡ length row.now }
    ensures { cube.new.items ≡ both_rows cube.old.items row.now }
{
    for (place, other) in row.iter().enumerate() {
        cube[place] = shared_literal(cube[place], *other);
    }
}

// The common cube of rows, of which there must be at least one.
pub fn common_of(
    alloc: Global,
    width: usize,
    rows: &[Vec<Option<bool>>],
) -> Result<Vec<Option<bool>>, AllocError>
    requires width { HasWidth width (literals_in rows.now) }
    requires some { 0 < length rows.now }
    ensures { IfOk result (λ cube. cube.items ≡ common_cube (literals_in rows.now)) }
{
    let mut cube = copy_of(alloc, rows[0].as_slice())?;
    for row in rows {
        meet(&mut cube, row.as_slice());
    }
    Ok(cube)
}

// The rows without their common cube. There must be at least one row.
pub fn make_cube_free(
    alloc: Global,
    width: usize,
    rows: &[Vec<Option<bool>>],
) -> Result<Vec<Vec<Option<bool>>>, AllocError>
    requires width { HasWidth width (literals_in rows.now) }
    requires some { 0 < length rows.now }
    ensures { IfOk result (λ made. literals_in made.items ≡ map
        (strip (common_cube (literals_in rows.now))) (literals_in rows.now)) }
{
    let cube = common_of(alloc, width, rows)?;
    let mut made = Vec::with_capacity(alloc, rows.len())?;
    for row in rows {
        made.push(strip_row(alloc, cube.as_slice(), row.as_slice())?)?;
    }
    Ok(made)
}
