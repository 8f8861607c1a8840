//! Conversions between rows and vectors of optional literals, which the search for kernels works
//! on. Each conversion keeps literals and order.

ghost use Rattle.std.specs.Prelude.{◌≡◌, ℕ, Bool, Option, None, List, length, map, IfOk};
ghost use Rattle.sis_base.specs.Rows.{HasWidth};
ghost use Rattle.cube_cover.specs.Covers.{Shape};
ghost use Rattle.alg_div.specs.Steps.{literals_in};

use cube_cover::{Cover, Row};
use std::alloc::{AllocError, Global};

/// The literals and dashes of a row, in order.
pub fn literals_of<R: Row>(alloc: Global, row: &R) -> Result<Vec<Option<bool>>, AllocError>
    ensures { IfOk result (λ literals. literals.items ≡ R.literals row.now) }
{
    let width = row.width();
    let mut literals = Vec::with_capacity(alloc, width)?;
    for place in 0..width {
        literals.push(row.at(place))?;
    }
    Ok(literals)
}

/// The literals and dashes of each row, in order.
pub fn all_literals_of<R: Row>(
    alloc: Global,
    rows: &[R],
) -> Result<Vec<Vec<Option<bool>>>, AllocError>
    ensures { IfOk result (λ made. literals_in made.items ≡ map R.literals rows.now) }
{
    let mut made = Vec::with_capacity(alloc, rows.len())?;
    for row in rows {
        made.push(literals_of(alloc, row)?)?;
    }
    Ok(made)
}

/// A copy of a row's literals.
pub fn copy_of(alloc: Global, literals: &[Option<bool>]) -> Result<Vec<Option<bool>>, AllocError>
    ensures { IfOk result (λ made. made.items ≡ literals.now) }
{
    let mut made = Vec::with_capacity(alloc, literals.len())?;
    for literal in literals {
        made.push(*literal)?;
    }
    Ok(made)
}

/// The row with the given literals.
#[tactic(auto, using(crate::proofs::Cubes::fill_more))]
pub fn row_of<R: Row>(alloc: Global, literals: &[Option<bool>]) -> Result<R, AllocError>
    ensures { IfOk result (λ row. R.literals row ≡ literals.now) }
{
    let mut row = R::dashes(alloc, literals.len())?;
    for (place, literal) in literals.iter().enumerate() {
        row.set(place, *literal);
    }
    Ok(row)
}

// The rows with the given literals, in order.
fn rows_of<R: Row>(alloc: Global, rows: &[Vec<Option<bool>>]) -> Result<Vec<R>, AllocError>
    ensures { IfOk result (λ made. map R.literals made.items ≡ literals_in rows.now) }
{
    let mut made = Vec::with_capacity(alloc, rows.len())?;
    for literals in rows {
        made.push(row_of(alloc, literals.as_slice())?)?;
    }
    Ok(made)
}

/// The cover of rows with the given literals; each row has `width` columns.
pub fn cover_of<R: Row>(
    alloc: Global,
    width: usize,
    rows: &[Vec<Option<bool>>],
) -> Result<Cover<R>, AllocError>
    requires { HasWidth width (literals_in rows.now) }
    ensures { IfOk result (λ cover. cover ≡ record { width = width; rows = literals_in rows.now }) }
{
    let made = rows_of(alloc, rows)?;
    Ok(Cover::of(width, made))
}
