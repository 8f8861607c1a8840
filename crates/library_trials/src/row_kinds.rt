//! Cases of rows, answered once by each representation of a row.
//!
//! `row_product` has four rows of one width: its answer is the product of the first two, and for
//! each of the others whether it contains the product and whether it intersects it. `row_ends` has
//! widths: its answer is, for each, whether two rows intersect that are dashes but for `0` and `1`
//! in the last column. `row_literals` has a row, which is made of its literals.

ghost use Rattle.std.specs.Prelude.{◌≡◌, length, IfOk};

use crate::puts::put_value;
use crate::rows::{literals, put_made_row, put_row_line, row};
use cube_cover::{PlainRow, Row};
use cube_packed::PackedRow;
use std::alloc::{AllocError, Global};
use trial_cases::{Case, CaseFault, number_of};

/// Appends the answer to a case.
pub fn answer(alloc: Global, out: &mut Vec<u8>, case: &Case<'_>) -> Result<(), CaseFault> {
    match case.word(0) {
        "row_literals" => put_literals(alloc, out, case.word(1)),
        "row_product" => {
            put_product::<PlainRow>(alloc, out, case)?;
            put_product::<PackedRow>(alloc, out, case)
        }
        "row_ends" => {
            put_ends::<PlainRow>(alloc, out, case)?;
            put_ends::<PackedRow>(alloc, out, case)
        }
        _ => Err(CaseFault::Bad),
    }
}

/// Appends the row of some literals, in each representation.
fn put_literals(alloc: Global, out: &mut Vec<u8>, word: &str) -> Result<(), CaseFault> {
    let made = literals(alloc, word)?;
    put_made_row(out, PlainRow::from_literals(alloc, made.as_slice()))?;
    put_made_row(out, PackedRow::from_literals(alloc, made.as_slice()))
}

/// Appends the product of the first two rows, and what the others have in common with it.
fn put_product<R: Row>(alloc: Global, out: &mut Vec<u8>, case: &Case<'_>) -> Result<(), CaseFault> {
    let made: R = product(alloc, case.word(1), case.word(2))?;
    put_row_line(out, &made)?;
    put_tests(alloc, out, &made, case.word(3))?;
    put_tests(alloc, out, &made, case.word(4))
}

/// The product of two rows; a bad case if they do not intersect.
fn product<R: Row>(alloc: Global, word: &str, other: &str) -> Result<R, CaseFault> {
    let first: R = row(alloc, word)?;
    let second: R = row(alloc, other)?;
    if first.width() != second.width() || !first.intersects(&second) {
        return Err(CaseFault::Bad);
    }
    Ok(first.product(alloc, &second)?)
}

/// Appends whether the row of a word contains another row, and whether it intersects it.
fn put_tests<R: Row>(
    alloc: Global,
    out: &mut Vec<u8>,
    other: &R,
    word: &str,
) -> Result<(), CaseFault> {
    let first: R = row(alloc, word)?;
    if first.width() != other.width() {
        return Err(CaseFault::Bad);
    }
    put_value(
        alloc,
        out,
        &(first.contains(other), first.intersects(other)),
    )
}

/// The row of dashes with a literal in the last column, if there is one.
fn ended<R: Row>(alloc: Global, width: usize, bit: bool) -> Result<R, AllocError>
    ensures { IfOk result (λ row. length (R.literals row) ≡ width) }
{
    let mut made = R::dashes(alloc, width)?;
    if width > 0 {
        made.set(width - 1, Some(bit));
    }
    Ok(made)
}

/// Appends whether two rows of a width intersect that differ in the last column.
fn put_end<R: Row>(alloc: Global, out: &mut Vec<u8>, width: usize) -> Result<(), CaseFault> {
    let first: R = ended(alloc, width, false)?;
    let second: R = ended(alloc, width, true)?;
    put_value(alloc, out, &first.intersects(&second))
}

/// Appends, for each width, whether rows that differ in the last column intersect.
fn put_ends<R: Row>(alloc: Global, out: &mut Vec<u8>, case: &Case<'_>) -> Result<(), CaseFault> {
    for place in 1..case.words.len() {
        put_end::<R>(alloc, out, number_of(case.word(place))?)?;
    }
    Ok(())
}
