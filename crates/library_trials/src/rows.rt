//! Rows and covers as texts. A row has a character for each column, `1`, `0` or `-`, and a `/`
//! after it. A cover is its width, a `:` and its rows; rows of another width are left out.

use crate::puts::put_text;
use alg_div::row_of;
use cube_cover::{Cover, Row};
use std::alloc::{AllocError, Global};
use std::fmt::Debug;
use trial_cases::{CaseFault, number_of, put_number, put_shown};

/// The literals of characters, with a stroke after them or without; a dash for any other than `0`
/// and `1`.
pub fn literals(alloc: Global, text: &str) -> Result<Vec<Option<bool>>, AllocError> {
    let mut made = Vec::new(alloc);
    for byte in text.strip_suffix('/').unwrap_or(text).bytes() {
        made.push(match byte {
            b'0' => Some(false),
            b'1' => Some(true),
            _ => None,
        })?;
    }
    Ok(made)
}

/// The row of a text.
pub fn row<R: Row>(alloc: Global, text: &str) -> Result<R, AllocError> {
    row_of(alloc, literals(alloc, text)?.as_slice())
}

/// Appends to a cover those rows of a text that are of its width.
fn push_rows<R: Row>(alloc: Global, cover: &mut Cover<R>, text: &str) -> Result<(), AllocError> {
    for part in text.split_terminator('/') {
        let made: R = row(alloc, part)?;
        if made.width() == cover.width() {
            cover.push(made)?;
        }
    }
    Ok(())
}

/// The cover of a text.
pub fn cover<R: Row>(alloc: Global, text: &str) -> Result<Cover<R>, CaseFault> {
    let (width, rest) = text.split_once(':').ok_or(CaseFault::Bad)?;
    let mut cover = Cover::new(alloc, number_of(width)?);
    push_rows(alloc, &mut cover, rest)?;
    Ok(cover)
}

/// Appends a row, with a stroke after it.
fn put_row<R: Row>(out: &mut Vec<u8>, row: &R) -> Result<(), AllocError> {
    for place in 0..row.width() {
        out.push(match row.at(place) {
            None => b'-',
            Some(false) => b'0',
            Some(true) => b'1',
        })?;
    }
    out.push(b'/')?;
    Ok(())
}

/// Appends a cover on a line.
pub fn put_cover<R: Row>(
    alloc: Global,
    out: &mut Vec<u8>,
    cover: &Cover<R>,
) -> Result<(), CaseFault> {
    put_number(alloc, out, cover.width())?;
    out.push(b':')?;
    for row in cover.rows() {
        put_row(out, row)?;
    }
    put_text(out, b"")
}

/// Appends a cover that was to be made, or why there is none.
pub fn put_made<R: Row, E: Debug + Drop>(
    alloc: Global,
    out: &mut Vec<u8>,
    made: &Result<Cover<R>, E>,
) -> Result<(), CaseFault> {
    match made {
        Ok(cover) => put_cover(alloc, out, cover),
        Err(fault) => {
            put_shown(alloc, out, fault)?;
            Ok(())
        }
    }
}

/// Appends a row on a line.
pub fn put_row_line<R: Row>(out: &mut Vec<u8>, row: &R) -> Result<(), CaseFault> {
    put_row(out, row)?;
    put_text(out, b"")
}

/// Appends a row that was to be made, on a line.
pub fn put_made_row<R: Row>(
    out: &mut Vec<u8>,
    made: Result<R, AllocError>,
) -> Result<(), CaseFault> {
    put_row_line(out, &made?)
}
