//! The steps of a division, on rows.
//!
//! Source: Brayton, Rudell, Sangiovanni-Vincentelli and Wang, "MIS: A Multiple-Level Logic
//! Optimization System" (1987). A cube of the quotient is a row of the dividend without the
//! divisor's support, provided that its products with all cubes of the divisor are rows of the
//! dividend. Only rows with all literals of the divisor's first cube are tried. A row is found
//! among others by comparing it with them, or in a hash map from rows to their first indices if
//! there would be too many comparisons. Invariant: all rows have one width. `quotient_of` returns
//! exactly the quotient of `specs/Quotient.antt`, and `others_of` the rows that are left.

ghost use Rattle.std.specs.Prelude.{◌≡◌, ℕ, ◌<◌, ◌++◌, ◌↔◌, Bool, Option, List, length, map, slice_index_or, IfOk, OnOk, option_map, IsTrue};
ghost use Rattle.std.specs.List.{position_from};
ghost use Rattle.sis_base.specs.Rows.{HasWidth};
ghost use Rattle.alg_div.specs.Cubes.{Has, products_by, products, row_eq};
ghost use Rattle.alg_div.specs.Quotient.{IsQuotient, IsQuotientBy, others};
ghost use Rattle.alg_div.specs.Steps.{without, strip, support, number_in, or_last, AreFirst, IsTheTerm, HasProducts};

use crate::literals::literals_of;
use cube_cover::{Cover, Row, contains_row};
use std::alloc::{AllocError, Global};
use std::collections::HashMap;

/// A row put into a map, or looked up there, takes as long as so many comparisons of rows.
const COMPARISONS: usize = 32;

// Rows by their literals, with their first indices; `None` for rows that are compared one by one.
pub(crate) type FirstIndices = Option<HashMap<Vec<Option<bool>>, usize>>;

// A dash if the mask has a literal, else the literal.
fn literal_without(mask: Option<bool>, literal: Option<bool>) -> Option<bool>
    ensures { result ≡ without mask literal }
{
    match mask {
        None => literal,
        Some(_) => None,
    }
}

/// A row without its literals in the columns where the mask has one.
#[tactic(auto, unfolding(crate::specs::Steps::strip))]
pub fn strip_row(
    alloc: Global,
    mask: &[Option<bool>],
    row: &[Option<bool>],
) -> Result<Vec<Option<bool>>, AllocError>
    requires { length mask.now ≡ length row.now }
    ensures { IfOk result (λ made. made.items ≡ strip mask.now row.now) }
{
    let mut made = Vec::with_capacity(alloc, row.len())?;
    for (place, literal) in row.iter().enumerate() {
        made.push(literal_without(mask[place], *literal))?;
    }
    Ok(made)
}

// The support of rows: a literal in each column where some row has one.
#[tactic(auto, unfolding(crate::specs::Steps::support_from))]
fn support_of<R: Row>(alloc: Global, width: usize, rows: &[R]) -> Result<R, AllocError>
    requires { HasWidth width (map R.literals rows.now) }
    ensures { IfOk result (λ mask. R.literals mask ≡ support width (map R.literals rows.now)) }
{
    let mut mask = R::dashes(alloc, width)?;
    for row in rows {
        mask = mask.overlaid(alloc, row)?;
    }
    Ok(mask)
}

// Adds a row with its index, unless the row is in the map.
fn add_number(
    index: &mut HashMap<Vec<Option<bool>>, usize>,
    row: Vec<Option<bool>>,
    number: usize,
) -> Result<(), AllocError>
    ensures { OnOk result ((other : List (Option Bool)) → number_in index.new other ≡ or_last
        (number_in index.old other) (row_eq other row.items) number) }
{
    if index.contains_key(row.as_slice()) {
        return Ok(());
    }
    let _ = index.insert(row, number)?;
    Ok(())
}

// Maps each row to its first index.
fn numbers_of<R: Row>(
    alloc: Global,
    rows: &[R],
) -> Result<HashMap<Vec<Option<bool>>, usize>, AllocError>
    ensures { IfOk result (λ index. (row : List (Option Bool)) → number_in index row
        ≡ position_from (row_eq row) 0 (map R.literals rows.now)) }
{
    let mut index = HashMap::new(alloc);
    for (number, row) in rows.iter().enumerate() {
        add_number(&mut index, literals_of(alloc, row)?, number)?;
    }
    Ok(index)
}

// The first indices of rows, for so many lookups.
pub(crate) fn indices_for<R: Row>(
    alloc: Global,
    rows: &[R],
    lookups: usize,
) -> Result<FirstIndices, AllocError>
    ensures { IfOk result (λ indices. AreFirst indices (map R.literals rows.now)) }
{
    let pairs = lookups.saturating_mul(rows.len());
    let keys = lookups.saturating_add(rows.len());
    if pairs <= keys.saturating_mul(COMPARISONS) {
        return Ok(None);
    }
    let index = numbers_of(alloc, rows)?;
    Ok(Some(index))
}

// The index of the first row with the same literals as a given one.
fn first_equal<R: Row>(rows: &[R], row: &R) -> Option<usize>
    requires { HasWidth (length (R.literals row.now)) (map R.literals rows.now) }
    ensures { result ≡ position_from (row_eq (R.literals row.now)) 0 (map R.literals rows.now) }
{
    for (number, other) in rows.iter().enumerate() {
        if row.is_equal(other) {
            return Some(number);
        }
    }
    None
}

// The index of the first row with the same literals as a given one, by the rows' first indices.
fn find<R: Row>(
    alloc: Global,
    rows: &[R],
    indices: &FirstIndices,
    row: &R,
) -> Result<Option<usize>, AllocError>
    requires widths { HasWidth (length (R.literals row.now)) (map R.literals rows.now) }
    requires first { AreFirst indices.now (map R.literals rows.now) }
    ensures { IfOk result (λ found. found
        ≡ position_from (row_eq (R.literals row.now)) 0 (map R.literals rows.now)) }
{
    match indices {
        None => Ok(first_equal(rows, row)),
        Some(index) => {
            let key = literals_of(alloc, row)?;
            Ok(index.get(key.as_slice()).copied())
        }
    }
}

// Whether all products of a cube with the divisor's cubes are rows of f.
fn has_products<R: Row>(
    alloc: Global,
    f: &[R],
    indices: &FirstIndices,
    cube: &R,
    d: &[R],
) -> Result<bool, AllocError>
    requires width { HasWidth (length (R.literals cube.now)) (map R.literals f.now) }
    requires divisor { HasWidth (length (R.literals cube.now)) (map R.literals d.now) }
    requires first { AreFirst indices.now (map R.literals f.now) }
    ensures { IfOk result (λ answer. IsTrue answer ↔ HasProducts (map R.literals f.now)
        (R.literals cube.now) (map R.literals d.now)) }
{
    for row in d {
        let product = cube.overlaid(alloc, row)?;
        if find(alloc, f, indices, &product)?.is_none() {
            return Ok(false);
        }
    }
    Ok(true)
}

// The cube of the quotient of f by d whose product with d's cube `first` has its first occurrence
// in f at index `number`; `None` if there is none.
fn term_at<R: Row>(
    alloc: Global,
    f: &[R],
    d: &[R],
    indices: &FirstIndices,
    mask: &R,
    first: &R,
    number: usize,
) -> Result<Option<R>, AllocError>
    requires number { number < length f.now }
    requires width { HasWidth (length (R.literals mask.now)) (map R.literals f.now) }
    requires divisor { HasWidth (length (R.literals mask.now)) (map R.literals d.now) }
    requires mask { R.literals mask.now
        ≡ support (length (R.literals mask.now)) (map R.literals d.now) }
    requires first { Has (R.literals first.now) (map R.literals d.now) }
    requires indices { AreFirst indices.now (map R.literals f.now) }
    ensures { IfOk result (λ term. IsTheTerm (length (R.literals mask.now)) (map R.literals f.now)
        (R.literals first.now) (map R.literals d.now) number (option_map R.literals term)) }
{
    if !contains_row(first, &f[number]) {
        return Ok(None);
    }
    let cube = f[number].without(alloc, mask)?;
    let product = cube.overlaid(alloc, first)?;
    match find(alloc, f, indices, &product)? {
        None => return Ok(None),
        Some(found) => {
            if found != number {
                return Ok(None);
            }
        }
    }
    if !has_products(alloc, f, indices, &cube, d)? {
        return Ok(None);
    }
    Ok(Some(cube))
}

// The number of rows that have all literals of a cube; no clause says so.
fn holder_count<R: Row>(rows: &[R], cube: &R) -> usize
    requires { HasWidth (length (R.literals cube.now)) (map R.literals rows.now) }
{
    let mut count: usize = 0;
    for row in rows {
        if contains_row(cube, row) {
            count = count.saturating_add(1);
        }
    }
    count
}

// The cubes of the quotient of f by d, in the order of their products with d's cube `first` in f.
fn terms_of<R: Row>(
    alloc: Global,
    f: &[R],
    d: &[R],
    indices: &FirstIndices,
    mask: &R,
    first: &R,
) -> Result<Vec<R>, AllocError>
    requires width { HasWidth (length (R.literals mask.now)) (map R.literals f.now) }
    requires divisor { HasWidth (length (R.literals mask.now)) (map R.literals d.now) }
    requires mask { R.literals mask.now
        ≡ support (length (R.literals mask.now)) (map R.literals d.now) }
    requires first { Has (R.literals first.now) (map R.literals d.now) }
    requires indices { AreFirst indices.now (map R.literals f.now) }
    ensures { IfOk result (λ terms. IsQuotientBy (length (R.literals mask.now))
        (map R.literals f.now) (R.literals first.now) (map R.literals d.now)
        (map R.literals terms.items)) }
{
    let mut terms = Vec::new(alloc);
    for number in 0..f.len() {
        match term_at(alloc, f, d, indices, mask, first, number)? {
            Some(term) => terms.push(term)?,
            None => {}
        }
    }
    Ok(terms)
}

// The quotient of f by d.
pub(crate) fn quotient_of<R: Row>(
    alloc: Global,
    f: &Cover<R>,
    d: &Cover<R>,
) -> Result<Vec<R>, AllocError>
    requires { f.now.width ≡ d.now.width }
    ensures { IfOk result (λ terms. IsQuotient f.now.width f.now.rows d.now.rows
        (map R.literals terms.items)) }
{
    let rows = f.rows();
    let cubes = d.rows();
    if cubes.is_empty() {
        return Ok(Vec::new(alloc));
    }
    let first = &cubes[0];
    let mask = support_of(alloc, d.width(), cubes)?;
    let lookups = holder_count(rows, first).saturating_mul(cubes.len());
    let indices = indices_for(alloc, rows, lookups)?;
    let terms = terms_of(alloc, rows, cubes, &indices, &mask, first)?;
    Ok(terms)
}

// Appends the products of a cube with the rows.
#[tactic(auto, unfolding(crate::specs::Cubes::products_by))]
fn add_products<R: Row>(
    alloc: Global,
    made: &mut Vec<R>,
    cube: &R,
    rows: &[R],
) -> Result<(), AllocError>
    requires { HasWidth (length (R.literals cube.now)) (map R.literals rows.now) }
    ensures { OnOk result (map R.literals made.new.items ≡ map R.literals made.old.items
        ++ products_by (R.literals cube.now) (map R.literals rows.now)) }
{
    for row in rows {
        made.push(cube.overlaid(alloc, row)?)?;
    }
    Ok(())
}

// The products of each of some cubes with each row of a cover.
#[tactic(auto, unfolding(crate::specs::Cubes::products))]
pub(crate) fn products_of<R: Row>(
    alloc: Global,
    cubes: &[R],
    rows: &Cover<R>,
) -> Result<Vec<R>, AllocError>
    requires { HasWidth rows.now.width (map R.literals cubes.now) }
    ensures { IfOk result (λ made. map R.literals made.items
        ≡ products (map R.literals cubes.now) rows.now.rows) }
{
    let others = rows.rows();
    let mut made = Vec::new(alloc);
    for cube in cubes {
        add_products(alloc, &mut made, cube, others)?;
    }
    Ok(made)
}

// The rows of f that are not among some others, in order, by the first indices of these.
#[tactic(auto, unfolding(crate::specs::Quotient::others))]
pub(crate) fn others_of<R: Row>(
    alloc: Global,
    f: &Cover<R>,
    taken: &[R],
    indices: &FirstIndices,
) -> Result<Vec<R>, AllocError>
    requires widths { HasWidth f.now.width (map R.literals taken.now) }
    requires indices { AreFirst indices.now (map R.literals taken.now) }
    ensures { IfOk result (λ made. map R.literals made.items
        ≡ others f.now.rows (map R.literals taken.now)) }
{
    let rows = f.rows();
    let mut made = Vec::new(alloc);
    for row in rows {
        if find(alloc, taken, indices, row)?.is_none() {
            made.push(row.copy(alloc)?)?;
        }
    }
    Ok(made)
}
