//! What a table loses if it is divided by one cube, as its rows tell.
//!
//! Source: Brayton, Rudell, Sangiovanni-Vincentelli and Wang, "MIS: A Multiple-Level Logic
//! Optimization System" (1987): the value of a divisor. Each row that contains the cube loses the
//! cube's literals and gains one. So a table whose rows are distinct, and that may get one more
//! input, need not be divided to know what it loses by one cube. Callers rely on `loss_by_rows`:
//! the number is exact if there is one.

ghost use Rattle.std.specs.Prelude.{◌≡◌, ℕ, ◌+◌, ◌-◌, ◌*◌, ◌<◌, ◌≤◌, ◌++◌, ◌∷◌, [], true, false, if◌then◌else◌, Some, List, length, map, IsTrue, IfOk, IfSome};
ghost use Rattle.std.specs.List.{list_all};
ghost use Rattle.circuit_model.specs.Names.{has, all_different};
ghost use Rattle.sis_base.specs.Rows.{HasWidth};
ghost use Rattle.alg_div.specs.Cubes.{Has};
ghost use Rattle.cube_cover.specs.Literals.{row_contains};
ghost use Rattle.net_candidates.specs.Spots.{many};
ghost use Rattle.net_candidates.proofs.Sums.{AreOnce};
ghost use Rattle.cover_names.specs.Cubes.{row_over};
ghost use Rattle.cover_names.specs.declared.literal.Literal.{Literal};
ghost use Rattle.net_core.specs.Tables.{named, IsOverInputs};
ghost use Rattle.net_savings.specs.Meeting.{is_apart};
ghost use Rattle.net_savings.specs.Saving.{IsLoss};

use crate::meeting::is_apart;
use alg_div::{literals_of, row_of};
use circuit_model::{Name, has_name};
use cover_names::{Literal, row_over};
use cube_cover::{Row, contains_row};
use indexmap::IndexSet;
use net_core::CoverTable;
use sis_base::Sequence;
use sis_base::limits::MAX_INPUTS;
use std::alloc::{AllocError, Global};

// Whether all literals of a cube have one of some names.
fn is_read(names: &[Name], cube: &[Literal]) -> bool
    ensures { result ≡ list_all (λ (literal : Literal). has names.now literal.name) cube.now }
{
    for literal in cube {
        if !has_name(names, &literal.name) {
            return false;
        }
    }
    true
}

/// The sum of two numbers. An error if it is too large for a machine word; no machine has memory
/// for so many literals.
pub(crate) fn sum_of(one: u128, other: u128) -> Result<u128, AllocError>
    ensures { IfOk result (λ sum. sum ≡ one + other) }
{
    match one.checked_add(other) {
        None => Err(AllocError),
        Some(sum) => Ok(sum),
    }
}

/// The product of two numbers, an error if it is too large.
pub(crate) fn product_of(one: u128, other: u128) -> Result<u128, AllocError>
    ensures { IfOk result (λ product. product ≡ one * other) }
{
    match one.checked_mul(other) {
        None => Err(AllocError),
        Some(product) => Ok(product),
    }
}

// One if a test holds, else 0.
fn one_if(holds: bool) -> u128
    ensures { result ≡ (if holds then 1 else 0) }
{
    if holds { 1 } else { 0 }
}

// How many of some rows contain each literal of a row.
fn count_holders<R: Row>(wanted: &R, rows: &[R]) -> Result<u128, AllocError>
    requires { HasWidth (length (R.literals wanted.now)) (map R.literals rows.now) }
    ensures { IfOk result (λ count. count ≡ many
        (row_contains (R.literals wanted.now)) (map R.literals rows.now)) }
{
    let mut count = 0;
    for row in rows {
        let one = one_if(contains_row(wanted, row));
        count = sum_of(count, one)?;
    }
    Ok(count)
}

// How many rows of a table contain each literal of a cube over its inputs.
fn count_rows<R: Row>(
    alloc: Global,
    table: &CoverTable<R>,
    cube: &[Literal],
) -> Result<u128, AllocError>
    requires { IsOverInputs table.now }
    ensures { IfOk result (λ count. count ≡ many
        (row_contains (row_over table.now.inputs cube.now)) table.now.cover.rows) }
{
    let columns = row_over(alloc, table.inputs.as_slice(), cube)?;
    let wanted: R = row_of(alloc, columns.as_slice())?;
    count_holders(&wanted, table.cover.rows())
}

// Adds a row to others, and returns whether it was not among them.
fn add_row(
    rows: &mut IndexSet<Sequence<Option<bool>>>,
    row: Vec<Option<bool>>,
) -> Result<bool, AllocError>
    ensures was { IfOk result (λ is_new. IsTrue is_new → Has row.items rows.old.keys → ⊥) }
    ensures keys { IfOk result (λ is_new. IsTrue is_new → rows.new.keys ≡ rows.old.keys
        ++ row.items ∷ []) }
{
    let is_new = rows.insert(Sequence::from_vec(row))?;
    Ok(is_new)
}

/// Whether rows are distinct.
pub(crate) fn are_distinct<R: Row>(alloc: Global, rows: &[R]) -> Result<bool, AllocError>
    ensures { IfOk result (λ distinct. IsTrue distinct → AreOnce (map R.literals rows.now)) }
{
    let mut seen = IndexSet::new(alloc);
    for row in rows {
        let is_new = add_row(&mut seen, literals_of(alloc, row)?)?;
        if !is_new {
            return Ok(false);
        }
    }
    Ok(true)
}

// Whether the rows of a table tell what it loses by a cube: they are distinct, the table may get
// one more input, and the cube has a literal and no name twice.
fn are_telling<R: Row>(
    alloc: Global,
    table: &CoverTable<R>,
    cube: &[Literal],
) -> Result<bool, AllocError>
    ensures few { IfOk result (λ telling. IsTrue telling → length table.now.inputs < MAX_INPUTS) }
    ensures some { IfOk result (λ telling. IsTrue telling → 1 ≤ length cube.now) }
    ensures apart { IfOk result (λ telling. IsTrue telling → is_apart cube.now ≡ true) }
    ensures once { IfOk result (λ telling. IsTrue telling → AreOnce table.now.cover.rows) }
{
    if table.inputs.len() >= MAX_INPUTS || cube.is_empty() || !is_apart(cube) {
        return Ok(false);
    }
    are_distinct(alloc, table.cover.rows())
}

/// The number of literals that a table loses if it is divided by one cube, if its rows tell it.
pub(crate) fn loss_by_rows<R: Row>(
    alloc: Global,
    table: &CoverTable<R>,
    cube: &[Literal],
) -> Result<Option<u128>, AllocError>
    requires over { IsOverInputs table.now }
    requires once { all_different table.now.inputs ≡ true }
    ensures { IfOk result (λ loss. IfSome loss (λ lost. (name output : List ℕ)
        → has table.now.inputs name ≡ false
        → IsLoss name (cube.now ∷ []) (Some (named output table.now)) (Some lost))) }
{
    if !is_read(table.inputs.as_slice(), cube) {
        return Ok(Some(0));
    }
    let count = count_rows(alloc, table, cube)?;
    if count == 0 || !are_telling(alloc, table, cube)? {
        return Ok(None);
    }
    // by this call the rows are known to have the cover's width
    let _of_one_width = table.cover.rows();
    let lost = product_of(count, (cube.len() - 1) as u128)?;
    Ok(Some(lost))
}
