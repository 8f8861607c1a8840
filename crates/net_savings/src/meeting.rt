//! Whether rows of tables that changed meet a cover: whether each of its cubes is contained in one
//! of them.
//!
//! Source: Brayton, Rudell, Sangiovanni-Vincentelli and Wang, "MIS: A Multiple-Level Logic
//! Optimization System" (1987): weak division. A cover divides a table only if each of its cubes is
//! contained in a row of the table; so what a cover saves changes only if the rows of a table that
//! changed, before and after, meet it (`proofs/Contained.antt`). Callers rely on `is_met`.

ghost use Rattle.std.specs.Prelude.{◌≡◌, ◌++◌, ℕ, List, bytes_eq, IfOk, OnOk};
ghost use Rattle.std.specs.List.{list_any};
ghost use Rattle.net_candidates.specs.Candidates.{cubes_of};
ghost use Rattle.cover_names.specs.declared.literal.Literal.{Literal};
ghost use Rattle.net_core.specs.Tables.{named};
ghost use Rattle.net_savings.specs.Meeting.{is_apart, is_contained, is_met};

use crate::marks::RowMarks;
use alg_div::literals_of;
use cover_names::{Cube, Literal, cube_over, sorted_cube};
use cube_cover::Row;
use net_core::CoverTable;
use std::alloc::{AllocError, Global};

/// Appends the cubes of a table's rows.
pub(crate) fn push_rows<R: Row>(
    alloc: Global,
    rows: &mut Vec<Cube>,
    table: &CoverTable<R>,
) -> Result<(), AllocError>
    ensures { OnOk result ((output : List ℕ) → rows.new.items ≡ rows.old.items ++ cubes_of
        (named output table.now)) }
{
    for row in table.cover.rows() {
        let literals = literals_of(alloc, row)?;
        let cube = cube_over(alloc, table.inputs.as_slice(), literals.as_slice())?;
        rows.push(sorted_cube(cube))?;
    }
    Ok(())
}

// Whether a literal's name is that of one of some literals.
fn is_named(literals: &[Literal], literal: &Literal) -> bool
    ensures { result ≡ list_any (λ (other : Literal). bytes_eq literal.now.name other.name)
        literals.now }
{
    literals.iter().any(|other| literal.name == other.name)
}

/// Whether no name occurs twice in a cube.
pub(crate) fn is_apart(cube: &[Literal]) -> bool
    ensures { result ≡ is_apart cube.now }
{
    for (place, literal) in cube.iter().enumerate() {
        if is_named(&cube[place + 1..], literal) {
            return false;
        }
    }
    true
}

// Whether a cube is contained in a row; one in which a name occurs twice counts as contained.
fn is_contained(alloc: Global, rows: &RowMarks, cube: &[Literal]) -> Result<bool, AllocError>
    ensures { IfOk result (λ contained. contained ≡ is_contained rows.now cube.now) }
{
    if is_apart(cube) {
        rows.has_holder(alloc, cube)
    } else {
        Ok(true)
    }
}

/// Whether rows meet a cover.
pub(crate) fn is_met(alloc: Global, rows: &RowMarks, cover: &[Cube]) -> Result<bool, AllocError>
    ensures { IfOk result (λ met. met ≡ is_met rows.now cover.now) }
{
    for cube in cover {
        if !is_contained(alloc, rows, cube.as_slice())? {
            return Ok(false);
        }
    }
    Ok(true)
}
