//! Tables that are constant as functions, found by the tautology test of cube_cover, and the
//! constants as which they are written.

ghost use Rattle.std.specs.Prelude.{◌≡◌, ◌↔◌, length, map, IsTrue, IfOk};
ghost use Rattle.std.specs.Option.{option_map};
ghost use Rattle.circuit_laws.specs.Edits.{constant_table};
ghost use Rattle.cube_cover.specs.Covers.{IsTautology};
ghost use Rattle.net_core.specs.Tables.{HasCharacters, places_of};
ghost use Rattle.net_wires.specs.Points.{constant_bit};
ghost use Rattle.net_wires.specs.Rules.{unwritten_bit};

use circuit_model::Table as Written;
use cube_cover::Row;
use net_core::CoverTable;
use net_wires::{constant_table, written_bit};
use std::alloc::{AllocError, Global};

// The bit that a table has at every point, if it has one; `is_full` says whether some row matches
// each point.
fn bit_by_cover(table: &Written, is_full: bool) -> Option<bool>
    requires shaped { HasCharacters (length table.now.inputs) table.now.rows }
    requires full { IsTrue is_full ↔ IsTautology (record
        { width = length table.now.inputs; rows = map places_of table.now.rows }) }
    ensures { result ≡ constant_bit table.now }
{
    if is_full {
        return Some(table.phase);
    }
    if table.rows.is_empty() {
        return Some(!table.phase);
    }
    None
}

// The bit that a table has at every point, if it has one.
fn constant_bit_of<R: Row>(alloc: Global, table: &Written) -> Result<Option<bool>, AllocError>
    requires { HasCharacters (length table.now.inputs) table.now.rows }
    ensures { IfOk result (λ bit. bit ≡ constant_bit table.now) }
{
    let covered = CoverTable::<R>::from_written(alloc, table)?;
    let is_full = covered.cover.is_tautology(alloc)?;
    Ok(bit_by_cover(table, is_full))
}

// The constant as which a table should be written, if it is constant and written otherwise.
#[tactic(auto, unfolding(net_wires::specs::Rules::unwritten_bit))]
pub(crate) fn unwritten_bit<R: Row>(
    alloc: Global,
    table: &Written,
) -> Result<Option<bool>, AllocError>
    requires { HasCharacters (length table.now.inputs) table.now.rows }
    ensures { IfOk result (λ bit. bit ≡ unwritten_bit table.now) }
{
    if written_bit(table).is_some() {
        return Ok(None);
    }
    constant_bit_of::<R>(alloc, table)
}

// The constant table that should replace a table, if that is constant and written otherwise.
pub(crate) fn constant_written<R: Row>(
    alloc: Global,
    table: Written,
) -> Result<Option<Written>, AllocError>
    requires { HasCharacters (length table.inputs) table.rows }
    ensures { IfOk result (λ made. made ≡ option_map (constant_table table.output)
        (unwritten_bit table)) }
{
    match unwritten_bit::<R>(alloc, &table)? {
        None => Ok(None),
        Some(bit) => Ok(Some(constant_table(alloc, table.output, bit)?)),
    }
}
