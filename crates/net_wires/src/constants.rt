//! Written constants: a table without inputs, of phase 1, with one row for 1 and without a row for
//! 0.
//!
//! Source: BLIF appendix of the SIS report (UCB/ERL M92/41), `.names`.

ghost use Rattle.std.specs.Prelude.{◌≡◌, IfOk};
ghost use Rattle.circuit_laws.specs.Edits.{constant_rows, constant_table};
ghost use Rattle.net_wires.specs.Points.{written_bit};
ghost use Rattle.net_wires.specs.Written.{is_one_row};

use circuit_model::{Name, Row, Rows, Table};
use sis_base::Sequence;
use std::alloc::{AllocError, Global};

// Whether there is one row, without characters.
fn is_one_empty_row(rows: &[Row]) -> bool
    ensures { result ≡ is_one_row rows.now }
{
    rows.len() == 1 && rows[0].is_empty()
}

/// The constant as which a table is written; `None` if it is written otherwise.
pub fn written_bit(table: &Table) -> Option<bool>
    ensures { result ≡ written_bit table.now }
{
    if !table.inputs.is_empty() {
        return None;
    }
    if !table.phase {
        return None;
    }
    if table.rows.is_empty() {
        return Some(false);
    }
    if is_one_empty_row(table.rows.as_slice()) {
        return Some(true);
    }
    None
}

// The rows of a constant.
fn constant_rows(alloc: Global, bit: bool) -> Result<Rows, AllocError>
    ensures { IfOk result (λ rows. rows ≡ constant_rows bit) }
{
    let mut rows = Sequence::new(alloc);
    if !bit {
        return Ok(rows);
    }
    rows.push(Row::new(alloc))?;
    Ok(rows)
}

/// The table of a constant.
pub fn constant_table(alloc: Global, output: Name, bit: bool) -> Result<Table, AllocError>
    ensures { IfOk result (λ table. table ≡ constant_table output bit) }
{
    Ok(Table {
        inputs: Sequence::new(alloc),
        output,
        rows: constant_rows(alloc, bit)?,
        phase: true,
    })
}
