//! The cells of a library's gates, and their patterns, in the order of the library's file.
//!
//! Callers rely on `AreCellsOf` and `HavePatterns`: one cell, and one gate with its patterns, for
//! each gate of the library.

ghost use Rattle.std.specs.Prelude.{IfOk};
ghost use Rattle.tree_cover.specs.Listed.{IsCellOf, AreCellsOf, HavePatterns};

use genlib_format::{Gate, Library};
use pattern_set::{Cell, Patterns, patterns};
use std::alloc::{AllocError, Global};

// The cell of a gate.
fn cell_of(gate: &Gate) -> Cell
    ensures { IsCellOf gate.now result }
{
    Cell {
        area: gate.area.0,
        expr: &gate.expr,
        pins: gate.pins.len(),
    }
}

/// The cells of a library's gates, in the order of its file.
pub fn cells(alloc: Global, library: &Library) -> Result<Vec<Cell>, AllocError>
    ensures { IfOk result (λ made. AreCellsOf library.now made.items) }
{
    let gates = library.gates();
    let mut made = Vec::with_capacity(alloc, gates.len())?;
    for gate in gates {
        made.push(cell_of(gate))?;
    }
    Ok(made)
}

/// The patterns of a library's gates, in the order of its file.
pub fn library_patterns(alloc: Global, library: &Library) -> Result<Patterns, AllocError>
    ensures { IfOk result (λ made. HavePatterns made.arena library.now made.gates) }
{
    let cells = cells(alloc, library)?;
    let made = patterns(alloc, cells.as_slice())?;
    Ok(made)
}
