//! The gates of a cover as lines, and the total area and number of gates. An input of a gate is the
//! name of a leaf, or the number of a gate in brackets.

use crate::puts::{put_text, put_value};
use genlib_format::Library;
use sis_text::Decimal;
use std::alloc::{AllocError, Global};
use subject_tree::Leaves;
use tree_cover::{Signal, WrittenCover};
use trial_cases::{CaseFault, put_number};

/// Appends a line for each gate of a cover, and what drives the root.
pub fn put_tiles(
    alloc: Global,
    out: &mut Vec<u8>,
    library: &Library,
    leaves: &Leaves,
    cover: &WrittenCover,
) -> Result<(), CaseFault> {
    for gate in &cover.gates {
        if let Some(cell) = library.gates().get(gate.place) {
            out.extend_from_slice(cell.cell.as_slice())?;
        }
        for signal in gate.pins.as_slice() {
            put_signal(alloc, out, leaves, *signal)?;
        }
        put_text(out, b"")?;
    }
    out.extend_from_slice(b"root")?;
    put_signal(alloc, out, leaves, cover.root)?;
    put_text(out, b"")
}

/// Appends a blank and a signal: the name of a leaf, or the number of a gate of the cover in
/// brackets.
fn put_signal(
    alloc: Global,
    out: &mut Vec<u8>,
    leaves: &Leaves,
    signal: Signal,
) -> Result<(), AllocError> {
    out.push(b' ')?;
    match signal {
        Signal::Leaf(place) => match leaves.name(place) {
            Some(name) => out.extend_from_slice(name.as_slice()),
            None => Ok(()),
        },
        Signal::Gate(place) => {
            out.push(b'[')?;
            put_number(alloc, out, place)?;
            out.extend_from_slice(b"]")
        }
    }
}

/// Appends the area and the number of all gates.
pub fn put_totals(
    alloc: Global,
    out: &mut Vec<u8>,
    area: u128,
    gates: usize,
) -> Result<(), CaseFault> {
    out.extend_from_slice(b"total area=")?;
    out.extend_from_slice(Decimal(area).print(alloc)?.as_slice())?;
    out.extend_from_slice(b" gates=")?;
    put_value(alloc, out, &gates)
}
