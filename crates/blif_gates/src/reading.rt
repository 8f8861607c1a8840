//! The table of a gate between the signals of a `.gate` line.
//!
//! Source: the BLIF appendix of the SIS report (UCB/ERL M92/41), `.gate`, and its genlib format.
//! `read_gate` looks the cell up, checks that the words are pairs that name each pin and the output
//! once, and returns exactly the table or the fault of `specs/GateLines.antt`. The rows are those
//! of Shannon's expansion over the pins in order, with phase 1.

ghost use Rattle.std.specs.Prelude.{◌≡◌, ◌+◌, ◌==◌, ◌&&◌, length, map, IfOk};
ghost use Rattle.std.specs.List.{list_all};
ghost use Rattle.circuit_model.specs.Names.{has};
ghost use Rattle.line_words.specs.LineWords.{texts};
ghost use Rattle.blif_gates.specs.GateLines.{pins_of, is_pairing, signal_for, gate_rows, gate_table, read_pairs, read_gate};

use crate::pairs::{are_named, are_pairs, is_named, signal_for};
use circuit_model::{Name, Names, Rows, Table};
use genlib_format::{Gate, Library};
use line_words::name_of;
use sis_base::Sequence;
use std::alloc::{AllocError, Global};

/// What is wrong with the words of a `.gate` line.
#[derive(Clone, Copy, Debug, PartialEq, Eq)]
pub enum GateFault {
    /// The library has no gate of the name.
    UnknownGate,
    /// A word after the cell is not a pair, or the pairs do not name each pin and the output once.
    BadPins,
}

/// Whether there are as many words as pins and the output.
#[tactic(auto, using(std::proofs::lemmas::Grind::common_steps))]
fn are_as_many(pins: &[Name], words: &[&[u8]]) -> bool
    ensures { result ≡ (length (texts words.now) == length pins.now + 1) }
{
    words.len() == pins.len() + 1
}

/// Whether the words name each pin and the output.
fn name_all(gate: &Gate, words: &[&[u8]]) -> bool
    ensures { result ≡ (list_all (has (pins_of (texts words.now))) gate.now.pins && has
        (pins_of (texts words.now)) gate.now.output) }
{
    are_named(words, gate.pins.as_slice()) && is_named(words, gate.output.as_slice())
}

/// Whether words are pairs that name each pin and the output once.
#[tactic(auto, unfolding(crate::specs::GateLines::is_pairing))]
fn is_pairing(gate: &Gate, words: &[&[u8]]) -> bool
    ensures { result ≡ is_pairing gate.now (texts words.now) }
{
    if !are_as_many(gate.pins.as_slice(), words) {
        return false;
    }
    are_pairs(words) && name_all(gate, words)
}

/// The signals of pins, in order.
fn signals_for(alloc: Global, words: &[&[u8]], pins: &[Name]) -> Result<Names, AllocError>
    ensures { IfOk result (λ names. names ≡ map (signal_for (texts words.now)) pins.now) }
{
    let mut names = Sequence::new(alloc);
    for pin in pins {
        names.push(name_of(alloc, signal_for(words, pin.as_slice()))?)?;
    }
    Ok(names)
}

/// The rows of a gate's function over its pins.
fn gate_rows(alloc: Global, gate: &Gate) -> Result<Rows, AllocError>
    ensures { IfOk result (λ rows. rows ≡ gate_rows gate.now) }
{
    let rows = gate.rows(alloc)?;
    Ok(rows)
}

/// The table of a gate between the signals of pairs.
#[tactic(auto, unfolding(crate::specs::GateLines::gate_table))]
fn gate_table(alloc: Global, gate: &Gate, words: &[&[u8]]) -> Result<Table, AllocError>
    ensures { IfOk result (λ table. table ≡ gate_table gate.now (texts words.now)) }
{
    let inputs = signals_for(alloc, words, gate.pins.as_slice())?;
    let output = name_of(alloc, signal_for(words, gate.output.as_slice()))?;
    let rows = gate_rows(alloc, gate)?;
    Ok(Table {
        inputs,
        output,
        rows,
        phase: true,
    })
}

/// The table of a gate and the words after its cell, or that they do not pair.
fn read_pairs(
    alloc: Global,
    gate: &Gate,
    words: &[&[u8]],
) -> Result<Result<Table, GateFault>, AllocError>
    ensures { IfOk result (λ answer. answer ≡ read_pairs gate.now (texts words.now)) }
{
    if !is_pairing(gate, words) {
        return Ok(Err(GateFault::BadPins));
    }
    Ok(Ok(gate_table(alloc, gate, words)?))
}

/// The table of the cell of a `.gate` line and the words after it, or what is wrong with them.
#[tactic(auto, unfolding(crate::specs::GateLines::read_gate))]
pub fn read_gate(
    alloc: Global,
    library: &Library,
    cell: &[u8],
    words: &[&[u8]],
) -> Result<Result<Table, GateFault>, AllocError>
    ensures { IfOk result (λ answer. answer ≡ read_gate library.now cell.now (texts words.now)) }
{
    let name = name_of(alloc, cell)?;
    match library.gate(&name) {
        None => Ok(Err(GateFault::UnknownGate)),
        Some(gate) => read_pairs(alloc, gate, words),
    }
}
