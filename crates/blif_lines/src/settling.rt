//! What is made of a draft after the last line: its ports, its two lists of tables, its circuit; or
//! the head of a machine.
//!
//! Ports that no line lists are found, and the tables are separated into the model's and those of
//! the don't-care part (`settled` of `specs/Steps.antt`). In the circuit each table of the model
//! has each of its inputs once; the tables of the don't-care part stay as they are written. All
//! lists of the draft but that of the model's tables are moved into the circuit, not copied.

ghost use Rattle.std.specs.Prelude.{◌≡◌, map, IfOk, OnOk};
ghost use Rattle.circuit_tables.specs.Folding.{folded};
ghost use Rattle.blif_lines.specs.Reader.{circuit_of, head_of};
ghost use Rattle.blif_lines.specs.Steps.{told_of, settled, settled_told};

use crate::content::Head;
use crate::draft::{Draft, with_reading};
use crate::ports::find_ports;
use circuit_model::{Circuit, Tables};
use circuit_tables::merge_repeated_inputs;
use sis_base::{Sequence, Whole};
use std::alloc::{AllocError, Global};
use std::mem;

/// Finds the ports that no line lists, and separates the tables.
#[tactic(auto, unfolding(crate::specs::Steps::settled))]
pub fn settle(alloc: Global, draft: &mut Draft) -> Result<(), AllocError>
    ensures { OnOk result (draft.new ≡ settled draft.old) }
{
    find_ports(
        alloc,
        draft.lists_inputs,
        &mut draft.inputs,
        draft.drives.as_slice(),
        draft.inner.as_slice(),
    )?;
    find_ports(
        alloc,
        draft.lists_outputs,
        &mut draft.outputs,
        draft.reads.as_slice(),
        draft.drives.as_slice(),
    )?;
    let reading = draft.reading.take();
    with_reading(&mut draft.tables, reading)?;
    if !draft.has_part {
        draft.model_tables = mem::replace(&mut draft.tables, Sequence::new(alloc));
    }
    Ok(())
}

/// The tables, each with each of its inputs once.
fn folded_tables(alloc: Global, tables: Tables) -> Result<Tables, AllocError>
    ensures { IfOk result (λ less. less ≡ map folded tables) }
{
    let mut less = Sequence::new(alloc);
    for table in tables.into_vec() {
        less.push(merge_repeated_inputs(alloc, table)?)?;
    }
    Ok(less)
}

/// The circuit of a draft that is settled, with other tables for the model.
fn circuit_with(draft: Draft, model_tables: Tables) -> Circuit
    ensures { result ≡ record (circuit_of (settled_told draft)) { tables = model_tables } }
{
    Circuit {
        name: draft.name,
        inputs: draft.inputs,
        outputs: draft.outputs,
        clocks: draft.clocks,
        timing: draft.timing,
        latches: draft.latches,
        tables: model_tables,
        dont_care: draft.tables,
    }
}

/// The circuit of a draft that is settled.
pub fn circuit_of(alloc: Global, draft: Whole<Draft>) -> Result<Circuit, AllocError>
    ensures { IfOk result (λ circuit. circuit ≡ circuit_of (settled_told draft.it)) }
{
    let mut draft = draft;
    let tables = mem::replace(&mut draft.it.model_tables, Sequence::new(alloc));
    let folded = folded_tables(alloc, tables)?;
    Ok(circuit_with(draft.into_it(), folded))
}

/// The head of a machine, from the draft after the last line.
pub fn head_of(draft: Draft) -> Head
    ensures { result ≡ head_of (told_of draft) }
{
    let Draft {
        name,
        lists_inputs,
        inputs,
        lists_outputs,
        outputs,
        ..
    } = draft;
    Head {
        name,
        inputs: lists_inputs.then_some(inputs),
        outputs: lists_outputs.then_some(outputs),
    }
}
