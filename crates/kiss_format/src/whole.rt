//! What is read of a draft after the last line.
//!
//! Source: SIS report (UCB/ERL M92/41), KISS2 tables: without `.r` a machine starts in the current
//! state of the first row that names one. `finish` checks the whole (no rows, no reset state, a
//! clash of rows) and makes exactly the machine of `specs/Reader.antt`, with made names `top`,
//! `IN_k` and `OUT_k`. After an error the machine has no meaning.

ghost use Rattle.std.specs.Prelude.{◌≡◌, ◌++◌, ℕ, List, decimal, IfOk, OnOk};
ghost use Rattle.std.specs.List.{filter_map};
ghost use Rattle.circuit_model.specs.declared.machine.MachineRow.{MachineRow};
ghost use Rattle.kiss_format.specs.Lines.{first_item};
ghost use Rattle.kiss_format.specs.Reader.{reset_place, reset_name, made_names, machine_with, placed, whole};
ghost use Rattle.kiss_format.specs.Steps.{Places, Makes, no_parts};

use crate::draft::Draft;
use crate::fault::{KissFault, ReadFault};
use crate::finding::first_clash;
use crate::states::StateNames;
use circuit_model::{Machine, MachineRow, Name, Names};
use line_words::name_of;
use sis_base::{Copied, Sequence};
use std::alloc::{AllocError, Global};
use std::mem;

/// The current state of the first row that has one.
fn first_current(rows: &[MachineRow]) -> Option<usize>
    ensures { result ≡ first_item (filter_map (λ (row : MachineRow). row.current) rows.now) }
{
    for row in rows {
        if let Some(state) = row.current {
            return Some(state);
        }
    }
    None
}

/// The index of the state that a machine starts in.
fn reset_place(reset: &Option<Name>, states: &StateNames, rows: &[MachineRow]) -> Option<usize>
    ensures { result ≡ reset_place reset.now states.now rows.now }
{
    match reset {
        None => first_current(rows),
        Some(name) => states.place(name),
    }
}

/// The name of a reset state; `*` if none is named.
fn reset_name(alloc: Global, reset: &Option<Name>) -> Result<Name, AllocError>
    ensures { IfOk result (λ name. name ≡ reset_name reset.now) }
{
    match reset {
        None => name_of(alloc, b"*".as_slice()),
        Some(name) => name.copy(alloc),
    }
}

/// The index of the reset state of some rows, or what is wrong with them.
fn place_reset(
    alloc: Global,
    reset: &Option<Name>,
    states: &StateNames,
    rows: &[MachineRow],
) -> Result<usize, ReadFault>
    ensures { Places result (placed reset.now states.now rows.now) }
{
    if rows.is_empty() {
        return Err(ReadFault::Fault(KissFault::NoRows));
    }
    let Some(place) = reset_place(reset, states, rows) else {
        return Err(ReadFault::Fault(KissFault::NoReset(reset_name(alloc, reset)?)));
    };
    if let Some(clash) = first_clash(alloc, rows)? {
        return Err(ReadFault::Fault(KissFault::RowClash(clash.earlier + 1, clash.later + 1)));
    }
    Ok(place)
}

/// A prefix followed by a number.
fn made_name(alloc: Global, prefix: &[u8], number: usize) -> Result<Name, AllocError>
    ensures { IfOk result (λ name. name ≡ prefix.now ++ decimal number) }
{
    let shown = format!(in alloc; "{number}")?;
    let mut text = Vec::new(alloc);
    text.extend_from_slice(prefix)?;
    text.extend_from_slice(shown.as_bytes())?;
    Ok(Name::from_vec(text))
}

/// Made names: a prefix and a number from 0 on.
#[tactic(auto, using(crate::proofs::MadeNames::made_more, std::proofs::lemmas::Grind::common_steps))]
fn made_names(alloc: Global, prefix: &[u8], count: usize) -> Result<Names, AllocError>
    ensures { IfOk result (λ names. names ≡ made_names prefix.now count) }
{
    let mut names = Sequence::new(alloc);
    for number in 0..count {
        names.push(made_name(alloc, prefix, number)?)?;
    }
    Ok(names)
}

/// A machine without parts; takes no memory.
pub fn no_machine(alloc: Global) -> Machine
    ensures { result ≡ no_parts }
{
    Machine {
        name: Name::new(alloc),
        inputs: Sequence::new(alloc),
        outputs: Sequence::new(alloc),
        states: Sequence::new(alloc),
        reset: 0,
        rows: Sequence::new(alloc),
    }
}

/// Gives a machine the names of a draft.
fn put_names(alloc: Global, draft: &Draft, machine: &mut Machine) -> Result<(), AllocError>
    ensures { OnOk result (machine.new ≡ machine_with draft.now.inputs draft.now.outputs
        draft.now.states machine.old.rows machine.old.reset) }
{
    machine.name = name_of(alloc, b"top".as_slice())?;
    machine.inputs = made_names(alloc, b"IN_".as_slice(), draft.inputs.unwrap_or(0))?;
    machine.outputs = made_names(alloc, b"OUT_".as_slice(), draft.outputs.unwrap_or(0))?;
    machine.states = draft.states.to_names(alloc)?;
    Ok(())
}

/// Sets a machine to the one that a draft describes after the last line, if nothing is wrong with
/// the whole. After an error the machine has no meaning.
#[tactic(auto, unfolding(crate::specs::Reader::whole))]
pub fn finish(alloc: Global, draft: &mut Draft, machine: &mut Machine) -> Result<(), ReadFault>
    ensures { Makes result machine.new (whole draft.old) }
{
    machine.reset = place_reset(alloc, &draft.reset, &draft.states, draft.rows.as_slice())?;
    put_names(alloc, draft, machine)?;
    mem::swap(&mut machine.rows, &mut draft.rows);
    Ok(())
}
