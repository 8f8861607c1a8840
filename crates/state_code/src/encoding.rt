//! The circuit of a machine whose states are coded in latches.
//!
//! Source: De Micheli, "Synthesis and Optimization of Digital Circuits", chapter 9 (state
//! encoding). The state bits are latches that start at the code of the reset state; each bit of the
//! next state and each output is a table over the inputs and the state bits. `encoded` returns
//! exactly that of `specs/Encoded.antt`; `laws` says that it is sound and refines the machine.

ghost use Rattle.std.specs.Prelude.{◌≡◌, ◌+◌, ◌^◌, ◌<◌, ◌++◌, length, IfOk};
ghost use Rattle.state_code.specs.Codes.{width_of};
ghost use Rattle.state_code.specs.Encoded.{init_of, latches_from, next_names, state_names, tables_from, encoded};
ghost use Rattle.state_code.specs.declared.tables.Part.TheVariants.{Next, Output};

use crate::codes::code_bit;
use crate::naming::free_names;
use crate::tables::{Coding, Part, push_tables};
use circuit_model::{Circuit, Latch, Latches, Machine, Name, Names, Tables};
use sis_base::{Copied, Sequence};
use std::alloc::{AllocError, Global};

/// The init of a latch that starts at a bit.
fn init_of(bit: bool) -> u8
    ensures { result ≡ init_of bit }
{
    if bit { 1 } else { 0 }
}

/// The latches of the bits, which start at the code of the reset state.
fn latches_of(
    alloc: Global,
    machine: &Machine,
    coding: Coding,
    inputs: &[Name],
    outputs: &[Name],
) -> Result<Latches, AllocError>
    requires { length inputs.now ≡ length outputs.now }
    ensures { IfOk result (λ latches. latches
        ≡ latches_from coding.style machine.now.reset 0 inputs.now outputs.now) }
{
    let mut latches = Vec::with_capacity(alloc, inputs.len())?;
    for bit in 0..inputs.len() {
        latches.push(Latch {
            input: inputs[bit].copy(alloc)?,
            output: outputs[bit].copy(alloc)?,
            init: init_of(code_bit(coding.style, machine.reset, bit)),
        })?;
    }
    Ok(Sequence::from_vec(latches))
}

/// The names of inputs and state bits, which tables read.
fn leaves_of(alloc: Global, machine: &Machine, states: &[Name]) -> Result<Names, AllocError>
    ensures { IfOk result (λ names. names ≡ machine.now.inputs ++ states.now) }
{
    let mut names = machine.inputs.copy(alloc)?;
    for name in states {
        names.push(name.copy(alloc)?)?;
    }
    Ok(names)
}

/// The tables of the next-state bits and of the outputs.
fn tables_of(
    alloc: Global,
    machine: &Machine,
    coding: Coding,
    states: &[Name],
    nexts: &[Name],
) -> Result<Tables, AllocError>
    requires width { coding.width ≡ width_of coding.style machine.now }
    requires states { states.now ≡ state_names coding.style machine.now }
    requires nexts { nexts.now ≡ next_names coding.style machine.now }
    ensures { IfOk result (λ tables. tables
        ≡ tables_from coding.style machine.now Next 0 (next_names coding.style machine.now)
        ++ tables_from coding.style machine.now Output 0 machine.now.outputs) }
{
    let inputs = leaves_of(alloc, machine, states)?;
    let mut tables = Vec::new(alloc);
    push_tables(
        alloc,
        &mut tables,
        machine,
        coding,
        &inputs,
        Part::Next,
        nexts,
    )?;
    let outputs = machine.outputs.as_slice();
    push_tables(
        alloc,
        &mut tables,
        machine,
        coding,
        &inputs,
        Part::Output,
        outputs,
    )?;
    Ok(Sequence::from_vec(tables))
}

/// The circuit, by the names of its state bits.
#[tactic(auto, unfolding(crate::specs::Encoded::encoded))]
fn circuit_of(
    alloc: Global,
    machine: &Machine,
    coding: Coding,
    states: &[Name],
    nexts: &[Name],
) -> Result<Circuit, AllocError>
    requires width { coding.width ≡ width_of coding.style machine.now }
    requires states { states.now ≡ state_names coding.style machine.now }
    requires nexts { nexts.now ≡ next_names coding.style machine.now }
    requires lengths { length nexts.now ≡ length states.now }
    ensures { IfOk result (λ circuit. circuit ≡ encoded coding.style machine.now) }
{
    Ok(Circuit {
        name: machine.name.copy(alloc)?,
        inputs: machine.inputs.copy(alloc)?,
        outputs: machine.outputs.copy(alloc)?,
        clocks: Sequence::new(alloc),
        timing: None,
        latches: latches_of(alloc, machine, coding, nexts, states)?,
        tables: tables_of(alloc, machine, coding, states, nexts)?,
        dont_care: Sequence::new(alloc),
    })
}

/// The circuit of a machine whose states are coded in latches.
pub(crate) fn encoded(
    alloc: Global,
    machine: &Machine,
    coding: Coding,
) -> Result<Circuit, AllocError>
    requires width { coding.width ≡ width_of coding.style machine.now }
    requires few { coding.width + length machine.now.inputs + length machine.now.outputs < 2 ^ 32 }
    ensures { IfOk result (λ circuit. circuit ≡ encoded coding.style machine.now) }
{
    let inputs = machine.inputs.as_slice();
    let outputs = machine.outputs.as_slice();
    let states = free_names(alloc, b"st_".as_slice(), coding.width, inputs, outputs)?;
    let nexts = free_names(alloc, b"nx_".as_slice(), coding.width, inputs, outputs)?;
    circuit_of(alloc, machine, coding, states.as_slice(), nexts.as_slice())
}
