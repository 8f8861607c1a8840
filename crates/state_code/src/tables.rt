//! The tables of next-state bits and outputs.
//!
//! Source: De Micheli, "Synthesis and Optimization of Digital Circuits", chapter 9 (state
//! encoding). A table has a row for each row of the machine that specifies 1 for its bit or output:
//! the input cube and the code of the current state, with dashes for every state. Unspecified bits
//! become 0. Each table is then brought to normal form (`tidied` of circuit_tables), and is exactly
//! that of `specs/Encoded.antt`.

ghost use Rattle.std.specs.Prelude.{◌≡◌, [], ◌∷◌, ◌++◌, map, slice_index_or, IfOk, OnOk, if◌then◌else◌};
ghost use Rattle.std.specs.List.{filter};
ghost use Rattle.circuit_model.specs.declared.circuit.Tri.TheVariants.{Free};
ghost use Rattle.state_code.specs.Codes.{width_of};
ghost use Rattle.state_code.specs.Encoded.{code_character, coded_row, is_one, specifies_one, state_names, table_of, tables_from};

use crate::codes::{Style, code_bit};
use circuit_model::{Machine, MachineRow, Name, Names, Row, Rows, Table, Tri};
use circuit_tables::tidied_table;
use sis_base::{Copied, Sequence};
use std::alloc::{AllocError, Global};

/// How states are coded, and how many bits a code has.
#[derive(Clone, Copy)]
pub(crate) struct Coding {
    pub(crate) style: Style,
    pub(crate) width: usize,
}

/// A part of what rows specify: the bits of the next state's code, or the outputs.
#[derive(Clone, Copy)]
pub(crate) enum Part {
    Next,
    Output,
}

/// A bit of the next state's code, or an output.
#[derive(Clone, Copy)]
struct Column {
    part: Part,
    place: usize,
}

/// The character of a row for a bit of its current state's code.
fn code_character(style: Style, current: Option<usize>, bit: usize) -> Tri
    ensures { result ≡ code_character style current bit }
{
    match current {
        None => Tri::Free,
        Some(state) if code_bit(style, state, bit) => Tri::One,
        Some(_) => Tri::Zero,
    }
}

/// A row over the inputs and state bits.
fn coded_row(alloc: Global, coding: Coding, row: &MachineRow) -> Result<Row, AllocError>
    ensures { IfOk result (λ made. made ≡ coded_row coding.style coding.width row.now) }
{
    let mut made = row.input.copy(alloc)?;
    for bit in 0..coding.width {
        made.push(code_character(coding.style, row.current, bit))?;
    }
    Ok(made)
}

/// Whether the character of a column is 1.
fn is_one(output: &[Tri], place: usize) -> bool
    ensures { result ≡ is_one (slice_index_or output.now place Free) }
{
    match output.get(place) {
        Some(Tri::One) => true,
        _ => false,
    }
}

/// Whether a row specifies 1 for a bit of the next state's code, or for an output.
fn specifies_one(style: Style, column: Column, row: &MachineRow) -> bool
    ensures { result ≡ specifies_one style column.part column.place row.now }
{
    match (column.part, row.next) {
        (Part::Next, None) => false,
        (Part::Next, Some(next)) => code_bit(style, next, column.place),
        (Part::Output, _) => is_one(row.output.as_slice(), column.place),
    }
}

/// Appends a row over inputs and state bits, if it specifies 1.
fn push_row(
    alloc: Global,
    rows: &mut Vec<Row>,
    coding: Coding,
    column: Column,
    row: &MachineRow,
) -> Result<(), AllocError>
    ensures { OnOk result (rows.new.items ≡ rows.old.items
        ++ (if specifies_one coding.style column.part column.place row.now
        then coded_row coding.style coding.width row.now ∷ [] else [])) }
{
    if specifies_one(coding.style, column, row) {
        rows.push(coded_row(alloc, coding, row)?)?;
    }
    Ok(())
}

/// The rows of a table.
fn rows_of(
    alloc: Global,
    coding: Coding,
    column: Column,
    rows: &[MachineRow],
) -> Result<Rows, AllocError>
    ensures { IfOk result (λ made. made ≡ map (coded_row coding.style coding.width)
        (filter (specifies_one coding.style column.part column.place) rows.now)) }
{
    let mut made = Vec::new(alloc);
    for row in rows {
        push_row(alloc, &mut made, coding, column, row)?;
    }
    Ok(Sequence::from_vec(made))
}

/// The table of a bit of the next state's code, or of an output, in normal form.
#[tactic(auto, unfolding(crate::specs::Encoded::table_of))]
fn table_of(
    alloc: Global,
    machine: &Machine,
    coding: Coding,
    inputs: &Names,
    column: Column,
    name: &Name,
) -> Result<Table, AllocError>
    requires width { coding.width ≡ width_of coding.style machine.now }
    requires inputs { inputs.now ≡ machine.now.inputs ++ state_names coding.style machine.now }
    ensures { IfOk result (λ table. table
        ≡ table_of coding.style machine.now column.part column.place name.now) }
{
    let table = Table {
        inputs: inputs.copy(alloc)?,
        output: name.copy(alloc)?,
        rows: rows_of(alloc, coding, column, machine.rows.as_slice())?,
        phase: true,
    };
    tidied_table(alloc, table)
}

/// Appends the tables of a part, one for each name.
pub(crate) fn push_tables(
    alloc: Global,
    tables: &mut Vec<Table>,
    machine: &Machine,
    coding: Coding,
    inputs: &Names,
    part: Part,
    names: &[Name],
) -> Result<(), AllocError>
    requires width { coding.width ≡ width_of coding.style machine.now }
    requires inputs { inputs.now ≡ machine.now.inputs ++ state_names coding.style machine.now }
    ensures { OnOk result (tables.new.items
        ≡ tables.old.items ++ tables_from coding.style machine.now part 0 names.now) }
{
    for (place, name) in names.iter().enumerate() {
        let column = Column { part, place };
        tables.push(table_of(alloc, machine, coding, inputs, column, name)?)?;
    }
    Ok(())
}
