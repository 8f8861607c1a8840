//! Cases of files: what circuits, machines and gates are read as, and what is written.
//!
//! The case's text is read as a circuit or a machine, as a KISS2 table, as a library or as one
//! expression. The answer is the text of a copy of what was read, or the fault. `put_with_library`
//! reads a circuit with the library before a line `and`.

use crate::puts::{put_circuit, put_names, put_text, put_value};
use crate::reads::{circuit, library, parted};
use blif_lines::Content;
use blif_read::{ReadFault, read};
use blif_write::{latches_text, tables_text};
use circuit_model::{Circuit, Machine, Spec};
use fault_texts::{put_blif_fault, put_kiss_fault, put_library_fault};
use genlib_expr::{Parsed, Token, agree, parse};
use genlib_format::{Gate, Library, ReadFault as LibraryFault};
use kiss_format::{ReadFault as KissFault, machine_text};
use line_words::{name_of, put_characters, put_word};
use sis_base::{Copied, Whole};
use sis_text::{Decimal, logical_lines};
use std::alloc::Global;
use tree_cover::cells;
use trial_cases::{Case, CaseFault, put_line, put_number, text_of};

/// Appends the answer to a case of a file's text. What is read is wrapped in a `Whole`, so that
/// dropping it is one call.
pub fn answer(
    alloc: Global,
    out: &mut Vec<u8>,
    case: &Case<'_>,
    text: &[u8],
) -> Result<(), CaseFault> {
    match case.word(1) {
        "read" => put_read(
            alloc,
            out,
            &Whole {
                it: read(alloc, text, None),
            }
            .it,
        ),
        "read_with_library" => put_with_library(alloc, out, case.lines.as_slice()),
        "lines" => put_content(alloc, out, text),
        "parts_text" => put_parts(
            alloc,
            out,
            &Whole {
                it: circuit(alloc, text)?,
            }
            .it,
        ),
        "machine" => put_kiss(
            alloc,
            out,
            &Whole {
                it: kiss_format::read(alloc, text),
            }
            .it,
        ),
        "machine_lines" => {
            let lines = logical_lines(alloc, text)?;
            put_kiss(
                alloc,
                out,
                &Whole {
                    it: kiss_format::read_lines(alloc, text, lines.as_slice()),
                }
                .it,
            )
        }
        "gates" => put_library(
            alloc,
            out,
            &Whole {
                it: genlib_format::read(alloc, text),
            }
            .it,
        ),
        "gate_rows" => put_gate(
            alloc,
            out,
            &Whole {
                it: library(alloc, text)?,
            }
            .it,
            case.word(2),
        ),
        "expression" => put_expression(alloc, out, text),
        _ => Err(CaseFault::Bad),
    }
}

/// Appends a copy of what a text is read as, or the fault.
fn put_read(
    alloc: Global,
    out: &mut Vec<u8>,
    found: &Result<Spec, ReadFault>,
) -> Result<(), CaseFault> {
    match found {
        Ok(spec) => put_spec(alloc, out, &spec.copy(alloc)?),
        Err(ReadFault::Fault(fault)) => {
            put_blif_fault(out, alloc, fault)?;
            put_text(out, b"")
        }
        Err(ReadFault::Memory) => Err(CaseFault::Memory),
    }
}

/// Appends a circuit or a machine.
fn put_spec(alloc: Global, out: &mut Vec<u8>, spec: &Spec) -> Result<(), CaseFault> {
    match spec {
        Spec::Circuit(circuit) => put_circuit(alloc, out, circuit),
        Spec::Machine(machine) => put_machine(alloc, out, machine),
    }
}

/// Appends what the lines after a line `and` are read as, with the library of those before it.
fn put_with_library(alloc: Global, out: &mut Vec<u8>, lines: &[&str]) -> Result<(), CaseFault> {
    let (first, rest) = parted(lines);
    let gates = Whole {
        it: library(alloc, text_of(alloc, first)?.as_slice())?,
    };
    let text = text_of(alloc, rest.get(1..).unwrap_or(&[]))?;
    let found = Whole {
        it: read(alloc, text.as_slice(), Some(&gates.it)),
    };
    put_read(alloc, out, &found.it)
}

/// Appends what the lines of a text are read as, in one run.
fn put_content(alloc: Global, out: &mut Vec<u8>, text: &[u8]) -> Result<(), CaseFault> {
    let lines = logical_lines(alloc, text)?;
    match &blif_lines::read_lines(alloc, text, lines.as_slice(), &[], None) {
        Ok(Content::Circuit(circuit)) => put_circuit(alloc, out, circuit),
        other => put_value(alloc, out, other),
    }
}

/// Appends the texts of the latches of a circuit and of its tables.
fn put_parts(alloc: Global, out: &mut Vec<u8>, circuit: &Circuit) -> Result<(), CaseFault> {
    let latches = latches_text(alloc, &circuit.timing, circuit.latches.as_slice())?;
    out.extend_from_slice(latches.as_slice())?;
    let tables = tables_text(alloc, circuit.tables.as_slice())?;
    Ok(out.extend_from_slice(tables.as_slice())?)
}

/// Appends the machine that was read, or the fault.
fn put_kiss(
    alloc: Global,
    out: &mut Vec<u8>,
    found: &Result<Machine, KissFault>,
) -> Result<(), CaseFault> {
    match found {
        Ok(machine) => put_machine(alloc, out, machine),
        Err(KissFault::Fault(fault)) => {
            put_kiss_fault(out, alloc, fault)?;
            put_text(out, b"")
        }
        Err(KissFault::Memory) => Err(CaseFault::Memory),
    }
}

/// Appends a machine: its name, its ports, and its text.
fn put_machine(alloc: Global, out: &mut Vec<u8>, machine: &Machine) -> Result<(), CaseFault> {
    put_line(out, machine.name.as_slice())?;
    out.extend_from_slice(b"inputs")?;
    put_names(out, machine.inputs.as_slice())?;
    out.extend_from_slice(b"outputs")?;
    put_names(out, machine.outputs.as_slice())?;
    Ok(machine_text(alloc, machine, out)?)
}

/// Appends the gates of a library that was read, or the fault.
fn put_library(
    alloc: Global,
    out: &mut Vec<u8>,
    found: &Result<Library, LibraryFault>,
) -> Result<(), CaseFault> {
    match found {
        Ok(library) => put_gates(alloc, out, library),
        Err(LibraryFault::Fault(fault)) => {
            put_library_fault(out, alloc, fault)?;
            put_text(out, b"")
        }
        Err(LibraryFault::Memory) => Err(CaseFault::Memory),
    }
}

/// Appends for each gate its name, its area and the number of its pins.
fn put_gates(alloc: Global, out: &mut Vec<u8>, library: &Library) -> Result<(), CaseFault> {
    let cells = cells(alloc, library)?;
    for (gate, cell) in library.gates().iter().zip(cells.iter()) {
        out.extend_from_slice(gate.cell.as_slice())?;
        put_word(out, Decimal(cell.area).print(alloc)?.as_slice())?;
        out.push(b' ')?;
        put_number(alloc, out, cell.pins)?;
        put_text(out, b"")?;
    }
    Ok(())
}

/// Appends the output and the pins of the first gate of a name, and its rows; `none` if there is no
/// such gate.
fn put_gate(
    alloc: Global,
    out: &mut Vec<u8>,
    library: &Library,
    cell: &str,
) -> Result<(), CaseFault> {
    match library.gate(&name_of(alloc, cell.as_bytes())?) {
        Some(gate) => put_function(alloc, out, gate),
        None => put_text(out, b"none"),
    }
}

/// Appends the output and the pins of a gate, and its rows.
fn put_function(alloc: Global, out: &mut Vec<u8>, gate: &Gate) -> Result<(), CaseFault> {
    out.extend_from_slice(gate.output.as_slice())?;
    put_names(out, gate.pins.as_slice())?;
    let rows = gate.rows(alloc)?;
    for row in rows.as_slice() {
        put_characters(out, row.as_slice())?;
        put_text(out, b"")?;
    }
    Ok(())
}

/// Appends the pins and the rows of the expression of a text, and whether it agrees with the
/// product of its first two pins.
fn put_expression(alloc: Global, out: &mut Vec<u8>, text: &[u8]) -> Result<(), CaseFault> {
    match &genlib_expr::read(alloc, text) {
        Ok(parsed) => put_parsed(alloc, out, parsed),
        Err(fault) => put_value(alloc, out, fault),
    }
}

/// Appends the pins and the rows of an expression, and whether it agrees with the product of its
/// first two pins.
fn put_parsed(alloc: Global, out: &mut Vec<u8>, parsed: &Parsed) -> Result<(), CaseFault> {
    put_names(out, parsed.pins.as_slice())?;
    let rows = genlib_expr::rows(alloc, parsed.pins.len(), &parsed.expr)?;
    put_value(alloc, out, &rows)?;
    match &parse(alloc, &[Token::Name(0), Token::Star, Token::Name(1)]) {
        Ok(product) => put_value(alloc, out, &agree(alloc, 2, &parsed.expr, product)?),
        Err(fault) => put_value(alloc, out, fault),
    }
}
