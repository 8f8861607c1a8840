//! Appends the results of calls to an answer.

use blif_write::{circuit_text, table_text};
use circuit_model::{Circuit, Name, Table};
use line_words::put_word;
use std::alloc::Global;
use std::fmt::Debug;
use trial_cases::{CaseFault, put_line, put_shown};

/// Appends a text on a line.
pub fn put_text(out: &mut Vec<u8>, text: &[u8]) -> Result<(), CaseFault> {
    put_line(out, text)?;
    Ok(())
}

/// Appends the debug form of a value on a line.
pub fn put_value<T: Debug>(alloc: Global, out: &mut Vec<u8>, value: &T) -> Result<(), CaseFault> {
    put_shown(alloc, out, value)?;
    Ok(())
}

/// Appends names on a line, with a blank before each.
pub fn put_names(out: &mut Vec<u8>, names: &[Name]) -> Result<(), CaseFault> {
    for name in names {
        put_word(out, name.as_slice())?;
    }
    put_text(out, b"")
}

/// Appends the text of a circuit.
pub fn put_circuit(alloc: Global, out: &mut Vec<u8>, circuit: &Circuit) -> Result<(), CaseFault> {
    circuit_text(alloc, circuit, out)?;
    Ok(())
}

/// Appends the text of a table.
pub fn put_table(alloc: Global, out: &mut Vec<u8>, table: &Table) -> Result<(), CaseFault> {
    let text = table_text(alloc, table)?;
    out.extend_from_slice(text.as_slice())?;
    Ok(())
}
