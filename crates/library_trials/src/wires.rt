//! Cases of single tables, of fanouts, and of circuits in which signals are substituted.
//!
//! `put_tables` renames the inputs of a circuit's tables and prints what calls of circuit_tables
//! and net_wires answer; `put_readers` keeps a list of readers and asks who reads a signal;
//! `put_aliases` exchanges two signals of a circuit, one of them complemented, and replaces and
//! adds constant tables (net_readers, net_wires).

use crate::puts::{put_circuit, put_table, put_text, put_value};
use crate::reads::{circuit, names};
use circuit_model::{Name, Table};
use circuit_tables::{is_tidy_table, merge_repeated_inputs, tidied_table};
use line_words::name_of;
use net_readers::Fanouts;
use net_wires::{AliasedTables, constant_table, rows_over};
use sis_base::{Copied, Whole};
use std::alloc::Global;
use trial_cases::{Case, CaseFault};

/// Appends the answer to a case of the tables of a circuit, whose inputs get the names of a word.
pub fn put_tables(
    alloc: Global,
    out: &mut Vec<u8>,
    case: &Case<'_>,
    text: &[u8],
) -> Result<(), CaseFault> {
    let circuit = Whole {
        it: circuit(alloc, text)?,
    };
    for table in circuit.it.tables.as_slice() {
        put_of_table(alloc, out, case, table)?;
    }
    Ok(())
}

/// Appends the answer about a table whose inputs get the names of a word.
fn put_of_table(
    alloc: Global,
    out: &mut Vec<u8>,
    case: &Case<'_>,
    table: &Table,
) -> Result<(), CaseFault> {
    // Wrapped in a `Whole`, so that dropping it is one call.
    let mut renamed = Whole {
        it: table.copy(alloc)?,
    };
    renamed.it.inputs = names(alloc, case.word(2))?;
    match case.word(1) {
        "merge_repeated_inputs" => put_table(
            alloc,
            out,
            &Whole {
                it: merge_repeated_inputs(alloc, renamed.into_it())?,
            }
            .it,
        ),
        "tidied_table" => put_table(
            alloc,
            out,
            &Whole {
                it: tidied_table(alloc, renamed.into_it())?,
            }
            .it,
        ),
        "rows_over" => put_value(
            alloc,
            out,
            &rows_over(alloc, &[true], table.rows.as_slice())?,
        ),
        "is_tidy_table" => put_value(alloc, out, &is_tidy_table(alloc, &renamed.it)?),
        _ => Err(CaseFault::Bad),
    }
}

/// Appends whether a signal is read, how many readers it has, and which. Reader 0 read the names of
/// a word and then those of the third, reader 1 those of the second.
pub fn put_readers(alloc: Global, out: &mut Vec<u8>, case: &Case<'_>) -> Result<(), CaseFault> {
    let mut readers = Fanouts::of_none(alloc);
    tell_readers(alloc, &mut readers, case)?;
    let name = name_of(alloc, case.word(4).as_bytes())?;
    put_value(alloc, out, &readers.has_readers(&name))?;
    put_value(alloc, out, &readers.count(&name))?;
    put_value(alloc, out, &readers.places(alloc, &name)?)
}

/// Records who reads what.
fn tell_readers(alloc: Global, readers: &mut Fanouts, case: &Case<'_>) -> Result<(), CaseFault> {
    let before = names(alloc, case.word(1))?;
    readers.add(alloc, 0, before.as_slice())?;
    readers.add(alloc, 1, names(alloc, case.word(2))?.as_slice())?;
    let now = names(alloc, case.word(3))?;
    readers.change(alloc, 0, before.as_slice(), now.as_slice())?;
    Ok(())
}

/// Appends the circuit of a text in which two signals are exchanged, the first complemented, the
/// first table replaced by the constant 1, and the constant 0 added.
pub fn put_aliases(
    alloc: Global,
    out: &mut Vec<u8>,
    case: &Case<'_>,
    text: &[u8],
) -> Result<(), CaseFault> {
    let one = name_of(alloc, case.word(1).as_bytes())?;
    let other = name_of(alloc, case.word(2).as_bytes())?;
    let mut aliased = Whole {
        it: AliasedTables::from_circuit(alloc, circuit(alloc, text)?)?,
    };
    exchange(alloc, out, &mut aliased.it, &one, &other)?;
    put_circuit(
        alloc,
        out,
        &Whole {
            it: aliased.into_it().into_circuit(alloc)?,
        }
        .it,
    )
}

/// Exchanges two signals; appends who reads the first one then, and the first table after that
/// change.
fn exchange(
    alloc: Global,
    out: &mut Vec<u8>,
    aliased: &mut AliasedTables,
    one: &Name,
    other: &Name,
) -> Result<(), CaseFault> {
    if *one == *other {
        return Err(CaseFault::Bad);
    }
    aliased.exchange_aliases(alloc, one, other, true)?;
    put_value(alloc, out, &aliased.places(alloc, one)?)?;
    change_first(alloc, aliased, one)?;
    match &aliased.table(alloc, 0)? {
        None => put_text(out, b"no table"),
        Some(table) => put_table(alloc, out, table),
    }
}

/// Replaces the first table by the constant 1, and adds the constant 0.
fn change_first(alloc: Global, aliased: &mut AliasedTables, name: &Name) -> Result<(), CaseFault> {
    if aliased.len() > 0 {
        let constant = constant_table(alloc, name.copy(alloc)?, true)?;
        aliased.set(alloc, 0, constant)?;
    }
    aliased.add_constant(alloc, name_of(alloc, b"l")?, false)?;
    Ok(())
}
