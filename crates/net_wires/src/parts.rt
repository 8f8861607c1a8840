//! The tables and latches of a circuit that are kept: those whose signals are in a set.
//!
//! `with_parts` builds the new circuit: names, ports, clocks and the don't-care part are copied,
//! and the timing is removed with the last latch. Together these functions give `with_kept` of
//! circuit_laws (De Micheli, "Synthesis and Optimization of Digital Circuits", chapter 8, sweep).

ghost use Rattle.std.specs.Prelude.{◌≡◌, ◌&&◌, List, [], ◌∷◌, ◌++◌, if◌then◌else◌, IfOk, OnOk};
ghost use Rattle.std.specs.List.{list_all};
ghost use Rattle.circuit_model.specs.Names.{has};
ghost use Rattle.circuit_model.specs.declared.circuit.Table.{Table};
ghost use Rattle.circuit_model.specs.declared.circuit.Latch.{Latch};
ghost use Rattle.circuit_laws.specs.Edits.{tables_kept, latches_kept, timing_with};

use crate::leaves::is_among;
use circuit_model::{Circuit, Latch, Latches, Name, Table, Tables, Timing, timing_copied};
use indexmap::IndexSet;
use sis_base::{Copied, Sequence};
use std::alloc::{AllocError, Global};

// Appends a copy of an item, if it is kept.
fn push_kept<T: Copied + Drop>(
    alloc: Global,
    made: &mut Vec<T>,
    is_kept: bool,
    item: &T,
) -> Result<(), AllocError>
    ensures { OnOk result (made.new.items ≡ made.old.items ++
        (if is_kept then item.now ∷ [] else [])) }
{
    if is_kept {
        made.push(item.copy(alloc)?)?;
    }
    Ok(())
}

// Copies the tables whose signals are in the set.
#[tactic(auto, using(crate::proofs::Kept::filter_more), unfolding(circuit_laws::specs::Edits::tables_kept))]
pub(crate) fn tables_among(
    alloc: Global,
    tables: &[Table],
    signals: &IndexSet<Name>,
) -> Result<Tables, AllocError>
    ensures { IfOk result (λ made. made ≡ tables_kept (has signals.now.keys) tables.now) }
{
    let mut made = Vec::new(alloc);
    for table in tables {
        push_kept(alloc, &mut made, is_among(signals, &table.output), table)?;
    }
    Ok(Sequence::from_vec(made))
}

// Copies the latches whose signals are in the set.
#[tactic(auto, using(crate::proofs::Kept::filter_more), unfolding(circuit_laws::specs::Edits::latches_kept))]
pub(crate) fn latches_among(
    alloc: Global,
    latches: &[Latch],
    signals: &IndexSet<Name>,
) -> Result<Latches, AllocError>
    ensures { IfOk result (λ made. made ≡ latches_kept (has signals.now.keys) latches.now) }
{
    let mut made = Vec::new(alloc);
    for latch in latches {
        push_kept(alloc, &mut made, is_among(signals, &latch.output), latch)?;
    }
    Ok(Sequence::from_vec(made))
}

// Whether the signals of all tables are in the set.
fn are_tables_among(tables: &[Table], signals: &IndexSet<Name>) -> bool
    ensures { result ≡ list_all (λ (table : Table). has signals.now.keys table.output) tables.now }
{
    tables.iter().all(|table| is_among(signals, &table.output))
}

// Whether the signals of all latches are in the set.
fn are_latches_among(latches: &[Latch], signals: &IndexSet<Name>) -> bool
    ensures { result ≡ list_all (λ (latch : Latch). has signals.now.keys latch.output)
        latches.now }
{
    latches.iter().all(|latch| is_among(signals, &latch.output))
}

// Whether the signals of all tables and latches are in the set.
pub(crate) fn are_all_among(circuit: &Circuit, signals: &IndexSet<Name>) -> bool
    ensures { result ≡ (list_all (λ (table : Table). has signals.now.keys table.output)
        circuit.now.tables && list_all (λ (latch : Latch). has signals.now.keys latch.output)
        circuit.now.latches) }
{
    let are_tables = are_tables_among(circuit.tables.as_slice(), signals);
    let are_latches = are_latches_among(circuit.latches.as_slice(), signals);
    are_tables && are_latches
}

// A copy of the timing, if there is a latch.
fn timing_for(
    alloc: Global,
    latches: &[Latch],
    timing: &Option<Timing>,
) -> Result<Option<Timing>, AllocError>
    ensures { IfOk result (λ made. made ≡ timing_with latches.now timing.now) }
{
    match latches.first() {
        None => Ok(None),
        Some(_) => timing_copied(alloc, timing),
    }
}

// The circuit with other tables and latches; the timing is removed with the last latch.
pub(crate) fn with_parts(
    alloc: Global,
    circuit: &Circuit,
    tables: Tables,
    latches: Latches,
) -> Result<Circuit, AllocError>
    ensures { IfOk result (λ made. made ≡ record circuit.now
        { tables = tables; latches = latches; timing = timing_with latches circuit.now.timing }) }
{
    let timing = timing_for(alloc, latches.as_slice(), &circuit.timing)?;
    Ok(Circuit {
        name: circuit.name.copy(alloc)?,
        inputs: circuit.inputs.copy(alloc)?,
        outputs: circuit.outputs.copy(alloc)?,
        clocks: circuit.clocks.copy(alloc)?,
        timing,
        latches,
        tables,
        dont_care: circuit.dont_care.copy(alloc)?,
    })
}
