//! The indices of the signals that a simulation reads, computed once from their names.
//!
//! Signals are numbered: inputs, latch outputs and table outputs; in the don't-care part its own
//! tables come first (`specs/Levels.antt`). An index is that of the first signal of the name, and
//! none if no signal has it. `wire` returns exactly `wiring_of` the circuit: the indices that
//! tables, don't-care tables, outputs and latches read, each in the order of its list.

ghost use Rattle.std.specs.Prelude.{◌≡◌, ◌++◌, map, bytes_eq, option_copied, IfOk, OnOk};
ghost use Rattle.indexmap.specs.IndexMap.{get};
ghost use Rattle.circuit_model.specs.Soundness.{leaf_names, outputs_of};
ghost use Rattle.circuit_model.specs.Runs.{latch_outputs};
ghost use Rattle.circuit_model.specs.Levels.{place_in, reads_in, output_places, latch_places, signal_names, dont_care_names, wiring_of};

use crate::circuit::{Circuit, Latch, Table};
use indexmap::IndexMap;
use sis_base::{Copied, Name, Sequence};
use std::alloc::{AllocError, Global};

/// Indices of signals in a list of their bits; none if no signal has the name.
pub type Places = Sequence<Option<usize>>;

/// The indices of an output among the signals and among the don't-care tables.
#[derive(Clone, Copy)]
pub struct OutputPlaces {
    pub signal: Option<usize>,
    pub dont_care: Option<usize>,
}

/// The indices of what the tables, the don't-care tables, the outputs and the latches of a circuit
/// read.
#[derive(Drop)]
pub struct Wiring {
    pub tables: Sequence<Places>,
    pub dont_care: Sequence<Places>,
    pub outputs: Sequence<OutputPlaces>,
    pub latches: Places,
}

/// Appends copies of names.
fn add_names(alloc: Global, names: &mut Vec<Name>, more: &[Name]) -> Result<(), AllocError>
    ensures { OnOk result (names.new.items ≡ names.old.items ++ more.now) }
{
    for name in more {
        names.push(name.copy(alloc)?)?;
    }
    Ok(())
}

/// Puts the latches' outputs behind the last name.
pub fn add_latches(
    alloc: Global,
    names: &mut Vec<Name>,
    latches: &[Latch],
) -> Result<(), AllocError>
    ensures { OnOk result (names.new.items ≡ names.old.items ++ map
        (λ latch. latch.output) latches.now) }
{
    for latch in latches {
        names.push(latch.output.copy(alloc)?)?;
    }
    Ok(())
}

/// Appends the tables' outputs.
fn add_tables(alloc: Global, names: &mut Vec<Name>, tables: &[Table]) -> Result<(), AllocError>
    ensures { OnOk result (names.new.items ≡ names.old.items ++ outputs_of tables.now) }
{
    for table in tables {
        names.push(table.output.copy(alloc)?)?;
    }
    Ok(())
}

/// Appends the leaves.
#[tactic(auto, using(std::proofs::lemmas::Grind::common_steps))]
fn add_leaves(alloc: Global, names: &mut Vec<Name>, circuit: &Circuit) -> Result<(), AllocError>
    ensures { OnOk result (names.new.items ≡ names.old.items ++ leaf_names circuit.now) }
{
    add_names(alloc, names, circuit.inputs.as_slice())?;
    add_latches(alloc, names, circuit.latches.as_slice())?;
    Ok(())
}

/// The names of all signals.
#[tactic(auto, unfolding(crate::specs::Levels::signal_names))]
fn signal_names(alloc: Global, circuit: &Circuit) -> Result<Vec<Name>, AllocError>
    ensures { IfOk result (λ names. names.items ≡ signal_names circuit.now) }
{
    let mut names = Vec::new(alloc);
    add_leaves(alloc, &mut names, circuit)?;
    add_tables(alloc, &mut names, circuit.tables.as_slice())?;
    Ok(names)
}

/// The names of all signals of the don't-care part.
#[tactic(auto, unfolding(crate::specs::Levels::dont_care_names))]
fn dont_care_names(alloc: Global, circuit: &Circuit) -> Result<Vec<Name>, AllocError>
    ensures { IfOk result (λ names. names.items ≡ dont_care_names circuit.now) }
{
    let mut names = Vec::new(alloc);
    add_tables(alloc, &mut names, circuit.dont_care.as_slice())?;
    add_leaves(alloc, &mut names, circuit)?;
    Ok(names)
}

/// The names of the don't-care tables.
fn dont_care_outputs(alloc: Global, circuit: &Circuit) -> Result<Vec<Name>, AllocError>
    ensures { IfOk result (λ names. names.items ≡ outputs_of circuit.now.dont_care) }
{
    let mut names = Vec::new(alloc);
    add_tables(alloc, &mut names, circuit.dont_care.as_slice())?;
    Ok(names)
}

/// The index of the first of each name.
fn index_of(alloc: Global, names: Vec<Name>) -> Result<IndexMap<Name, usize>, AllocError>
    ensures { IfOk result (λ index. get bytes_eq index ≡ place_in names.items) }
{
    let mut left = names;
    let mut index = IndexMap::new(alloc);
    while let Some(name) = left.pop() {
        index.insert(name, left.len())?;
    }
    Ok(index)
}

/// The index of a name.
fn place_of(index: &IndexMap<Name, usize>, name: &Name) -> Option<usize>
    ensures { result ≡ get bytes_eq index.now name.now }
{
    index.get(name).copied()
}

/// The indices of names, in order.
fn places_of(
    alloc: Global,
    index: &IndexMap<Name, usize>,
    names: &[Name],
) -> Result<Places, AllocError>
    ensures { IfOk result (λ places. places ≡ map (get bytes_eq index.now) names.now) }
{
    let mut places = Sequence::new(alloc);
    for name in names {
        places.push(place_of(index, name))?;
    }
    Ok(places)
}

/// The indices of the inputs of each table.
fn table_places(
    alloc: Global,
    index: &IndexMap<Name, usize>,
    tables: &[Table],
) -> Result<Sequence<Places>, AllocError>
    ensures { IfOk result (λ reads. reads ≡ reads_in (get bytes_eq index.now) tables.now) }
{
    let mut reads = Sequence::new(alloc);
    for table in tables {
        reads.push(places_of(alloc, index, table.inputs.as_slice())?)?;
    }
    Ok(reads)
}

/// The indices of outputs among the signals and the don't-care tables.
fn shown_places(
    alloc: Global,
    signals: &IndexMap<Name, usize>,
    dont_cares: &IndexMap<Name, usize>,
    outputs: &[Name],
) -> Result<Sequence<OutputPlaces>, AllocError>
    ensures { IfOk result (λ places. places ≡ output_places (get bytes_eq signals.now)
        (get bytes_eq dont_cares.now) outputs.now) }
{
    let mut places = Sequence::new(alloc);
    for name in outputs {
        places.push(OutputPlaces {
            signal: place_of(signals, name),
            dont_care: place_of(dont_cares, name),
        })?;
    }
    Ok(places)
}

/// The indices of the inputs of the latches.
fn latch_places(
    alloc: Global,
    index: &IndexMap<Name, usize>,
    latches: &[Latch],
) -> Result<Places, AllocError>
    ensures { IfOk result (λ places. places ≡ latch_places (get bytes_eq index.now) latches.now) }
{
    let mut places = Sequence::new(alloc);
    for latch in latches {
        places.push(place_of(index, &latch.input))?;
    }
    Ok(places)
}

/// The indices of the inputs of the don't-care tables.
fn dont_care_places(alloc: Global, circuit: &Circuit) -> Result<Sequence<Places>, AllocError>
    ensures { IfOk result (λ reads. reads ≡ reads_in
        (place_in (dont_care_names circuit.now)) circuit.now.dont_care) }
{
    let index = index_of(alloc, dont_care_names(alloc, circuit)?)?;
    let reads = table_places(alloc, &index, circuit.dont_care.as_slice())?;
    Ok(reads)
}

/// The indices of the circuit's outputs among the signals and the don't-care tables.
fn circuit_shown(
    alloc: Global,
    signals: &IndexMap<Name, usize>,
    circuit: &Circuit,
) -> Result<Sequence<OutputPlaces>, AllocError>
    ensures { IfOk result (λ places. places ≡ output_places (get bytes_eq signals.now)
        (place_in (outputs_of circuit.now.dont_care)) circuit.now.outputs) }
{
    let dont_cares = index_of(alloc, dont_care_outputs(alloc, circuit)?)?;
    let places = shown_places(alloc, signals, &dont_cares, circuit.outputs.as_slice())?;
    Ok(places)
}

/// All indices at which a simulation reads, from the signals' indices.
#[tactic(auto, unfolding(crate::specs::Levels::wiring_of))]
fn wire_by(
    alloc: Global,
    signals: &IndexMap<Name, usize>,
    circuit: &Circuit,
) -> Result<Wiring, AllocError>
    requires { get bytes_eq signals.now ≡ place_in (signal_names circuit.now) }
    ensures { IfOk result (λ wiring. wiring ≡ wiring_of circuit.now) }
{
    Ok(Wiring {
        tables: table_places(alloc, signals, circuit.tables.as_slice())?,
        dont_care: dont_care_places(alloc, circuit)?,
        outputs: circuit_shown(alloc, signals, circuit)?,
        latches: latch_places(alloc, signals, circuit.latches.as_slice())?,
    })
}

/// All indices at which a simulation of a circuit reads.
pub fn wire(alloc: Global, circuit: &Circuit) -> Result<Wiring, AllocError>
    ensures { IfOk result (λ wiring. wiring ≡ wiring_of circuit.now) }
{
    let signals = index_of(alloc, signal_names(alloc, circuit)?)?;
    let wiring = wire_by(alloc, &signals, circuit)?;
    Ok(wiring)
}
