//! Latches copied out of a circuit, each to a slot of its own, and the remaining ones put back.
//!
//! While the latches are in slots the circuit's own list is ignored. `tracked_latches` also builds
//! what `latches` and `fixing` rely on: the latches that read each signal, the index of each table,
//! and the leaves that the don't-care part reads. `with_tracked_latches` drops the timing if no
//! latch is left.

ghost use Rattle.std.specs.Prelude.{◌≡◌, ℕ, ◌<◌, true, Some, is_some, List, [], ◌∷◌, ◌++◌, length, map, slice_get, bytes_eq, IfOk, OnOk};
ghost use Rattle.indexmap.specs.IndexMap.{get};
ghost use Rattle.circuit_model.specs.Names.{has, all_different};
ghost use Rattle.circuit_model.specs.Soundness.{outputs_of};
ghost use Rattle.circuit_model.specs.declared.circuit.Latch.{Latch};
ghost use Rattle.circuit_laws.specs.Edits.{timing_with};
ghost use Rattle.net_sweep.specs.Settled.{listed};
ghost use Rattle.net_readers.specs.Fanouts.{is_in};
ghost use Rattle.net_sweep.specs.Latches.{left_at, with_latches, IsPlaced, IsReady};

use crate::latches::TrackedLatches;
use crate::queues::{add_place, all_places, put_list};
use circuit_model::{Circuit, Latch, Latches, Name, Table, Timing};
use indexmap::IndexMap;
use net_readers::Places;
use net_wires::{leaves_read, note_place};
use sis_base::{Copied, Sequence};
use std::alloc::{AllocError, Global};

// A slot for each latch.
fn slots_of(alloc: Global, latches: &[Latch]) -> Result<Vec<Option<Latch>>, AllocError>
    ensures { IfOk result (λ slots. slots.items ≡ map Some latches.now) }
{
    let mut slots = Vec::with_capacity(alloc, latches.len())?;
    for latch in latches {
        slots.push(Some(latch.copy(alloc)?))?;
    }
    Ok(slots)
}

// The indices of the latches that read each signal at the start.
fn latch_fanout(alloc: Global, latches: &[Latch]) -> Result<IndexMap<Name, Places>, AllocError>
    ensures { IfOk result (λ lists. (place : ℕ) (latch : Latch) → slice_get latches.now place
        ≡ Some latch → is_in (listed (get bytes_eq lists latch.input)) place ≡ true) }
{
    let mut lists = IndexMap::new(alloc);
    for (place, latch) in latches.iter().enumerate() {
        add_place(alloc, &mut lists, &latch.input, place)?;
    }
    Ok(lists)
}

// Gives an output a list, an empty one if no latch reads it.
fn note_output(
    alloc: Global,
    lists: &mut IndexMap<Name, Places>,
    output: &Name,
) -> Result<(), AllocError>
    ensures noted { OnOk result (is_some (get bytes_eq lists.new output.now) ≡ true) }
    ensures listed { OnOk result ((name : List ℕ) → listed (get bytes_eq lists.new name) ≡ listed
        (get bytes_eq lists.old name)) }
    ensures kept { OnOk result ((name : List ℕ) → is_some (get bytes_eq lists.old name) ≡ true
        → is_some (get bytes_eq lists.new name) ≡ true) }
{
    if lists.get(output).is_some() {
        return Ok(());
    }
    put_list(lists, output.copy(alloc)?, Sequence::new(alloc))
}

// The indices of the latches that read each signal; each output has a list.
fn fanout_of(
    alloc: Global,
    latches: &[Latch],
    outputs: &[Name],
) -> Result<IndexMap<Name, Places>, AllocError>
    ensures latches { IfOk result (λ lists. (place : ℕ) (latch : Latch)
        → slice_get latches.now place ≡ Some latch → is_in
        (listed (get bytes_eq lists latch.input)) place ≡ true) }
    ensures outputs { IfOk result (λ lists. (name : List ℕ) → has outputs.now name ≡ true → is_some
        (get bytes_eq lists name) ≡ true) }
{
    let mut lists = latch_fanout(alloc, latches)?;
    for output in outputs {
        note_output(alloc, &mut lists, output)?;
    }
    Ok(lists)
}

// The index of the table of each signal.
fn table_places(alloc: Global, tables: &[Table]) -> Result<IndexMap<Name, usize>, AllocError>
    requires { all_different (outputs_of tables.now) ≡ true }
    ensures { IfOk result (λ places. IsPlaced (get bytes_eq places) (outputs_of tables.now)) }
{
    let mut places = IndexMap::new(alloc);
    for (place, table) in tables.iter().enumerate() {
        note_place(&mut places, table.output.copy(alloc)?, place)?;
    }
    Ok(places)
}

// The latches of a circuit, each in its slot, in order.
pub(crate) fn tracked_latches(
    alloc: Global,
    circuit: &Circuit,
) -> Result<TrackedLatches, AllocError>
    requires { all_different (outputs_of circuit.now.tables) ≡ true }
    ensures ready { IfOk result (λ tracked. IsReady tracked circuit.now) }
    ensures left { IfOk result (λ tracked. left_at tracked.slots.items ≡ circuit.now.latches) }
{
    let latches = circuit.latches.as_slice();
    let slots = slots_of(alloc, latches)?;
    let fanout = fanout_of(alloc, latches, circuit.outputs.as_slice())?;
    let tables = table_places(alloc, circuit.tables.as_slice())?;
    let read = leaves_read(alloc, circuit)?;
    let waiting = all_places(alloc, latches.len())?;
    Ok(TrackedLatches {
        slots,
        fanout,
        table_places: tables,
        leaves_read: read,
        waiting,
    })
}

// Appends a copy of the latch of a slot, if it has one.
#[tactic(auto, unfolding(crate::specs::Latches::left_at))]
fn push_left(alloc: Global, made: &mut Vec<Latch>, slot: &Option<Latch>) -> Result<(), AllocError>
    ensures { OnOk result (made.new.items ≡ made.old.items ++ left_at (slot.now ∷ [])) }
{
    if let Some(latch) = slot {
        made.push(latch.copy(alloc)?)?;
    }
    Ok(())
}

// The remaining latches.
fn latches_left(alloc: Global, slots: &[Option<Latch>]) -> Result<Latches, AllocError>
    ensures { IfOk result (λ latches. latches ≡ left_at slots.now) }
{
    let mut made = Vec::new(alloc);
    for slot in slots {
        push_left(alloc, &mut made, slot)?;
    }
    Ok(Sequence::from_vec(made))
}

// The timing, if there is a latch.
fn timing_for(latches: &[Latch], timing: Option<Timing>) -> Option<Timing>
    ensures { result ≡ timing_with latches.now timing }
{
    match latches.first() {
        None => None,
        Some(_) => timing,
    }
}

// The circuit with the remaining latches.
pub(crate) fn with_tracked_latches(
    alloc: Global,
    circuit: Circuit,
    tracked: &TrackedLatches,
) -> Result<Circuit, AllocError>
    ensures { IfOk result (λ made. made ≡ with_latches circuit (left_at tracked.now.slots.items)) }
{
    let latches = latches_left(alloc, tracked.slots.as_slice())?;
    let timing = timing_for(latches.as_slice(), circuit.timing);
    Ok(Circuit {
        name: circuit.name,
        inputs: circuit.inputs,
        outputs: circuit.outputs,
        clocks: circuit.clocks,
        timing,
        latches,
        tables: circuit.tables,
        dont_care: circuit.dont_care,
    })
}
