//! The fifth rule of sweep: a latch that always holds one bit becomes the constant table of its
//! name, which comes last.
//!
//! Source: De Micheli, "Synthesis and Optimization of Digital Circuits", chapter 9 (removal of
//! registers that hold a constant); the SIS manual (UCB/ERL M92/41), `sweep`. `fix` makes the
//! change and keeps all that is maintained beside the circuit right. `enqueue_all` adds to the
//! worklist the latches whose input has become a written constant, so that every latch to which the
//! rule applies is in it.

ghost use Rattle.std.specs.Prelude.{◌≡◌, ℕ, Bool, true, Some, None, is_some, List, length, slice_get, slice_set, bytes_eq, OnOk};
ghost use Rattle.std.specs.Ordering.{nat_cmp};
ghost use Rattle.std.specs.BTreeSet.{contains};
ghost use Rattle.indexmap.specs.IndexMap.{get};
ghost use Rattle.circuit_model.specs.declared.circuit.Latch.{Latch};
ghost use Rattle.circuit_model.specs.declared.circuit.Table.{Table};
ghost use Rattle.circuit_laws.specs.Edits.{with_added, constant_table};
ghost use Rattle.circuit_model.specs.Soundness.{IsSound};
ghost use Rattle.net_wires.specs.Points.{written_bit};
ghost use Rattle.net_sweep.specs.Settled.{listed, is_candidate, AreCandidates};
ghost use Rattle.net_readers.specs.Fanouts.{is_in};
ghost use Rattle.net_sweep.specs.Latches.{left_at, with_latches, IsReady};

use crate::latches::TrackedLatches;
use crate::queues::{Candidates, add_candidate, put_place};
use circuit_model::{Latch, Name};
use indexmap::IndexMap;
use net_readers::Places;
use net_wires::{AliasedTables, note_place};
use sis_base::Copied;
use std::alloc::{AllocError, Global};
use std::collections::BTreeSet;
use std::mem;

// Removes and returns the latch of a slot, which must have one.
fn take_latch(slots: &mut Vec<Option<Latch>>, place: usize) -> Latch
    requires { (latch : Latch) × (slice_get slots.old.items place ≡ Some (Some latch)) }
    ensures taken { slice_get slots.old.items place ≡ Some (Some result) }
    ensures left { slots.new.items ≡ slice_set slots.old.items place None }
{
    match mem::replace(&mut slots[place], None) {
        Some(latch) => latch,
        None => unreachable!(),
    }
}

// Adds indices to the worklist.
fn put_places(set: &mut BTreeSet<usize>, places: &[usize]) -> Result<(), AllocError>
    ensures put { OnOk result ((place : ℕ) → is_in places.now place ≡ true
        → contains nat_cmp set.new place ≡ true) }
    ensures kept { OnOk result ((place : ℕ) → contains nat_cmp set.old place ≡ true
        → contains nat_cmp set.new place ≡ true) }
{
    for place in places {
        put_place(set, *place)?;
    }
    Ok(())
}

// Adds the latches that read a signal to the worklist.
pub(crate) fn enqueue(
    fanout: &IndexMap<Name, Places>,
    waiting: &mut BTreeSet<usize>,
    name: &Name,
) -> Result<(), AllocError>
    ensures put { OnOk result ((place : ℕ) → is_in (listed (get bytes_eq fanout.now name.now)) place
        ≡ true → contains nat_cmp waiting.new place ≡ true) }
    ensures kept { OnOk result ((place : ℕ) → contains nat_cmp waiting.old place ≡ true
        → contains nat_cmp waiting.new place ≡ true) }
{
    match fanout.get(name) {
        None => Ok(()),
        Some(places) => put_places(waiting, places.as_slice()),
    }
}

// Adds the latches that read the table at an index to the worklist, if the table is written as a
// constant.
fn enqueue_at(
    alloc: Global,
    aliased: &AliasedTables,
    place: usize,
    fanout: &IndexMap<Name, Places>,
    waiting: &mut BTreeSet<usize>,
) -> Result<(), AllocError>
    ensures put { OnOk result ((table : Table) (latch : ℕ) → slice_get aliased.now.tables place
        ≡ Some table → is_some (written_bit table) ≡ true → is_in
        (listed (get bytes_eq fanout.now table.output)) latch ≡ true
        → contains nat_cmp waiting.new latch ≡ true) }
    ensures kept { OnOk result ((latch : ℕ) → contains nat_cmp waiting.old latch ≡ true
        → contains nat_cmp waiting.new latch ≡ true) }
{
    if aliased.bit(place).is_none() {
        return Ok(());
    }
    match aliased.table(alloc, place)? {
        None => Ok(()),
        Some(table) => enqueue(fanout, waiting, &table.output),
    }
}

// Adds the latches that read the tables at some indices to the worklist, if these are written as
// constants.
pub(crate) fn enqueue_all(
    alloc: Global,
    aliased: &AliasedTables,
    places: &[usize],
    fanout: &IndexMap<Name, Places>,
    waiting: &mut BTreeSet<usize>,
) -> Result<(), AllocError>
    ensures put { OnOk result ((place : ℕ) (table : Table) (latch : ℕ) → is_in places.now place
        ≡ true → slice_get aliased.now.tables place ≡ Some table → is_some (written_bit table)
        ≡ true → is_in (listed (get bytes_eq fanout.now table.output)) latch ≡ true
        → contains nat_cmp waiting.new latch ≡ true) }
    ensures kept { OnOk result ((latch : ℕ) → contains nat_cmp waiting.old latch ≡ true
        → contains nat_cmp waiting.new latch ≡ true) }
{
    for place in places {
        enqueue_at(alloc, aliased, *place, fanout, waiting)?;
    }
    Ok(())
}

// Replaces the latch at an index by the constant table of its name, which comes last.
pub(crate) fn fix(
    alloc: Global,
    place: usize,
    bit: bool,
    aliased: &mut AliasedTables,
    candidates: &mut Candidates,
    tracked: &mut TrackedLatches,
) -> Result<(), AllocError>
    requires sound { IsSound (with_latches aliased.old (left_at tracked.old.slots.items)) }
    requires there { (latch : Latch) × (slice_get tracked.old.slots.items place ≡ Some
        (Some latch)) }
    requires ready { IsReady tracked.old aliased.old }
    requires candidates { AreCandidates (is_candidate candidates.old) aliased.old.tables }
    ensures fixed { OnOk result ((latch : Latch) → slice_get tracked.old.slots.items place ≡ Some
        (Some latch) → aliased.new ≡ with_added aliased.old (constant_table latch.output bit)) }
    ensures slots { OnOk result (tracked.new.slots.items
        ≡ slice_set tracked.old.slots.items place None) }
    ensures ready { OnOk result (IsReady tracked.new aliased.new) }
    ensures candidates { OnOk result (AreCandidates
        (is_candidate candidates.new) aliased.new.tables) }
{
    let name = take_latch(&mut tracked.slots, place).output;
    let last = aliased.len();
    aliased.add_constant(alloc, name.copy(alloc)?, bit)?;
    add_candidate(candidates, last)?;
    note_place(&mut tracked.table_places, name.copy(alloc)?, last)?;
    enqueue(&tracked.fanout, &mut tracked.waiting, &name)
}
