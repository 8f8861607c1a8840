//! Latches in slots that stay, and which of them always holds one bit.
//!
//! Source: De Micheli, "Synthesis and Optimization of Digital Circuits", chapter 9 (removal of
//! registers that hold a constant); the SIS manual (UCB/ERL M92/41), `sweep`. Invariant: every
//! latch that always holds one bit is in the worklist, so `next_fixed` finds exactly the first one.

ghost use Rattle.std.specs.Prelude.{◌≡◌, ℕ, true, None, List, slice_get, bytes_eq, IfOk, OnOk};
ghost use Rattle.std.specs.Option.{option_map_or};
ghost use Rattle.std.specs.Ordering.{nat_cmp};
ghost use Rattle.std.specs.BTreeSet.{contains};
ghost use Rattle.indexmap.specs.IndexMap.{get};
ghost use Rattle.circuit_model.specs.Names.{has, all_different};
ghost use Rattle.circuit_model.specs.Soundness.{outputs_of};
ghost use Rattle.circuit_model.specs.Values.{driver};
ghost use Rattle.net_wires.specs.Places.{LeadsToTables};
ghost use Rattle.net_wires.specs.Points.{written_bit};
ghost use Rattle.net_wires.specs.Needed.{dont_care_reads};
ghost use Rattle.net_wires.specs.Rules.{starts_at, fixed_bit};
ghost use Rattle.net_sweep.specs.Settled.{AreWaiting};
ghost use Rattle.net_sweep.specs.Latches.{slot_bit, is_fixed, IsFirstFixed, IsReady};

use crate::queues::{pop_least, put_place};
use circuit_model::{Latch, Name};
use indexmap::{IndexMap, IndexSet};
use net_readers::Places;
use net_wires::{AliasedTables, is_among};
use std::alloc::AllocError;
use std::collections::BTreeSet;

/// Latches in the slots in which they started, and what is maintained to find those that always
/// hold one bit.
pub(crate) struct TrackedLatches {
    // the remaining latches, each in its slot
    pub(crate) slots: Vec<Option<Latch>>,
    // the indices of the latches that read each signal, removed ones included; each output has a
    // list, which may be empty
    pub(crate) fanout: IndexMap<Name, Places>,
    // the index of the table of each signal
    pub(crate) table_places: IndexMap<Name, usize>,
    // the leaves that the don't-care part reads
    pub(crate) leaves_read: IndexSet<Name>,
    // the worklist: the indices of the latches to be tried
    pub(crate) waiting: BTreeSet<usize>,
}

// By hand, so that the function that owns the latches beside aliased tables and candidates drops
// them in one call.
impl Drop for TrackedLatches {
    fn drop(self) {
        let TrackedLatches {
            slots: _slots,
            fanout: _fanout,
            table_places: _table_places,
            leaves_read: _leaves_read,
            waiting: _waiting,
        } = self;
    }
}

// The constant as which the table of a signal is written.
fn driven_bit(aliased: &AliasedTables, places: &IndexMap<Name, usize>, name: &Name) -> Option<bool>
    requires { LeadsToTables (get bytes_eq places.now) aliased.now.tables }
    ensures { result ≡ option_map_or written_bit (driver aliased.now.tables name.now) None }
{
    match places.get(name) {
        None => None,
        Some(place) => aliased.bit(*place),
    }
}

// Whether a latch of this initial value may be taken to start at a bit.
fn starts_at(init: u8, bit: bool) -> bool
    ensures { result ≡ starts_at init bit }
{
    if bit {
        return init == 1 || init == 2;
    }
    init == 0 || init == 2
}

// The bit that a latch always holds, if there is one.
#[tactic(auto, unfolding(net_wires::specs::Rules::fixed_bit))]
fn fixed_bit(
    aliased: &AliasedTables,
    places: &IndexMap<Name, usize>,
    read: &IndexSet<Name>,
    latch: &Latch,
) -> Option<bool>
    requires placed { LeadsToTables (get bytes_eq places.now) aliased.now.tables }
    requires read { (name : List ℕ) → has read.now.keys name ≡ dont_care_reads aliased.now name }
    ensures { result ≡ fixed_bit aliased.now latch.now }
{
    let is_read_by_dont_care = is_among(read, &latch.output);
    match driven_bit(aliased, places, &latch.input) {
        None => None,
        Some(bit) => {
            if starts_at(latch.init, bit) && !is_read_by_dont_care {
                Some(bit)
            } else {
                None
            }
        }
    }
}

// The bit that the latch of a slot always holds, if there is one.
fn slot_bit(
    aliased: &AliasedTables,
    places: &IndexMap<Name, usize>,
    read: &IndexSet<Name>,
    slot: &Option<Latch>,
) -> Option<bool>
    requires placed { LeadsToTables (get bytes_eq places.now) aliased.now.tables }
    requires read { (name : List ℕ) → has read.now.keys name ≡ dont_care_reads aliased.now name }
    ensures { result ≡ slot_bit aliased.now slot.now }
{
    match slot {
        None => None,
        Some(latch) => fixed_bit(aliased, places, read, latch),
    }
}

// The bit that the latch at an index always holds, if there is one.
fn bit_at(
    aliased: &AliasedTables,
    places: &IndexMap<Name, usize>,
    read: &IndexSet<Name>,
    slots: &[Option<Latch>],
    place: usize,
) -> Option<bool>
    requires placed { LeadsToTables (get bytes_eq places.now) aliased.now.tables }
    requires read { (name : List ℕ) → has read.now.keys name ≡ dont_care_reads aliased.now name }
    ensures { result ≡ option_map_or (slot_bit aliased.now) (slice_get slots.now place) None }
{
    match slots.get(place) {
        None => None,
        Some(slot) => slot_bit(aliased, places, read, slot),
    }
}

// The index of the first latch that always holds one bit, with the bit; the index stays in the
// worklist.
fn first_fixed(
    aliased: &AliasedTables,
    places: &IndexMap<Name, usize>,
    read: &IndexSet<Name>,
    slots: &[Option<Latch>],
    waiting: &mut BTreeSet<usize>,
) -> Result<Option<(usize, bool)>, AllocError>
    requires placed { LeadsToTables (get bytes_eq places.now) aliased.now.tables }
    requires read { (name : List ℕ) → has read.now.keys name ≡ dont_care_reads aliased.now name }
    requires waiting { AreWaiting (is_fixed aliased.now) (contains nat_cmp waiting.old) slots.now }
    ensures first { IfOk result (λ first. IsFirstFixed aliased.now slots.now first) }
    ensures waiting { OnOk result (AreWaiting (is_fixed aliased.now)
        (contains nat_cmp waiting.new) slots.now) }
{
    while let Some(place) = pop_least(waiting) {
        if let Some(bit) = bit_at(aliased, places, read, slots, place) {
            put_place(waiting, place)?;
            return Ok(Some((place, bit)));
        }
    }
    Ok(None)
}

// The index of the first latch that always holds one bit, with the bit.
pub(crate) fn next_fixed(
    aliased: &AliasedTables,
    tracked: &mut TrackedLatches,
) -> Result<Option<(usize, bool)>, AllocError>
    requires differ { all_different (outputs_of aliased.now.tables) ≡ true }
    requires ready { IsReady tracked.old aliased.now }
    ensures first { IfOk result (λ first. IsFirstFixed aliased.now tracked.old.slots.items first) }
    ensures slots { OnOk result (tracked.new.slots.items ≡ tracked.old.slots.items) }
    ensures ready { OnOk result (IsReady tracked.new aliased.now) }
{
    first_fixed(
        aliased,
        &tracked.table_places,
        &tracked.leaves_read,
        tracked.slots.as_slice(),
        &mut tracked.waiting,
    )
}
