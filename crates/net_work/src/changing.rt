//! Changes of one slot, on borrowed parts of a working network.
//!
//! `change_at`, `remove_at` and `put_behind` update the slots, the index by name and the fanouts
//! and uses together; their clauses say exactly what each becomes. None of them owns a part of the
//! network; if one fails, the caller (`changes`) calls `clear`.

ghost use Rattle.std.specs.Prelude.{◌≡◌, ℕ, true, Option, Some, None, List, [], ◌∷◌, ◌++◌, length, slice_get, slice_set, bytes_eq, if◌then◌else◌, OnOk};
ghost use Rattle.indexmap.specs.IndexMap.{get};
ghost use Rattle.circuit_model.specs.Names.{all_different};
ghost use Rattle.net_core.specs.Tables.{named};
ghost use Rattle.net_core.specs.declared.places.Entry.{Entry};
ghost use Rattle.net_work.specs.Slots.{written_slots, AreLinked, AreOnce};

use crate::links::Links;
use circuit_model::Name;
use cube_cover::Row;
use indexmap::IndexMap;
use net_core::{CoverTable, Entry, entry_at, put_last, set_table, unplace};
use sis_base::Copied;
use std::alloc::{AllocError, Global};

// Replaces the table of a slot; the new one takes its name.
pub(crate) fn change_at<R: Row>(
    alloc: Global,
    slots: &mut Vec<Option<Entry<R>>>,
    links: &mut Links,
    place: usize,
    table: CoverTable<R>,
) -> Result<(), AllocError>
    requires there { (entry : Entry R) × (slice_get slots.old.items place ≡ Some (Some entry)) }
    requires known { AreOnce slots.old.items }
    requires linked { AreLinked links.old (written_slots slots.old.items) }
    requires once { all_different table.inputs ≡ true }
    ensures slots { OnOk result ((entry : Entry R) → slice_get slots.old.items place ≡ Some
        (Some entry) → slots.new.items ≡ slice_set slots.old.items place
        (Some (record { output = entry.output; table = table }))) }
    ensures links { OnOk result ((entry : Entry R) → slice_get slots.old.items place ≡ Some
        (Some entry) → AreLinked links.new (slice_set (written_slots slots.old.items) place
        (Some (named entry.output table)))) }
{
    let entry = entry_at(slots.as_slice(), place);
    links.change(alloc, place, &entry.table, &table)?;
    set_table(slots, place, table);
    Ok(())
}

// Removes the table of a slot and its name.
pub(crate) fn remove_at<R: Row>(
    alloc: Global,
    slots: &mut Vec<Option<Entry<R>>>,
    places: &mut IndexMap<Name, usize>,
    links: &mut Links,
    place: usize,
) -> Result<(), AllocError>
    requires there { (entry : Entry R) × (slice_get slots.old.items place ≡ Some (Some entry)) }
    requires known { AreOnce slots.old.items }
    requires linked { AreLinked links.old (written_slots slots.old.items) }
    ensures slots { OnOk result (slots.new.items ≡ slice_set slots.old.items place None) }
    ensures places { OnOk result ((entry : Entry R) → slice_get slots.old.items place ≡ Some
        (Some entry) → (other : List ℕ) → get bytes_eq places.new other
        ≡ (if bytes_eq entry.output other then None else get bytes_eq places.old other)) }
    ensures links { OnOk result (AreLinked links.new
        (slice_set (written_slots slots.old.items) place None)) }
{
    let entry = entry_at(slots.as_slice(), place);
    links.remove(alloc, place, &entry.table)?;
    unplace(places, &entry.output);
    slots[place] = None;
    Ok(())
}

// Appends a table under a name.
pub(crate) fn put_behind<R: Row>(
    alloc: Global,
    slots: &mut Vec<Option<Entry<R>>>,
    places: &mut IndexMap<Name, usize>,
    links: &mut Links,
    name: &Name,
    table: CoverTable<R>,
) -> Result<(), AllocError>
    requires linked { AreLinked links.old (written_slots slots.old.items) }
    requires once { all_different table.inputs ≡ true }
    ensures slots { OnOk result (slots.new.items ≡ slots.old.items ++ Some
        (record { output = name.now; table = table }) ∷ []) }
    ensures places { OnOk result ((other : List ℕ) → get bytes_eq places.new other
        ≡ (if bytes_eq name.now other then Some (length slots.old.items) else get bytes_eq
        places.old other)) }
    ensures links { OnOk result (AreLinked links.new
        (written_slots slots.old.items ++ Some (named name.now table) ∷ [])) }
{
    links.add(alloc, slots.len(), &table)?;
    let output = name.copy(alloc)?;
    let key = name.copy(alloc)?;
    put_last(slots, places, Entry { output, table }, key)
}

// Removes all tables; allocates nothing.
pub(crate) fn clear<R: Row>(
    alloc: Global,
    slots: &mut Vec<Option<Entry<R>>>,
    places: &mut IndexMap<Name, usize>,
    links: &mut Links,
)
    ensures slots { slots.new.items ≡ [] }
    ensures places { (other : List ℕ) → get bytes_eq places.new other ≡ None }
    ensures links { AreLinked links.new [] }
{
    *slots = Vec::new(alloc);
    *places = IndexMap::new(alloc);
    *links = Links::of_none(alloc);
}
