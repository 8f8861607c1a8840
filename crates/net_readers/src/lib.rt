//! The fanouts of names: for each name the exact set of indices at which it is among the inputs,
//! maintained while the inputs at one index after another change.
//!
//! Source: Brayton, Rudell, Sangiovanni-Vincentelli and Wang, "MIS: A Multiple-Level Logic
//! Optimization System" (1987), the fanout of a node. What is stored at an index is up to the
//! caller: a table, an expression. Promised: the indices listed for a name are exactly those at
//! which it is read (`specs/Fanouts.antt`, `AreReaders`). A change visits the old and the new
//! inputs and nothing else; no clause says so. After an error the fanouts have no meaning.
#![tactic(auto)]

ghost use Rattle.std.specs.Prelude.{◌≡◌, ◌==◌, ◌&&◌, ◌||◌, ◌<◌, ℕ, not, Bool, true, false, Some, None, List, [], ◌∷◌, bytes_eq, if◌then◌else◌, MatchBool, IfOk, OnOk};
ghost use Rattle.std.specs.List.Sorted.{IsStrictlyIncreasing};
ghost use Rattle.std.specs.Ordering.{nat_cmp};
ghost use Rattle.std.specs.BTreeSet.{contains};
ghost use Rattle.indexmap.specs.IndexMap.{get};
ghost use Rattle.circuit_model.specs.Names.{has};
ghost use Rattle.net_readers.specs.Fanouts.{Inputs, in_set, told, is_in, with_inputs, AreReaders, HasUntold};

use circuit_model::Name;
use indexmap::IndexMap;
use sis_base::{Copied, Sequence};
use std::alloc::{AllocError, Global};
use std::collections::BTreeSet;

/// Indices of nodes.
pub type Places = Sequence<usize>;

/// For each name the indices at which it is read.
pub struct Fanouts {
    pub(crate) sets: IndexMap<Name, BTreeSet<usize>>,
}

// By hand, so that functions that own fanouts drop them in one call.
impl Drop for Fanouts {
    fn drop(self) {
        let Fanouts { sets: _sets } = self;
    }
}

// Removes and returns the set of a name; an empty set if there is none.
fn take_set(
    alloc: Global,
    sets: &mut IndexMap<Name, BTreeSet<usize>>,
    name: &Name,
) -> BTreeSet<usize>
    ensures set { (place : ℕ) → contains nat_cmp result place
        ≡ in_set (get bytes_eq sets.old name.now) place }
    ensures rest { (other : List ℕ) → get bytes_eq sets.new other
        ≡ (if bytes_eq name.now other then None else get bytes_eq sets.old other) }
{
    match sets.swap_remove(name) {
        Some(set) => set,
        None => BTreeSet::new(alloc),
    }
}

// Sets the set of a name.
fn put_set(
    sets: &mut IndexMap<Name, BTreeSet<usize>>,
    name: Name,
    set: BTreeSet<usize>,
) -> Result<(), AllocError>
    ensures { OnOk result ((other : List ℕ)
        → get bytes_eq sets.new other
        ≡ (if bytes_eq name other then Some set else get bytes_eq sets.old other)) }
{
    let _set = sets.insert(name, set)?;
    Ok(())
}

// Whether an index is listed for a name.
fn is_told(sets: &IndexMap<Name, BTreeSet<usize>>, name: &Name, place: usize) -> bool
    ensures { result ≡ in_set (get bytes_eq sets.now name.now) place }
{
    match sets.get(name) {
        None => false,
        Some(set) => set.contains(&place),
    }
}

// Lists an index for a name.
fn tell(
    alloc: Global,
    sets: &mut IndexMap<Name, BTreeSet<usize>>,
    name: &Name,
    place: usize,
) -> Result<(), AllocError>
    ensures { OnOk result ((other : List ℕ) (at : ℕ)
        → in_set (get bytes_eq sets.new other) at
        ≡ ((bytes_eq name.now other && place == at) || in_set (get bytes_eq sets.old other) at)) }
{
    if is_told(sets, name, place) {
        return Ok(());
    }
    let key = name.copy(alloc)?;
    let mut set = take_set(alloc, sets, name);
    set.insert(place)?;
    put_set(sets, key, set)
}

// Removes an index from those of a name.
fn untell(
    alloc: Global,
    sets: &mut IndexMap<Name, BTreeSet<usize>>,
    name: &Name,
    place: usize,
) -> Result<(), AllocError>
    ensures { OnOk result ((other : List ℕ) (at : ℕ)
        → in_set (get bytes_eq sets.new other) at
        ≡ (not (bytes_eq name.now other && place == at)
        && in_set (get bytes_eq sets.old other) at)) }
{
    let key = name.copy(alloc)?;
    let mut set = take_set(alloc, sets, name);
    set.remove(&place);
    put_set(sets, key, set)
}

// Lists an index for each of some names.
fn tell_all(
    alloc: Global,
    sets: &mut IndexMap<Name, BTreeSet<usize>>,
    names: &[Name],
    place: usize,
) -> Result<(), AllocError>
    ensures { OnOk result ((other : List ℕ) (at : ℕ)
        → in_set (get bytes_eq sets.new other) at
        ≡ ((has names.now other && place == at) || in_set (get bytes_eq sets.old other) at)) }
{
    for name in names {
        tell(alloc, sets, name, place)?;
    }
    Ok(())
}

// Whether a list has the name at an index.
fn is_at(names: &[Name], place: usize, name: &Name) -> bool
    ensures { result ≡ true → has names.now name.now ≡ true }
{
    match names.get(place) {
        None => false,
        Some(other) => name == other,
    }
}

// Removes the index from those of a name that was read before, if the name is no longer the same
// input.
fn untell_moved(
    alloc: Global,
    sets: &mut IndexMap<Name, BTreeSet<usize>>,
    name: &Name,
    is_moved: bool,
    place: usize,
) -> Result<(), AllocError>
    ensures { OnOk result ((other : List ℕ) (at : ℕ)
        → in_set (get bytes_eq sets.new other) at
        ≡ (not (is_moved && (bytes_eq name.now other && place == at))
        && in_set (get bytes_eq sets.old other) at)) }
{
    if is_moved {
        return untell(alloc, sets, name, place);
    }
    Ok(())
}

// Removes the index from those of the names that were read before, except the names that are still
// the same input.
fn untell_changed(
    alloc: Global,
    sets: &mut IndexMap<Name, BTreeSet<usize>>,
    before: &[Name],
    now: &[Name],
    place: usize,
) -> Result<(), AllocError>
    ensures { OnOk result (HasUntold before.now now.now place
        (λ name at. in_set (get bytes_eq sets.old name) at)
        (λ name at. in_set (get bytes_eq sets.new name) at)) }
{
    for (i, name) in before.iter().enumerate() {
        let is_moved = !is_at(now, i, name);
        untell_moved(alloc, sets, name, is_moved, place)?;
    }
    Ok(())
}

// The indices of a set, in increasing order.
fn places_in(alloc: Global, set: &BTreeSet<usize>) -> Result<Places, AllocError>
    ensures keys { IfOk result (λ places. places ≡ set.now.keys) }
    ensures rising { IsStrictlyIncreasing set.now.keys }
{
    let mut places = Sequence::new(alloc);
    for place in set.iter() {
        places.push(*place)?;
    }
    Ok(places)
}

impl Fanouts {
    /// The fanouts if nothing is read; allocates nothing.
    pub fn of_none(alloc: Global) -> Fanouts
        ensures { AreReaders (told result) (λ place. []) }
    {
        Fanouts {
            sets: IndexMap::new(alloc),
        }
    }

    /// Whether a name has a fanout.
    pub fn has_readers(&self, name: &Name) -> bool
        ensures { MatchBool result ((place : ℕ) × (told self.now name.now place ≡ true))
            ((place : ℕ) → told self.now name.now place ≡ false) }
    {
        match self.sets.get(name) {
            None => false,
            Some(set) => !set.is_empty(),
        }
    }

    /// The indices at which a name is read, each once, in increasing order.
    pub fn places(&self, alloc: Global, name: &Name) -> Result<Places, AllocError>
        ensures exact { IfOk result (λ places. (place : ℕ)
            → is_in places place ≡ told self.now name.now place) }
        ensures rising { IfOk result IsStrictlyIncreasing }
    {
        match self.sets.get(name) {
            None => Ok(Sequence::new(alloc)),
            Some(set) => places_in(alloc, set),
        }
    }

    /// The number of a name's fanouts. No clause says so: it serves to choose between equivalent
    /// methods, for speed alone.
    pub fn count(&self, name: &Name) -> usize {
        match self.sets.get(name) {
            None => 0,
            Some(set) => set.len(),
        }
    }

    /// Replaces the names that are read at an index by others, or by none if the node there is
    /// removed.
    pub fn change(
        &mut self,
        alloc: Global,
        place: usize,
        before: &[Name],
        now: &[Name],
    ) -> Result<(), AllocError>
        ensures { OnOk result ((inputs : Inputs) → AreReaders (told self.old) inputs
            → inputs place ≡ before.now → AreReaders (told self.new)
            (with_inputs inputs place now.now)) }
    {
        untell_changed(alloc, &mut self.sets, before, now, place)?;
        tell_all(alloc, &mut self.sets, now, place)
    }

    /// Adds the names that are read at an index at which nothing was read.
    pub fn add(&mut self, alloc: Global, place: usize, names: &[Name]) -> Result<(), AllocError>
        ensures { OnOk result ((inputs : Inputs) → AreReaders (told self.old) inputs
            → inputs place ≡ [] → AreReaders (told self.new) (with_inputs inputs place names.now)) }
    {
        tell_all(alloc, &mut self.sets, names, place)
    }
}
