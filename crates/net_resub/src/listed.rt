//! Lists of tables by name, in which they are found as divisors: each under the name of its
//! literals that fewest tables read. Only a table that reads this name may be divided by it, so the
//! divisors of a table are in the lists under its inputs, or among those without a name.
//!
//! Source: Brayton, Rudell, Sangiovanni-Vincentelli and Wang, "MIS: A Multiple-Level Logic
//! Optimization System" (1987): a divisor's literals are among those of the table that it divides.
//! Promised: the index of each table is in the list under a name of its literals or, if no row has
//! a literal, among those without a name; other indices may be there too (`specs/Listed.antt`,
//! `AreListed`). That the name is the one that fewest tables read no clause says. A table that
//! changes is listed again, and nothing is removed from a list; no clause says how much work the
//! lists save.

ghost use Rattle.std.specs.Prelude.{◌≡◌, ◌==◌, ◌||◌, ◌↔◌, ℕ, Bool, true, Some, None, List, [], bytes_eq, is_some, slice_index_or, if◌then◌else◌, IfOk, IfSome, OnOk, IsTrue};
ghost use Rattle.std.specs.List.{list_any, last_or};
ghost use Rattle.indexmap.specs.IndexMap.{get};
ghost use Rattle.net_readers.specs.Fanouts.{is_in};
ghost use Rattle.cover_names.specs.Cubes.{is_over};
ghost use Rattle.net_core.specs.Places.{written_of};
ghost use Rattle.net_resub.specs.Resubbed.{row_cubes};
ghost use Rattle.net_candidates.specs.Spots.{places_in};
ghost use Rattle.net_resub.specs.Listed.{IsNeeded, in_list, is_under, HasPut, HasPutUnder, AreJoined, AreListed};

use crate::pairs::item_at;
use circuit_model::Name;
use cube_cover::Row;
use indexmap::IndexMap;
use net_core::Entry;
use net_work::WorkingNetwork;
use sis_base::Copied;
use std::alloc::{AllocError, Global};

/// The indices of tables, each in the list under a name, or among those without one if no row has a
/// literal.
#[derive(Drop)]
pub(crate) struct DivisorLists {
    pub(crate) unnamed: Vec<usize>,
    pub(crate) named: IndexMap<Name, Vec<usize>>,
}

// Whether some row has a literal in a column.
fn has_literal<R: Row>(rows: &[R], place: usize) -> bool
    ensures { result ≡ list_any (λ row. is_some (slice_index_or (R.literals row) place None))
        rows.now }
{
    for row in rows {
        if item_at(row, place).is_some() {
            return true;
        }
    }
    false
}

// Whether fewer tables read a name than another one, if there is another one.
fn is_rarer<R: Row>(work: &WorkingNetwork<R>, name: &Name, other: Option<&Name>) -> bool
    ensures { other.entry ≡ None → result ≡ true }
{
    match other {
        None => true,
        Some(other) => work.reader_count(name) < work.reader_count(other),
    }
}

/// The input that fewest tables read, among those of which a row has a literal; none if no row has
/// a literal. That it is the one that fewest tables read no clause says.
pub(crate) fn rarest_name<'a, R: Row>(
    work: &WorkingNetwork<R>,
    entry: &'a Entry<R>,
) -> Option<&'a Name>
    ensures some { IfSome result (λ name. IsNeeded (row_cubes (written_of entry.now)) name.now) }
    ensures none { result ≡ None → is_over [] (row_cubes (written_of entry.now)) ≡ true }
{
    let inputs = entry.table.inputs.as_slice();
    let rows = entry.table.cover.rows();
    let mut rarest = None;
    for (place, input) in inputs.iter().enumerate() {
        if has_literal(rows, place) && is_rarer(work, input, rarest) {
            rarest = Some(input);
        }
    }
    rarest
}

// Whether an index is the last of some.
fn is_last(places: &[usize], place: usize) -> bool
    ensures { IsTrue result ↔ (last_or None places.now ≡ Some place) }
{
    match places.last() {
        None => false,
        Some(last) => *last == place,
    }
}

// Appends an index, unless it is the last already.
fn push_place(places: &mut Vec<usize>, place: usize) -> Result<(), AllocError>
    ensures { OnOk result (HasPut place places.old.items places.new.items) }
{
    if !is_last(places.as_slice(), place) {
        places.push(place)?;
    }
    Ok(())
}

// Removes and returns the list under a name; empty if there is none.
fn take_list(alloc: Global, named: &mut IndexMap<Name, Vec<usize>>, name: &Name) -> Vec<usize>
    ensures places { result.items ≡ places_in (get bytes_eq named.old name.now) }
    ensures rest { (other : List ℕ) → get bytes_eq named.new other
        ≡ (if bytes_eq name.now other then None else get bytes_eq named.old other) }
{
    match named.swap_remove(name) {
        Some(list) => list,
        None => Vec::new(alloc),
    }
}

// Sets the list under a name.
fn put_list(
    named: &mut IndexMap<Name, Vec<usize>>,
    name: Name,
    list: Vec<usize>,
) -> Result<(), AllocError>
    ensures { OnOk result ((other : List ℕ) → get bytes_eq named.new other
        ≡ (if bytes_eq name other then Some list else get bytes_eq named.old other)) }
{
    let _list = named.insert(name, list)?;
    Ok(())
}

// Adds an index to the list under a name.
fn put_under(
    alloc: Global,
    named: &mut IndexMap<Name, Vec<usize>>,
    name: &Name,
    place: usize,
) -> Result<(), AllocError>
    ensures { OnOk result (HasPutUnder name.now place
        (λ other at. in_list (get bytes_eq named.old other) at)
        (λ other at. in_list (get bytes_eq named.new other) at)) }
{
    let key = name.copy(alloc)?;
    let mut list = take_list(alloc, named, name);
    push_place(&mut list, place)?;
    put_list(named, key, list)
}

// Appends the indices listed under a name.
fn push_under(
    named: &IndexMap<Name, Vec<usize>>,
    name: &Name,
    places: &mut Vec<usize>,
) -> Result<(), AllocError>
    ensures { OnOk result ((at : ℕ) → is_in places.new.items at
        ≡ (is_in places.old.items at || in_list (get bytes_eq named.now name.now) at)) }
{
    if let Some(list) = named.get(name) {
        places.extend_from_slice(list.as_slice())?;
    }
    Ok(())
}

impl DivisorLists {
    /// The lists of all tables of a network.
    pub(crate) fn of<R: Row>(
        alloc: Global,
        work: &WorkingNetwork<R>,
    ) -> Result<DivisorLists, AllocError>
        ensures { IfOk result (AreListed (λ at. true) work.now.slots) }
    {
        let mut lists = DivisorLists {
            unnamed: Vec::new(alloc),
            named: IndexMap::new(alloc),
        };
        for place in 0..work.len() {
            lists.list_divisor(alloc, work, place)?;
        }
        Ok(lists)
    }

    /// Lists the table at an index, if there is one. After an error anything may be listed.
    pub(crate) fn list_divisor<R: Row>(
        &mut self,
        alloc: Global,
        work: &WorkingNetwork<R>,
        place: usize,
    ) -> Result<(), AllocError>
        ensures { OnOk result ((test : ℕ → Bool) → AreListed test work.now.slots self.old
            → AreListed (λ at. test at || place == at) work.now.slots self.new) }
    {
        match work.entry(place) {
            None => Ok(()),
            Some(entry) => match rarest_name(work, entry) {
                None => push_place(&mut self.unnamed, place),
                Some(name) => put_under(alloc, &mut self.named, name, place),
            },
        }
    }

    /// Appends the indices that are listed under some names.
    pub(crate) fn push_listed(
        &self,
        names: &[Name],
        places: &mut Vec<usize>,
    ) -> Result<(), AllocError>
        ensures { OnOk result (AreJoined (is_under self.now) names.now places.old.items
            places.new.items) }
    {
        for name in names {
            push_under(&self.named, name, places)?;
        }
        Ok(())
    }
}
