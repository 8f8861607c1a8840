//! The cubes that the rows of the table at an index share with one another and with rows of other
//! tables.
//!
//! Source: the SIS report (UCB/ERL M92/41), `gcx`. Two rows that share two literals are of tables
//! that both read some name besides any given one. So the partners of a table are the fanouts of
//! its inputs except the one with most fanouts; no clause says which one is left out. Callers rely
//! on `AreSharedHere` to have all cubes shared with listed tables, and on `is_shared_at` exactly.

ghost use Rattle.std.specs.Prelude.{◌≡◌, ◌≢◌, ◌↔◌, ◌++◌, ℕ, ◌≤◌, true, Some, List, flat_map, IsTrue, IfOk, OnOk};
ghost use Rattle.std.specs.List.Sorted.{IsStrictlyIncreasing};
ghost use Rattle.circuit_model.specs.Names.{has, all_different};
ghost use Rattle.circuit_model.specs.declared.circuit.Table.{Table};
ghost use Rattle.alg_div.specs.Cubes.{Has};
ghost use Rattle.net_candidates.specs.Candidates.{IsSharedCube, literals_in};
ghost use Rattle.net_readers.specs.Fanouts.{is_in};
ghost use Rattle.cover_names.specs.Cubes.{is_over};
ghost use Rattle.cover_names.specs.Literals.{NamedCover};
ghost use Rattle.net_core.specs.Places.{written_of};
ghost use Rattle.net_core.specs.Tables.{IsOverInputs};
ghost use Rattle.net_work.specs.Placed.{standing, table_at};
ghost use Rattle.net_savings.specs.Listing.{IsListed};
ghost use Rattle.net_savings.specs.Sharing.{cubes_in, AreSharers, AreSharedHere};

use crate::owned::{OwnLists, is_listed};
use circuit_model::Name;
use cover_names::{Cube, NamedCover};
use cube_cover::Row;
use net_candidates::{Rule, cubes_of, is_shared, shared_with};
use net_core::Entry;
use net_work::WorkingNetwork;
use sis_base::Sequence;
use std::alloc::{AllocError, Global};

// The cubes of the table at an index, none if there is no table.
fn cubes_at<R: Row>(
    alloc: Global,
    work: &WorkingNetwork<R>,
    place: usize,
) -> Result<NamedCover, AllocError>
    ensures { IfOk result (λ cubes. cubes ≡ cubes_in (table_at work.now.slots place)) }
{
    match work.entry(place) {
        None => Ok(Sequence::new(alloc)),
        Some(entry) => cubes_of(alloc, &entry.table),
    }
}

// Appends cubes.
fn push_cubes(cubes: &mut Vec<Cube>, more: NamedCover) -> Result<(), AllocError>
    ensures { OnOk result (cubes.new.items ≡ cubes.old.items ++ more) }
{
    for cube in more.into_vec() {
        cubes.push(cube)?;
    }
    Ok(())
}

// The cubes of the tables at indices, in the order of the indices.
fn cubes_at_all<R: Row>(
    alloc: Global,
    work: &WorkingNetwork<R>,
    places: &[usize],
) -> Result<Vec<Cube>, AllocError>
    ensures { IfOk result (λ cubes. cubes.items ≡ flat_map
        (λ at. cubes_in (table_at work.now.slots at)) places.now) }
{
    let mut cubes = Vec::new(alloc);
    for place in places {
        let more = cubes_at(alloc, work, *place)?;
        push_cubes(&mut cubes, more)?;
    }
    Ok(cubes)
}

// Of a name and some others the one that most tables read.
fn most_read<'a, R: Row>(work: &WorkingNetwork<R>, first: &'a Name, names: &'a [Name]) -> &'a Name {
    let mut most = first;
    for name in names {
        if work.reader_count(most) < work.reader_count(name) {
            most = name;
        }
    }
    most
}

/// Appends the indices of the fanouts of a name.
pub(crate) fn push_readers<R: Row>(
    alloc: Global,
    work: &WorkingNetwork<R>,
    name: &Name,
    places: &mut Vec<usize>,
) -> Result<(), AllocError>
    ensures still { OnOk result ((at : ℕ) → is_in places.old.items at ≡ true
        → is_in places.new.items at ≡ true) }
    ensures more { OnOk result ((at : ℕ) (table : Table) → table_at work.now.slots at
        ≡ Some table → has table.inputs name.now ≡ true → is_in places.new.items at ≡ true) }
{
    let readers = work.readers(alloc, name)?;
    places.extend_from_slice(readers.into_vec().as_slice())?;
    Ok(())
}

// The indices of the tables that read one of some names other than a given one.
fn readers_besides<R: Row>(
    alloc: Global,
    work: &WorkingNetwork<R>,
    names: &[Name],
    left: &Name,
) -> Result<Vec<usize>, AllocError>
    ensures { IfOk result (λ places. (at : ℕ) (table : Table) (name : List ℕ)
        → table_at work.now.slots at ≡ Some table → has table.inputs name ≡ true
        → has names.now name ≡ true → name ≢ left.now
        → is_in places.items at ≡ true) }
{
    let mut places = Vec::new(alloc);
    for name in names {
        if *name != *left {
            push_readers(alloc, work, name, &mut places)?;
        }
    }
    Ok(places)
}

// Those of some indices that are listed; in rising order and each once, which no clause says.
fn listed_of(alloc: Global, own: &OwnLists, places: Vec<usize>) -> Result<Vec<usize>, AllocError>
    ensures all { IfOk result (λ listed. (at : ℕ) → is_in places.items at ≡ true
        → IsListed own.now.items at → is_in listed.items at ≡ true) }
    ensures only { IfOk result (λ listed. (at : ℕ) → is_in listed.items at ≡ true
        → (is_in places.items at ≡ true) × IsListed own.now.items at) }
{
    let mut sorted = places;
    sorted.sort_unstable();
    sorted.dedup();
    let mut listed = Vec::new(alloc);
    for place in &sorted {
        if is_listed(own, *place) {
            listed.push(*place)?;
        }
    }
    Ok(listed)
}

// The listed indices whose tables may share two literals with a given table.
fn partners_of<R: Row>(
    alloc: Global,
    work: &WorkingNetwork<R>,
    own: &OwnLists,
    entry: &Entry<R>,
) -> Result<Vec<usize>, AllocError>
    requires { all_different entry.now.table.inputs ≡ true }
    ensures { IfOk result (λ partners. (one other : ℕ) (cover : NamedCover) → one ≢ other
        → IsListed own.now.items other
        → AreSharers one other (Some (written_of entry.now)) (table_at work.now.slots other) cover → is_in partners.items other ≡ true) }
{
    let names = entry.table.inputs.as_slice();
    match names.first() {
        None => Ok(Vec::new(alloc)),
        Some(first) => {
            let left = most_read(work, first, names);
            let places = readers_besides(alloc, work, names, left)?;
            listed_of(alloc, own, places)
        }
    }
}

// What the rows of a table share with one another, and with rows of the tables that are listed.
fn shared_by_table<R: Row>(
    alloc: Global,
    work: &WorkingNetwork<R>,
    own: &OwnLists,
    entry: &Entry<R>,
) -> Result<Vec<NamedCover>, AllocError>
    requires over { IsOverInputs entry.now.table }
    requires once { all_different entry.now.table.inputs ≡ true }
    ensures some { IfOk result (λ covers. (cover : NamedCover) → Has cover covers.items
        → 1 ≤ literals_in cover) }
    ensures here { IfOk result (λ covers. (one : ℕ) (cover : NamedCover) → AreSharers one one
        (Some (written_of entry.now)) (Some (written_of entry.now)) cover → Has cover covers.items) }
    ensures there { IfOk result (λ covers. (one other : ℕ) (cover : NamedCover)
        → IsListed own.now.items other → AreSharers one other (Some (written_of entry.now))
        (table_at work.now.slots other) cover
        → Has cover covers.items) }
{
    let cubes = cubes_of(alloc, &entry.table)?;
    let partners = partners_of(alloc, work, own, entry)?;
    let others = cubes_at_all(alloc, work, partners.as_slice())?;
    shared_with(alloc, cubes.as_slice(), others.as_slice())
}

/// What the table at an index gives together with itself and with those that are listed, if a rule
/// asks for what rows share.
pub(crate) fn shared_here<R: Row>(
    alloc: Global,
    work: &WorkingNetwork<R>,
    rule: Rule,
    own: &OwnLists,
    place: usize,
) -> Result<Vec<NamedCover>, AllocError>
    ensures { IfOk result (λ covers. AreSharedHere rule work.now.slots own.now.items place
        covers.items) }
{
    match (rule, work.entry(place)) {
        (Rule::Gcx, Some(entry)) => shared_by_table(alloc, work, own, entry),
        _ => Ok(Vec::new(alloc)),
    }
}

/// Whether two rows of a network share a cover, by the rows at indices that include those of all
/// tables that read all its names.
pub(crate) fn is_shared_at<R: Row>(
    alloc: Global,
    work: &WorkingNetwork<R>,
    places: &[usize],
    cover: &NamedCover,
) -> Result<bool, AllocError>
    requires rising { IsStrictlyIncreasing places.now }
    requires all { (at : ℕ) (table : Table) → table_at work.now.slots at ≡ Some table
        → is_over table.inputs cover.now ≡ true → is_in places.now at ≡ true }
    ensures { IfOk result (λ is. IsTrue is ↔ IsSharedCube (standing work.now.slots) cover.now) }
{
    let cubes = cubes_at_all(alloc, work, places)?;
    is_shared(alloc, cubes.as_slice(), cover)
}
