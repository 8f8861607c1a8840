//! The columns of names among the inputs of a table, and the joined inputs of two tables.
//!
//! Up to 32 names are searched one by one, more are looked up in a hash set; both ways give the
//! first index. `joined_names` gives the inputs of a composition (De Micheli, "Synthesis and
//! Optimization of Digital Circuits", chapter 8, elimination): those of the outer table, with the
//! inputs of the inner table that it lacks instead of the inner table's signal.

ghost use Rattle.std.specs.Prelude.{◌≡◌, ℕ, ◌<◌, true, not, List, [], ◌∷◌, ◌++◌, length, map, take, position, bytes_eq, is_none, if◌then◌else◌, IfOk, OnOk};
ghost use Rattle.circuit_model.specs.Names.{has, all_different};
ghost use Rattle.alg_tables.specs.Taking.{entries, lacking, joined};

use circuit_model::{Name, Names};
use indexmap::IndexSet;
use sis_base::Copied;
use std::alloc::{AllocError, Global};

// Up to this many names are searched one by one.
const FEW_NAMES: usize = 32;

/// The index of a name among names.
pub fn place_among(names: &[Name], name: &Name) -> Option<usize>
    ensures { result ≡ position (bytes_eq name.now) names.now }
{
    names.iter().position(|other| *name == *other)
}

// The index of a name in a set.
fn place_in(names: &IndexSet<Name>, name: &Name) -> Option<usize>
    ensures { result ≡ position (bytes_eq name.now) names.now.keys }
{
    names.get_index_of(name)
}

// The set of the names, which must be different, in their order.
fn set_of(alloc: Global, names: &[Name]) -> Result<IndexSet<Name>, AllocError>
    requires { all_different names.now ≡ true }
    ensures { IfOk result (λ set. set.keys ≡ names.now) }
{
    let mut set = IndexSet::new(alloc);
    for name in names {
        let _place = set.insert_full(name.copy(alloc)?)?;
    }
    Ok(set)
}

// The index of each other name among names, by linear search.
fn places_among(
    alloc: Global,
    names: &[Name],
    others: &[Name],
) -> Result<Vec<Option<usize>>, AllocError>
    ensures { IfOk result (λ places. places.items ≡ entries names.now others.now) }
{
    let mut places = Vec::with_capacity(alloc, others.len())?;
    for name in others {
        places.push(place_among(names, name))?;
    }
    Ok(places)
}

// The index of each other name in a set.
fn places_in(
    alloc: Global,
    names: &IndexSet<Name>,
    others: &[Name],
) -> Result<Vec<Option<usize>>, AllocError>
    ensures { IfOk result (λ places. places.items ≡ entries names.now.keys others.now) }
{
    let mut places = Vec::with_capacity(alloc, others.len())?;
    for name in others {
        places.push(place_in(names, name))?;
    }
    Ok(places)
}

/// The index of each other name among names, which must be different.
pub fn places_of(
    alloc: Global,
    names: &[Name],
    others: &[Name],
) -> Result<Vec<Option<usize>>, AllocError>
    requires { all_different names.now ≡ true }
    ensures { IfOk result (λ places. places.items ≡ entries names.now others.now) }
{
    if names.len() <= FEW_NAMES {
        return places_among(alloc, names, others);
    }
    let set = set_of(alloc, names)?;
    let places = places_in(alloc, &set, others)?;
    Ok(places)
}

// Appends copies of names.
fn push_names(alloc: Global, names: &mut Names, more: &[Name]) -> Result<(), AllocError>
    ensures { OnOk result (names.new ≡ names.old ++ more.now) }
{
    for name in more {
        names.push(name.copy(alloc)?)?;
    }
    Ok(())
}

// Appends a copy of a name that has no index.
fn push_new(
    alloc: Global,
    names: &mut Names,
    place: Option<usize>,
    name: &Name,
) -> Result<(), AllocError>
    ensures { OnOk result (names.new ≡ names.old ++ (if is_none place then name.now ∷ [] else [])) }
{
    if place.is_none() {
        names.push(name.copy(alloc)?)?;
    }
    Ok(())
}

// Appends copies of those other names that have no index.
fn push_lacking(
    alloc: Global,
    made: &mut Names,
    places: &[Option<usize>],
    others: &[Name],
) -> Result<(), AllocError>
    requires { length places.now ≡ length others.now }
    ensures { OnOk result ((names : List (List ℕ)) → places.now ≡ entries names others.now
        → made.new ≡ made.old ++ lacking names others.now) }
{
    for (i, name) in others.iter().enumerate() {
        push_new(alloc, made, places[i], name)?;
    }
    Ok(())
}

/// Copies of names, in which those other names that are not among them replace the one at an index.
pub(crate) fn joined_names(
    alloc: Global,
    place: usize,
    names: &[Name],
    others: &[Name],
    places: &[Option<usize>],
) -> Result<Names, AllocError>
    requires place { place < length names.now }
    requires places { places.now ≡ entries names.now others.now }
    ensures { IfOk result (λ made. made ≡ joined place names.now others.now) }
{
    let mut made = Names::new(alloc);
    push_names(alloc, &mut made, &names[..place])?;
    push_lacking(alloc, &mut made, places, others)?;
    push_names(alloc, &mut made, &names[place + 1..])?;
    Ok(made)
}
