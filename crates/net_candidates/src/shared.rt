//! The cubes that two of some cubes share.
//!
//! Promised: the list has exactly the cubes of two literals or more that two of the cubes share.
//! Each is listed once, and cubes that have each literal once are compared only if they have two
//! literals in common; no clause says so.

ghost use Rattle.std.specs.Prelude.{◌≡◌, ◌⊎◌, ◌↔◌, IfOk, OnOk};
ghost use Rattle.std.specs.List.{filter_map};
ghost use Rattle.alg_div.specs.Cubes.{Has};
ghost use Rattle.cover_names.specs.Literals.{NamedCover};
ghost use Rattle.net_candidates.specs.Listed.{IsSharedOf};
ghost use Rattle.net_candidates.specs.Pairs.{shared_at, shared_of};

use crate::partners::partners_of;
use crate::parts::shared_literals;
use crate::spots::tell_all;
use cover_names::{Cube, NamedCover};
use indexmap::{IndexMap, IndexSet};
use sis_base::Sequence;
use std::alloc::{AllocError, Global};
use std::collections::BTreeSet;

/// What two cubes share, if it is two literals or more.
pub fn shared_of_two(
    alloc: Global,
    one: &Cube,
    other: &Cube,
) -> Result<Option<NamedCover>, AllocError>
    ensures { IfOk result (λ found. found ≡ shared_of one.now other.now) }
{
    let cube = shared_literals(alloc, one, other)?;
    if cube.len() < 2 {
        return Ok(None);
    }
    let mut cover = Sequence::new(alloc);
    cover.push(cube)?;
    Ok(Some(cover))
}

// What a cube shares with the earlier one at an index, if there is one.
fn shared_with_earlier(
    alloc: Global,
    earlier: &[Cube],
    cube: &Cube,
    place: usize,
) -> Result<Option<NamedCover>, AllocError>
    ensures { IfOk result (λ found. found ≡ shared_at earlier.now cube.now place) }
{
    match earlier.get(place) {
        None => Ok(None),
        Some(other) => shared_of_two(alloc, other, cube),
    }
}

/// Adds a cover to a set, if there is one.
pub fn add_found(
    made: &mut IndexSet<NamedCover>,
    found: Option<NamedCover>,
) -> Result<(), AllocError>
    ensures { OnOk result ((cover : NamedCover) → Has cover made.new.keys
        ↔ (Has cover made.old.keys ⊎ (found ≡ Some cover))) }
{
    if let Some(cover) = found {
        made.insert(cover)?;
    }
    Ok(())
}

// Adds what a cube shares with earlier ones at some indices, each once.
fn add_shared(
    alloc: Global,
    earlier: &[Cube],
    partners: &BTreeSet<usize>,
    cube: &Cube,
    made: &mut IndexSet<NamedCover>,
) -> Result<(), AllocError>
    ensures { OnOk result ((cover : NamedCover) → Has cover made.new.keys
        ↔ (Has cover made.old.keys ⊎ Has cover (filter_map
        (shared_at earlier.now cube.now) partners.now.keys))) }
{
    for place in partners.iter() {
        let found = shared_with_earlier(alloc, earlier, cube, *place)?;
        add_found(made, found)?;
    }
    Ok(())
}

/// What two of some cubes share, if it is two literals or more, each once.
pub fn shared_covers(alloc: Global, cubes: &[Cube]) -> Result<IndexSet<NamedCover>, AllocError>
    ensures { IfOk result (λ made. (cover : NamedCover) → Has cover made.keys
        ↔ IsSharedOf cubes.now cover) }
{
    let mut made = IndexSet::new(alloc);
    let mut spots = IndexMap::new(alloc);
    let mut marks = vec![in alloc; 0; cubes.len()]?;
    for (place, cube) in cubes.iter().enumerate() {
        let mark = place + 1;
        let partners = partners_of(alloc, &spots, cube.as_slice(), marks.as_mut_slice(), mark)?;
        add_shared(alloc, &cubes[..place], &partners, cube, &mut made)?;
        tell_all(alloc, &mut spots, cube.as_slice(), place)?;
    }
    Ok(made)
}

/// The covers of a set, in its order.
pub fn list_covers(
    alloc: Global,
    covers: IndexSet<NamedCover>,
) -> Result<Vec<NamedCover>, AllocError>
    ensures { IfOk result (λ made. made.items ≡ covers.keys) }
{
    let mut made = Vec::with_capacity(alloc, covers.len())?;
    for cover in covers {
        made.push(cover)?;
    }
    Ok(made)
}
