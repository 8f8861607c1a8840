//! The cubes that some cubes share with others and with one another.
//!
//! Source: the project's own. Promised: the list has exactly the cubes of two literals or more that
//! one of the cubes shares with one of the others, or that two of the cubes share. Each is listed
//! once, and each of the cubes is compared with each of the others; no clause says so.

ghost use Rattle.std.specs.Prelude.{◌⊎◌, ◌↔◌, IfOk, OnOk};
ghost use Rattle.std.specs.List.{filter_map};
ghost use Rattle.alg_div.specs.Cubes.{Has};
ghost use Rattle.cover_names.specs.Literals.{NamedCover};
ghost use Rattle.net_candidates.specs.Listed.{IsSharedWith};
ghost use Rattle.net_candidates.specs.Pairs.{shared_of, shared_by_each};

use crate::shared::{add_found, list_covers, shared_covers, shared_of_two};
use cover_names::{Cube, NamedCover};
use indexmap::IndexSet;
use std::alloc::{AllocError, Global};

// Adds what a cube shares with each of some others to a set.
fn add_with_others(
    alloc: Global,
    cube: &Cube,
    others: &[Cube],
    made: &mut IndexSet<NamedCover>,
) -> Result<(), AllocError>
    ensures { OnOk result ((cover : NamedCover) → Has cover made.new.keys
        ↔ (Has cover made.old.keys ⊎ Has cover (filter_map (shared_of cube.now) others.now))) }
{
    for other in others {
        let found = shared_of_two(alloc, cube, other)?;
        add_found(made, found)?;
    }
    Ok(())
}

// Adds what each of some cubes shares with each of some others to a set.
fn add_all_with_others(
    alloc: Global,
    cubes: &[Cube],
    others: &[Cube],
    made: &mut IndexSet<NamedCover>,
) -> Result<(), AllocError>
    ensures { OnOk result ((cover : NamedCover) → Has cover made.new.keys
        ↔ (Has cover made.old.keys ⊎ Has cover (shared_by_each others.now cubes.now))) }
{
    for cube in cubes {
        add_with_others(alloc, cube, others, made)?;
    }
    Ok(())
}

/// What one of some cubes shares with one of the others, or two of the cubes share, if it is two
/// literals or more.
pub fn shared_with(
    alloc: Global,
    cubes: &[Cube],
    others: &[Cube],
) -> Result<Vec<NamedCover>, AllocError>
    ensures { IfOk result (λ made. (cover : NamedCover) → Has cover made.items
        ↔ IsSharedWith cubes.now others.now cover) }
{
    let mut covers = shared_covers(alloc, cubes)?;
    add_all_with_others(alloc, cubes, others, &mut covers)?;
    list_covers(alloc, covers)
}
