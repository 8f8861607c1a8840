//! Whether two of some cubes share exactly a given one.
//!
//! Source: the project's own. Promised: the result is true exactly if two of the cubes share the
//! one cube of the cover, and that has two literals or more. Two cubes are compared only if both
//! have all its literals, and none after the first two that share it; no clause says so.

ghost use Rattle.std.specs.Prelude.{◌≡◌, ◌↔◌, ◌∷◌, [], map, filter, IfOk, IsTrue};
ghost use Rattle.net_candidates.specs.Candidates.{shared};
ghost use Rattle.net_candidates.specs.Listed.{IsSharedOf};
ghost use Rattle.net_candidates.specs.Pairs.{has_all, IsSharedWithSome, IsSharedByTwo};

use crate::parts::has_literal;
use cover_names::{Cube, NamedCover};
use std::alloc::{AllocError, Global};

// Whether a cube has all literals of another one.
fn has_all_of(one: &Cube, cube: &Cube) -> bool
    ensures { result ≡ has_all cube.now one.now }
{
    cube.as_slice()
        .iter()
        .all(|literal| has_literal(one.as_slice(), literal))
}

// Those of some cubes that have all literals of a cube.
fn holders_of<'a>(
    alloc: Global,
    cubes: &'a [Cube],
    cube: &Cube,
) -> Result<Vec<&'a Cube>, AllocError>
    ensures { IfOk result (λ made. map (λ one. one.now) made.items ≡ filter
        (has_all cube.now) cubes.now) }
{
    let mut made = Vec::new(alloc);
    for one in cubes {
        if has_all_of(one, cube) {
            made.push(one)?;
        }
    }
    Ok(made)
}

// Whether what two cubes share is exactly a cube.
fn share_just(one: &Cube, other: &Cube, cube: &Cube) -> bool
    ensures { IsTrue result ↔ (shared one.now other.now ≡ cube.now) }
{
    let wanted = cube.as_slice();
    let mut count = 0;
    for literal in one.as_slice() {
        if has_literal(other.as_slice(), literal) {
            if count >= wanted.len() || wanted[count] != *literal {
                return false;
            }
            count += 1;
        }
    }
    count == wanted.len()
}

// Whether what a cube shares with one of some others is exactly a cube.
fn shares_with_some(one: &Cube, others: &[&Cube], cube: &Cube) -> bool
    ensures { IsTrue result ↔ IsSharedWithSome (map (λ other. other.now) others.now) one.now
        cube.now }
{
    for other in others {
        if share_just(one, *other, cube) {
            return true;
        }
    }
    false
}

// Whether what two of some cubes share is exactly a cube.
fn two_share(cubes: &[&Cube], cube: &Cube) -> bool
    ensures { IsTrue result ↔ IsSharedByTwo (map (λ one. one.now) cubes.now) cube.now }
{
    for (place, one) in cubes.iter().enumerate() {
        if shares_with_some(*one, &cubes[place + 1..], cube) {
            return true;
        }
    }
    false
}

// Whether two of some cubes share exactly a cube, and it has two literals or more.
fn is_shared_cube(alloc: Global, cubes: &[Cube], cube: &Cube) -> Result<bool, AllocError>
    ensures { IfOk result (λ found. IsTrue found ↔ IsSharedOf cubes.now (cube.now ∷ [])) }
{
    if cube.len() < 2 {
        return Ok(false);
    }
    let holders = holders_of(alloc, cubes, cube)?;
    Ok(two_share(holders.as_slice(), cube))
}

/// Whether a cover is what two of some cubes share, if it is two literals or more.
pub fn is_shared(alloc: Global, cubes: &[Cube], cover: &NamedCover) -> Result<bool, AllocError>
    ensures { IfOk result (λ found. IsTrue found ↔ IsSharedOf cubes.now cover.now) }
{
    match cover.as_slice() {
        [cube] => is_shared_cube(alloc, cubes, cube),
        _ => Ok(false),
    }
}
