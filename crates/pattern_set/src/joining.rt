//! Joins patterns of several operands of a product or a sum, in all ways to parenthesize them.
//!
//! Source: Rudell, "Logic Synthesis for VLSI Design" (thesis, University of California, Berkeley,
//! 1989), the chapter on technology mapping. The operands are split in two nonempty parts in every
//! way, where the first operand stays in the first part, since a NAND is matched in either order.
//! Each part is joined by itself, by a recursion no deeper than `depth`, and each tree of the one
//! part is joined to each of the other. Callers rely on `joined` of `specs/Lists.antt`.

ghost use Rattle.std.specs.Prelude.{◌≡◌, ◌<◌, ◌++◌, [], map, length, drop, slice_index_or, IfOk, OnOk};
ghost use Rattle.subject_tree.specs.Arenas.{tree_at, KeepsTrees, Has};
ghost use Rattle.subject_tree.specs.Tables.{trees_of, AreTaken};
ghost use Rattle.pattern_set.specs.Lists.{join_by, crossed, joined};
ghost use Rattle.pattern_set.specs.Numbers.{AreNumbers, SetsTaken, set_trees};

use crate::kind::Kind;
use crate::parting::{partings, put_front};
use sis_base::Sequence;
use std::alloc::{AllocError, Global};
use subject_tree::Arena;

// The number of two trees, joined.
fn join(arena: &mut Arena, kind: Kind, left: usize, right: usize) -> Result<usize, AllocError>
    requires left { left < length arena.old }
    requires right { right < length arena.old }
    ensures ok { IfOk result (λ number. Has arena.new number
        (join_by kind (tree_at arena.old left) (tree_at arena.old right))) }
    ensures kept { KeepsTrees arena.old arena.new }
{
    match kind {
        Kind::Product => arena.product(left, right),
        Kind::Sum => arena.sum(left, right),
    }
}

// Joins a tree to each of others, and appends the results.
fn join_each(
    arena: &mut Arena,
    kind: Kind,
    left: usize,
    others: &[usize],
    made: &mut Vec<usize>,
) -> Result<(), AllocError>
    requires left { left < length arena.old }
    requires others { AreTaken arena.old others.now }
    requires made { AreTaken arena.old made.old.items }
    ensures ok { OnOk result (AreNumbers arena.new made.new.items
        (trees_of arena.old made.old.items ++ map (join_by kind (tree_at arena.old left))
        (trees_of arena.old others.now))) }
    ensures kept { KeepsTrees arena.old arena.new }
{
    for right in others {
        made.push(join(arena, kind, left, *right)?)?;
    }
    Ok(())
}

// Joins each tree of one list to each of another, and appends the results.
fn cross(
    arena: &mut Arena,
    kind: Kind,
    lefts: &[usize],
    rights: &[usize],
    made: &mut Vec<usize>,
) -> Result<(), AllocError>
    requires lefts { AreTaken arena.old lefts.now }
    requires rights { AreTaken arena.old rights.now }
    requires made { AreTaken arena.old made.old.items }
    ensures ok { OnOk result (AreNumbers arena.new made.new.items
        (trees_of arena.old made.old.items ++ crossed (join_by kind) (trees_of arena.old lefts.now)
        (trees_of arena.old rights.now))) }
    ensures kept { KeepsTrees arena.old arena.new }
{
    for left in lefts {
        join_each(arena, kind, *left, rights, made)?;
    }
    Ok(())
}

// A copy of the set at an index; empty past the last.
fn set_at(alloc: Global, sets: &[Sequence<usize>], place: usize) -> Result<Vec<usize>, AllocError>
    ensures { IfOk result (λ made. made.items ≡ slice_index_or sets.now place []) }
{
    match sets.get(place) {
        Some(set) => Vec::from_slice(alloc, set.as_slice()),
        None => Ok(Vec::new(alloc)),
    }
}

// All indices but the first.
fn rest_of(places: &[usize]) -> &[usize]
    requires { 0 < length places.now }
    ensures { result.now ≡ drop 1 places.now }
{
    let (_first, rest) = places.split_at(1);
    rest
}

/// The trees that join one of each of the sets at some indices, nested at most `depth` deep: all
/// such trees if there are at most `depth` indices. The recursion is as deep.
pub fn join_all(
    alloc: Global,
    arena: &mut Arena,
    kind: Kind,
    sets: &[Sequence<usize>],
    depth: usize,
    places: &[usize],
) -> Result<Vec<usize>, AllocError>
    requires { SetsTaken arena.old sets.now }
    ensures ok { IfOk result (λ made. AreNumbers arena.new made.items
        (joined (join_by kind) (set_trees arena.old sets.now) depth places.now)) }
    ensures kept { KeepsTrees arena.old arena.new }
{
    if depth == 0 {
        return Ok(Vec::new(alloc));
    }
    if places.is_empty() {
        return Ok(Vec::new(alloc));
    }
    let rest = rest_of(places);
    if rest.is_empty() {
        let set = set_at(alloc, sets, places[0])?;
        return Ok(set);
    }
    let mut made = Vec::new(alloc);
    let all = partings(alloc, rest)?;
    for parting in &all {
        let first = put_front(alloc, places[0], parting.first.as_slice())?;
        let lefts = join_all(alloc, arena, kind, sets, depth - 1, first.as_slice())?;
        let rights = join_all(
            alloc,
            arena,
            kind,
            sets,
            depth - 1,
            parting.second.as_slice(),
        )?;
        cross(arena, kind, lefts.as_slice(), rights.as_slice(), &mut made)?;
    }
    Ok(made)
}
