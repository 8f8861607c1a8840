//! The partners of a cube: the indices of earlier cubes that have two literals or more in common
//! with it.
//!
//! Source: the project's own. The indices listed under the cube's literals are visited one after
//! the other. The first visit marks an index; a second visit makes it a partner. Each cube has a
//! mark of its own, so that no mark is removed. Callers rely on the partners to have every index
//! that is listed twice or more; that they have no other no clause says.

ghost use Rattle.std.specs.Prelude.{◌≡◌, ◌≤◌, ◌==◌, ◌||◌, ◌∷◌, [], ℕ, true, length, flat_map, IfOk, OnOk};
ghost use Rattle.std.specs.BTreeSet.{contains};
ghost use Rattle.std.specs.Ordering.{nat_cmp};
ghost use Rattle.net_candidates.specs.Spots.{told, many};
ghost use Rattle.net_candidates.specs.Partners.{is_marked, AreMetNext};

use cover_names::Literal;
use indexmap::IndexMap;
use std::alloc::{AllocError, Global};
use std::collections::BTreeSet;

// Marks an index, and returns whether it was marked; an index without a mark counts as marked.
fn mark_place(marks: &mut [usize], mark: usize, place: usize) -> bool
    ensures was { result ≡ is_marked marks.old mark place }
    ensures here { is_marked marks.new mark place ≡ true }
    ensures still { (at : ℕ) → is_marked marks.old mark at ≡ true → is_marked marks.new mark at
        ≡ true }
{
    if place >= marks.len() {
        return true;
    }
    let was_marked = marks[place] == mark;
    marks[place] = mark;
    was_marked
}

// Adds an index to a set.
fn put_place(partners: &mut BTreeSet<usize>, place: usize) -> Result<(), AllocError>
    ensures { OnOk result ((at : ℕ) → contains nat_cmp partners.new at
        ≡ (place == at || contains nat_cmp partners.old at)) }
{
    partners.insert(place)?;
    Ok(())
}

// Visits an index: marks it, and makes it a partner if it was marked before.
fn meet(
    marks: &mut [usize],
    partners: &mut BTreeSet<usize>,
    mark: usize,
    place: usize,
) -> Result<(), AllocError>
    ensures { OnOk result (AreMetNext (place ∷ []) (is_marked marks.old mark)
        (is_marked marks.new mark) (contains nat_cmp partners.old) (contains nat_cmp partners.new)) }
{
    if !mark_place(marks, mark, place) {
        return Ok(());
    }
    put_place(partners, place)
}

// Visits indices one after the other.
fn meet_all(
    marks: &mut [usize],
    partners: &mut BTreeSet<usize>,
    mark: usize,
    places: &[usize],
) -> Result<(), AllocError>
    ensures { OnOk result (AreMetNext places.now (is_marked marks.old mark)
        (is_marked marks.new mark) (contains nat_cmp partners.old) (contains nat_cmp partners.new)) }
{
    for place in places {
        meet(marks, partners, mark, *place)?;
    }
    Ok(())
}

// Visits the indices listed under a literal.
fn meet_told(
    marks: &mut [usize],
    partners: &mut BTreeSet<usize>,
    mark: usize,
    spots: &IndexMap<Literal, Vec<usize>>,
    literal: &Literal,
) -> Result<(), AllocError>
    ensures { OnOk result (AreMetNext (told spots.now literal.now) (is_marked marks.old mark)
        (is_marked marks.new mark) (contains nat_cmp partners.old) (contains nat_cmp partners.new)) }
{
    match spots.get(literal) {
        None => Ok(()),
        Some(places) => meet_all(marks, partners, mark, places.as_slice()),
    }
}

/// Indices among which are all that are listed twice or more under the literals of a cube. If no
/// index has the mark yet, the partners are exactly these, which no clause says.
pub fn partners_of(
    alloc: Global,
    spots: &IndexMap<Literal, Vec<usize>>,
    cube: &[Literal],
    marks: &mut [usize],
    mark: usize,
) -> Result<BTreeSet<usize>, AllocError>
    ensures { IfOk result (λ partners. (at : ℕ) → 2 ≤ many (λ place. place == at)
        (flat_map (told spots.now) cube.now) → contains nat_cmp partners at ≡ true) }
{
    let mut partners = BTreeSet::new(alloc);
    for literal in cube {
        meet_told(marks, &mut partners, mark, spots, literal)?;
    }
    Ok(partners)
}
