//! For each literal the indices of the cubes that have it, of the cubes listed so far.
//!
//! Source: the project's own. An index is listed under a literal at least as often as the cube
//! there has it; that it is listed no oftener no clause says.

ghost use Rattle.std.specs.Prelude.{◌≡◌, ◌++◌, ◌∷◌, [], None, Some, if◌then◌else◌, OnOk};
ghost use Rattle.indexmap.specs.IndexMap.{get};
ghost use Rattle.net_candidates.specs.Candidates.{same_literal};
ghost use Rattle.cover_names.specs.declared.literal.Literal.{Literal};
ghost use Rattle.net_candidates.specs.Spots.{places_in, told, AreTold};

use cover_names::Literal;
use indexmap::IndexMap;
use sis_base::Copied;
use std::alloc::{AllocError, Global};

// Removes and returns the indices of a literal; none if it has none.
fn take_places(
    alloc: Global,
    spots: &mut IndexMap<Literal, Vec<usize>>,
    literal: &Literal,
) -> Vec<usize>
    ensures places { result.items ≡ places_in (get same_literal spots.old literal.now) }
    ensures rest { (other : Literal) → get same_literal spots.new other
        ≡ (if same_literal literal.now other then None else get same_literal spots.old other) }
{
    match spots.swap_remove(literal) {
        Some(places) => places,
        None => Vec::new(alloc),
    }
}

// Sets the indices of a literal.
fn put_places(
    spots: &mut IndexMap<Literal, Vec<usize>>,
    literal: Literal,
    places: Vec<usize>,
) -> Result<(), AllocError>
    ensures { OnOk result ((other : Literal) → get same_literal spots.new other
        ≡ (if same_literal literal other then Some places else get same_literal spots.old other)) }
{
    let _places = spots.insert(literal, places)?;
    Ok(())
}

// Lists an index under a literal.
fn tell(
    alloc: Global,
    spots: &mut IndexMap<Literal, Vec<usize>>,
    literal: &Literal,
    place: usize,
) -> Result<(), AllocError>
    ensures { OnOk result ((other : Literal) → told spots.new other
        ≡ (if same_literal literal.now other then told spots.old other ++ place ∷ [] else told
        spots.old other)) }
{
    let key = literal.copy(alloc)?;
    let mut places = take_places(alloc, spots, literal);
    places.push(place)?;
    put_places(spots, key, places)
}

/// Lists an index under each of the literals of a cube.
pub fn tell_all(
    alloc: Global,
    spots: &mut IndexMap<Literal, Vec<usize>>,
    cube: &[Literal],
    place: usize,
) -> Result<(), AllocError>
    ensures { OnOk result (AreTold cube.now place (told spots.old) (told spots.new)) }
{
    for literal in cube {
        tell(alloc, spots, literal, place)?;
    }
    Ok(())
}
