//! All ways to split a list of indices in two parts, in order.
//!
//! Callers rely on `all_partings`: each index goes to the first part or to the second, and either
//! may be empty. There are 2^n of them; the lists are the at most six operands of a gate.

ghost use Rattle.std.specs.Prelude.{◌≡◌, ◌∷◌, ◌++◌, [], map, IfOk};
ghost use Rattle.pattern_set.specs.Lists.{with_first, with_second, partings as all_partings};

use sis_base::Sequence;
use std::alloc::{AllocError, Global};

/// Indices, each in one of two parts.
#[derive(Drop)]
pub struct Parting {
    pub first: Sequence<usize>,
    pub second: Sequence<usize>,
}

/// An index before others.
pub fn put_front(
    alloc: Global,
    place: usize,
    places: &[usize],
) -> Result<Sequence<usize>, AllocError>
    ensures { IfOk result (λ made. made ≡ place ∷ places.now) }
{
    let mut made = Vec::with_capacity(alloc, 6)?;
    made.push(place)?;
    made.extend_from_slice(places)?;
    Ok(Sequence::from_vec(made))
}

/// A copy of indices.
fn copy_places(alloc: Global, places: &[usize]) -> Result<Sequence<usize>, AllocError>
    ensures { IfOk result (λ made. made ≡ places.now) }
{
    Ok(Sequence::from_vec(Vec::from_slice(alloc, places)?))
}

/// A parting with one more index in its first part.
fn first_more(alloc: Global, place: usize, parting: &Parting) -> Result<Parting, AllocError>
    ensures { IfOk result (λ made. made ≡ with_first place parting.now) }
{
    let first = put_front(alloc, place, parting.first.as_slice())?;
    let second = copy_places(alloc, parting.second.as_slice())?;
    Ok(Parting { first, second })
}

/// A parting with one more index in its second part.
fn second_more(alloc: Global, place: usize, parting: &Parting) -> Result<Parting, AllocError>
    ensures { IfOk result (λ made. made ≡ with_second place parting.now) }
{
    let first = copy_places(alloc, parting.first.as_slice())?;
    let second = put_front(alloc, place, parting.second.as_slice())?;
    Ok(Parting { first, second })
}

/// Each parting with one more index: first those that have it in the first part.
fn partings_with(
    alloc: Global,
    place: usize,
    partings: &[Parting],
) -> Result<Vec<Parting>, AllocError>
    ensures { IfOk result (λ made. made.items ≡ map (with_first place) partings.now ++ map
        (with_second place) partings.now) }
{
    let mut made = Vec::new(alloc);
    for parting in partings {
        made.push(first_more(alloc, place, parting)?)?;
    }
    for other in partings {
        made.push(second_more(alloc, place, other)?)?;
    }
    Ok(made)
}

/// The parting of no indices.
#[tactic(auto, unfolding(crate::specs::Lists::partings))]
fn no_places(alloc: Global) -> Result<Vec<Parting>, AllocError>
    ensures { IfOk result (λ made. made.items ≡ all_partings []) }
{
    let mut made = Vec::new(alloc);
    made.push(Parting {
        first: Sequence::new(alloc),
        second: Sequence::new(alloc),
    })?;
    Ok(made)
}

/// All ways to split indices in two parts.
pub fn partings(alloc: Global, places: &[usize]) -> Result<Vec<Parting>, AllocError>
    ensures { IfOk result (λ made. made.items ≡ all_partings places.now) }
{
    let mut made = no_places(alloc)?;
    let mut place = places.len();
    while place > 0 {
        place -= 1;
        made = partings_with(alloc, places[place], made.as_slice())?;
    }
    Ok(made)
}
