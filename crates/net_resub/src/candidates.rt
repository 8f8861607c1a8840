//! Which tables may divide which with a saving: a divisor's literals are among the inputs of its
//! dividend.
//!
//! Source: Brayton, Rudell, Sangiovanni-Vincentelli and Wang, "MIS: A Multiple-Level Logic
//! Optimization System" (1987). The divisors of a table are looked up in the lists under its
//! inputs, the dividends of a table among the fanouts of the rarest name it needs. Callers rely on
//! the lists to have every pair that saves a literal; they may have others.

ghost use Rattle.std.specs.Prelude.{◌≡◌, ◌<◌, ℕ, true, IfOk};
ghost use Rattle.net_readers.specs.Fanouts.{is_in};
ghost use Rattle.net_resub.specs.Candidates.{AreDivisors, AreDividends, is_by, is_with};
ghost use Rattle.net_resub.specs.Divisions.{AreJust};
ghost use Rattle.net_resub.specs.Listed.{AreListed};
ghost use Rattle.net_resub.specs.Pairs.{saving_at};

use crate::divisions::Division;
use crate::listed::{DivisorLists, rarest_name};
use cube_cover::Row;
use net_work::WorkingNetwork;
use std::alloc::{AllocError, Global};

// Indices in rising order, each once.
fn risen(places: Vec<usize>) -> Vec<usize>
    ensures { (at : ℕ) → is_in places.items at ≡ true → is_in result.items at ≡ true }
{
    let mut sorted = places;
    sorted.sort_unstable();
    sorted.dedup();
    sorted
}

// The indices of all tables by which division of the one at an index may save literals, and perhaps
// others.
fn divisors<R: Row>(
    alloc: Global,
    work: &WorkingNetwork<R>,
    place: usize,
    lists: &DivisorLists,
) -> Result<Vec<usize>, AllocError>
    requires { AreListed (λ at. true) work.now.slots lists.now }
    ensures { IfOk result (λ places. AreDivisors work.now.slots place places.items) }
{
    let mut places = Vec::new(alloc);
    match work.entry(place) {
        None => Ok(places),
        Some(entry) => {
            places.extend_from_slice(lists.unnamed.as_slice())?;
            lists.push_listed(entry.table.inputs.as_slice(), &mut places)?;
            Ok(risen(places))
        }
    }
}

// The first indices, so many.
fn first_places(alloc: Global, count: usize) -> Result<Vec<usize>, AllocError>
    ensures { IfOk result (λ places. (at : ℕ) → at < count → is_in places.items at ≡ true) }
{
    let mut places = Vec::new(alloc);
    for place in 0..count {
        places.push(place)?;
    }
    Ok(places)
}

// The indices of all tables that may be divided with a saving by the one at an index, and perhaps
// others.
fn dividends<R: Row>(
    alloc: Global,
    work: &WorkingNetwork<R>,
    by: usize,
) -> Result<Vec<usize>, AllocError>
    ensures { IfOk result (λ places. AreDividends work.now.slots by places.items) }
{
    match work.entry(by) {
        None => Ok(Vec::new(alloc)),
        Some(entry) => match rarest_name(work, entry) {
            None => first_places(alloc, work.len()),
            Some(name) => {
                let readers = work.readers(alloc, name)?;
                Ok(readers.into_vec())
            }
        },
    }
}

/// Divisions by the table at an index, among them all that save literals.
pub(crate) fn divisions_by<R: Row>(
    alloc: Global,
    work: &WorkingNetwork<R>,
    by: usize,
) -> Result<Vec<Division>, AllocError>
    ensures { IfOk result (λ divisions. AreJust (is_by by) (saving_at work.now.slots) divisions.items) }
{
    let places = dividends(alloc, work, by)?;
    let mut divisions = Vec::with_capacity(alloc, places.len())?;
    for place in places.as_slice() {
        divisions.push(Division { place: *place, by })?;
    }
    Ok(divisions)
}

/// Divisions with the table at an index on either side, among them all that save literals.
pub(crate) fn divisions_with<R: Row>(
    alloc: Global,
    work: &WorkingNetwork<R>,
    place: usize,
    lists: &DivisorLists,
) -> Result<Vec<Division>, AllocError>
    requires { AreListed (λ at. true) work.now.slots lists.now }
    ensures { IfOk result (λ divisions. AreJust (is_with place) (saving_at work.now.slots) divisions.items) }
{
    let places = divisors(alloc, work, place, lists)?;
    let mut divisions = divisions_by(alloc, work, place)?;
    for by in places.as_slice() {
        divisions.push(Division { place, by: *by })?;
    }
    Ok(divisions)
}
