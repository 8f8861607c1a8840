//! The candidates that tables give by themselves, listed by index, if they are known.
//!
//! An entry without a list is unknown, not empty: it must be listed again.

ghost use Rattle.std.specs.Prelude.{◌≡◌, ◌↔◌, Some, None, slice_get, slice_set, IsTrue, IfSome};
ghost use Rattle.net_savings.specs.Listing.{IsListed};

use crate::cover_set::CoverSet;

/// What the tables at indices give by themselves; none if it is not known.
pub(crate) type OwnLists = Vec<Option<CoverSet>>;

/// Removes and returns what was known for an index.
pub(crate) fn taken(lists: &mut OwnLists, place: usize) -> Option<CoverSet>
    ensures value { IfSome result (λ covers. slice_get lists.old.items place ≡ Some (Some covers)) }
    ensures rest { lists.new.items ≡ slice_set lists.old.items place None }
{
    if place < lists.len() {
        lists[place].take()
    } else {
        None
    }
}

/// Whether what the table at an index gives by itself is listed.
pub(crate) fn is_listed(own: &OwnLists, place: usize) -> bool
    ensures { IsTrue result ↔ IsListed own.now.items place }
{
    match own.get(place) {
        None => false,
        Some(None) => false,
        Some(Some(_covers)) => true,
    }
}

/// Sets what the table at an index gives by itself, if there is such an index.
pub(crate) fn put_list(own: &mut OwnLists, place: usize, covers: CoverSet)
    ensures { own.new.items ≡ slice_set own.old.items place (Some covers) }
{
    if place < own.len() {
        own[place] = Some(covers);
    }
}
