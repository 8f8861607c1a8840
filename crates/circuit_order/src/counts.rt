//! For each table the count of inputs that it still waits for, and the set of tables that wait for
//! none (Kahn, 1962).
//!
//! `settle` is the step after a table is listed: it decrements the counts of its fanouts, once for
//! each read, and adds those that reach 0 to the ready set. The clauses say which indices the set
//! then contains and what each count is. `pop_least` removes the least ready index, so that
//! `order` lists the first table that is ready.

ghost use Rattle.std.specs.Prelude.{◌≡◌, true, false, if◌then◌else◌, IfSome, IfNone, ◌+◌, ◌-◌, ◌<◌, ◌≤◌, ◌==◌, ◌&&◌, ◌||◌, ℕ, length, slice_get, slice_index_or, slice_set, IfOk, OnOk};
ghost use Rattle.std.specs.List.{list_any};
ghost use Rattle.std.specs.Ordering.{nat_cmp};
ghost use Rattle.std.specs.BTreeSet.{contains};
ghost use Rattle.circuit_order.specs.Places.{times, is_done};

use std::alloc::{AllocError, Global};
use std::collections::BTreeSet;

/// Decrements the count at an index.
fn take_one(counts: &mut [usize], place: usize)
    requires within { place < length counts.old }
    requires some { 1 ≤ slice_index_or counts.old place 0 }
    ensures { counts.new ≡ slice_set counts.old place (slice_index_or counts.old place 0 - 1) }
{
    counts[place] -= 1;
}

/// Decrements the count at each of some indices, once for each occurrence.
fn count_down(counts: &mut [usize], places: &[usize])
    requires { (i : ℕ) → times i places.now ≤ slice_index_or counts.old i 0 }
    ensures length { length counts.new ≡ length counts.old }
    ensures counts { (i : ℕ) → slice_index_or counts.new i 0 + times i places.now
        ≡ slice_index_or counts.old i 0 }
{
    for place in places {
        take_one(counts, *place);
    }
}

/// Whether the count at an index is 0.
fn is_zero(counts: &[usize], place: usize) -> bool
    ensures { result ≡ is_done (slice_get counts.now place) }
{
    counts.get(place) == Some(&0)
}

/// Adds an index to the ready ones, if it is admitted.
fn admit(ready: &mut BTreeSet<usize>, place: usize, is_admitted: bool) -> Result<(), AllocError>
    ensures { OnOk result ((i : ℕ) → contains nat_cmp ready.new i
        ≡ (contains nat_cmp ready.old i || (is_admitted && place == i))) }
{
    if is_admitted {
        ready.insert(place)?;
    }
    Ok(())
}

/// Adds those indices to the ready ones at which the count is 0.
fn admit_done(
    ready: &mut BTreeSet<usize>,
    counts: &[usize],
    places: &[usize],
) -> Result<(), AllocError>
    ensures { OnOk result ((i : ℕ) → contains nat_cmp ready.new i
        ≡ (contains nat_cmp ready.old i || (is_done (slice_get counts.now i) && list_any
        (λ place. place == i) places.now))) }
{
    for place in places {
        admit(ready, *place, is_zero(counts, *place))?;
    }
    Ok(())
}

/// Decrements the count at each of some indices, once for each occurrence, and adds those whose
/// count is then 0 to the ready ones.
pub fn settle(
    ready: &mut BTreeSet<usize>,
    counts: &mut Vec<usize>,
    places: &[usize],
) -> Result<(), AllocError>
    requires { (i : ℕ) → times i places.now ≤ slice_index_or counts.old.items i 0 }
    ensures length { OnOk result (length counts.new.items ≡ length counts.old.items) }
    ensures counts { OnOk result ((i : ℕ) → slice_index_or counts.new.items i 0 + times i places.now
        ≡ slice_index_or counts.old.items i 0) }
    ensures ready { OnOk result ((i : ℕ) → contains nat_cmp ready.new i
        ≡ (contains nat_cmp ready.old i || (is_done (slice_get counts.new.items i) && list_any
        (λ place. place == i) places.now))) }
{
    count_down(counts.as_mut_slice(), places);
    admit_done(ready, counts.as_slice(), places)
}

/// The indices at which the count is 0.
pub fn done_places(alloc: Global, counts: &[usize]) -> Result<BTreeSet<usize>, AllocError>
    ensures { IfOk result (λ ready. (i : ℕ) → contains nat_cmp ready i ≡ is_done
        (slice_get counts.now i)) }
{
    let mut ready = BTreeSet::new(alloc);
    for (place, count) in counts.iter().enumerate() {
        admit(&mut ready, place, *count == 0)?;
    }
    Ok(ready)
}

/// Removes and returns the least ready index, if there is one.
#[tactic(auto, using(crate::proofs::Keys::same_key, std::proofs::lemmas::Map::Keys::le_from_not_gt))]
pub fn pop_least(ready: &mut BTreeSet<usize>) -> Option<usize>
    ensures among { IfSome result (λ place. contains nat_cmp ready.old place ≡ true) }
    ensures least { IfSome result (λ place. (i : ℕ) → i < place → contains nat_cmp ready.old i
        ≡ false) }
    ensures left { IfSome result (λ place. (i : ℕ) → contains nat_cmp ready.new i
        ≡ (if place == i then false else contains nat_cmp ready.old i)) }
    ensures none { IfNone result ((i : ℕ) → contains nat_cmp ready.old i ≡ false) }
{
    ready.pop_first()
}
