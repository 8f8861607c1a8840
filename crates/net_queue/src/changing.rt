//! Changes of values, and with them of the order of ranks.
//!
//! Source: Cormen, Leiserson, Rivest and Stein, "Introduction to Algorithms", section 6.5. A key
//! whose rank changes is removed from the ordered set and inserted with its new rank; if the rank
//! stays the same the set is not changed. Invariant (`IsOrder`): the set has exactly the pairs of a
//! rank and a key that has it. Callers rely on it after each change, and on the value that a key
//! had before. After an error no clause says what the values and the order are.

ghost use Rattle.std.specs.Prelude.{◌≡◌, ◌+◌, ◌<◌, Option, Some, None, is_some, slice_get, if◌then◌else◌, IfOk, OnOk};
ghost use Rattle.std.specs.Option.{option_map_or};
ghost use Rattle.indexmap.specs.IndexMap.{get, index_map_len};
ghost use Rattle.net_queue.specs.Queue.{rank_in, IsOrder};

use crate::ranking::Ranking;
use indexmap::IndexMap;
use std::alloc::{AllocError, Global};
use std::collections::BTreeSet;
use std::hash::Hash;

// Sets the value of a key; returns the value it had.
fn set_value<K: Ord + Hash + Drop, V: Copy, R: Ord, P: Ranking<K, V, R>>(
    alloc: Global,
    values: &mut IndexMap<K, V>,
    key: &K,
    value: V,
) -> Result<Option<V>, AllocError>
    ensures before { IfOk result (λ before. before ≡ get K.eq values.old key.now) }
    ensures values { OnOk result ((other : K) → get K.eq values.new other
        ≡ (if K.eq key.now other then Some value else get K.eq values.old other)) }
{
    if let Some(place) = values.get_mut(key) {
        let before = *place;
        *place = value;
        return Ok(Some(before));
    }
    let copied = P::copy(alloc, key)?;
    let _none = values.insert(copied, value)?;
    Ok(None)
}

// The rank of a key with a value, if it has one.
fn rank_of<K: Ord, V: Copy, R: Ord + Copy, P: Ranking<K, V, R>>(
    key: &K,
    value: Option<V>,
) -> Option<R>
    ensures { result ≡ option_map_or (P.rank_of key.now) value None }
{
    match value {
        None => None,
        Some(value) => P::rank(key, value),
    }
}

// Removes a key, whose rank is given, from an order; returns the key.
fn unrank<K: Ord + Drop, V, R: Ord + Copy, P: Ranking<K, V, R>>(
    order: &mut BTreeSet<(R, K)>,
    key: K,
    rank: Option<R>,
) -> K
    ensures same { result ≡ key }
    ensures order { (ranks : K → Option R) → IsOrder R.cmp K.cmp ranks order.old
        → ranks key ≡ rank → IsOrder R.cmp K.cmp (λ other. if K.eq key other then None else ranks other) order.new }
{
    match rank {
        None => key,
        Some(rank) => {
            let ranked = (rank, key);
            order.remove(&ranked);
            ranked.1
        }
    }
}

// Adds a key that has no rank to an order if it is given a rank.
fn rank<K: Ord + Drop, V, R: Ord + Copy, P: Ranking<K, V, R>>(
    order: &mut BTreeSet<(R, K)>,
    key: K,
    rank: Option<R>,
) -> Result<(), AllocError>
    ensures { OnOk result ((ranks : K → Option R) → IsOrder R.cmp K.cmp ranks order.old
        → ranks key ≡ None → IsOrder R.cmp K.cmp (λ other. if K.eq key other then rank else ranks other) order.new) }
{
    if let Some(rank) = rank {
        order.insert((rank, key))?;
    }
    Ok(())
}

// Changes the rank of a key in an order; either rank may be none.
fn rerank<K: Ord + Drop, V: Copy, R: Ord + Copy, P: Ranking<K, V, R>>(
    alloc: Global,
    order: &mut BTreeSet<(R, K)>,
    key: &K,
    before: Option<R>,
    after: Option<R>,
) -> Result<(), AllocError>
    ensures { OnOk result ((ranks : K → Option R) → IsOrder R.cmp K.cmp ranks order.old
        → ranks key.now ≡ before → IsOrder R.cmp K.cmp (λ other. if K.eq key.now other then after else ranks other) order.new) }
{
    if before == after {
        return Ok(());
    }
    let copied = P::copy(alloc, key)?;
    let taken = unrank::<K, V, R, P>(order, copied, before);
    rank::<K, V, R, P>(order, taken, after)
}

/// Sets the value of a key, and with it the rank; returns the value it had.
pub(crate) fn put<K: Ord + Hash + Drop, V: Copy, R: Ord + Copy, P: Ranking<K, V, R>>(
    alloc: Global,
    values: &mut IndexMap<K, V>,
    order: &mut BTreeSet<(R, K)>,
    key: &K,
    value: V,
) -> Result<Option<V>, AllocError>
    requires { IsOrder R.cmp K.cmp (rank_in K.eq P.rank_of values.old.entries) order.old }
    ensures before { IfOk result (λ before. before ≡ get K.eq values.old key.now) }
    ensures values { OnOk result ((other : K) → get K.eq values.new other
        ≡ (if K.eq key.now other then Some value else get K.eq values.old other)) }
    ensures order { OnOk result (IsOrder R.cmp K.cmp (rank_in K.eq P.rank_of values.new.entries) order.new) }
{
    let before = set_value::<K, V, R, P>(alloc, values, key, value)?;
    let was = rank_of::<K, V, R, P>(key, before);
    rerank::<K, V, R, P>(alloc, order, key, was, P::rank(key, value))?;
    Ok(before)
}

/// Removes the value of a key, and its rank; returns the value it had.
pub(crate) fn take<K: Ord + Hash + Drop, V: Copy, R: Ord + Copy, P: Ranking<K, V, R>>(
    values: &mut IndexMap<K, V>,
    order: &mut BTreeSet<(R, K)>,
    key: &K,
) -> Option<V>
    requires { IsOrder R.cmp K.cmp (rank_in K.eq P.rank_of values.old.entries) order.old }
    ensures before { result ≡ get K.eq values.old key.now }
    ensures values { (other : K) → get K.eq values.new other
        ≡ (if K.eq key.now other then None else get K.eq values.old other) }
    ensures len { index_map_len values.new + (if is_some result then 1 else 0)
        ≡ index_map_len values.old }
    ensures order { IsOrder R.cmp K.cmp (rank_in K.eq P.rank_of values.new.entries) order.new }
{
    match values.swap_remove_entry(key) {
        None => None,
        Some((own, value)) => {
            let rank = P::rank(&own, value);
            let _own = unrank::<K, V, R, P>(order, own, rank);
            Some(value)
        }
    }
}

// Gives the key at an index the rank that it has with another value.
fn rerank_at<K: Ord + Hash + Drop, V: Copy, R: Ord + Copy, P: Ranking<K, V, R>>(
    alloc: Global,
    values: &IndexMap<K, V>,
    order: &mut BTreeSet<(R, K)>,
    index: usize,
    value: V,
) -> Result<(), AllocError>
    ensures { OnOk result ((key : K) (before : V) → slice_get values.now.entries index
        ≡ Some (key, before)
        → IsOrder R.cmp K.cmp (rank_in K.eq P.rank_of values.now.entries) order.old
        → IsOrder R.cmp K.cmp (λ other. if K.eq key other then P.rank_of key value else rank_in K.eq P.rank_of values.now.entries other) order.new) }
{
    match values.get_index(index) {
        None => Ok(()),
        Some((key, before)) => {
            let was = P::rank(key, *before);
            rerank::<K, V, R, P>(alloc, order, key, was, P::rank(key, value))
        }
    }
}

/// Sets the value of the key at an index, and with it its rank.
pub(crate) fn put_at<K: Ord + Hash + Drop, V: Copy, R: Ord + Copy, P: Ranking<K, V, R>>(
    alloc: Global,
    values: &mut IndexMap<K, V>,
    order: &mut BTreeSet<(R, K)>,
    index: usize,
    value: V,
) -> Result<(), AllocError>
    requires within { index < index_map_len values.old }
    requires order { IsOrder R.cmp K.cmp (rank_in K.eq P.rank_of values.old.entries) order.old }
    ensures values { OnOk result ((key : K) (before : V) → slice_get values.old.entries index
        ≡ Some (key, before) → (other : K) → get K.eq values.new other
        ≡ (if K.eq key other then Some value else get K.eq values.old other)) }
    ensures order { OnOk result (IsOrder R.cmp K.cmp (rank_in K.eq P.rank_of values.new.entries) order.new) }
{
    rerank_at::<K, V, R, P>(alloc, values, order, index, value)?;
    if let Some(place) = values.get_index_mut(index) {
        *place = value;
    }
    Ok(())
}

// The rank that the key at an index has, if it has one.
fn rank_at<K: Ord + Hash, V: Copy, R: Ord + Copy, P: Ranking<K, V, R>>(
    values: &IndexMap<K, V>,
    index: usize,
) -> Option<R>
    ensures { (key : K) (value : V) → slice_get values.now.entries index ≡ Some (key, value)
        → rank_in K.eq P.rank_of values.now.entries key ≡ result }
{
    match values.get_index(index) {
        None => None,
        Some((key, value)) => P::rank(key, *value),
    }
}

/// Removes the value of the key at an index, and its rank.
pub(crate) fn take_at<K: Ord + Hash + Drop, V: Copy, R: Ord + Copy, P: Ranking<K, V, R>>(
    values: &mut IndexMap<K, V>,
    order: &mut BTreeSet<(R, K)>,
    index: usize,
)
    requires { IsOrder R.cmp K.cmp (rank_in K.eq P.rank_of values.old.entries) order.old }
    ensures values { (key : K) (before : V) → slice_get values.old.entries index
        ≡ Some (key, before) → (other : K) → get K.eq values.new other
        ≡ (if K.eq key other then None else get K.eq values.old other) }
    ensures order { IsOrder R.cmp K.cmp (rank_in K.eq P.rank_of values.new.entries) order.new }
{
    let rank = rank_at::<K, V, R, P>(values, index);
    if let Some((own, _value)) = values.swap_remove_index(index) {
        let _own = unrank::<K, V, R, P>(order, own, rank);
    }
}
