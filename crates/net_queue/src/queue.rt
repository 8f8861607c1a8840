//! The priority queue: a hash map of values, and an ordered set of the keys that have a rank.
//!
//! Source: Cormen, Leiserson, Rivest and Stein, "Introduction to Algorithms", section 6.5.
//! Invariant: the ordered set has exactly the pairs of a rank and a key that has it (`IsOrder`).
//! Callers rely on `get` for the value that was set last, on `order` to list the ranked keys in
//! rising order, and on `first` for the least of them. After an error the queue is empty.

ghost use Rattle.std.specs.Prelude.{◌≡◌, ◌+◌, ◌<◌, Option, Some, None, is_some, slice_get, List, [], length, if◌then◌else◌, IfOk, OnOk, OnErr};
ghost use Rattle.std.specs.Option.{option_map};
ghost use Rattle.net_queue.specs.Queue.{value_in, rank_in, AreRanked, IsFirst};

use crate::changing::{put, put_at, take, take_at};
use crate::ranking::Ranking;
use indexmap::IndexMap;
use std::alloc::{AllocError, Global};
use std::collections::BTreeSet;
use std::hash::Hash;
use std::marker::{Model, PhantomData};

/// Values by key, and the keys in the order of their ranks. Contracts see the list of the keys and
/// their values.
#[derive(Drop)]
pub struct Queue<K: Ord + Hash + Drop, V: Copy, R: Ord + Copy, P: Ranking<K, V, R>> {
    values: IndexMap<K, V>,
    order: BTreeSet<(R, K)>,
    ranking: PhantomData<P>,
}

impl<K: Ord + Hash + Drop, V: Copy, R: Ord + Copy, P: Ranking<K, V, R>> Model
    for Queue<K, V, R, P> {
    ghost use Rattle.std.specs.Prelude.{List};
    ghost use Rattle.net_queue.specs.Queue.{rank_in, IsOrder};

    ghost Value = { List (K × V) };

    ghost view = { λ q. q.values.entries };

    ghost invariant = { λ q. IsOrder R.cmp K.cmp (rank_in K.eq P.rank_of q.values.entries) q.order };
}

impl<K: Ord + Hash + Drop, V: Copy, R: Ord + Copy, P: Ranking<K, V, R>> Queue<K, V, R, P> {
    /// A queue in which no key has a value. Allocates nothing.
    pub fn new(alloc: Global) -> Queue<K, V, R, P>
        ensures { result ≡ [] }
    {
        Queue {
            values: IndexMap::new(alloc),
            order: BTreeSet::new(alloc),
            ranking: PhantomData,
        }
    }

    /// The number of keys that have a value.
    pub fn len(&self) -> usize
        ensures { result ≡ length self.now }
    {
        self.values.len()
    }

    /// The value of a key, if it has one.
    pub fn get(&self, key: &K) -> Option<V>
        ensures { result ≡ value_in K.eq self.now key.now }
    {
        self.values.get(key).copied()
    }

    /// The keys with their values, to look one up by index or by a borrowed form of the key.
    pub fn values(&self) -> &IndexMap<K, V>
        ensures { result.now.entries ≡ self.now }
    {
        &self.values
    }

    /// The keys that have a rank, each with its rank: the least rank first, and of equal ranks the
    /// least key.
    pub fn order(&self) -> &BTreeSet<(R, K)>
        ensures { AreRanked R.cmp K.cmp (rank_in K.eq P.rank_of self.now) result.now.keys }
    {
        let _ascending = self.order.len();
        &self.order
    }

    /// The key of least rank, and of equal ranks the least key; none if no key has a rank.
    pub fn first(&self) -> Option<&K>
        ensures { IsFirst R.cmp K.cmp (rank_in K.eq P.rank_of self.now)
            (option_map (λ key. key.now) result) }
    {
        match self.order.first() {
            None => None,
            Some(ranked) => Some(&ranked.1),
        }
    }

    /// Sets the value of a key; returns the value it had, if any. After an error the queue is
    /// empty.
    pub fn set(&mut self, alloc: Global, key: &K, value: V) -> Result<Option<V>, AllocError>
        ensures before { IfOk result (λ before. before ≡ value_in K.eq self.old key.now) }
        ensures values { OnOk result ((other : K) → value_in K.eq self.new other
            ≡ (if K.eq key.now other then Some value else value_in K.eq self.old other)) }
        ensures err { OnErr result (self.new ≡ []) }
    {
        match put::<K, V, R, P>(alloc, &mut self.values, &mut self.order, key, value) {
            Ok(before) => Ok(before),
            Err(fault) => {
                self.values.clear();
                self.order.clear();
                Err(fault)
            }
        }
    }

    /// Removes the value of a key; returns the value it had, if any.
    pub fn remove(&mut self, key: &K) -> Option<V>
        ensures before { result ≡ value_in K.eq self.old key.now }
        ensures values { (other : K) → value_in K.eq self.new other
            ≡ (if K.eq key.now other then None else value_in K.eq self.old other) }
        ensures len { length self.new + (if is_some result then 1 else 0) ≡ length self.old }
    {
        take::<K, V, R, P>(&mut self.values, &mut self.order, key)
    }

    /// Sets the value of the key at an index of `values`. After an error the queue is empty.
    pub fn set_index(&mut self, alloc: Global, index: usize, value: V) -> Result<(), AllocError>
        requires { index < length self.old }
        ensures values { OnOk result ((key : K) (before : V) → slice_get self.old index
            ≡ Some (key, before) → (other : K) → value_in K.eq self.new other
            ≡ (if K.eq key other then Some value else value_in K.eq self.old other)) }
        ensures err { OnErr result (self.new ≡ []) }
    {
        match put_at::<K, V, R, P>(alloc, &mut self.values, &mut self.order, index, value) {
            Ok(()) => Ok(()),
            Err(fault) => {
                self.values.clear();
                self.order.clear();
                Err(fault)
            }
        }
    }

    /// Removes the value of the key at an index of `values`.
    pub fn remove_index(&mut self, index: usize)
        ensures { (key : K) (before : V) → slice_get self.old index ≡ Some (key, before)
            → (other : K) → value_in K.eq self.new other
            ≡ (if K.eq key other then None else value_in K.eq self.old other) }
    {
        take_at::<K, V, R, P>(&mut self.values, &mut self.order, index)
    }

    /// Removes all values.
    pub fn clear(&mut self)
        ensures { self.new ≡ [] }
    {
        self.values.clear();
        self.order.clear();
    }
}
