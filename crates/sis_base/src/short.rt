//! An owned list that keeps up to `N` items in itself and more than those in memory of its own: for
//! names and rows, most of which are short.
//!
//! A contract sees a `Short<T, N>` as the list of its items in order; where they are stored is not
//! part of the contents. `new` and `from_vec` take no memory. A `push` that runs out of memory
//! leaves the list as it was and gives the item back. `Name`, the bytes of a word, keeps 22 of them
//! in itself.

ghost use Rattle.std.specs.Prelude.{◌≡◌, ◌==◌, ◌<◌, ◌++◌, ◌∷◌, [], length, slice_set, IfOk, OnOk, OnErr, IfErr};

use crate::sequence::Copied;
use smallvec::SmallVec;
use std::alloc::{AllocError, AllocFailed, Global};
use std::default::MadeWith;
use std::fmt;
use std::hash::{Hash, Hasher};
use std::marker::Model;

/// An owned list, short ones without an allocation. Contracts see it as the list of its items.
pub struct Short<T, const N: usize> {
    items: SmallVec<T, N>,
}

// Written by hand, so that dropping a name is one call in the functions that own names, and not a
// choice of where its items are stored.
impl<T: Drop, const N: usize> Drop for Short<T, N> {
    fn drop(self) {
        let Short { items: _items } = self;
    }
}

/// A name: the bytes of a word.
pub type Name = Short<u8, 22>;

impl<T, const N: usize> Model for Short<T, N> {
    ghost use Rattle.std.specs.Prelude.{List};

    ghost Value = { List T };

    ghost view = { λ s. s.items.items };
}

impl<T, const N: usize> Short<T, N> {
    /// The items, in order.
    #[inline]
    pub fn as_slice(&self) -> &[T]
        ensures { result.now ≡ self.now }
    {
        self.items.as_slice()
    }

    /// How many items there are.
    #[inline]
    pub fn len(&self) -> usize
        ensures { result ≡ length self.now }
    {
        self.items.len()
    }

    /// Whether there is no item.
    #[inline]
    pub fn is_empty(&self) -> bool
        ensures { result ≡ (length self.now == 0) }
    {
        self.items.is_empty()
    }
}

impl<T: MadeWith<Global> + Copy + Drop, const N: usize> Short<T, N> {
    /// The list without items; takes no memory.
    #[inline]
    pub fn new(alloc: Global) -> Self
        ensures { result ≡ [] }
    {
        Short {
            items: SmallVec::new(alloc),
        }
    }

    /// The list of a vector's items; takes no memory.
    pub fn from_vec(items: Vec<T>) -> Self
        ensures { result ≡ items.items }
    {
        Short {
            items: SmallVec::from_vec(items),
        }
    }

    /// The list without items, with room for so many.
    #[inline]
    pub fn with_capacity(alloc: Global, count: usize) -> Result<Self, AllocError>
        ensures { IfOk result (λ made. made ≡ []) }
    {
        Ok(Short {
            items: SmallVec::with_capacity(alloc, count)?,
        })
    }

    /// The list of a slice's items.
    #[inline]
    pub fn from_slice(alloc: Global, items: &[T]) -> Result<Self, AllocError>
        ensures { IfOk result (λ made. made ≡ items.now) }
    {
        Ok(Short {
            items: SmallVec::from_slice(alloc, items)?,
        })
    }

    /// Appends an item. On an error the list stays as it was, and the error gives the item back.
    #[inline]
    pub fn push(&mut self, item: T) -> Result<(), AllocFailed<T>>
        ensures ok { OnOk result (self.new ≡ self.old ++ item ∷ []) }
        ensures err { OnErr result (self.new ≡ self.old) }
        ensures given_back { IfErr result (λ failed. failed.value ≡ item) }
    {
        self.items.push(item)
    }

    /// Replaces the item at an index, counted from 0; the other items stay.
    #[inline]
    pub fn set(&mut self, index: usize, item: T)
        requires { index < length self.old }
        ensures { self.new ≡ slice_set self.old index item }
    {
        self.items.as_mut_slice()[index] = item;
    }
}

impl<T: MadeWith<Global> + Copy + Drop, const N: usize> Copied for Short<T, N> {
    #[inline]
    fn copy(&self, alloc: Global) -> Result<Self, AllocError> {
        Short::from_slice(alloc, self.as_slice())
    }
}

impl<T: PartialEq, const N: usize> PartialEq for Short<T, N> {
    ghost use Rattle.std.specs.Cmp.Lexicographic.{pointwise, lists_per};

    ghost eq = { λ x y. pointwise T.eq x y };

    ghost laws = { lists_per T.laws };

    fn eq(&self, other: &Self) -> bool {
        self.as_slice() == other.as_slice()
    }
}

impl<T: Eq, const N: usize> Eq for Short<T, N> {
    ghost use Rattle.std.specs.Cmp.Lexicographic.{lists_equiv};

    ghost laws = { lists_equiv T.Eq.laws };
}

impl<T: Hash, const N: usize> Hash for Short<T, N> {
    ghost use Rattle.std.specs.Hash as fed;
    ghost use Rattle.std.specs.Hash.{items_Alike};

    ghost hash_input = { λ v. fed.slice T.hash_input v };

    ghost respects_eq = { (items_Alike (record { fed = T.respects_eq })).fed };

    fn hash<H: Hasher>(&self, state: &mut H) {
        self.as_slice().hash(state);
    }
}

impl<T: fmt::Debug, const N: usize> fmt::Debug for Short<T, N> {
    fn fmt<W: fmt::Write>(&self, f: &mut fmt::Formatter<W>) -> fmt::Result {
        self.as_slice().fmt(f)
    }
}
