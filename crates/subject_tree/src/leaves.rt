//! The leaves of subject trees: names, each with an index, in the order in which they were first
//! met.
//!
//! Invariant: no name has two indices. Callers rely on `KeepsNames`: an index keeps its name,
//! whatever is added and whatever the answer. Leaves compare by name, not by index, so the order of
//! trees does not depend on the order in which names were met.

ghost use Rattle.std.specs.Prelude.{◌≡◌, ◌==◌, ◌<◌, ℕ, true, Some, [], List, length, slice_get, option_copied, IfOk};
ghost use Rattle.circuit_model.specs.Names.{all_different};
ghost use Rattle.subject_tree.specs.Order.{name_at, place_cmp, KeepsNames};

use circuit_model::Name;
use indexmap::IndexSet;
use std::alloc::{AllocError, Global};
use std::cmp::Ordering;
use std::marker::Model;

/// Names, each with an index of its own. Contracts see them as the list of the names. After an
/// error all indices keep their names.
#[derive(Drop)]
pub struct Leaves {
    names: IndexSet<Name>,
}

impl Model for Leaves {
    ghost use Rattle.std.specs.Prelude.{◌≡◌, ℕ, List, true};
    ghost use Rattle.circuit_model.specs.Names.{all_different};

    ghost Value = { List (List ℕ) };

    ghost view = { λ l. l.names.keys };

    ghost invariant = { λ l. all_different l.names.keys ≡ true };
}

impl Leaves {
    /// No leaves; takes no memory.
    pub fn new(alloc: Global) -> Leaves
        ensures { result ≡ [] }
    {
        Leaves {
            names: IndexSet::new(alloc),
        }
    }

    /// The number of names; all lower indices are taken.
    pub fn len(&self) -> usize
        ensures { result ≡ length self.now }
    {
        self.names.len()
    }

    /// Whether there is no name.
    pub fn is_empty(&self) -> bool
        ensures { result ≡ (length self.now == 0) }
    {
        self.names.len() == 0
    }

    /// States the invariant of all leaves: no name has two indices.
    pub fn sound(&self)
        ensures { all_different self.now ≡ true }
    {
        let _names = &self.names;
    }

    /// The name at an index; none past the last.
    pub fn name(&self, place: usize) -> Option<&Name>
        ensures { option_copied result ≡ slice_get self.now place }
    {
        self.names.get_index(place)
    }

    /// The index of a name: a new one if the name had none.
    pub fn place_of(&mut self, name: Name) -> Result<usize, AllocError>
        ensures ok { IfOk result (λ place. slice_get self.new place ≡ Some name) }
        ensures kept { KeepsNames self.old self.new }
    {
        let (place, _) = self.names.insert_full(name)?;
        Ok(place)
    }

    // The bytes of the name at an index; none past the last.
    fn bytes(&self, place: usize) -> &[u8]
        ensures { result.now ≡ name_at self.now place }
    {
        match self.name(place) {
            Some(name) => name.as_slice(),
            None => &[],
        }
    }

    /// How two indices compare: by their names, and if both have one name, as past the last, by the
    /// indices.
    pub fn compare(&self, left: usize, right: usize) -> Ordering
        ensures { result ≡ place_cmp self.now left right }
    {
        self.bytes(left)
            .cmp(self.bytes(right))
            .then(left.cmp(&right))
    }
}
