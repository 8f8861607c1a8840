//! A map from the names of signals to the numbers of their functions.
//!
//! `Numbers` itself does not say what a number means: that is in `specs/Numbering.antt`
//! (`AreRight`, `AreAll`, `AreSome`), for an object whose numbers they are. Inserting a number for
//! a name that has one replaces it. `new` and `clear` allocate nothing.

ghost use Rattle.std.specs.Prelude.{◌≡◌, ℕ, true, Some, None, List, map, bytes_eq, if◌then◌else◌, IfOk, OnOk};
ghost use Rattle.std.specs.List.{list_all};
ghost use Rattle.net_func.specs.Numbering.{number_in, has_number, IsListing};

use circuit_model::Name;
use func_core::Func;
use indexmap::IndexMap;
use sis_base::{Copied, Sequence};
use std::alloc::{AllocError, Global};

/// Names, each with the number of its function.
pub type Numbered = Sequence<(Name, Func)>;

/// The numbers of functions, by the names of their signals.
pub(crate) struct Numbers {
    by_name: IndexMap<Name, Func>,
}

// Written out, so that a function that owns numbers drops them in one call.
impl Drop for Numbers {
    fn drop(self) {
        let Numbers { by_name: _by_name } = self;
    }
}

impl Numbers {
    /// No numbers; allocates nothing.
    pub(crate) fn new(alloc: Global) -> Numbers
        ensures { (name : List ℕ) → number_in result name ≡ None }
    {
        Numbers {
            by_name: IndexMap::new(alloc),
        }
    }

    /// The number of a name, if it has one.
    pub(crate) fn get(&self, name: &Name) -> Option<Func>
        ensures { result ≡ number_in self.now name.now }
    {
        self.by_name.get(name).copied()
    }

    /// Sets the number of a name.
    pub(crate) fn insert(
        &mut self,
        alloc: Global,
        name: &Name,
        number: Func,
    ) -> Result<(), AllocError>
        ensures { OnOk result ((other : List ℕ) → number_in self.new other
            ≡ (if bytes_eq name.now other then Some number else number_in self.old other)) }
    {
        let _number = self.by_name.insert(name.copy(alloc)?, number)?;
        Ok(())
    }

    /// Removes all numbers; allocates nothing.
    pub(crate) fn clear(&mut self)
        ensures { (name : List ℕ) → number_in self.new name ≡ None }
    {
        self.by_name.clear();
    }

    /// The number of a name that has one.
    pub(crate) fn known(&self, name: &Name) -> Func
        requires { has_number (number_in self.now) name.now ≡ true }
        ensures { number_in self.now name.now ≡ Some result }
    {
        match self.get(name) {
            Some(number) => number,
            None => unreachable!(),
        }
    }

    /// Whether all names have numbers.
    pub(crate) fn know(&self, names: &[Name]) -> bool
        ensures { result ≡ list_all (has_number (number_in self.now)) names.now }
    {
        names.iter().all(|name| self.get(name).is_some())
    }

    /// The numbers of names that all have one.
    pub(crate) fn all_known(&self, alloc: Global, names: &[Name]) -> Result<Vec<Func>, AllocError>
        requires { list_all (has_number (number_in self.now)) names.now ≡ true }
        ensures { IfOk result (λ numbers. map Some numbers.items
            ≡ map (number_in self.now) names.now) }
    {
        let mut numbers = Vec::with_capacity(alloc, names.len())?;
        for name in names {
            numbers.push(self.known(name))?;
        }
        Ok(numbers)
    }

    /// Names with their numbers, in order.
    pub(crate) fn listed(&self, alloc: Global, names: &[Name]) -> Result<Numbered, AllocError>
        requires { list_all (has_number (number_in self.now)) names.now ≡ true }
        ensures { IfOk result (λ list. IsListing (number_in self.now) names.now list) }
    {
        let mut list = Vec::with_capacity(alloc, names.len())?;
        for name in names {
            list.push((name.copy(alloc)?, self.known(name)))?;
        }
        Ok(Sequence::from_vec(list))
    }
}
