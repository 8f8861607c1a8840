//! A set of borrowed names that keeps the order of insertion. Names are looked up by their bytes,
//! which are not copied.

ghost use Rattle.std.specs.Prelude.{◌≡◌, not, [], IfOk, OnOk};
ghost use Rattle.circuit_model.specs.Names.{has};
ghost use Rattle.circuit_checks.specs.Sets.{with_name, Alike};

use circuit_model::Name;
use indexmap::IndexSet;
use std::alloc::{AllocError, Global};
use std::marker::Model;

/// Distinct names; contracts see the list of them in the order of insertion.
pub struct NameSet<'a> {
    names: IndexSet<&'a [u8]>,
}

// By hand, so that functions that own a set drop it in one call.
impl<'a> Drop for NameSet<'a> {
    fn drop(self) {
        let NameSet { names: _names } = self;
    }
}

impl<'a> Model for NameSet<'a> {
    ghost use Rattle.std.specs.Prelude.{List, ℕ, map};

    ghost Value = { List (List ℕ) };

    ghost view = { λ set. map (λ name. name.now) set.names.keys };
}

impl<'a> NameSet<'a> {
    /// The empty set; allocates nothing.
    pub fn new(alloc: Global) -> Self
        ensures { result ≡ [] }
    {
        NameSet {
            names: IndexSet::new(alloc),
        }
    }

    /// The set of some names.
    pub fn of_names(alloc: Global, names: &'a [Name]) -> Result<NameSet<'a>, AllocError>
        ensures { IfOk result (λ set. Alike set names.now) }
    {
        let mut set = NameSet::new(alloc);
        for name in names {
            let _added = set.add(name)?;
        }
        Ok(set)
    }

    /// Whether a name is in the set.
    pub fn holds(&self, name: &Name) -> bool
        ensures { result ≡ has self.now name.now }
    {
        self.names.contains(name.as_slice())
    }

    /// Adds a name that is not in the set yet. Returns whether it was added.
    pub fn add(&mut self, name: &'a Name) -> Result<bool, AllocError>
        ensures added { IfOk result (λ added. added ≡ not (has self.old name.now)) }
        ensures names { OnOk result (self.new ≡ with_name self.old name.now) }
    {
        Ok(self.names.insert(name.as_slice())?)
    }
}
