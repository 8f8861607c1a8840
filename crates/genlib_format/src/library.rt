//! The gates of a library, found by their names.
//!
//! A `Library` keeps the gates in the order of the file and an index from each name to its first
//! gate; the invariant says that the index is right for every name (`IsIndex` of
//! `specs/Library.antt`). Contracts see the list of gates alone. `gate` returns the first gate of a
//! name. If memory runs out, `push` leaves the library as it was.

ghost use Rattle.std.specs.Prelude.{◌≡◌, ℕ, List, Some, None, ◌++◌, ◌∷◌, [], length, bytes_eq, option_copied, if◌then◌else◌, OnOk, OnErr};
ghost use Rattle.indexmap.specs.IndexMap.{get};
ghost use Rattle.genlib_format.specs.Reader.{gate_named};
ghost use Rattle.genlib_format.specs.Library.{place_of, IsIndex};

use crate::gate::Gate;
use indexmap::IndexMap;
use sis_base::{Copied, Name};
use std::alloc::{AllocError, Global};
use std::marker::Model;

/// The gates of a library file, in order; contracts see them as their list.
#[derive(Drop)]
pub struct Library {
    gates: Vec<Gate>,
    firsts: IndexMap<Name, usize>,
}

impl Model for Library {
    ghost use Rattle.std.specs.Prelude.{List, bytes_eq};
    ghost use Rattle.indexmap.specs.IndexMap.{get};
    ghost use Rattle.genlib_format.specs.declared.gate.Gate.{Gate};
    ghost use Rattle.genlib_format.specs.Library.{IsIndex};

    ghost Value = { List Gate };

    ghost view = { λ library. library.gates.items };

    ghost invariant = { λ library. IsIndex library.gates.items (get bytes_eq library.firsts) };
}

/// The index of the first gate of a name.
fn found_place(firsts: &IndexMap<Name, usize>, name: &Name) -> Option<usize>
    ensures { result ≡ get bytes_eq firsts.now name.now }
{
    firsts.get(name).copied()
}

/// Sets the index of a name; on an error nothing changes.
fn place_at(firsts: &mut IndexMap<Name, usize>, name: Name, place: usize) -> Result<(), AllocError>
    ensures ok { OnOk result ((other : List ℕ) → get bytes_eq firsts.new other
        ≡ (if bytes_eq name other then Some place else get bytes_eq firsts.old other)) }
    ensures err { OnErr result ((other : List ℕ) → get bytes_eq firsts.new other
        ≡ get bytes_eq firsts.old other) }
{
    let _place = firsts.insert(name, place)?;
    Ok(())
}

/// Appends a gate and sets its index; on an error nothing changes.
fn put_last(
    gates: &mut Vec<Gate>,
    firsts: &mut IndexMap<Name, usize>,
    gate: Gate,
    key: Name,
) -> Result<(), AllocError>
    requires { key ≡ gate.cell }
    ensures gates_ok { OnOk result (gates.new.items ≡ gates.old.items ++ gate ∷ []) }
    ensures firsts_ok { OnOk result ((other : List ℕ) → get bytes_eq firsts.new other
        ≡ (if bytes_eq key other then Some (length gates.old.items) else get bytes_eq firsts.old
        other)) }
    ensures gates_err { OnErr result (gates.new.items ≡ gates.old.items) }
    ensures firsts_err { OnErr result ((other : List ℕ) → get bytes_eq firsts.new other
        ≡ get bytes_eq firsts.old other) }
{
    let place = gates.len();
    gates.push(gate)?;
    match place_at(firsts, key, place) {
        Ok(()) => Ok(()),
        Err(fault) => {
            gates.truncate(place);
            Err(fault)
        }
    }
}

impl Library {
    /// No gate; takes no memory.
    pub(crate) fn new(alloc: Global) -> Library
        ensures { result ≡ [] }
    {
        Library {
            gates: Vec::new(alloc),
            firsts: IndexMap::new(alloc),
        }
    }

    /// The gates, in the order of the file.
    pub fn gates(&self) -> &[Gate]
        ensures { result.now ≡ self.now }
    {
        self.gates.as_slice()
    }

    /// The first gate of a name, if there is one. Takes no memory.
    pub fn gate(&self, name: &Name) -> Option<&Gate>
        ensures { option_copied result ≡ gate_named self.now name.now }
    {
        match found_place(&self.firsts, name) {
            None => None,
            Some(place) => self.gates.as_slice().get(place),
        }
    }

    /// Appends a gate; on an error nothing changes.
    pub(crate) fn push(&mut self, alloc: Global, gate: Gate) -> Result<(), AllocError>
        ensures ok { OnOk result (self.new ≡ self.old ++ gate ∷ []) }
        ensures err { OnErr result (self.new ≡ self.old) }
    {
        if found_place(&self.firsts, &gate.cell).is_some() {
            self.gates.push(gate)?;
            return Ok(());
        }
        let key = gate.cell.copy(alloc)?;
        put_last(&mut self.gates, &mut self.firsts, gate, key)?;
        Ok(())
    }
}
