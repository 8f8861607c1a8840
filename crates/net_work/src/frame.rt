//! The interface of a working network: everything but the tables, with hash sets of the reserved
//! names and the roots.
//!
//! Source: BLIF appendix of the SIS report (UCB/ERL M92/41): ports, latches, clocks and the
//! don't-care part of a model. Reserved names are those that no new table may take, besides the
//! names of tables; roots are the outputs and the inputs of latches. Both sets are built once and
//! are exact for the circuit, which never changes.

ghost use Rattle.std.specs.Prelude.{◌≡◌, ℕ, ◌||◌, List, map, IfOk, OnOk};
ghost use Rattle.circuit_model.specs.Names.{has};
ghost use Rattle.circuit_model.specs.declared.circuit.Latch.{Latch};
ghost use Rattle.circuit_laws.specs.Edits.{is_root};
ghost use Rattle.net_core.specs.Fresh.{reserved_by};
ghost use Rattle.net_work.specs.Frames.{roots_of};

use circuit_model::{Circuit, Latch, Name};
use indexmap::IndexSet;
use net_core::{note, note_all, reserved_names};
use sis_base::Whole;
use std::alloc::{AllocError, Global};
use std::marker::Model;

/// A circuit whose tables are ignored. Contracts see it as the circuit.
pub struct Frame {
    circuit: Circuit,
    reserved: IndexSet<Name>,
    roots: IndexSet<Name>,
}

// Written out, so that functions that own an interface drop it in one call.
impl Drop for Frame {
    fn drop(self) {
        let Frame {
            circuit: _circuit,
            reserved: _reserved,
            roots: _roots,
        } = self;
    }
}

impl Model for Frame {
    ghost use Rattle.circuit_model.specs.declared.circuit.Circuit.{Circuit};

    ghost Value = { Circuit };

    ghost use Rattle.net_core.specs.Fresh.{reserved_by};
    ghost use Rattle.net_work.specs.Frames.{roots_of, HasSame};

    ghost view = { λ f. f.circuit };

    ghost invariant = { λ f. HasSame f.reserved.keys (reserved_by f.circuit) × HasSame f.roots.keys (roots_of f.circuit) };
}

// Adds the inputs of latches to names.
fn note_latch_inputs(
    alloc: Global,
    names: &mut IndexSet<Name>,
    latches: &[Latch],
) -> Result<(), AllocError>
    ensures { OnOk result ((other : List ℕ) → has names.new.keys other
        ≡ (has names.old.keys other || has (map (λ (latch : Latch). latch.input) latches.now)
        other)) }
{
    for latch in latches {
        note(alloc, names, &latch.input)?;
    }
    Ok(())
}

// The outputs and the inputs of latches.
fn root_names(alloc: Global, circuit: &Circuit) -> Result<IndexSet<Name>, AllocError>
    ensures { IfOk result (λ names. (name : List ℕ) → has names.keys name ≡ has
        (roots_of circuit.now) name) }
{
    let mut names = IndexSet::new(alloc);
    note_all(alloc, &mut names, circuit.outputs.as_slice())?;
    note_latch_inputs(alloc, &mut names, circuit.latches.as_slice())?;
    Ok(names)
}

impl Frame {
    /// The interface of a circuit.
    pub fn of(alloc: Global, circuit: Circuit) -> Result<Frame, AllocError>
        ensures { IfOk result (λ frame. frame ≡ circuit) }
    {
        // One value, so that one call drops it.
        let whole = Whole { it: circuit };
        let reserved = reserved_names(alloc, &whole.it)?;
        let roots = root_names(alloc, &whole.it)?;
        Ok(Frame {
            circuit: whole.into_it(),
            reserved,
            roots,
        })
    }

    /// Whether no new table may take a name, besides the names of tables.
    pub fn is_reserved(&self, name: &Name) -> bool
        ensures { result ≡ has (reserved_by self.now) name.now }
    {
        self.reserved.contains(name)
    }

    /// Whether a signal is an output or a latch's input.
    pub fn is_root(&self, name: &Name) -> bool
        ensures { result ≡ is_root self.now name.now }
    {
        self.roots.contains(name)
    }

    /// The circuit.
    pub fn circuit(&self) -> &Circuit
        ensures { result.now ≡ self.now }
    {
        &self.circuit
    }

    /// Moves the circuit out.
    pub fn into_circuit(self) -> Circuit
        ensures { result ≡ self }
    {
        let Frame {
            circuit,
            reserved: _reserved,
            roots: _roots,
        } = self;
        circuit
    }
}
