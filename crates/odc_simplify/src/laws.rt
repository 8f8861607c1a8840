//! Laws of don't-cares and of full simplification, each the contract of a call that does nothing.
//!
//! They state what a don't-care is by the leaves, and what a step and the whole of full
//! simplification keep.

ghost use Rattle.std.specs.Prelude.{◌≡◌, ◌↔◌, ℕ, Bool, true, false, List, map};
ghost use Rattle.circuit_model.specs.Runs.{Refines};
ghost use Rattle.circuit_model.specs.Soundness.{IsSound};
ghost use Rattle.circuit_model.specs.declared.circuit.Table.{Table};
ghost use Rattle.circuit_model.specs.declared.circuit.Circuit.{Circuit};
ghost use Rattle.net_func.specs.Signals.{own_function, is_seen};
ghost use Rattle.sdc_simplify.specs.Simplified.{with_minimum};
ghost use Rattle.odc_simplify.specs.Full.{is_dont_care, fully_simplified, IsKept};

/// A point of a table's inputs is a don't-care exactly if the table's signal is not observable at
/// any bits of the leaves that give the inputs that point.
pub fn dont_cares_are_unseen()
    ensures { (circuit : Circuit) (table : Table) (point : List Bool)
        → (is_dont_care circuit table point ≡ true)
        ↔ ((leaves : ℕ → Bool)
        → map (λ input. own_function circuit input leaves) table.inputs ≡ point
        → is_seen circuit table.output leaves ≡ false) }
{}

/// A step replaces the table of a signal by its minimum under its don't-cares: the circuit stays
/// sound, everything but that table stays, and it behaves the same to whoever drives and watches
/// it.
pub fn a_turn_keeps()
    ensures { (circuit : Circuit) (name : List ℕ) → IsSound circuit
        → IsKept circuit (with_minimum is_dont_care circuit name) }
{}

/// After the steps of all tables the circuit is sound, everything but its tables is unchanged, and
/// it behaves the same to whoever drives and watches it; so it refines the original circuit, over
/// all runs.
pub fn simplifying_fully_keeps()
    ensures kept { (circuit : Circuit) → IsSound circuit
        → IsKept circuit (fully_simplified circuit) }
    ensures refines { (circuit : Circuit) → IsSound circuit
        → Refines circuit (fully_simplified circuit) }
{}
