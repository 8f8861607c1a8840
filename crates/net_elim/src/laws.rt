//! Laws of elimination and of collapse, each the contract of a call that does nothing.
//!
//! Composing a table into its fanouts keeps all values; a step, a chain of steps and collapse keep
//! what is left, refine the circuit, and reach their finished forms.

ghost use Rattle.std.specs.Prelude.{◌≡◌, ℕ, ℤ, true, false, Some, None, List, ◌++◌, ◌∷◌, int_lt};
ghost use Rattle.std.specs.List.{AllByRecursion};
ghost use Rattle.circuit_model.specs.Names.{has};
ghost use Rattle.circuit_model.specs.Runs.{Refines};
ghost use Rattle.circuit_model.specs.Soundness.{IsSound};
ghost use Rattle.circuit_model.specs.Values.{driver};
ghost use Rattle.circuit_model.specs.declared.circuit.Table.{Table};
ghost use Rattle.circuit_model.specs.declared.circuit.Circuit.{Circuit};
ghost use Rattle.circuit_laws.specs.Chains.{Chain};
ghost use Rattle.circuit_laws.specs.Changes.{IsReduced};
ghost use Rattle.net_elim.specs.Eliminating.{with_taken, least, IsFirstLeast, eliminate_step, IsEliminated};
ghost use Rattle.net_elim.specs.Collapsing.{with_put, collapsed, IsCollapsed};

/// A table of a sound circuit is composed into all its fanouts: it does not read itself, the
/// circuit stays sound, and each signal keeps its value; so too if the table is given by its
/// signal.
pub fn taking_keeps()
    ensures apart { (circuit : Circuit) (inner : Table) → IsSound circuit
        → driver circuit.tables inner.output ≡ Some inner → has inner.inputs inner.output ≡ false }
    ensures taken { (circuit : Circuit) (inner : Table) → IsSound circuit
        → driver circuit.tables inner.output ≡ Some inner → IsReduced circuit
        (with_taken circuit inner) }
    ensures put { (circuit : Circuit) (name : List ℕ) → IsSound circuit → IsReduced circuit
        (with_put circuit name) }
{}

/// The least of some tables is the first of least value, and no other table is.
pub fn least_is_first()
    ensures first { (value : Table → ℤ) (tables : List Table) (table : Table)
        → least value tables ≡ Some table → IsFirstLeast value tables table }
    ensures only { (value : Table → ℤ) (tables : List Table) (table : Table)
        → IsFirstLeast value tables table → least value tables ≡ Some table }
{}

/// A step removes a signal from a sound circuit and leaves it sound; the other signals keep their
/// values. If no step applies the circuit has the finished form.
pub fn steps_keep()
    ensures kept { (threshold : ℤ) (rows : ℕ) (circuit new : Circuit) → IsSound circuit
        → eliminate_step threshold rows circuit ≡ Some new → IsReduced circuit new }
    ensures finished { (threshold : ℤ) (rows : ℕ) (circuit : Circuit)
        → eliminate_step threshold rows circuit ≡ None → IsEliminated threshold rows circuit }
{}

/// So does a chain of steps: the last circuit refines the first one, and has the finished form.
pub fn chains_keep()
    ensures kept { (threshold : ℤ) (rows : ℕ) (circuit new : Circuit) → IsSound circuit → Chain
        (eliminate_step threshold rows) circuit new → IsReduced circuit new }
    ensures refines { (threshold : ℤ) (rows : ℕ) (circuit new : Circuit) → IsSound circuit
        → Chain (eliminate_step threshold rows) circuit new → Refines circuit new }
    ensures finished { (threshold : ℤ) (rows : ℕ) (circuit new : Circuit) → Chain
        (eliminate_step threshold rows) circuit new → IsEliminated threshold rows new }
{}

/// Collapse removes signals from a sound circuit and leaves it sound; the other signals keep their
/// values, the new circuit refines the old one, and it has the finished form.
pub fn collapsing_keeps()
    ensures kept { (circuit : Circuit) → IsSound circuit → IsReduced circuit
        (collapsed circuit) }
    ensures refines { (circuit : Circuit) → IsSound circuit → Refines circuit
        (collapsed circuit) }
    ensures finished { (circuit : Circuit) → IsSound circuit → IsCollapsed (collapsed circuit) }
{}
