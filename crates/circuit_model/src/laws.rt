//! Laws over the definitions of circuits, each the contract of a call that does nothing.

ghost use Rattle.circuit_model.specs.declared.circuit.Circuit.{Circuit};
ghost use Rattle.circuit_model.specs.Runs.{Refines};

/// Every circuit refines itself.
pub fn refines_is_reflexive()
    ensures { (circuit : Circuit) → Refines circuit circuit }
{}

/// Refinement is transitive.
pub fn refines_is_transitive()
    ensures { (first second third : Circuit) → Refines first second → Refines second third
        → Refines first third }
{}
