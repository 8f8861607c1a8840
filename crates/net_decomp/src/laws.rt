//! Laws of decomposition, each the contract of a call that does nothing.
//!
//! A table is decomposed in one way, a step keeps every signal's value, and decomposition refines
//! the circuit and has a single outcome.

ghost use Rattle.std.specs.Prelude.{◌≡◌, ◌≤◌, ℕ, List};
ghost use Rattle.std.specs.List.{AllByRecursion};
ghost use Rattle.circuit_model.specs.Runs.{Refines};
ghost use Rattle.circuit_model.specs.Soundness.{IsSound};
ghost use Rattle.circuit_model.specs.declared.circuit.Table.{Table};
ghost use Rattle.circuit_model.specs.declared.circuit.Circuit.{Circuit};
ghost use Rattle.circuit_laws.specs.Changes.{IsExtended};
ghost use Rattle.net_decomp.specs.Partings.{Parting};
ghost use Rattle.net_decomp.specs.Rules.{IsDone, IsDecomposable};
ghost use Rattle.net_decomp.specs.Decomposed.{IsStep, IsReached, IsDecomposed, IsFull};
ghost use Rattle.net_decomp.specs.declared.rule.Rule.{Rule};

/// A table that is to be decomposed is not done, and its decomposition is unique.
pub fn parting_is_one()
    ensures apart { (rule : Rule) (table : Table) (parting : Parting)
        → IsDecomposable rule table parting → IsDone rule table → ⊥ }
    ensures one { (rule : Rule) (table : Table) (parting other : Parting)
        → IsDecomposable rule table parting → IsDecomposable rule table other → parting ≡ other }
{}

/// A step leaves a sound circuit sound; no signal is removed, and each keeps its value. So do steps
/// that follow one another.
pub fn steps_keep()
    ensures step { (rule : Rule) (circuit new : Circuit) → IsSound circuit
        → IsStep rule circuit new → IsExtended circuit new }
    ensures reached { (rule : Rule) (circuit new : Circuit) → IsSound circuit
        → IsReached rule circuit new → IsExtended circuit new }
{}

/// The circuit after decomposition refines the one before. Decomposition has a single outcome: one
/// circuit, or a step without room.
pub fn decomposing_keeps()
    ensures refines { (rule : Rule) (circuit new : Circuit) → IsSound circuit
        → IsDecomposed rule circuit new → Refines circuit new }
    ensures one { (rule : Rule) (circuit new other : Circuit) → IsDecomposed rule circuit new
        → IsDecomposed rule circuit other → new ≡ other }
    ensures full { (rule : Rule) (circuit new : Circuit) → IsDecomposed rule circuit new
        → IsFull rule circuit → ⊥ }
{}
