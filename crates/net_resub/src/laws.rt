//! Laws of resubstitution, each the contract of a call that does nothing.
//!
//! The best division is unique, a step keeps every signal's value, and resubstitution refines the
//! circuit and has a single outcome.

ghost use Rattle.std.specs.Prelude.{◌≡◌};
ghost use Rattle.circuit_model.specs.Runs.{Refines};
ghost use Rattle.circuit_model.specs.Soundness.{IsSound};
ghost use Rattle.circuit_model.specs.declared.circuit.Table.{Table};
ghost use Rattle.circuit_model.specs.declared.circuit.Circuit.{Circuit};
ghost use Rattle.circuit_laws.specs.Changes.{IsExtended};
ghost use Rattle.net_resub.specs.Resubbed.{IsBest, IsStep, IsReached, IsResubbed};

/// The best division of a circuit is unique.
pub fn best_is_one()
    ensures by { (circuit : Circuit) (by table other_by other : Table)
        → IsBest circuit by table → IsBest circuit other_by other → by ≡ other_by }
    ensures table { (circuit : Circuit) (by table other_by other : Table)
        → IsBest circuit by table → IsBest circuit other_by other → table ≡ other }
{}

/// A step leaves a sound circuit sound; no signal is removed, and each keeps its value. So do steps
/// that follow one another.
pub fn steps_keep()
    ensures step { (circuit new : Circuit) → IsSound circuit → IsStep circuit new
        → IsExtended circuit new }
    ensures reached { (circuit new : Circuit) → IsSound circuit → IsReached circuit new
        → IsExtended circuit new }
{}

/// The circuit after resubstitution refines the one before, and is the only outcome.
pub fn resubbing_keeps()
    ensures refines { (circuit new : Circuit) → IsSound circuit → IsResubbed circuit new
        → Refines circuit new }
    ensures one { (circuit new other : Circuit) → IsResubbed circuit new
        → IsResubbed circuit other → new ≡ other }
{}
