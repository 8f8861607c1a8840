//! Laws of extraction, each the contract of a call that does nothing.
//!
//! The best candidate is unique, a step keeps every signal's value, candidates are covers of
//! signals, and extraction refines the circuit and has a single outcome.

ghost use Rattle.std.specs.Prelude.{◌≡◌, ℕ, true, List, [], ◌∷◌};
ghost use Rattle.std.specs.List.{list_all};
ghost use Rattle.circuit_model.specs.Names.{all_different};
ghost use Rattle.circuit_model.specs.Runs.{Refines};
ghost use Rattle.circuit_model.specs.Soundness.{given, IsSound};
ghost use Rattle.circuit_model.specs.declared.circuit.Circuit.{Circuit};
ghost use Rattle.circuit_laws.specs.Changes.{IsExtended};
ghost use Rattle.net_candidates.specs.Extracting.{IsBest, IsStep, IsReached, IsExtracted, IsFull, IsUnlistable};
ghost use Rattle.net_candidates.specs.Candidates.{IsCandidate};
ghost use Rattle.net_candidates.specs.declared.rule.Rule.{Rule};
ghost use Rattle.cover_names.specs.Literals.{Cube, NamedCover};
ghost use Rattle.cover_names.specs.Cubes.{is_over, names_in};

/// The best candidate is unique.
pub fn best_is_one()
    ensures { (rule : Rule) (circuit : Circuit) (name : List ℕ) (cover other : NamedCover)
        → IsBest rule circuit name cover → IsBest rule circuit name other → cover ≡ other }
{}

/// A step leaves a sound circuit sound; no signal is removed, and each keeps its value. So do steps
/// that follow one another.
pub fn steps_keep()
    ensures step { (rule : Rule) (circuit new : Circuit) → IsSound circuit
        → IsStep rule circuit new → IsExtended circuit new }
    ensures reached { (rule : Rule) (circuit new : Circuit) → IsSound circuit
        → IsReached rule circuit new → IsExtended circuit new }
{}

/// The candidates of a sound circuit are covers of its signals, in no cube of which a name occurs
/// twice.
pub fn candidates_are_over_signals()
    ensures over { (rule : Rule) (circuit : Circuit) (cover : NamedCover) → IsSound circuit
        → IsCandidate rule circuit.tables cover
        → is_over (given circuit) cover ≡ true }
    ensures apart { (rule : Rule) (circuit : Circuit) (cover : NamedCover) → IsSound circuit
        → IsCandidate rule circuit.tables cover
        → list_all (λ (cube : Cube). all_different (names_in (cube ∷ []))) cover ≡ true }
{}

/// The circuit after extraction refines the one before. Extraction has a single outcome: one
/// circuit, or no room for the next table, or one name of a first table with too many kernels.
pub fn extracting_keeps()
    ensures refines { (rule : Rule) (circuit new : Circuit) → IsSound circuit
        → IsExtracted rule circuit new → Refines circuit new }
    ensures one { (rule : Rule) (circuit new other : Circuit) → IsExtracted rule circuit new
        → IsExtracted rule circuit other → new ≡ other }
    ensures full { (rule : Rule) (circuit new : Circuit) → IsExtracted rule circuit new
        → IsFull rule circuit → ⊥ }
    ensures listed { (rule : Rule) (circuit new : Circuit) (name : List ℕ)
        → IsExtracted rule circuit new → IsUnlistable rule circuit name → ⊥ }
    ensures apart { (rule : Rule) (circuit : Circuit) (name : List ℕ) → IsFull rule circuit
        → IsUnlistable rule circuit name → ⊥ }
    ensures first { (rule : Rule) (circuit : Circuit) (name other : List ℕ)
        → IsUnlistable rule circuit name → IsUnlistable rule circuit other → name ≡ other }
{}
