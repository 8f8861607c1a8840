//! Laws of graphs, each the contract of a call that does nothing.

ghost use Rattle.std.specs.Prelude.{◌≡◌, ◌↔◌, ℕ, suc, true, None, List};
ghost use Rattle.circuit_checks.specs.Graphs.{IsGraph, IsRank, Walks, is_cyclic, first_cyclic};

/// A node is cyclic exactly if a walk of one or more steps leads from it to itself.
pub fn cyclic_is_walked()
    ensures { (graph : List (List ℕ)) (place : ℕ) → IsGraph graph
        → (is_cyclic graph place ≡ true) ↔ ((steps : ℕ) × Walks graph (suc steps) place place) }
{}

/// If no node is cyclic, some rank falls on each edge.
pub fn acyclic_is_ranked()
    ensures { (graph : List (List ℕ)) → IsGraph graph → first_cyclic graph ≡ None → (rank : ℕ → ℕ)
        × IsRank graph rank }
{}
