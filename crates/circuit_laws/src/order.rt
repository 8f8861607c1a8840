//! Why tables form no cycle after an edit.
//!
//! A new table must have no input that leads to its signal; to remove tables, or inputs of a table,
//! is always safe. Callers prove the first with `leads_not_back`: what a signal leads to does not
//! lead back to it, nor does a signal of lower rank.

ghost use Rattle.std.specs.Prelude.{◌≡◌, ℕ, suc, ◌<◌, Bool, true, false, Option, Some, List, ◌++◌, ◌∷◌, [], map, bytes_eq};
ghost use Rattle.circuit_model.specs.Names.{has};
ghost use Rattle.circuit_model.specs.Values.{driver};
ghost use Rattle.circuit_model.specs.Soundness.{table_inputs, Leads, IsAcyclic};
ghost use Rattle.circuit_model.specs.declared.circuit.Table.{Table};
ghost use Rattle.circuit_laws.specs.Edits.{replaced, tables_kept};
ghost use Rattle.circuit_laws.specs.Ranks.{HasRank};

/// Replaces a table by one none of whose inputs leads to its signal.
pub fn replacing_is_acyclic()
    ensures { (tables : List Table) (new : Table) → IsAcyclic tables
        → ((input : List ℕ) (steps : ℕ) → has new.inputs input ≡ true → Leads tables steps input new.output → ⊥)
        → IsAcyclic (replaced tables new) }
{}

/// Replaces a table by one that reads only inputs of the old one.
pub fn narrowing_is_acyclic()
    ensures { (tables : List Table) (old new : Table) → IsAcyclic tables
        → driver tables new.output ≡ Some old
        → ((input : List ℕ) → has new.inputs input ≡ true → has old.inputs input ≡ true) → IsAcyclic (replaced tables new) }
{}

/// Replaces each table by one that reads only signals to which its own signal leads.
pub fn mapping_is_acyclic()
    ensures { (turn : Table → Table) → ((table : Table) → (turn table).output
        ≡ table.output) → (tables : List Table)
        → ((signal : List ℕ) (table : Table) (input : List ℕ) → driver tables signal ≡ Some table → has (turn table).inputs input ≡ true
        → (steps : ℕ) × Leads tables (suc steps) signal input)
        → IsAcyclic tables → IsAcyclic (map turn tables) }
{}

/// Removes tables.
pub fn dropping_is_acyclic()
    ensures { (test : List ℕ → Bool) (tables : List Table) → IsAcyclic tables → IsAcyclic
        (tables_kept test tables) }
{}

/// Adds a table whose signal no table reads.
pub fn adding_is_acyclic()
    ensures { (tables : List Table) (new : Table) → IsAcyclic tables → has
        (table_inputs tables) new.output ≡ false
        → has new.inputs new.output ≡ false → IsAcyclic (tables ++ new ∷ []) }
{}

/// What does not lead to a signal: a signal to which it leads; an input of lower rank; and another
/// signal, if the signal leads to all inputs of that one's table.
pub fn leads_not_back()
    ensures reached { (tables : List Table) → IsAcyclic tables → (signal input : List ℕ)
        (there : ℕ) → Leads tables (suc there) signal input
        → (steps : ℕ) → Leads tables steps input signal → ⊥ }
    ensures lower { (tables : List Table) (by : HasRank tables) (signal input : List ℕ)
        → by.rank input < by.rank signal
        → (steps : ℕ) → Leads tables steps input signal → ⊥ }
    ensures beside { (tables : List Table) → IsAcyclic tables → (signal other : List ℕ)
        (table : Table) → bytes_eq other signal ≡ false
        → driver tables other ≡ Some table
        → ((input : List ℕ) → has table.inputs input ≡ true → (there : ℕ) × Leads tables (suc there) signal input)
        → (steps : ℕ) → Leads tables steps other signal → ⊥ }
{}
