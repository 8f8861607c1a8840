//! Ranks of tables, and the values of signals defined without depth: tables have a rank exactly if
//! none is reached from itself, and then one valuation alone solves their equations.

ghost use Rattle.std.specs.Prelude.{◌≡◌, ℕ, Bool, List};
ghost use Rattle.circuit_model.specs.Soundness.{IsAcyclic};
ghost use Rattle.circuit_model.specs.Values.{Leaves, signal_value};
ghost use Rattle.circuit_model.specs.declared.circuit.Table.{Table};
ghost use Rattle.circuit_laws.specs.Ranks.{HasRank};
ghost use Rattle.circuit_laws.specs.Valuations.{IsValued};

/// Tables none of which is reached from itself have a rank.
pub fn acyclic_tables_have_a_rank()
    ensures { (tables : List Table) → IsAcyclic tables → HasRank tables }
{}

/// If tables have a rank, none is reached from itself.
pub fn ranked_tables_are_acyclic()
    ensures { (tables : List Table) → HasRank tables → IsAcyclic tables }
{}

/// The values of signals solve the equations of the tables: each is the leaf's bit, else the value
/// of the signal's table, else false.
pub fn values_are_due()
    ensures { (tables : List Table) (leaves : Leaves) → IsAcyclic tables → IsValued tables leaves
        (signal_value tables leaves) }
{}

/// No other valuation solves these equations.
pub fn values_are_the_only_ones()
    ensures { (tables : List Table) (leaves : Leaves) → IsAcyclic tables
        → (value : List ℕ → Bool) → IsValued tables leaves value
        → (signal : List ℕ) → value signal ≡ signal_value tables leaves signal }
{}
