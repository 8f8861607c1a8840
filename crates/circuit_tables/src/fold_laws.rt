//! Laws of folded tables, each the contract of a call that does nothing. A folded table has the
//! value of the table, lists each input once, keeps the shape and the output, and closes no cycle.

ghost use Rattle.std.specs.Prelude.{◌≡◌, ℕ, ◌≤◌, true, Bool, List, map, length};
ghost use Rattle.circuit_model.specs.Names.{has, all_different};
ghost use Rattle.circuit_model.specs.Values.{table_value};
ghost use Rattle.circuit_model.specs.Soundness.{IsShaped, IsAcyclic, outputs_of};
ghost use Rattle.circuit_model.specs.declared.circuit.Table.{Table};
ghost use Rattle.circuit_tables.specs.Folding.{folded, constant_one};

/// A folded table has the value of the table at every valuation of the names.
pub fn folded_keeps_its_value()
    ensures { (table : Table) (value : List ℕ → Bool) → table_value (folded table)
        (map value (folded table).inputs) ≡ table_value table (map value table.inputs) }
{}

/// A folded table lists each input once. Its inputs are the table's: all of them, unless a table of
/// phase 0 became the constant 1. A table whose inputs are all different stays as it is.
pub fn folded_names_inputs_once()
    ensures different { (table : Table) → all_different (folded table).inputs ≡ true }
    ensures reads { (table : Table) (name : List ℕ) → has (folded table).inputs name ≡ true
        → has table.inputs name ≡ true }
    ensures keeps { (table : Table) → (folded table ≡ constant_one table.output → ⊥)
        → (name : List ℕ) → has (folded table).inputs name ≡ has table.inputs name }
    ensures same { (table : Table) → all_different table.inputs ≡ true → folded table ≡ table }
{}

/// A folded table has the shape of a table, at most as many rows and inputs, and the same output.
pub fn folded_is_shaped()
    ensures shaped { (table : Table) → IsShaped table → IsShaped (folded table) }
    ensures rows { (table : Table) → IsShaped table → length
        (folded table).rows ≤ length table.rows }
    ensures inputs { (table : Table) → length (folded table).inputs ≤ length table.inputs }
    ensures output { (table : Table) → (folded table).output ≡ table.output }
{}

/// Folded tables drive the same signals, and form no cycle if the tables formed none.
pub fn folded_tables_form_no_cycle()
    ensures outputs { (tables : List Table) → outputs_of (map folded tables)
        ≡ outputs_of tables }
    ensures acyclic { (tables : List Table) → IsAcyclic tables → IsAcyclic (map folded tables) }
{}
