//! The law of the order of tables.

ghost use Rattle.std.specs.Prelude.{◌≡◌, true, List};
ghost use Rattle.circuit_model.specs.Names.{all_different};
ghost use Rattle.circuit_model.specs.Soundness.{outputs_of, IsAcyclic};
ghost use Rattle.circuit_model.specs.declared.circuit.Table.{Table};
ghost use Rattle.circuit_order.specs.Order.{order_of, IsOrdered};

/// If tables have different outputs and none is reached from itself, the order lists each output
/// once and nothing else, each after those that its table reads.
pub fn acyclic_tables_are_ordered()
    ensures { (tables : List Table) → all_different (outputs_of tables) ≡ true → IsAcyclic tables
        → IsOrdered tables (order_of tables) }
{}
