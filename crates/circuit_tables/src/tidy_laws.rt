//! Laws of tidy tables, each the contract of a call that does nothing.

ghost use Rattle.std.specs.Prelude.{◌≡◌, ℕ, true, Bool, List, map};
ghost use Rattle.circuit_model.specs.Names.{has};
ghost use Rattle.circuit_model.specs.Values.{table_value};
ghost use Rattle.circuit_model.specs.Soundness.{IsShaped};
ghost use Rattle.circuit_model.specs.declared.circuit.Table.{Table};
ghost use Rattle.circuit_tables.specs.Tidy.{IsWide, is_tidy, tidied};

/// A tidy table has the table's value at every valuation of the names.
pub fn tidied_keeps_its_value()
    ensures { (table : Table) (value : List ℕ → Bool) → table_value (tidied table)
        (map value (tidied table).inputs) ≡ table_value table (map value table.inputs) }
{}

/// Tidying yields a tidy table, and leaves a tidy table as it is.
pub fn tidied_is_tidy()
    ensures tidy { (table : Table) → IsWide table → is_tidy (tidied table) ≡ true }
    ensures same { (table : Table) → IsWide table → is_tidy table ≡ true → tidied table ≡ table }
{}

/// The tidy table has the shape of a table and the same output, and reads no other inputs. Its
/// inputs and rows do not depend on the output's name.
pub fn tidied_is_shaped()
    ensures shaped { (table : Table) → IsWide table → IsShaped (tidied table) }
    ensures output { (table : Table) → (tidied table).output ≡ table.output }
    ensures reads { (table : Table) (name : List ℕ) → has (tidied table).inputs name ≡ true
        → has table.inputs name ≡ true }
    ensures renamed { (table : Table) (name : List ℕ) → tidied (record table { output = name })
        ≡ record (tidied table) { output = name } }
{}
