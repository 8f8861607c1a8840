//! Laws of minimal tables and of simplification, each the contract of a call that does nothing.
//!
//! They say what the minimum of one table keeps under any don't-cares, and what a step and the
//! whole of simplification keep under local ones.

ghost use Rattle.std.specs.Prelude.{◌≡◌, ℕ, Bool, true, false, Some, List, length, map};
ghost use Rattle.std.specs.List.{AllByRecursion};
ghost use Rattle.circuit_model.specs.Names.{has};
ghost use Rattle.circuit_model.specs.Runs.{Refines};
ghost use Rattle.circuit_model.specs.Soundness.{IsSound};
ghost use Rattle.circuit_model.specs.Values.{driven_value};
ghost use Rattle.circuit_model.specs.declared.circuit.Table.{Table};
ghost use Rattle.circuit_model.specs.declared.circuit.Circuit.{Circuit};
ghost use Rattle.circuit_laws.specs.Same.{KeepsEach};
ghost use Rattle.circuit_laws.specs.Valuations.{Obeys};
ghost use Rattle.circuit_laws.specs.Changes.{IsReduced, IsExtended};
ghost use Rattle.cover_min.specs.Minimum.{minimum_rows};
ghost use Rattle.cover_min.specs.Primes.{Agrees, IsPrime, IsIrredundant};
ghost use Rattle.sdc_simplify.specs.Local.{is_local};
ghost use Rattle.sdc_simplify.specs.Minimized.{on_rows, meaning_of, minimized};
ghost use Rattle.sdc_simplify.specs.Simplified.{with_minimum, simplified};
ghost use Rattle.net_core.specs.Tables.{HasCharacters};

/// At values that obey the equations of all tables, the inputs of a table are at no local
/// don't-care of it.
pub fn local_points_do_not_come()
    ensures { (circuit : Circuit) (table : Table) (value : List ℕ → Bool)
        → Obeys circuit.tables value → is_local circuit table (map value table.inputs) ≡ false }
{}

/// The minimum of a table drives the same signal, reads nothing else, and has the table's value
/// wherever its inputs are not free. The rows of which its normal form is made agree with the
/// table's function wherever that is not free; each is a prime implicant, and none is redundant.
pub fn minimized_tables_are_minimal()
    ensures value { (table : Table) (is_free : List Bool → Bool) (value : List ℕ → Bool)
        → HasCharacters (length table.inputs) table.rows
        → is_free (map value table.inputs) ≡ false → driven_value (Some (minimized table is_free)) value ≡ driven_value (Some table) value }
    ensures agrees { (table : Table) (is_free : List Bool → Bool) → HasCharacters
        (length table.inputs) table.rows
        → Agrees (meaning_of table is_free) (minimum_rows (meaning_of table is_free) (on_rows table)) }
    ensures prime { (table : Table) (is_free : List Bool → Bool) → HasCharacters
        (length table.inputs) table.rows
        → AllByRecursion (IsPrime (meaning_of table is_free)) (minimum_rows (meaning_of table is_free) (on_rows table)) }
    ensures irredundant { (table : Table) (is_free : List Bool → Bool)
        → IsIrredundant (meaning_of table is_free) (minimum_rows (meaning_of table is_free) (on_rows table)) }
    ensures output { (table : Table) (is_free : List Bool → Bool)
        → (minimized table is_free).output ≡ table.output }
    ensures reads { (table : Table) (is_free : List Bool → Bool) (name : List ℕ) → has
        (minimized table is_free).inputs name ≡ true → has table.inputs name ≡ true }
{}

/// A step replaces the table of a signal by its minimum under local don't-cares: the circuit stays
/// sound, no signal is added or removed, and each keeps its value at each assignment of bits to
/// inputs and latches.
pub fn a_turn_keeps()
    ensures reduced { (circuit : Circuit) (name : List ℕ) → IsSound circuit → IsReduced circuit
        (with_minimum is_local circuit name) }
    ensures extended { (circuit : Circuit) (name : List ℕ) → IsSound circuit → IsExtended circuit
        (with_minimum is_local circuit name) }
    ensures each { (circuit : Circuit) (name : List ℕ) → IsSound circuit → KeepsEach circuit
        (with_minimum is_local circuit name) }
{}

/// After the steps of all tables the circuit is sound, no signal was added or removed, and each has
/// its value; the circuit refines the original one.
pub fn simplifying_keeps()
    ensures reduced { (circuit : Circuit) → IsSound circuit → IsReduced circuit
        (simplified circuit) }
    ensures extended { (circuit : Circuit) → IsSound circuit → IsExtended circuit
        (simplified circuit) }
    ensures each { (circuit : Circuit) → IsSound circuit → KeepsEach circuit
        (simplified circuit) }
    ensures refines { (circuit : Circuit) → IsSound circuit → Refines circuit
        (simplified circuit) }
{}
