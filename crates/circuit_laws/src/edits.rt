//! What each edit of a circuit keeps (De Micheli, "Synthesis and Optimization of Digital Circuits",
//! chapters 8 and 9).
//!
//! The edits are those of `specs/Edits.antt`: tables are replaced, reordered, added or removed,
//! latches are removed, and a latch that always holds one bit becomes a constant table. For each
//! edit a law says whether the circuits are the same or one refines the other, and at which signals
//! the values stay. The laws ask that no table is reached from itself; that this and soundness stay
//! is said in `order` and `soundness`.

ghost use Rattle.std.specs.Prelude.{◌≡◌, ℕ, Bool, true, false, Option, Some, List, ◌++◌, ◌∷◌, [], map, bytes_eq};
ghost use Rattle.std.specs.List.{AllByRecursion};
ghost use Rattle.circuit_model.specs.Names.{has};
ghost use Rattle.circuit_model.specs.Values.{driver, driven_value};
ghost use Rattle.circuit_model.specs.Runs.{bit_of, latch_outputs, value_in, Refines};
ghost use Rattle.circuit_model.specs.Soundness.{given, taken, table_inputs, IsAcyclic, IsSound};
ghost use Rattle.circuit_model.specs.declared.circuit.Table.{Table};
ghost use Rattle.circuit_model.specs.declared.circuit.Latch.{Latch};
ghost use Rattle.circuit_model.specs.declared.circuit.Circuit.{Circuit};
ghost use Rattle.circuit_laws.specs.Edits.{replaced, with_tables, with_replaced, with_added, with_kept, with_removed, with_fixed, is_other, is_read, is_root};
ghost use Rattle.circuit_laws.specs.Fixed.{IsFixed};
ghost use Rattle.circuit_laws.specs.Kept.{IsClosed, bits_kept};
ghost use Rattle.circuit_laws.specs.Left.{ConstantLatch, KeepsLeft};
ghost use Rattle.circuit_laws.specs.Same.{IsAssignment, IsSame, KeepsValues, KeepsEach, IsSettled};
ghost use Rattle.circuit_laws.specs.Valuations.{Obeys};

/// Replaces a table by one that has its value wherever the equations of all tables hold.
pub fn replacing_keeps_each()
    ensures { (circuit : Circuit) (old new : Table) → IsSettled circuit
        → driver circuit.tables new.output ≡ Some old
        → IsAcyclic (replaced circuit.tables new)
        → ((value : List ℕ → Bool) → Obeys circuit.tables value → driven_value (Some new) value ≡ driven_value (Some old) value)
        → KeepsEach circuit (with_replaced circuit new) }
{}

/// Replaces each table by one of the same signal that has its value wherever the equations of all
/// tables hold.
pub fn mapping_keeps_each()
    ensures { (circuit : Circuit) (turn : Table → Table) → IsSettled circuit
        → ((table : Table) → (turn table).output ≡ table.output) → IsAcyclic (map turn circuit.tables)
        → ((value : List ℕ → Bool) → Obeys circuit.tables value
        → (signal : List ℕ) (table : Table) → driver circuit.tables signal ≡ Some table
        → driven_value (Some (turn table)) value ≡ driven_value (Some table) value)
        → KeepsEach circuit (with_tables circuit (map turn circuit.tables)) }
{}

/// Other tables among which each signal finds the same driver: another order.
pub fn reordering_keeps_each()
    ensures { (circuit : Circuit) (tables : List Table) → IsAcyclic circuit.tables
        → IsAcyclic tables
        → ((signal : List ℕ) → driver tables signal ≡ driver circuit.tables signal) → KeepsEach circuit (with_tables circuit tables) }
{}

/// Adds a table for a signal that nothing reads and nothing drives. The signal gets the table's
/// value over the values of the old signals.
pub fn adding_is_same()
    ensures same { (circuit : Circuit) (new : Table) → IsAcyclic circuit.tables
        → has (taken circuit) new.output ≡ false → has new.inputs new.output ≡ false → IsSame circuit (with_added circuit new) }
    ensures keeps { (circuit : Circuit) (new : Table) → IsAcyclic circuit.tables → has
        (given circuit) new.output ≡ false
        → has (taken circuit) new.output ≡ false → has new.inputs new.output ≡ false → KeepsValues circuit (with_added circuit new) }
    ensures value { (circuit : Circuit) (new : Table) → IsAcyclic circuit.tables → has
        (given circuit) new.output ≡ false
        → has (taken circuit) new.output ≡ false → has new.inputs new.output ≡ false → (state row : List Bool)
        → value_in (with_added circuit new) state row new.output ≡ driven_value (Some new) (value_in circuit state row) }
{}

/// Removes tables and latches that nothing needs: each circuit refines the other, and each
/// remaining signal keeps its value.
pub fn dropping_refines()
    ensures forth { (circuit : Circuit) (test : List ℕ → Bool) → IsAcyclic circuit.tables
        → IsClosed circuit test → Refines circuit (with_kept circuit test) }
    ensures back { (circuit : Circuit) (test : List ℕ → Bool) → IsAcyclic circuit.tables
        → IsClosed circuit test → Refines (with_kept circuit test) circuit }
    ensures values { (circuit : Circuit) (test : List ℕ → Bool) → IsAcyclic circuit.tables
        → IsClosed circuit test
        → (state row : List Bool) → IsAssignment circuit state row → (signal : List ℕ) → has (given (with_kept circuit test)) signal ≡ true
        → value_in circuit state row signal ≡ value_in (with_kept circuit test) (bits_kept test circuit.latches state) row signal }
{}

/// Removes tables that nothing needs, and no latch: the circuit is the same, and each remaining
/// signal keeps its value.
pub fn dropping_tables_is_same()
    ensures same { (circuit : Circuit) (test : List ℕ → Bool) → IsAcyclic circuit.tables
        → IsClosed circuit test
        → AllByRecursion (λ (latch : Latch). test latch.output ≡ true) circuit.latches → IsSame circuit (with_kept circuit test) }
    ensures keeps { (circuit : Circuit) (test : List ℕ → Bool) → IsAcyclic circuit.tables
        → IsClosed circuit test
        → AllByRecursion (λ (latch : Latch). test latch.output ≡ true) circuit.latches → KeepsValues circuit (with_kept circuit test) }
{}

/// Nothing needs a signal that nothing reads and that is no output and no latch's input.
pub fn unread_is_unneeded()
    ensures closed { (circuit : Circuit) (name : List ℕ) → is_read circuit name ≡ false
        → is_root circuit name ≡ false → IsClosed circuit (is_other name) }
    ensures latches { (circuit : Circuit) (name : List ℕ) → has (latch_outputs circuit) name
        ≡ false → AllByRecursion (λ (latch : Latch). is_other name latch.output ≡ true)
        circuit.latches }
{}

/// Removes a signal that nothing reads and that is no output and no latch's input: each circuit
/// refines the other, and each remaining signal keeps its value. If the signal is no latch's, the
/// circuits are the same.
pub fn removing_refines()
    ensures forth { (circuit : Circuit) (name : List ℕ) → IsAcyclic circuit.tables
        → is_read circuit name ≡ false → is_root circuit name ≡ false
        → Refines circuit (with_removed circuit name) }
    ensures back { (circuit : Circuit) (name : List ℕ) → IsAcyclic circuit.tables
        → is_read circuit name ≡ false → is_root circuit name ≡ false
        → Refines (with_removed circuit name) circuit }
    ensures values { (circuit : Circuit) (name : List ℕ) → IsAcyclic circuit.tables
        → is_read circuit name ≡ false → is_root circuit name ≡ false
        → (state row : List Bool) → IsAssignment circuit state row → (signal : List ℕ) → has (given (with_removed circuit name)) signal ≡ true
        → value_in circuit state row signal ≡ value_in (with_removed circuit name) (bits_kept (is_other name) circuit.latches state) row signal }
    ensures same { (circuit : Circuit) (name : List ℕ) → IsAcyclic circuit.tables
        → is_read circuit name ≡ false → is_root circuit name ≡ false
        → has (latch_outputs circuit) name ≡ false → IsSame circuit (with_removed circuit name) }
    ensures keeps { (circuit : Circuit) (name : List ℕ) → IsAcyclic circuit.tables
        → is_read circuit name ≡ false → is_root circuit name ≡ false
        → has (latch_outputs circuit) name ≡ false → KeepsValues circuit (with_removed circuit name) }
{}

/// Replaces a latch that always holds one bit by the constant table of its name; each signal keeps
/// its value wherever the latch has that bit.
pub fn fixing_refines()
    ensures refines { (circuit : Circuit) (name : List ℕ) (bit : Bool) → IsSound circuit
        → IsFixed circuit name bit → Refines circuit (with_fixed circuit name bit) }
    ensures values { (circuit : Circuit) (name : List ℕ) (bit : Bool) → IsSound circuit
        → IsFixed circuit name bit
        → (state row : List Bool) → bit_of (latch_outputs circuit) state name ≡ Some bit → (signal : List ℕ)
        → value_in circuit state row signal ≡ value_in (with_fixed circuit name bit) (bits_kept (is_other name) circuit.latches state) row signal }
{}

/// Remaining signals keep their values through any number of edits, at the leaf assignments in
/// which the latches that became tables have their bits.
pub fn leaving_keeps()
    ensures itself { (circuit : Circuit) → KeepsLeft [] circuit circuit }
    ensures through { (before after : List ConstantLatch) (first second third : Circuit)
        → KeepsLeft before first second → KeepsLeft after second third
        → KeepsLeft (before ++ after) first third }
    ensures each { (old new : Circuit) → KeepsEach old new
        → ((signal : List ℕ) → has (given new) signal ≡ true → has (given old) signal ≡ true)
        → KeepsLeft [] old new }
    ensures dropped { (circuit : Circuit) (test : List ℕ → Bool) → IsAcyclic circuit.tables
        → IsClosed circuit test → KeepsLeft [] circuit (with_kept circuit test) }
    ensures fixed { (circuit : Circuit) (name : List ℕ) (bit : Bool) → IsSound circuit
        → IsFixed circuit name bit → KeepsLeft ((name, bit) ∷ []) circuit
        (with_fixed circuit name bit) }
{}
