//! Laws of a table into which another was eliminated, and of one that was divided, each the
//! contract of a call that does nothing (De Micheli, "Synthesis and Optimization of Digital
//! Circuits", chapter 8).
//!
//! Both keep the table's value wherever the signal has its table's or its cover's value, and keep
//! its output and shape; what each may read is stated, so that callers can prove that tables form
//! no cycle. `dividing_splits` gives callers all that circuit_laws asks of a table that is split
//! off.

ghost use Rattle.std.specs.Prelude.{◌≡◌, ℕ, Bool, true, false, Option, Some, List, ◌∷◌, [], ◌⊎◌};
ghost use Rattle.std.specs.List.{AllByRecursion, list_all};
ghost use Rattle.sis_base.specs.Rows.{HasWidth, agrees};
ghost use Rattle.circuit_model.specs.Names.{has, all_different};
ghost use Rattle.circuit_model.specs.Values.{driven_value};
ghost use Rattle.circuit_model.specs.Soundness.{given, IsShaped};
ghost use Rattle.circuit_model.specs.declared.circuit.Table.{Table};
ghost use Rattle.circuit_model.specs.declared.circuit.Circuit.{Circuit};
ghost use Rattle.circuit_laws.specs.Fitting.{IsFitting};
ghost use Rattle.circuit_laws.specs.Splits.{IsSplit};
ghost use Rattle.alg_div.specs.Quotient.{IsQuotient};
ghost use Rattle.cover_names.specs.Literals.{Cube, NamedCover};
ghost use Rattle.cover_names.specs.Cubes.{is_over, names_in, cover_value};
ghost use Rattle.alg_tables.specs.Taking.{composed_into};
ghost use Rattle.alg_tables.specs.Dividing.{quotient, divided, cover_table};

/// The table keeps its value wherever the signal of the eliminated table has that table's value. A
/// table that does not read the signal stays as it is.
pub fn taking_keeps_values()
    ensures value { (inner outer : Table) (value : List ℕ → Bool) → IsShaped inner
        → IsShaped outer → all_different inner.inputs ≡ true
        → has inner.inputs inner.output ≡ false → value inner.output ≡ driven_value (Some inner) value
        → driven_value (Some (composed_into inner outer)) value ≡ driven_value (Some outer) value }
    ensures apart { (inner outer : Table) → has outer.inputs inner.output ≡ false
        → composed_into inner outer ≡ outer }
{}

/// The table keeps its output and its shape, and lists each input once. It reads what it read and
/// what the eliminated table reads, but no longer that table's signal.
pub fn taken_tables_are_shaped()
    ensures output { (inner outer : Table) → (composed_into inner outer).output ≡ outer.output }
    ensures shaped { (inner outer : Table) → IsShaped outer → IsShaped (composed_into inner outer) }
    ensures once { (inner outer : Table) → all_different outer.inputs ≡ true → all_different
        (composed_into inner outer).inputs ≡ true }
    ensures reads { (inner outer : Table) (name : List ℕ) → has
        (composed_into inner outer).inputs name ≡ true
        → (has outer.inputs name ≡ true) ⊎ ((has outer.inputs inner.output ≡ true) × (has inner.inputs name ≡ true)) }
    ensures unread { (inner outer : Table) → all_different outer.inputs ≡ true
        → has inner.inputs inner.output ≡ false
        → has (composed_into inner outer).inputs inner.output ≡ false }
{}

/// The quotient of rows is the one of weak division, which is unique.
pub fn quotients_are_those_of_division()
    ensures is { (width : ℕ) (f d : List (List (Option Bool))) → HasWidth width f
        → IsQuotient width f d (quotient width f d) }
    ensures one { (width : ℕ) (f d q : List (List (Option Bool))) → HasWidth width f
        → IsQuotient width f d q → q ≡ quotient width f d }
{}

/// A divided table keeps its value wherever the literal of the signal has the value of the cover,
/// if no name occurs twice in a cube of the cover. A table that does not read all that the cover
/// reads stays as it is.
pub fn dividing_keeps_values()
    ensures value { (name : List ℕ) (bit : Bool) (cover : NamedCover) (table : Table)
        (value : List ℕ → Bool) → IsShaped table
        → list_all (λ (cube : Cube). all_different (names_in (cube ∷ []))) cover ≡ true → agrees (Some bit) (value name) ≡ cover_value value cover
        → driven_value (Some (divided name bit cover table)) value ≡ driven_value (Some table) value }
    ensures apart { (name : List ℕ) (bit : Bool) (cover : NamedCover) (table : Table)
        → is_over table.inputs cover ≡ false → divided name bit cover table ≡ table }
{}

/// A divided table keeps its output and its shape, and lists each input once. It reads what it
/// read, and the signal only if it read all that the cover reads. It fits if the table did and
/// `name` is a signal.
pub fn divided_tables_are_shaped()
    ensures output { (name : List ℕ) (bit : Bool) (cover : NamedCover) (table : Table)
        → (divided name bit cover table).output ≡ table.output }
    ensures shaped { (name : List ℕ) (bit : Bool) (cover : NamedCover) (table : Table)
        → IsShaped table → IsShaped (divided name bit cover table) }
    ensures once { (name : List ℕ) (bit : Bool) (cover : NamedCover) (table : Table)
        → all_different table.inputs ≡ true → all_different (divided name bit cover table).inputs
        ≡ true }
    ensures reads { (name : List ℕ) (bit : Bool) (cover : NamedCover) (table : Table)
        (other : List ℕ) → has (divided name bit cover table).inputs other ≡ true
        → (has table.inputs other ≡ true) ⊎ ((other ≡ name) × ((input : List ℕ) → has (names_in cover) input ≡ true → has table.inputs input ≡ true)) }
    ensures fits { (circuit : Circuit) (name : List ℕ) (bit : Bool) (cover : NamedCover)
        (table : Table) → IsFitting circuit table → has (given circuit) name ≡ true
        → IsFitting circuit (divided name bit cover table) }
{}

/// The table of a cover reads exactly the cover's names. It fits if these are signals, and has the
/// value of the cover if no name occurs twice in a cube.
pub fn cover_tables_fit()
    ensures reads { (name : List ℕ) (cover : NamedCover) (input : List ℕ) → has
        (cover_table name cover).inputs input ≡ has (names_in cover) input }
    ensures fits { (circuit : Circuit) (name : List ℕ) (cover : NamedCover)
        → ((input : List ℕ) → has (names_in cover) input ≡ true → has (given circuit) input ≡ true)
        → IsFitting circuit (cover_table name cover) }
    ensures value { (name : List ℕ) (cover : NamedCover) (value : List ℕ → Bool) → list_all
        (λ (cube : Cube). all_different (names_in (cube ∷ []))) cover ≡ true
        → driven_value (Some (cover_table name cover)) value ≡ cover_value value cover }
{}

/// If all tables are divided by a cover in whose cubes no name occurs twice, the cover's table is
/// split off them.
pub fn dividing_splits()
    ensures { (circuit : Circuit) (name : List ℕ) (cover : NamedCover) → list_all
        (λ (cube : Cube). all_different (names_in (cube ∷ []))) cover ≡ true
        → AllByRecursion IsShaped circuit.tables → IsSplit circuit (cover_table name cover) (divided name true cover) }
{}
