//! Laws of gains: they are what division saves, and what gains is a candidate of `fx`.

ghost use Rattle.std.specs.Prelude.{◌≡◌, ◌+◌, ◌<◌, ℕ, true, List};
ghost use Rattle.std.specs.List.{sum_by};
ghost use Rattle.circuit_model.specs.Counts.{literals_of_table};
ghost use Rattle.circuit_model.specs.Soundness.{IsSound};
ghost use Rattle.circuit_model.specs.declared.circuit.Table.{Table};
ghost use Rattle.circuit_model.specs.declared.circuit.Circuit.{Circuit};
ghost use Rattle.alg_div.specs.Cubes.{Has};
ghost use Rattle.net_candidates.specs.Candidates.{IsCandidate, cubes_of};
ghost use Rattle.net_candidates.specs.declared.rule.Rule.TheVariants.{Fx};
ghost use Rattle.cover_names.specs.Literals.{NamedCover};
ghost use Rattle.net_core.specs.Fresh.{IsNewName};
ghost use Rattle.net_gains.specs.Gains.{gains};
ghost use Rattle.alg_tables.specs.Dividing.{divided};
ghost use Rattle.circuit_tables.specs.Tidy.{rows_differ};

/// A table in which no row occurs twice loses exactly its gains if it is divided by a candidate of
/// `fx`, in a sound circuit and under a new name.
pub fn gains_are_what_tables_lose()
    ensures { (circuit : Circuit) (name : List ℕ) (cover : NamedCover) (table : Table)
        → IsSound circuit → IsNewName circuit name
        → IsCandidate Fx circuit.tables cover → Has table circuit.tables → rows_differ table.rows ≡ true
        → literals_of_table (divided name true cover table) + gains cover (cubes_of table) ≡ literals_of_table table }
{}

/// A cover that gains in tables is a candidate of them.
pub fn what_gains_is_a_candidate()
    ensures { (tables : List Table) (cover : NamedCover) → 0 < sum_by
        (λ (table : Table). gains cover (cubes_of table)) tables → IsCandidate Fx tables cover }
{}
