//! The cubes of a table's rows by names, each cube sorted.

ghost use Rattle.std.specs.Prelude.{◌≡◌, ℕ, List, map, IfOk};
ghost use Rattle.net_candidates.specs.Candidates.{cubes_of};
ghost use Rattle.cover_names.specs.Cubes.{cube_over};
ghost use Rattle.cover_names.specs.Literals.{sorted_cube};
ghost use Rattle.net_core.specs.Tables.{named, IsOverInputs};

use alg_div::literals_of;
use circuit_model::Name;
use cover_names::{NamedCover, cube_over, sorted_cube};
use cube_cover::Row;
use net_core::CoverTable;
use sis_base::Sequence;
use std::alloc::{AllocError, Global};

// The cubes of rows over names, each sorted.
fn cubes_over<R: Row>(alloc: Global, names: &[Name], rows: &[R]) -> Result<NamedCover, AllocError>
    ensures { IfOk result (λ cubes. cubes ≡ map (λ row. sorted_cube (cube_over names.now row))
        (map R.literals rows.now)) }
{
    let mut cubes = Vec::with_capacity(alloc, rows.len())?;
    for row in rows {
        let literals = literals_of(alloc, row)?;
        cubes.push(sorted_cube(cube_over(alloc, names, literals.as_slice())?))?;
    }
    Ok(Sequence::from_vec(cubes))
}

/// The cubes of a table's rows, in the order of the rows, the literals of each in order.
pub fn cubes_of<R: Row>(alloc: Global, table: &CoverTable<R>) -> Result<NamedCover, AllocError>
    requires { IsOverInputs table.now }
    ensures { IfOk result (λ cubes. (output : List ℕ) → cubes ≡ cubes_of (named output table.now)) }
{
    cubes_over(alloc, table.inputs.as_slice(), table.cover.rows())
}
