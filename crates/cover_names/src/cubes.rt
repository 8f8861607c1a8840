//! Cubes of rows and rows of cubes, and their normal form.
//!
//! A cube lists the literals of a row by name, so that cubes of tables with different inputs can be
//! compared (MIS, 1987: cubes are sets of literals). In normal form the literals of a cube, and the
//! cubes of a cover, are sorted and occur once. `cover_over` makes the normal form of a table's
//! rows; `row_over` goes back. `laws` states that values are kept and that the rows come back.

ghost use Rattle.std.specs.Prelude.{◌≡◌, ◌++◌, ◌∷◌, [], map, IfOk, OnOk};
ghost use Rattle.cover_names.specs.Literals.{cube_cmp, cover_cmp, sorted, sorted_cube};
ghost use Rattle.cover_names.specs.Cubes.{cube_over, literal_of, row_over, cover_over};

use crate::literal::{Cube, Literal, NamedCover};
use circuit_model::Name;
use sis_base::{Copied, Sequence};
use std::alloc::{AllocError, Global};
use std::cmp::Ordering;

// Appends the literal of a name, if the column has one.
fn add_literal(
    alloc: Global,
    literals: &mut Vec<Literal>,
    name: &Name,
    place: Option<bool>,
) -> Result<(), AllocError>
    ensures { OnOk result (literals.new.items ≡ literals.old.items ++ cube_over (name.now ∷ [])
        (place ∷ [])) }
{
    if let Some(bit) = place {
        literals.push(Literal {
            name: name.copy(alloc)?,
            bit,
        })?;
    }
    Ok(())
}

/// The literals of a row over names, in the order of the names.
pub fn cube_over(alloc: Global, names: &[Name], row: &[Option<bool>]) -> Result<Cube, AllocError>
    ensures { IfOk result (λ cube. cube ≡ cube_over names.now row.now) }
{
    let mut literals = Vec::new(alloc);
    for (name, place) in names.iter().zip(row) {
        add_literal(alloc, &mut literals, name, *place)?;
    }
    Ok(Sequence::from_vec(literals))
}

// The bit of the first literal of a name, if there is one.
fn literal_of(cube: &[Literal], name: &Name) -> Option<bool>
    ensures { result ≡ literal_of cube.now name.now }
{
    cube.iter()
        .find(|literal| literal.name == *name)
        .map(|literal| literal.bit)
}

/// The row of a cube over names: for each name the bit of its first literal, or a dash.
pub fn row_over(
    alloc: Global,
    names: &[Name],
    cube: &[Literal],
) -> Result<Vec<Option<bool>>, AllocError>
    ensures { IfOk result (λ row. row.items ≡ row_over names.now cube.now) }
{
    let mut row = Vec::with_capacity(alloc, names.len())?;
    for name in names {
        row.push(literal_of(cube, name))?;
    }
    Ok(row)
}

/// A cube with its literals sorted, each once.
pub fn sorted_cube(cube: Cube) -> Cube
    ensures { result ≡ sorted_cube cube }
{
    let mut literals = cube.into_vec();
    literals.sort_unstable();
    literals.dedup();
    Sequence::from_vec(literals)
}

/// The order of two cubes.
pub fn compare_cubes(one: &Cube, other: &Cube) -> Ordering
    ensures { result ≡ cube_cmp one.now other.now }
{
    one.as_slice().cmp(other.as_slice())
}

/// The order of two covers.
pub fn compare_covers(one: &NamedCover, other: &NamedCover) -> Ordering
    ensures { result ≡ cover_cmp one.now other.now }
{
    for (cube, next) in one.as_slice().iter().zip(other.as_slice()) {
        let order = compare_cubes(cube, next);
        if order.is_ne() {
            return order;
        }
    }
    one.len().cmp(&other.len())
}

/// A cover with its cubes sorted, each once; the literals within each cube stay as they are.
pub fn sorted_cover(cover: NamedCover) -> NamedCover
    ensures { result ≡ sorted cube_cmp cover }
{
    let mut cubes = cover.into_vec();
    cubes.sort_unstable_by(compare_cubes);
    cubes.dedup();
    Sequence::from_vec(cubes)
}

// The cubes of rows over names, each sorted.
fn cubes_over(
    alloc: Global,
    names: &[Name],
    rows: &[Vec<Option<bool>>],
) -> Result<NamedCover, AllocError>
    ensures { IfOk result (λ cubes. cubes ≡ map (λ row. sorted_cube
        (cube_over names.now row.items)) rows.now) }
{
    let mut cubes = Vec::with_capacity(alloc, rows.len())?;
    for row in rows {
        cubes.push(sorted_cube(cube_over(alloc, names, row.as_slice())?))?;
    }
    Ok(Sequence::from_vec(cubes))
}

/// The sorted cover of rows over names: each cube sorted, and the cubes sorted, each once.
pub fn cover_over(
    alloc: Global,
    names: &[Name],
    rows: &[Vec<Option<bool>>],
) -> Result<NamedCover, AllocError>
    ensures { IfOk result (λ cover. cover ≡ cover_over names.now (map (λ row. row.items) rows.now)) }
{
    let cubes = cubes_over(alloc, names, rows)?;
    Ok(sorted_cover(cubes))
}
