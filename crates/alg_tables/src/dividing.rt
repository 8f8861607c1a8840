//! The division of a table by a cover of literals by name, and the table of such a cover.
//!
//! Source: Brayton, Rudell, Sangiovanni-Vincentelli and Wang, "MIS: A Multiple-Level Logic
//! Optimization System" (1987): weak division and resubstitution. `divided_table` divides the
//! table's rows by the cover over the table's inputs (alg_div), multiplies the quotient by the
//! literal of a signal, the new last input, adds the remainder and brings the result to normal
//! form. Before it divides, it looks for a row for each of the cover's cubes that has the cube's
//! literals; if a cube has no such row, the quotient is empty. It returns `None` exactly if the
//! cover does not divide the table. The rows of a table must be over its inputs; those of the result
//! are.

ghost use Rattle.std.specs.Prelude.{◌≡◌, ℕ, suc, Bool, true, Option, Some, None, is_none, List, [], ◌∷◌, ◌++◌, length, map, IfOk, IfSome, OnOk};
ghost use Rattle.std.specs.List.{list_all};
ghost use Rattle.std.specs.Ordering.{nat_cmp};
ghost use Rattle.std.specs.Cmp.Lexicographic.{slice_cmp};
ghost use Rattle.sis_base.specs.Rows.{HasWidth};
ghost use Rattle.circuit_model.specs.Names.{has};
ghost use Rattle.alg_div.specs.Steps.{literals_in};
ghost use Rattle.cover_names.specs.Cubes.{row_over, is_over, names_in};
ghost use Rattle.cover_names.specs.declared.literal.Literal.{Literal};
ghost use Rattle.net_core.specs.Tables.{named, IsOverInputs};
ghost use Rattle.alg_tables.specs.Dividing.{IsDivision, is_undivided, divided, sorted_names, cover_table};
ghost use Rattle.alg_tables.specs.Containing.{some_row_has, rows_have_each};

use alg_div::{cover_of, divide, literals_of};
use circuit_model::{Name, Names, has_name};
use cover_names::{Cube, Literal, row_over};
use cube_cover::{Cover, Row, contains_row};
use net_core::{CoverTable, tidy};
use sis_base::{Copied, Sequence};
use std::alloc::{AllocError, Global};
use std::cmp::Ordering;

// Whether all literals of a cube have one of some names.
fn is_cube_over(names: &[Name], cube: &[Literal]) -> bool
    ensures { result ≡ list_all (λ (literal : Literal). has names.now literal.name) cube.now }
{
    for literal in cube {
        if !has_name(names, &literal.name) {
            return false;
        }
    }
    true
}

// Whether all literals of a cover have one of some names.
fn is_cover_over(names: &[Name], cover: &[Cube]) -> bool
    ensures { result ≡ is_over names.now cover.now }
{
    for cube in cover {
        if !is_cube_over(names, cube.as_slice()) {
            return false;
        }
    }
    true
}

// The rows of a cover's cubes over names.
fn rows_over(
    alloc: Global,
    names: &[Name],
    cover: &[Cube],
) -> Result<Vec<Vec<Option<bool>>>, AllocError>
    ensures { IfOk result (λ rows. literals_in rows.items ≡ map (row_over names.now) cover.now) }
{
    let mut rows = Vec::with_capacity(alloc, cover.len())?;
    for cube in cover {
        rows.push(row_over(alloc, names, cube.as_slice())?)?;
    }
    Ok(rows)
}

// Appends rows, each with one more column at its end.
fn push_with_column<R: Row>(
    alloc: Global,
    made: &mut Vec<Vec<Option<bool>>>,
    rows: &[R],
    place: Option<bool>,
) -> Result<(), AllocError>
    ensures { OnOk result (literals_in made.new.items ≡ literals_in made.old.items
        ++ map (λ row. row ++ place ∷ []) (map R.literals rows.now)) }
{
    for row in rows {
        let mut literals = literals_of(alloc, row)?;
        literals.push(place)?;
        made.push(literals)?;
    }
    Ok(())
}

// The quotient's rows with a literal in a new last column, followed by the remainder's rows with a
// dash there.
fn ended_cover<R: Row>(
    alloc: Global,
    width: usize,
    bit: bool,
    quotient: &Cover<R>,
    remainder: &Cover<R>,
) -> Result<Cover<R>, AllocError>
    requires quotient { width ≡ suc quotient.now.width }
    requires remainder { width ≡ suc remainder.now.width }
    ensures { IfOk result (λ made. made ≡ record {
      width = width;
      rows = map (λ row. row ++ Some bit ∷ []) quotient.now.rows
          ++ map (λ row. row ++ None ∷ []) remainder.now.rows;
    }) }
{
    let mut rows = Vec::new(alloc);
    push_with_column(alloc, &mut rows, quotient.rows(), Some(bit))?;
    push_with_column(alloc, &mut rows, remainder.rows(), None)?;
    let cover = cover_of(alloc, width, rows.as_slice())?;
    Ok(cover)
}

// A table with the rows of a quotient and a remainder, and a signal as its last input; not yet in
// normal form.
fn rejoined_table<R: Row>(
    alloc: Global,
    table: &CoverTable<R>,
    name: &Name,
    bit: bool,
    quotient: &Cover<R>,
    remainder: &Cover<R>,
) -> Result<CoverTable<R>, AllocError>
    requires quotient { quotient.now.width ≡ length table.now.inputs }
    requires remainder { remainder.now.width ≡ length table.now.inputs }
    ensures inputs { IfOk result (λ made. made.inputs ≡ table.now.inputs ++ name.now ∷ []) }
    ensures rows { IfOk result (λ made. made.cover.rows
        ≡ map (λ row. row ++ Some bit ∷ []) quotient.now.rows
        ++ map (λ row. row ++ None ∷ []) remainder.now.rows) }
    ensures phase { IfOk result (λ made. made.phase ≡ table.now.phase) }
    ensures over { IfOk result IsOverInputs }
{
    let mut inputs = table.inputs.copy(alloc)?;
    inputs.push(name.copy(alloc)?)?;
    let cover = ended_cover(alloc, inputs.len(), bit, quotient, remainder)?;
    Ok(CoverTable {
        inputs,
        cover,
        phase: table.phase,
    })
}

// Whether one of the rows has all literals of a cube.
#[tactic(auto, using(cube_cover::proofs::Points::width_read))]
fn some_row_has<R: Row>(cube: &R, rows: &[R]) -> bool
    requires { HasWidth (length (R.literals cube.now)) (map R.literals rows.now) }
    ensures { result ≡ some_row_has (R.literals cube.now) (map R.literals rows.now) }
{
    for row in rows {
        if contains_row(cube, row) {
            return true;
        }
    }
    false
}

// Whether for each cube of a divisor one of a cover's rows has all its literals; if not, the
// quotient of the cover is empty.
#[tactic(auto, using(cube_cover::proofs::Points::width_read))]
fn rows_have_each<R: Row>(divisor: &Cover<R>, cover: &Cover<R>) -> bool
    requires { divisor.now.width ≡ cover.now.width }
    ensures { result ≡ rows_have_each divisor.now.rows cover.now.rows }
{
    let rows = cover.rows();
    let cubes = divisor.rows();
    for cube in cubes {
        if !some_row_has(cube, rows) {
            return false;
        }
    }
    true
}

/// The division of a table's rows by a cover.
pub struct Division<R: Row> {
    /// The rows of the cover over the table's inputs.
    pub divisor: Cover<R>,
    /// The quotient, which has a row.
    pub quotient: Cover<R>,
    /// The rows of the table that are no product of the quotient and the divisor.
    pub remainder: Cover<R>,
}

// By hand, so that one call drops it.
impl<R: Row> Drop for Division<R> {
    fn drop(self) {
        let Division {
            divisor: _divisor,
            quotient: _quotient,
            remainder: _remainder,
        } = self;
    }
}

/// The division of a table's rows by a cover. `None` exactly if the cover does not divide the
/// table: it does not read all that the cover reads, or the quotient has no cube.
pub fn division_of<R: Row>(
    alloc: Global,
    table: &CoverTable<R>,
    cover: &[Cube],
) -> Result<Option<Division<R>>, AllocError>
    requires { IsOverInputs table.now }
    ensures some { IfOk result (λ found. IfSome found (IsDivision cover.now table.now)) }
    ensures exact { IfOk result (λ found. (output : List ℕ)
        → is_none found ≡ is_undivided cover.now (named output table.now)) }
{
    if !is_cover_over(table.inputs.as_slice(), cover) {
        return Ok(None);
    }
    let rows = rows_over(alloc, table.inputs.as_slice(), cover)?;
    let divisor = cover_of(alloc, table.inputs.len(), rows.as_slice())?;
    let _of_one_width = table.cover.rows();
    if !rows_have_each(&divisor, &table.cover) {
        return Ok(None);
    }
    let (quotient, remainder) = divide(alloc, &table.cover, &divisor)?;
    if quotient.rows().is_empty() {
        return Ok(None);
    }
    Ok(Some(Division {
        divisor,
        quotient,
        remainder,
    }))
}

/// The table divided by a cover, which the literal of `name` then replaces, the positive one if
/// `bit` is true: the quotient's cubes with that literal and the remainder's rows, in normal form.
/// `None` exactly if the cover does not divide it, so that it stays as it is: it does not read all
/// that the cover reads, or the quotient has no cube.
pub fn divided_table<R: Row>(
    alloc: Global,
    table: &CoverTable<R>,
    name: &Name,
    bit: bool,
    cover: &[Cube],
) -> Result<Option<CoverTable<R>>, AllocError>
    requires { IsOverInputs table.now }
    ensures some { IfOk result (λ found. IfSome found (λ made. (output : List ℕ)
        → named output made ≡ divided name.now bit cover.now (named output table.now))) }
    ensures over { IfOk result (λ found. IfSome found IsOverInputs) }
    ensures none { IfOk result (λ found. found ≡ None → (output : List ℕ)
        → divided name.now bit cover.now (named output table.now) ≡ named output table.now) }
    ensures exact { IfOk result (λ found. (output : List ℕ)
        → is_none found ≡ is_undivided cover.now (named output table.now)) }
{
    match division_of(alloc, table, cover)? {
        None => Ok(None),
        Some(parts) => {
            let rejoined = rejoined_table(
                alloc,
                table,
                name,
                bit,
                &parts.quotient,
                &parts.remainder,
            )?;
            let tidy_table = tidy(alloc, &rejoined)?;
            Ok(Some(tidy_table))
        }
    }
}

// Appends copies of the names of a cube's literals.
fn push_cube_names(alloc: Global, names: &mut Vec<Name>, cube: &[Literal]) -> Result<(), AllocError>
    ensures { OnOk result (names.new.items ≡ names.old.items
        ++ map (λ (literal : Literal). literal.name) cube.now) }
{
    for literal in cube {
        names.push(literal.name.copy(alloc)?)?;
    }
    Ok(())
}

// The names of a cover's literals, in their order, with repetitions.
fn all_names(alloc: Global, cover: &[Cube]) -> Result<Vec<Name>, AllocError>
    ensures { IfOk result (λ names. names.items ≡ names_in cover.now) }
{
    let mut names = Vec::new(alloc);
    for cube in cover {
        push_cube_names(alloc, &mut names, cube.as_slice())?;
    }
    Ok(names)
}

// The order of two names, byte by byte.
fn compare_names(one: &Name, other: &Name) -> Ordering
    ensures { result ≡ slice_cmp nat_cmp one.now other.now }
{
    one.as_slice().cmp(other.as_slice())
}

// The names of a cover, sorted, each once.
fn names_of(alloc: Global, cover: &[Cube]) -> Result<Names, AllocError>
    ensures { IfOk result (λ names. names ≡ sorted_names cover.now) }
{
    let mut names = all_names(alloc, cover)?;
    names.sort_unstable_by(compare_names);
    names.dedup();
    Ok(Sequence::from_vec(names))
}

/// The table of a cover: its inputs are the cover's names, sorted, each once; its rows are the
/// cubes in the cover's order.
pub fn cover_table<R: Row>(alloc: Global, cover: &[Cube]) -> Result<CoverTable<R>, AllocError>
    ensures table { IfOk result (λ made. (name : List ℕ)
        → named name made ≡ cover_table name cover.now) }
    ensures over { IfOk result IsOverInputs }
{
    let inputs = names_of(alloc, cover)?;
    let rows = rows_over(alloc, inputs.as_slice(), cover)?;
    let made = cover_of(alloc, inputs.len(), rows.as_slice())?;
    Ok(CoverTable {
        inputs,
        cover: made,
        phase: true,
    })
}
