//! The tree of a table over the trees of its inputs: a sum of products as NANDs and inverters.
//!
//! Source: Rudell, "Logic Synthesis for VLSI Design" (thesis, University of California, Berkeley,
//! 1989), the chapter on technology mapping. Sums and products are joined from the last row to the
//! first, and in each row from the last literal to the first. Rows without literals are skipped; a
//! table none of whose rows has a literal has no tree. Callers rely on `table_tree`, and on the
//! trees that the arena had to stay.

ghost use Rattle.std.specs.Prelude.{◌≡◌, ◌<◌, ◌++◌, ℕ, List, Option, length, option_map, option_to_list, IfOk, IfSome};
ghost use Rattle.std.specs.List.{AllByRecursion};
ghost use Rattle.circuit_model.specs.declared.circuit.Tri.{Tri};
ghost use Rattle.subject_tree.specs.Trees.{Tree, product_of, sum_of};
ghost use Rattle.subject_tree.specs.Arenas.{tree_at, KeepsTrees};
ghost use Rattle.subject_tree.specs.Tables.{with_front, joined, literal_tree, literal_trees, row_tree, row_trees, by_phase, table_tree, trees_of, AreTaken, Finds};

use crate::arena::Arena;
use circuit_model::{Row, Table, Tri};
use std::alloc::AllocError;

// The number of the product of a tree and the next one, if there is one.
fn product_front(
    arena: &mut Arena,
    front: usize,
    behind: Option<usize>,
) -> Result<usize, AllocError>
    requires front { front < length arena.old }
    requires behind { IfSome behind (λ number. number < length arena.old) }
    ensures ok { IfOk result (λ number. (number < length arena.new)
        × (tree_at arena.new number ≡ with_front product_of (tree_at arena.old front)
        (option_map (tree_at arena.old) behind))) }
    ensures kept { KeepsTrees arena.old arena.new }
{
    match behind {
        None => Ok(front),
        Some(behind) => arena.product(front, behind),
    }
}

// The number of the sum of a tree and the next one, if there is one.
fn sum_front(arena: &mut Arena, front: usize, behind: Option<usize>) -> Result<usize, AllocError>
    requires front { front < length arena.old }
    requires behind { IfSome behind (λ number. number < length arena.old) }
    ensures ok { IfOk result (λ number. (number < length arena.new)
        × (tree_at arena.new number ≡ with_front sum_of (tree_at arena.old front)
        (option_map (tree_at arena.old) behind))) }
    ensures kept { KeepsTrees arena.old arena.new }
{
    match behind {
        None => Ok(front),
        Some(behind) => arena.sum(front, behind),
    }
}

// The number of a literal's tree, given its input's number; none for a dash.
fn literal(arena: &mut Arena, input: usize, character: Tri) -> Result<Option<usize>, AllocError>
    requires { input < length arena.old }
    ensures ok { IfOk result (λ number. Finds arena.new number
        (literal_tree character (tree_at arena.old input))) }
    ensures kept { KeepsTrees arena.old arena.new }
{
    match character {
        Tri::Zero => Ok(Some(arena.complement(input)?)),
        Tri::One => Ok(Some(input)),
        Tri::Free => Ok(None),
    }
}

// Joins a literal to what was made of the literals after it.
fn with_literal(
    arena: &mut Arena,
    input: usize,
    character: Tri,
    behind: Option<usize>,
) -> Result<Option<usize>, AllocError>
    requires input { input < length arena.old }
    requires behind { IfSome behind (λ number. number < length arena.old) }
    ensures ok { IfOk result (λ made. (ts : List (Tree ℕ)) → Finds arena.old behind
        (joined product_of ts) → Finds arena.new made
        (joined product_of (option_to_list (literal_tree character (tree_at arena.old input)) ++
        ts))) }
    ensures kept { KeepsTrees arena.old arena.new }
{
    match literal(arena, input, character)? {
        None => Ok(behind),
        Some(front) => Ok(Some(product_front(arena, front, behind)?)),
    }
}

// The number of a row's tree, given the numbers of its inputs; none if the row has no literal.
fn row_number(arena: &mut Arena, inputs: &[usize], row: &[Tri]) -> Result<Option<usize>, AllocError>
    requires taken { AreTaken arena.old inputs.now }
    requires width { length row.now ≡ length inputs.now }
    ensures ok { IfOk result (λ made. Finds arena.new made
        (row_tree (trees_of arena.old inputs.now) row.now)) }
    ensures kept { KeepsTrees arena.old arena.new }
{
    let mut made = None;
    let mut place = inputs.len();
    while place > 0 {
        place -= 1;
        made = with_literal(arena, inputs[place], row[place], made)?;
    }
    Ok(made)
}

// Joins a row's tree, if there is one, to what was made of the rows after it.
fn with_row(
    arena: &mut Arena,
    row: Option<usize>,
    behind: Option<usize>,
) -> Result<Option<usize>, AllocError>
    requires row { IfSome row (λ number. number < length arena.old) }
    requires behind { IfSome behind (λ number. number < length arena.old) }
    ensures ok { IfOk result (λ made. (t : Option (Tree ℕ)) (ts : List (Tree ℕ))
        → Finds arena.old row t → Finds arena.old behind (joined sum_of ts) → Finds arena.new made
        (joined sum_of (option_to_list t ++ ts))) }
    ensures kept { KeepsTrees arena.old arena.new }
{
    match row {
        None => Ok(behind),
        Some(row) => Ok(Some(sum_front(arena, row, behind)?)),
    }
}

// The number of the sum of rows, given the numbers of their inputs; none if no row has a literal.
fn rows_number(
    arena: &mut Arena,
    inputs: &[usize],
    rows: &[Row],
) -> Result<Option<usize>, AllocError>
    requires taken { AreTaken arena.old inputs.now }
    requires widths { AllByRecursion (λ (row : List Tri). length row ≡ length inputs.now)
        rows.now }
    ensures ok { IfOk result (λ made. Finds arena.new made
        (joined sum_of (row_trees (trees_of arena.old inputs.now) rows.now))) }
    ensures kept { KeepsTrees arena.old arena.new }
{
    let mut made = None;
    let mut place = rows.len();
    while place > 0 {
        place -= 1;
        let row = row_number(arena, inputs, rows[place].as_slice())?;
        made = with_row(arena, row, made)?;
    }
    Ok(made)
}

// The number of a tree if the phase is 1, else of its complement.
fn by_phase_number(
    arena: &mut Arena,
    number: usize,
    phase: bool,
) -> Result<Option<usize>, AllocError>
    requires { number < length arena.old }
    ensures ok { IfOk result (λ made. Finds arena.new made
        (Some (by_phase phase (tree_at arena.old number)))) }
    ensures kept { KeepsTrees arena.old arena.new }
{
    if phase {
        return Ok(Some(number));
    }
    Ok(Some(arena.complement(number)?))
}

/// The number of a table's tree, given the numbers of its inputs; none if no row has a literal.
pub fn table_number(
    arena: &mut Arena,
    inputs: &[usize],
    table: &Table,
) -> Result<Option<usize>, AllocError>
    requires taken { AreTaken arena.old inputs.now }
    requires widths { AllByRecursion (λ (row : List Tri). length row ≡ length inputs.now)
        table.now.rows }
    ensures ok { IfOk result (λ made. Finds arena.new made
        (table_tree (trees_of arena.old inputs.now) table.now)) }
    ensures kept { KeepsTrees arena.old arena.new }
{
    match rows_number(arena, inputs, table.rows.as_slice())? {
        None => Ok(None),
        Some(sum) => by_phase_number(arena, sum, table.phase),
    }
}
