//! The factored form of a cover, by literal factoring (Brayton, Rudell, Sangiovanni-Vincentelli and
//! Wang, "MIS: A Multiple-Level Logic Optimization System", 1987). The form of `factor` is the only
//! one that the rule gives, yields the rows when multiplied out, and has no more literals than they
//! have.

ghost use Rattle.std.specs.Prelude.{◌≡◌, ℕ, ◌<◌, ◌≤◌, ◌↔◌, Option, Bool, List, map, IfOk};
ghost use Rattle.std.specs.List.Sorted.{IsPermutation};
ghost use Rattle.sis_base.specs.Rows.{HasWidth};
ghost use Rattle.cube_cover.specs.Literals.{cover_literals};
ghost use Rattle.alg_factor.specs.Forms.{Form, Sum, IsFactored, IsOver, NoneShared, SomeShared, expansion_of, form_literals};
ghost use Rattle.alg_factor.specs.Shapes.{shape};
ghost use Rattle.alg_factor.specs.Chains.{chain_form};

use crate::choice::{best_literal, part_rows};
use crate::form::{Factored, Tree};
use cube_cover::{Cover, Row};
use sis_base::Copied;
use std::alloc::{AllocError, Global};

// A literal and the tree that it multiplies.
#[derive(Drop)]
struct Product<R: Row> {
    place: usize,
    bit: bool,
    quotient: Tree<R>,
}

// The sum of products and rows, as one tree.
fn chain<R: Row>(
    alloc: Global,
    products: Vec<Product<R>>,
    rest: Vec<R>,
) -> Result<Tree<R>, AllocError>
    ensures { IfOk result (λ tree. shape R.literals tree ≡ chain_form R.literals products.items
        (Sum (map R.literals rest.items))) }
{
    let mut left = products;
    let mut tree = Tree::Rows(rest);
    while let Some(product) = left.pop() {
        let Product {
            place,
            bit,
            quotient,
        } = product;
        tree = Tree::Term(
            place,
            bit,
            Box::new(alloc, quotient)?,
            Box::new(alloc, tree)?,
        );
    }
    Ok(tree)
}

// The factored form of rows. The loop takes the rows without the chosen literal, so recursion goes
// into quotients only, which no longer have a literal of that column.
fn factored_rows<R: Row>(alloc: Global, width: usize, rows: Vec<R>) -> Result<Tree<R>, AllocError>
    requires { HasWidth width (map R.literals rows.items) }
    ensures { IfOk result (λ tree. IsFactored (map R.literals rows.items) (shape R.literals tree)) }
{
    let mut products = Vec::new(alloc);
    let mut rest = rows;
    while let Some(best) = best_literal(width, rest.as_slice()) {
        let parts = part_rows(alloc, width, rest, best.place, best.bit)?;
        let quotient = factored_rows(alloc, width, parts.with)?;
        products.push(Product {
            place: best.place,
            bit: best.bit,
            quotient,
        })?;
        rest = parts.others;
    }
    chain(alloc, products, rest)
}

/// The factored form of a cover's rows: their sum, if no literal occurs in two rows. Otherwise, for
/// the literal in most rows (of those in as many, the first by column and then 0 before 1): the
/// literal times the form of the rows that have it, without it, plus the form of the others.
pub fn factor<R: Row>(alloc: Global, f: &Cover<R>) -> Result<Factored<R>, AllocError>
    ensures width { IfOk result (λ made. made.width ≡ f.now.width) }
    ensures form { IfOk result (λ made. IsFactored f.now.rows made.form) }
    ensures only { IfOk result (λ made. (other : Form) → IsFactored f.now.rows other → other
        ≡ made.form) }
    ensures rows { IfOk result (λ made. IsPermutation f.now.rows (expansion_of made.form)) }
    ensures most { IfOk result (λ made. form_literals made.form ≤ cover_literals f.now.rows) }
    ensures fewer { IfOk result (λ made. form_literals made.form < cover_literals f.now.rows
        ↔ SomeShared f.now.rows) }
    ensures equal { IfOk result (λ made. NoneShared f.now.rows → form_literals made.form
        ≡ cover_literals f.now.rows) }
{
    let copied = f.copy(alloc)?;
    let width = copied.width();
    let tree = factored_rows(alloc, width, copied.into_rows())?;
    Ok(Factored::of(width, tree))
}
