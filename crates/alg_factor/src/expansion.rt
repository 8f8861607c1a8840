//! The expansion of a form: its products multiplied out, in the order of `specs/Forms.antt`.
//! Recursion goes into quotients only.

ghost use Rattle.std.specs.Prelude.{◌≡◌, ℕ, ◌<◌, ◌++◌, Bool, Option, Some, List, length, map, slice_set, IfOk};
ghost use Rattle.sis_base.specs.Rows.{HasWidth};
ghost use Rattle.alg_factor.specs.Forms.{IsOver, put_literal, expansion_of};
ghost use Rattle.alg_factor.specs.Shapes.{shape};

use crate::form::Tree;
use cube_cover::Row;
use std::alloc::{AllocError, Global};

// Rows followed by copies of others.
fn followed_by<R: Row>(alloc: Global, first: Vec<R>, others: &[R]) -> Result<Vec<R>, AllocError>
    ensures { IfOk result (λ made. map R.literals made.items
        ≡ map R.literals first.items ++ map R.literals others.now) }
{
    let mut made = first;
    for row in others {
        made.push(row.copy(alloc)?)?;
    }
    Ok(made)
}

// A row with a literal set in a column.
fn with_one<R: Row>(row: R, place: usize, bit: bool) -> R
    requires { place < length (R.literals row) }
    ensures { R.literals result ≡ slice_set (R.literals row) place (Some bit) }
{
    let mut made = row;
    made.set(place, Some(bit));
    made
}

// Rows followed by others with one literal more.
#[tactic(auto, using(cube_cover::proofs::Points::width_read))]
fn followed_with<R: Row>(
    width: usize,
    first: Vec<R>,
    others: Vec<R>,
    place: usize,
    bit: bool,
) -> Result<Vec<R>, AllocError>
    requires widths { HasWidth width (map R.literals others.items) }
    requires place { place < width }
    ensures { IfOk result (λ made. map R.literals made.items
        ≡ map R.literals first.items ++ put_literal place bit (map R.literals others.items)) }
{
    let mut made = first;
    for row in others {
        made.push(with_one(row, place, bit))?;
    }
    Ok(made)
}

/// The rows of a tree, multiplied out.
#[tactic(auto, unfolding(crate::specs::Forms::expansion_of))]
pub(crate) fn expand_rows<R: Row>(
    alloc: Global,
    width: usize,
    tree: &Tree<R>,
) -> Result<Vec<R>, AllocError>
    requires { IsOver width (shape R.literals tree.now) }
    ensures rows { IfOk result (λ made. map R.literals made.items ≡ expansion_of
        (shape R.literals tree.now)) }
    ensures widths { IfOk result (λ made. HasWidth width (map R.literals made.items)) }
{
    let mut made = Vec::new(alloc);
    let mut here = tree;
    loop {
        match here {
            Tree::Rows(rows) => {
                let all = followed_by(alloc, made, rows.as_slice())?;
                return Ok(all);
            }
            Tree::Term(place, bit, quotient, rest) => {
                let part = expand_rows(alloc, width, quotient)?;
                made = followed_with(width, made, part, *place, *bit)?;
                here = rest;
            }
        }
    }
}
