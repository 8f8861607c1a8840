//! The number of literals of a form, counted on its tree without expansion. The caller knows that
//! it is below 2^64, so that no sum overflows.

ghost use Rattle.std.specs.Prelude.{◌≡◌, ℕ, ◌+◌, ◌^◌, ◌<◌, ◌≤◌, Bool, Option, List, map};
ghost use Rattle.cube_cover.specs.Literals.{cover_literals};
ghost use Rattle.alg_factor.specs.Forms.{form_literals};
ghost use Rattle.alg_factor.specs.Shapes.{shape};

use crate::form::Tree;
use cube_cover::Row;

// The number of literals of rows.
#[tactic(auto, unfolding(cube_cover::specs::Literals::cover_literals))]
fn rows_count<R: Row>(rows: &[R]) -> u64
    requires { cover_literals (map R.literals rows.now) < 2 ^ 64 }
    ensures { result ≡ cover_literals (map R.literals rows.now) }
{
    let mut count = 0;
    for row in rows {
        count += row.literal_count() as u64;
    }
    count
}

/// The number of literals of a tree, which must be below 2^64.
#[tactic(auto, unfolding(crate::specs::Forms::form_literals))]
pub(crate) fn tree_literals<R: Row>(tree: &Tree<R>) -> u64
    requires { form_literals (shape R.literals tree.now) < 2 ^ 64 }
    ensures { result ≡ form_literals (shape R.literals tree.now) }
{
    let mut count = 0;
    let mut here = tree;
    loop {
        match here {
            Tree::Rows(rows) => return count + rows_count(rows.as_slice()),
            Tree::Term(_, _, quotient, rest) => {
                count += 1 + tree_literals(quotient);
                here = rest;
            }
        }
    }
}
