//! Counts of literals in rows, and whether rows are a single product or a single sum.
//!
//! Source: the SIS report (UCB/ERL M92/41), `tech_decomp`. A row is long if it has two literals or
//! more. Rows are a gate if they are at most one product, or a sum of single literals, within given
//! sizes; callers rely on `is_gate` exactly.

ghost use Rattle.std.specs.Prelude.{◌≡◌, ℕ, leb, eqb, Bool, Option, List, map};
ghost use Rattle.std.specs.List.{list_all, list_any};
ghost use Rattle.cube_cover.specs.Literals.{row_literals, all_dashes, some_dashes};
ghost use Rattle.net_decomp.specs.Rules.{is_long, is_gate};

use cube_cover::Row;

// Whether a row has at most so many literals.
fn is_within<R: Row>(row: &R, most: usize) -> bool
    ensures { result ≡ leb (row_literals (R.literals row.now)) most }
{
    row.literal_count() <= most
}

// Whether a row has one literal.
fn is_single<R: Row>(row: &R) -> bool
    ensures { result ≡ eqb (row_literals (R.literals row.now)) 1 }
{
    row.literal_count() == 1
}

// Whether a row has no literal.
#[tactic(auto, using(crate::proofs::Counted::none_dashes))]
fn is_empty<R: Row>(row: &R) -> bool
    ensures { result ≡ all_dashes (R.literals row.now) }
{
    row.literal_count() == 0
}

/// Whether a row has two literals or more.
pub(crate) fn is_long_row<R: Row>(row: &R) -> bool
    ensures { result ≡ is_long (R.literals row.now) }
{
    1 < row.literal_count()
}

// Whether each row has at most so many literals.
fn all_within<R: Row>(rows: &[R], most: usize) -> bool
    ensures { result ≡ list_all (λ row. leb (row_literals row) most) (map R.literals rows.now) }
{
    for row in rows {
        if !is_within(row, most) {
            return false;
        }
    }
    true
}

// Whether each row has one literal.
fn all_single<R: Row>(rows: &[R]) -> bool
    ensures { result ≡ list_all (λ row. eqb (row_literals row) 1) (map R.literals rows.now) }
{
    for row in rows {
        if !is_single(row) {
            return false;
        }
    }
    true
}

/// Whether some row has two literals or more.
pub(crate) fn some_long<R: Row>(rows: &[R]) -> bool
    ensures { result ≡ list_any is_long (map R.literals rows.now) }
{
    for row in rows {
        if is_long_row(row) {
            return true;
        }
    }
    false
}

/// Whether some row has no literal.
#[tactic(auto, unfolding(cube_cover::specs::Literals::some_dashes))]
pub(crate) fn some_empty<R: Row>(rows: &[R]) -> bool
    ensures { result ≡ some_dashes (map R.literals rows.now) }
{
    for row in rows {
        if is_empty(row) {
            return true;
        }
    }
    false
}

/// Whether rows are one product of at most so many literals, or a sum of at most so many rows of
/// one literal each.
#[tactic(auto, unfolding(crate::specs::Rules::is_gate))]
pub(crate) fn are_gate<R: Row>(rows: &[R], products: usize, sums: usize) -> bool
    ensures { result ≡ is_gate products sums (map R.literals rows.now) }
{
    (rows.len() <= 1 && all_within(rows, products)) || (rows.len() <= sums && all_single(rows))
}
