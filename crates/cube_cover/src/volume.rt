//! Whether the rows of a cover are too few, or have too many literals, to contain all points.
//!
//! Source: Brayton et al., "Logic Minimization Algorithms for VLSI Synthesis" (the tautology test,
//! vertex counts). Promised: if the answer is yes, the shares of the rows add up to less than the
//! whole, and so some point is in none of them.

ghost use Rattle.std.specs.Prelude.{◌≡◌, ℕ, ◌-◌, ◌^◌, ◌<◌, ◌≤◌, Bool, Option, List, map, IsTrue};
ghost use Rattle.cube_cover.specs.Volumes.{cover_shares};

use crate::row::Row;

// The share of a row with this number of literals, where all points have 2^63; at least 1.
fn share_of(literals: usize) -> u64
    ensures share { result ≡ 2 ^ (63 - literals) }
    ensures most { result ≤ 2 ^ 63 }
{
    if literals >= 63 {
        return 1;
    }
    1 << (63 - literals)
}

/// Whether the shares of the rows add up to less than those of all points.
#[tactic(auto, unfolding(crate::specs::Volumes::cover_shares))]
pub fn is_too_small<R: Row>(rows: &[R]) -> bool
    ensures { IsTrue result → cover_shares (map R.literals rows.now) < 2 ^ 63 }
{
    let mut total: u64 = 0;
    for row in rows {
        total += share_of(row.literal_count());
        if total >= 1 << 63 {
            return false;
        }
    }
    true
}
