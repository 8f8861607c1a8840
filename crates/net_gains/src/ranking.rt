//! The ranks of divisors.

use crate::shared::SharedDivisor;
use net_queue::Ranking;
use sis_base::Copied;
use std::alloc::{AllocError, Global};
use std::cmp::Reverse;

/// Ranks divisors by how much they save beyond their own literals, the greatest saving first; a
/// divisor that saves no more than its literals has no rank.
pub(crate) struct BySaving;

impl Ranking<SharedDivisor, u64, Reverse<u64>> for BySaving {
    ghost use Rattle.net_queue.specs.Greatest.{greatest_exact};
    ghost use Rattle.net_gains.specs.Totals.{rank_of};
    ghost use Rattle.net_gains.specs.Orders.{divisors_exact};

    ghost rank_of = { rank_of };

    ghost keys_exact = { divisors_exact };

    ghost ranks_exact = { greatest_exact };

    fn rank(divisor: &SharedDivisor, total: u64) -> Option<Reverse<u64>> {
        let literals = divisor.literals();
        if literals < total {
            Some(Reverse(total - literals))
        } else {
            None
        }
    }

    fn copy(alloc: Global, divisor: &SharedDivisor) -> Result<SharedDivisor, AllocError> {
        divisor.copy(alloc)
    }
}
