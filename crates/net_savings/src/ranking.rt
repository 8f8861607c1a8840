//! The ranks of covers by what they save.

use crate::ordered::OrderedCover;
use net_queue::{Queue, Ranking};
use sis_base::Copied;
use std::alloc::{AllocError, Global};
use std::cmp::Reverse;

/// The priority queue of covers that save a literal or more: the greatest saving first, and of
/// equal savings the least cover. It also has the savings of other covers.
pub(crate) type Savings = Queue<OrderedCover, u128, Reverse<u128>, BySaving>;

/// Ranks covers that save a literal or more, the greatest saving first.
pub(crate) struct BySaving;

impl Ranking<OrderedCover, u128, Reverse<u128>> for BySaving {
    ghost use Rattle.cover_names.proofs.Orders.{cover_order};
    ghost use Rattle.net_queue.specs.Greatest.{greatest_exact};
    ghost use Rattle.net_savings.specs.Ranking.{rank_of};

    ghost rank_of = { rank_of };

    ghost keys_exact = { cover_order.same };

    ghost ranks_exact = { greatest_exact };

    fn rank(_cover: &OrderedCover, saving: u128) -> Option<Reverse<u128>> {
        if saving == 0 {
            None
        } else {
            Some(Reverse(saving))
        }
    }

    fn copy(alloc: Global, cover: &OrderedCover) -> Result<OrderedCover, AllocError> {
        cover.copy(alloc)
    }
}
