//! The priority queue of tables that may be eliminated, by index.

ghost use Rattle.std.specs.Prelude.{OnOk};
ghost use Rattle.net_elim.specs.Waiting.{IsNext, IsPutAt};

use net_queue::{Queue, Ranking};
use std::alloc::{AllocError, Global};

/// The least value first.
pub(crate) struct LeastFirst;

impl Ranking<usize, i128, i128> for LeastFirst {
    ghost use Rattle.std.specs.Prelude.{Some};
    ghost use Rattle.std.proofs.lemmas.Map.Lookups.{exact_unsigned, exact_signed};

    ghost rank_of = { λ place value. Some value };

    fn rank(_place: &usize, value: i128) -> Option<i128> {
        Some(value)
    }

    fn copy(_alloc: Global, place: &usize) -> Result<usize, AllocError> {
        Ok(*place)
    }

    ghost keys_exact = { exact_unsigned };

    ghost ranks_exact = { exact_signed };
}

/// The elimination values of tables, by index.
pub(crate) type Waiting = Queue<usize, i128, i128, LeastFirst>;

/// The index of least value, the first of several; none if there is no value.
pub(crate) fn next(waiting: &Waiting) -> Option<usize>
    ensures { IsNext waiting.now result }
{
    waiting.first().copied()
}

/// Sets the value for an index, or removes it if it is none.
pub(crate) fn put(
    alloc: Global,
    waiting: &mut Waiting,
    place: usize,
    value: Option<i128>,
) -> Result<(), AllocError>
    ensures { OnOk result (IsPutAt place value waiting.old waiting.new) }
{
    match value {
        None => {
            waiting.remove(&place);
        }
        Some(value) => {
            waiting.set(alloc, &place, value)?;
        }
    }
    Ok(())
}
