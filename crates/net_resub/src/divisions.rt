//! Divisions in the order in which they are made, and priority queues of them.

ghost use Rattle.std.specs.Prelude.{◌≡◌, if◌then◌else◌, None, OnOk};
ghost use Rattle.net_queue.specs.Queue.{value_in};
ghost use Rattle.net_resub.specs.Divisions.{is_of, saved};
ghost use Rattle.net_resub.specs.declared.divisions.Division.{Division};

use net_queue::{Queue, Ranking};
use std::alloc::{AllocError, Global};
use std::cmp::Reverse;

/// The index of a table, and that of a table by which it may be divided.
#[derive(Clone, Copy, PartialEq, Eq, PartialOrd, Ord, Hash, Drop)]
pub(crate) struct Division {
    pub(crate) place: usize,
    pub(crate) by: usize,
}

/// The division that saves most first; of several the one of the first table, and for that table
/// the one by the first divisor.
pub(crate) struct MostFirst;

impl Ranking<Division, u128, Reverse<u128>> for MostFirst {
    ghost use Rattle.net_queue.specs.Greatest.{greatest_exact};
    ghost use Rattle.net_resub.specs.Divisions.{rank_of, divisions_exact};

    ghost rank_of = { rank_of };

    ghost keys_exact = { divisions_exact };

    ghost ranks_exact = { greatest_exact };

    fn rank(_division: &Division, saving: u128) -> Option<Reverse<u128>> {
        Some(Reverse(saving))
    }

    fn copy(_alloc: Global, division: &Division) -> Result<Division, AllocError> {
        Ok(*division)
    }
}

/// The priority queue of the divisions that save literals, with what they save.
pub(crate) type Divisions = Queue<Division, u128, Reverse<u128>, MostFirst>;

/// Sets what a division saves; one that saves nothing is not kept.
pub(crate) fn put(
    alloc: Global,
    divisions: &mut Divisions,
    division: Division,
    saving: u128,
) -> Result<(), AllocError>
    ensures { OnOk result ((other : Division) → value_in is_of divisions.new other
        ≡ (if is_of division other then saved saving else value_in is_of divisions.old other)) }
{
    if saving == 0 {
        divisions.remove(&division);
    } else {
        divisions.set(alloc, &division, saving)?;
    }
    Ok(())
}

/// Removes a division, if it is there.
pub(crate) fn take(divisions: &mut Divisions, division: Division)
    ensures { (other : Division) → value_in is_of divisions.new other
        ≡ (if is_of division other then None else value_in is_of divisions.old other) }
{
    divisions.remove(&division);
}
