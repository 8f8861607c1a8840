//! The best division that may be made: the first of the queue that makes no cycle.

ghost use Rattle.std.specs.Prelude.{◌≡◌, true, IfOk};
ghost use Rattle.circuit_model.specs.Soundness.{IsSound};
ghost use Rattle.net_work.specs.Placed.{circuit_of};
ghost use Rattle.net_resub.specs.Best.{worth_at, IsBest};
ghost use Rattle.net_resub.specs.Divisions.{HasJust};
ghost use Rattle.net_resub.specs.Pairs.{saving_at};

use crate::divisions::{Division, Divisions};
use crate::reaching::is_led;
use cube_cover::Row;
use net_work::WorkingNetwork;
use std::alloc::{AllocError, Global};

/// The best division that may be made, if one may be made that saves literals. A dependence is
/// searched for only if its division would be the best one.
pub(crate) fn best_division<R: Row>(
    alloc: Global,
    work: &WorkingNetwork<R>,
    divisions: &Divisions,
) -> Result<Option<Division>, AllocError>
    requires sound { IsSound (circuit_of work.now) }
    requires kept { HasJust (λ division. true) (saving_at work.now.slots) divisions.now }
    ensures { IfOk result (IsBest (worth_at work.now.slots)) }
{
    for ranked in divisions.order() {
        let division = ranked.1;
        if !is_led(alloc, work, division.by, division.place)? {
            return Ok(Some(division));
        }
    }
    Ok(None)
}
