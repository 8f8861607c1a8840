//! Resubstitution: the best division is made, step by step, until none saves a literal.
//!
//! Source: Brayton, Rudell, Sangiovanni-Vincentelli and Wang, "MIS: A Multiple-Level Logic
//! Optimization System" (1987); the SIS report (UCB/ERL M92/41), `resub`. Invariant (`IsKept`): the
//! divisions kept are those of the current network. Callers rely on `IsResubbed`, the end of the
//! chain of steps.

ghost use Rattle.std.specs.Prelude.{◌≡◌, true, false, IfOk, OnOk};
ghost use Rattle.circuit_model.specs.Soundness.{IsSound};
ghost use Rattle.net_core.specs.Reads.{HasBounds};
ghost use Rattle.net_work.specs.Placed.{circuit_of};
ghost use Rattle.net_resub.specs.Resubbed.{IsStep, IsDone, IsResubbed};
ghost use Rattle.net_resub.specs.Kept.{IsKept};

use crate::best::best_division;
use crate::kept::Kept;
use crate::pairs::divided_at;
use cube_cover::Row;
use net_core::Network;
use net_work::WorkingNetwork;
use std::alloc::{AllocError, Global};

// Makes the best division, if one saves literals. After an error the network may be any.
fn resub_once<R: Row>(
    alloc: Global,
    work: &mut WorkingNetwork<R>,
    kept: &mut Kept,
) -> Result<bool, AllocError>
    requires sound { IsSound (circuit_of work.old) }
    requires kept { IsKept work.old.slots kept.old }
    ensures done { IfOk result (λ made. made ≡ false
        → (work.new ≡ work.old) × IsDone (circuit_of work.old)) }
    ensures step { IfOk result (λ made. made ≡ true
        → IsStep (circuit_of work.old) (circuit_of work.new)) }
    ensures sound { IfOk result (λ made. made ≡ true → IsSound (circuit_of work.new)) }
    ensures bounds { IfOk result (λ made. made ≡ true → HasBounds (circuit_of work.old)
        → HasBounds (circuit_of work.new)) }
    ensures kept { OnOk result (IsKept work.new.slots kept.new) }
{
    match best_division(alloc, work, &kept.divisions)? {
        None => Ok(false),
        Some(best) => {
            let table = divided_at(alloc, work, best.place, best.by)?;
            kept.leave(alloc, work, best.place)?;
            work.set(alloc, best.place, table)?;
            kept.come(alloc, work, best.place)?;
            Ok(true)
        }
    }
}

// Makes divisions until none saves literals. After an error the network may be any.
fn resub_all<R: Row>(alloc: Global, work: &mut WorkingNetwork<R>) -> Result<(), AllocError>
    requires { IsSound (circuit_of work.old) }
    ensures sound { OnOk result (IsSound (circuit_of work.new)) }
    ensures resubbed { OnOk result (IsResubbed (circuit_of work.old) (circuit_of work.new)) }
    ensures bounds { OnOk result (HasBounds (circuit_of work.old)
        → HasBounds (circuit_of work.new)) }
{
    let mut kept = Kept::of(alloc, work)?;
    while resub_once(alloc, work, &mut kept)? {}
    Ok(())
}

/// A new network, after resubstitution; the given one stays. Tables are divided by the rows of
/// others until no division saves a literal: always the one that saves most, of those that save as
/// much the one of the first table, and for that table by the first one.
pub fn resubstitute<R: Row>(alloc: Global, network: &Network<R>) -> Result<Network<R>, AllocError>
    ensures resubbed { IfOk result (λ made. IsResubbed network.now made) }
    ensures bounds { HasBounds network.now → IfOk result HasBounds }
{
    let mut work = WorkingNetwork::of(alloc, network)?;
    resub_all(alloc, &mut work)?;
    Ok(work.into_network())
}
