//! Totals of divisors, and the order of those that save more than they cost.

ghost use Rattle.std.specs.Prelude.{◌≡◌, ◌<◌, ℕ, Some, length, slice_get, IfOk, OnOk, if◌then◌else◌};
ghost use Rattle.net_gains.specs.Orders.{divisor_eq};
ghost use Rattle.net_gains.specs.Totals.{total_of, total_at, Changes, Allows};
ghost use Rattle.net_gains.specs.Turning.{saved_by, AreAllowed, IsTurned};
ghost use Rattle.net_gains.specs.declared.divisor.Divisor.{Divisor};

use crate::divisor::Divisor;
use crate::ranking::BySaving;
use crate::shared::SharedDivisor;
use net_queue::Queue;
use std::alloc::{AllocError, Global};
use std::cmp::Reverse;

/// Whether what cubes save is added to the totals or subtracted from them.
#[derive(Clone, Copy, Drop)]
pub(crate) enum Change {
    Comes,
    Goes,
}

/// What each divisor saves in all tables together.
pub(crate) type Totals = Queue<SharedDivisor, u64, Reverse<u64>, BySaving>;

// A total after a change; an error if no machine word holds it.
fn changed(change: Change, total: u64, saving: u64) -> Result<u64, AllocError>
    requires { Allows change total saving }
    ensures { IfOk result (λ made. Changes change total saving made) }
{
    match change {
        Change::Comes => total.checked_add(saving).ok_or(AllocError),
        Change::Goes => Ok(total - saving),
    }
}

// Sets the total at an index, which is that of a divisor; if it is 0 the divisor is removed, to
// save memory.
fn set_total(totals: &mut Totals, alloc: Global, index: usize, total: u64) -> Result<(), AllocError>
    requires { index < length totals.old }
    ensures { OnOk result ((divisor : Divisor) (before : ℕ) → slice_get totals.old index ≡ Some
        (divisor, before) → (other : Divisor) → total_at totals.new other
        ≡ (if divisor_eq divisor other then total else total_at totals.old other)) }
{
    if total == 0 {
        totals.remove_index(index);
        return Ok(());
    }
    totals.set_index(alloc, index, total)
}

/// Adds what a divisor saves to its total or subtracts it, by one look-up if it has one.
pub(crate) fn note(
    totals: &mut Totals,
    alloc: Global,
    change: Change,
    divisor: Divisor,
    saving: u64,
) -> Result<(), AllocError>
    requires { AreAllowed change (total_of totals.old) (saved_by divisor saving) }
    ensures { OnOk result (IsTurned change (total_of totals.old) (total_of totals.new)
        (saved_by divisor saving)) }
{
    match totals.values().get_full(&divisor) {
        None => {
            let total = changed(change, 0, saving)?;
            let shared = SharedDivisor::new(alloc, divisor)?;
            let _none = totals.set(alloc, &shared, total)?;
            Ok(())
        }
        Some((index, _known, before)) => {
            let total = changed(change, *before, saving)?;
            set_total(totals, alloc, index, total)
        }
    }
}
