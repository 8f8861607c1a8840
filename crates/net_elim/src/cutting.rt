//! Removal of all inner tables: those that drive neither an output nor a latch input.
//!
//! Tables are visited by index; each other table stays as it is, at its index.

ghost use Rattle.std.specs.Prelude.{◌≡◌, ◌==◌, ℕ, true, false, None, is_some, if◌then◌else◌, OnOk};
ghost use Rattle.net_work.specs.Placed.{table_at};
ghost use Rattle.net_elim.specs.Phases.{rooted};

use cube_cover::Row;
use net_work::WorkingNetwork;
use std::alloc::{AllocError, Global};

// Whether the table at an index is an inner one.
fn is_inner_at<R: Row>(work: &WorkingNetwork<R>, place: usize) -> bool
    ensures there { result ≡ true → is_some (table_at work.now.slots place) ≡ true }
    ensures inner { result ≡ true → rooted work.now.frame (table_at work.now.slots place) ≡ None }
    ensures outer { result ≡ false → rooted work.now.frame (table_at work.now.slots place)
        ≡ table_at work.now.slots place }
{
    match work.entry(place) {
        None => false,
        Some(entry) => work.is_inner(&entry.output),
    }
}

// Removes the table at an index if it is an inner one.
fn cut_at<R: Row>(
    alloc: Global,
    work: &mut WorkingNetwork<R>,
    place: usize,
) -> Result<(), AllocError>
    ensures frame { OnOk result (work.new.frame ≡ work.old.frame) }
    ensures tables { OnOk result ((at : ℕ) → table_at work.new.slots at
        ≡ (if place == at then rooted work.old.frame
        (table_at work.old.slots at) else table_at work.old.slots at)) }
{
    if is_inner_at(work, place) {
        return work.remove(alloc, place);
    }
    Ok(())
}

/// Removes the inner tables. After an error the network may be any.
pub(crate) fn cut_inner<R: Row>(
    alloc: Global,
    work: &mut WorkingNetwork<R>,
) -> Result<(), AllocError>
    ensures frame { OnOk result (work.new.frame ≡ work.old.frame) }
    ensures tables { OnOk result ((at : ℕ) → table_at work.new.slots at ≡ rooted work.old.frame
        (table_at work.old.slots at)) }
{
    let count = work.len();
    for place in 0..count {
        cut_at(alloc, work, place)?;
    }
    Ok(())
}
