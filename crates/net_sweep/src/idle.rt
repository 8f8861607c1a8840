//! Empties the table at which a step was taken if it has no fanout any more, so that no later step
//! has to change it again and again.
//!
//! Source: the SIS manual (UCB/ERL M92/41), `sweep`: nodes that do not fan out are removed. A law
//! of net_wires says that this changes no chain's end; the last rule removes what is left of such a
//! table.

ghost use Rattle.std.specs.Prelude.{◌≡◌, ℕ, Bool, true, false, None, bytes_eq, OnOk};
ghost use Rattle.indexmap.specs.IndexMap.{get};
ghost use Rattle.circuit_model.specs.Names.{has};
ghost use Rattle.circuit_model.specs.Soundness.{table_inputs, IsSound};
ghost use Rattle.net_sweep.specs.declared.queues.Rule.{Rule};
ghost use Rattle.net_sweep.specs.Settled.{AreCandidates, HasLed};
ghost use Rattle.net_sweep.specs.Latches.{left_at, with_latches, IsReady};

use crate::latches::TrackedLatches;
use crate::steps::Step;
use circuit_model::Name;
use net_wires::{AliasedTables, constant_table, is_among};
use std::alloc::{AllocError, Global};

// Whether a signal evidently has no fanout: no table and not the don't-care part reads it, and it
// is no output and was no latch's input at the start. A latch that was removed since still counts.
fn is_untaken(aliased: &AliasedTables, tracked: &TrackedLatches, name: &Name) -> bool
    ensures unread { result ≡ true → has (table_inputs aliased.now.tables) name.now ≡ false }
    ensures no_fanout { result ≡ true → get bytes_eq tracked.now.fanout name.now ≡ None }
    ensures uncared { result ≡ true → has tracked.now.leaves_read.keys name.now ≡ false }
{
    if aliased.has_readers(name) {
        return false;
    }
    if tracked.fanout.get(name).is_some() {
        return false;
    }
    !is_among(&tracked.leaves_read, name)
}

// Replaces the table at which a step was taken by the constant 0 if its signal evidently has no
// fanout any more.
pub(crate) fn empty_at_step(
    alloc: Global,
    step: Step,
    aliased: &mut AliasedTables,
    tracked: &TrackedLatches,
) -> Result<(), AllocError>
    requires sound { IsSound (with_latches aliased.old (left_at tracked.now.slots.items)) }
    requires ready { IsReady tracked.now aliased.old }
    ensures led { OnOk result (HasLed (with_latches aliased.old (left_at tracked.now.slots.items))
        (with_latches aliased.new (left_at tracked.now.slots.items))) }
    ensures candidates { OnOk result ((marks : Rule → ℕ → Bool)
        → AreCandidates marks aliased.old.tables → AreCandidates marks aliased.new.tables) }
    ensures ready { OnOk result (IsReady tracked.now aliased.new) }
{
    let Step::Apply(_, place) = step else {
        return Ok(());
    };
    match aliased.table(alloc, place)? {
        None => Ok(()),
        Some(table) => {
            if !is_untaken(aliased, tracked, &table.output) {
                return Ok(());
            }
            let constant = constant_table(alloc, table.output, false)?;
            aliased.set(alloc, place, constant)
        }
    }
}
