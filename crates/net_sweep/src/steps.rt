//! The steps of the first five rules: the rules that change tables, and then the one that makes a
//! latch a table.
//!
//! `next_step` finds the next step of `sweep_step` among these rules; `take_step` takes it, keeps
//! the worklists complete, and its clause says that the result is exactly that step's circuit.

ghost use Rattle.std.specs.Prelude.{◌≡◌, ◌<◌, Some, None, find, slice_get, length, IfOk, OnOk};
ghost use Rattle.circuit_model.specs.Soundness.{IsSound};
ghost use Rattle.circuit_model.specs.declared.circuit.Table.{Table};
ghost use Rattle.net_wires.specs.Rules.{sweep_step};
ghost use Rattle.net_sweep.specs.declared.queues.Rule.TheVariants.{TidyTable, CollapseSingleInput};
ghost use Rattle.net_sweep.specs.Settled.{passes, rule_applied, is_candidate, AreCandidates, AreSound};
ghost use Rattle.net_sweep.specs.Latches.{left_at, with_latches, IsReady, IsNextStep};

use crate::applying::{apply_rule, next_rule};
use crate::fixing::{enqueue_all, fix};
use crate::latches::{TrackedLatches, next_fixed};
use crate::queues::{Candidates, Rule};
use cube_cover::Row;
use net_wires::AliasedTables;
use std::alloc::{AllocError, Global};

/// A step: a rule is applied to the table at an index, or the latch at an index is fixed at a bit.
#[derive(Clone, Copy)]
pub(crate) enum Step {
    Apply(Rule, usize),
    Fix(usize, bool),
}

// The next step, if there is one.
pub(crate) fn next_step<R: Row>(
    alloc: Global,
    aliased: &AliasedTables,
    candidates: &mut Candidates,
    tracked: &mut TrackedLatches,
) -> Result<Option<Step>, AllocError>
    requires sound { AreSound aliased.now.tables }
    requires candidates { AreCandidates (is_candidate candidates.old) aliased.now.tables }
    requires ready { IsReady tracked.old aliased.now }
    ensures next { IfOk result (λ step. IsNextStep aliased.now tracked.old.slots.items step) }
    ensures candidates { OnOk result (AreCandidates
        (is_candidate candidates.new) aliased.now.tables) }
    ensures slots { OnOk result (tracked.new.slots.items ≡ tracked.old.slots.items) }
    ensures ready { OnOk result (IsReady tracked.new aliased.now) }
{
    if let Some((rule, place)) = next_rule::<R>(alloc, aliased, candidates)? {
        return Ok(Some(Step::Apply(rule, place)));
    }
    match next_fixed(aliased, tracked)? {
        None => Ok(None),
        Some((place, bit)) => Ok(Some(Step::Fix(place, bit))),
    }
}

// Applies a rule to the table at an index, and adds the latches whose input has become a constant
// to the worklist.
fn apply_to_tables<R: Row>(
    alloc: Global,
    rule: Rule,
    place: usize,
    aliased: &mut AliasedTables,
    candidates: &mut Candidates,
    tracked: &mut TrackedLatches,
) -> Result<(), AllocError>
    requires sound { AreSound aliased.old.tables }
    requires within { place < length aliased.old.tables }
    requires tidy { rule ≡ CollapseSingleInput → find
        (passes TidyTable aliased.old.tables) aliased.old.tables ≡ None }
    requires candidates { AreCandidates (is_candidate candidates.old) aliased.old.tables }
    requires ready { IsReady tracked.old aliased.old }
    ensures applied { OnOk result ((table : Table) → slice_get aliased.old.tables place
        ≡ Some table → aliased.new ≡ rule_applied rule aliased.old table) }
    ensures candidates { OnOk result (AreCandidates
        (is_candidate candidates.new) aliased.new.tables) }
    ensures slots { OnOk result (tracked.new.slots.items ≡ tracked.old.slots.items) }
    ensures ready { OnOk result (IsReady tracked.new aliased.new) }
{
    let places = apply_rule::<R>(alloc, rule, place, aliased, candidates)?;
    enqueue_all(
        alloc,
        aliased,
        places.as_slice(),
        &tracked.fanout,
        &mut tracked.waiting,
    )
}

// Takes the next step.
pub(crate) fn take_step<R: Row>(
    alloc: Global,
    step: Step,
    aliased: &mut AliasedTables,
    candidates: &mut Candidates,
    tracked: &mut TrackedLatches,
) -> Result<(), AllocError>
    requires sound { IsSound (with_latches aliased.old (left_at tracked.old.slots.items)) }
    requires candidates { AreCandidates (is_candidate candidates.old) aliased.old.tables }
    requires ready { IsReady tracked.old aliased.old }
    requires next { IsNextStep aliased.old tracked.old.slots.items (Some step) }
    ensures stepped { OnOk result (sweep_step (with_latches aliased.old
        (left_at tracked.old.slots.items)) ≡ Some (with_latches aliased.new
        (left_at tracked.new.slots.items))) }
    ensures candidates { OnOk result (AreCandidates
        (is_candidate candidates.new) aliased.new.tables) }
    ensures ready { OnOk result (IsReady tracked.new aliased.new) }
{
    match step {
        Step::Apply(rule, place) => {
            apply_to_tables::<R>(alloc, rule, place, aliased, candidates, tracked)
        }
        Step::Fix(place, bit) => fix(alloc, place, bit, aliased, candidates, tracked),
    }
}
