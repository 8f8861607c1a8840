//! Gains and savings of a working network, updated as tables are added and changed.
//!
//! Source: the project's own. Invariant (`AreCounted`, `AreSaved`): gains that are kept are those
//! of the current tables, and so are savings. Tables are added and set here together with what is
//! known of them, so that the two do not diverge. Gains are dropped if a table cannot be counted;
//! savings are used instead. After an error the network and what is known of it may be any.

ghost use Rattle.std.specs.Prelude.{◌≡◌, ◌<◌, ℕ, true, Option, Some, None, List, [], ◌∷◌, ◌++◌, length, is_some, slice_set, IfOk, OnOk, IfSome};
ghost use Rattle.circuit_model.specs.Names.{all_different};
ghost use Rattle.circuit_model.specs.declared.circuit.Table.{Table};
ghost use Rattle.net_candidates.specs.declared.rule.Rule.{Rule};
ghost use Rattle.net_core.specs.Tables.{named, IsOverInputs};
ghost use Rattle.net_work.specs.Placed.{table_at, with_slot, with_last, AddsLast};
ghost use Rattle.net_extract.specs.Known.{AreCounted, AreSaved, StaySaved};

use crate::counting::count;
use circuit_model::Name;
use cube_cover::Row;
use net_candidates::Rule;
use net_core::{AddFault, CoverTable};
use net_gains::DivisorGains;
use net_savings::CandidateQueue;
use net_work::WorkingNetwork;
use std::alloc::{AllocError, Global};

/// What is known of the tables of a network.
#[derive(Drop)]
pub(crate) struct Known {
    /// What divisors of `fx` gain in all tables, if it is counted.
    pub(crate) gains: Option<DivisorGains>,
    /// What candidates save, if it is kept.
    pub(crate) savings: Option<CandidateQueue>,
}

// The gains after a table is appended; none if it cannot be counted.
fn pushed<R: Row>(
    alloc: Global,
    gains: Option<DivisorGains>,
    table: &CoverTable<R>,
) -> Result<Option<DivisorGains>, AllocError>
    requires over { IsOverInputs table.now }
    requires once { all_different table.now.inputs ≡ true }
    ensures { IfOk result (λ new. (slots : List (Option Table)) (output : List ℕ)
        → AreCounted slots gains → AreCounted (slots ++ Some (named output table.now) ∷ []) new) }
{
    match gains {
        None => Ok(None),
        Some(mut gains) => {
            if gains.push(alloc, table)? {
                Ok(Some(gains))
            } else {
                Ok(None)
            }
        }
    }
}

// The gains after the table at an index has changed; none if it cannot be counted.
fn changed<R: Row>(
    alloc: Global,
    gains: Option<DivisorGains>,
    place: usize,
    table: &CoverTable<R>,
) -> Result<Option<DivisorGains>, AllocError>
    requires place { IfSome gains (λ kept. place < length kept.tables) }
    requires over { IsOverInputs table.now }
    requires once { all_different table.now.inputs ≡ true }
    ensures { IfOk result (λ new. (slots : List (Option Table)) (output : List ℕ)
        → AreCounted slots gains → AreCounted (slice_set slots place
        (Some (named output table.now))) new) }
{
    match gains {
        None => Ok(None),
        Some(mut gains) => {
            if gains.set(alloc, place, table)? {
                Ok(Some(gains))
            } else {
                Ok(None)
            }
        }
    }
}

// The savings after a table is appended.
fn pushed_savings<R: Row>(
    alloc: Global,
    savings: Option<CandidateQueue>,
    work: &WorkingNetwork<R>,
    table: &CoverTable<R>,
) -> Result<Option<CandidateQueue>, AllocError>
    ensures { IfOk result (λ new. (rule : Rule) (output : List ℕ)
        → AreSaved rule work.now savings → AreSaved rule
        (with_last work.now (named output table.now)) new) }
{
    match savings {
        None => Ok(None),
        Some(mut kept) => {
            kept.push(alloc, work, table)?;
            Ok(Some(kept))
        }
    }
}

// The savings after the table at an index has changed.
fn changed_savings<R: Row>(
    alloc: Global,
    savings: Option<CandidateQueue>,
    work: &WorkingNetwork<R>,
    place: usize,
    table: &CoverTable<R>,
) -> Result<Option<CandidateQueue>, AllocError>
    ensures { IfOk result (λ new. (rule : Rule) (old : Table) → table_at work.now.slots place
        ≡ Some old → AreSaved rule work.now savings
        → AreSaved rule (with_slot work.now place (Some (named old.output table.now))) new) }
{
    match savings {
        None => Ok(None),
        Some(mut kept) => {
            kept.set(alloc, work, place, table)?;
            Ok(Some(kept))
        }
    }
}

/// Adds a table as the last, under the least name in brackets that is free; refused if there is no
/// room. After an error the network may be any.
pub(crate) fn add_known<R: Row>(
    alloc: Global,
    work: &mut WorkingNetwork<R>,
    known: &mut Known,
    table: CoverTable<R>,
) -> Result<Name, AddFault>
    requires over { IsOverInputs table }
    requires once { all_different table.inputs ≡ true }
    requires known { AreCounted work.old.slots known.old.gains }
    ensures added { AddsLast work.old table work.new result }
    ensures known { IfOk result (λ _. AreCounted work.new.slots known.new.gains) }
    ensures saved { IfOk result (λ _. StaySaved work.old known.old.savings work.new
        known.new.savings) }
{
    known.gains = pushed(alloc, known.gains.take(), &table)?;
    known.savings = pushed_savings(alloc, known.savings.take(), work, &table)?;
    work.add(alloc, table)
}

/// Replaces a table by another one, which takes its name. After an error the network may be any.
pub(crate) fn set_known<R: Row>(
    alloc: Global,
    work: &mut WorkingNetwork<R>,
    known: &mut Known,
    place: usize,
    table: CoverTable<R>,
) -> Result<(), AllocError>
    requires there { is_some (table_at work.old.slots place) ≡ true }
    requires over { IsOverInputs table }
    requires once { all_different table.inputs ≡ true }
    requires known { AreCounted work.old.slots known.old.gains }
    ensures set { OnOk result ((old : Table) → table_at work.old.slots place ≡ Some old
        → work.new ≡ with_slot work.old place (Some (named old.output table))) }
    ensures known { OnOk result (AreCounted work.new.slots known.new.gains) }
    ensures saved { OnOk result (StaySaved work.old known.old.savings work.new known.new.savings) }
{
    known.gains = changed(alloc, known.gains.take(), place, &table)?;
    known.savings = changed_savings(alloc, known.savings.take(), work, place, &table)?;
    work.set(alloc, place, table)
}

/// What is known of a network before the first step: for `fx` the gains, if they can be counted;
/// otherwise nothing.
pub(crate) fn known_of<R: Row>(
    alloc: Global,
    work: &WorkingNetwork<R>,
    rule: Rule,
) -> Result<Known, AllocError>
    ensures gains { IfOk result (λ known. AreCounted work.now.slots known.gains) }
    ensures savings { IfOk result (λ known. known.savings ≡ None) }
{
    let gains = match rule {
        Rule::Fx => count(alloc, work)?,
        _ => None,
    };
    Ok(Known {
        gains,
        savings: None,
    })
}
