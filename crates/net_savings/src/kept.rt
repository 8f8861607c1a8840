//! What candidates save, kept while tables are added and change.
//!
//! Source: the project's own representation. A change only records which names and tables it
//! touches, and the rows of these tables; the savings of covers found under a touched name that the
//! rows meet, and the candidates of touched tables, are recomputed before the next choice.
//! Invariant (`AreSavings`): the saving that is set for any other cover is exact. Callers announce
//! each change before they make it.

ghost use Rattle.std.specs.Prelude.{◌≡◌, ℕ, ◌<◌, true, false, Some, None, List, length, slice_get, IfOk, OnOk, Bool};
ghost use Rattle.circuit_model.specs.Names.{has};
ghost use Rattle.circuit_model.specs.declared.circuit.Table.{Table};
ghost use Rattle.net_candidates.specs.declared.rule.Rule.{Rule};
ghost use Rattle.net_readers.specs.Fanouts.{is_in};
ghost use Rattle.cover_names.specs.Literals.{NamedCover};
ghost use Rattle.net_core.specs.Tables.{named};
ghost use Rattle.net_work.specs.Placed.{Placed, table_at, with_slot, with_last};
ghost use Rattle.net_savings.specs.Meeting.{IsAside};
ghost use Rattle.net_savings.specs.Savings.{AreSavings, AreSavingsBy};

use crate::covers::RankedCovers;
use crate::meeting::push_rows;
use crate::owned::{OwnLists, taken};
use circuit_model::Name;
use cover_names::Cube;
use cube_cover::Row;
use indexmap::IndexSet;
use net_core::CoverTable;
use net_work::WorkingNetwork;
use sis_base::Copied;
use std::alloc::{AllocError, Global};

/// What candidates save, and what of it must be recomputed; for which network, contracts say by
/// `AreSavings`.
pub struct CandidateQueue {
    // What covers save, in order, and found by one name of each.
    pub(crate) ranked: RankedCovers,
    // What tables give by themselves, for those that are listed.
    pub(crate) own: OwnLists,
    // The names that changed tables read or have read: the savings of covers under them must be
    // recomputed if the rows of changed tables meet them.
    pub(crate) touched: IndexSet<Name>,
    // The rows of changed tables, before and after each change.
    pub(crate) changed: Vec<Cube>,
    // The indices of the tables that must be listed again.
    pub(crate) fresh: Vec<usize>,
    // If more covers than this are known, many may be given by no table any more, and all is
    // recomputed.
    pub(crate) bound: usize,
}

// Written out, so that dropping it is one call in the functions that own it.
impl Drop for CandidateQueue {
    fn drop(self) {
        let CandidateQueue {
            ranked: _ranked,
            own: _own,
            touched: _touched,
            changed: _changed,
            fresh: _fresh,
            bound: _bound,
        } = self;
    }
}

// So many lists, none of which is known, and all their indices.
fn unknown_lists(alloc: Global, count: usize) -> Result<(OwnLists, Vec<usize>), AllocError>
    ensures long { IfOk result (λ made. length made.0.items ≡ count) }
    ensures none { IfOk result (λ made. (at : ℕ) (covers : List NamedCover)
        → slice_get made.0.items at ≡ Some (Some covers) → ⊥) }
    ensures all { IfOk result (λ made. (at : ℕ) → at < count → is_in made.1.items at ≡ true) }
{
    let mut lists = Vec::new(alloc);
    let mut places = Vec::new(alloc);
    for place in 0..count {
        lists.push(None)?;
        places.push(place)?;
    }
    Ok((lists, places))
}

// Adds names to others.
fn push_names(alloc: Global, names: &mut IndexSet<Name>, more: &[Name]) -> Result<(), AllocError>
    ensures { OnOk result ((name : List ℕ) → has names.new.keys name ≡ false
        → (has names.old.keys name ≡ false) × (has more.now name ≡ false)) }
{
    for name in more {
        let _new = names.insert(name.copy(alloc)?)?;
    }
    Ok(())
}

impl CandidateQueue {
    /// Nothing is known of a network: all indices are fresh.
    pub fn begin<R: Row>(
        alloc: Global,
        work: &WorkingNetwork<R>,
    ) -> Result<CandidateQueue, AllocError>
        ensures { IfOk result (λ kept. (rule : Rule) → AreSavings rule work.now kept) }
    {
        let (own, fresh) = unknown_lists(alloc, work.len())?;
        Ok(CandidateQueue {
            ranked: RankedCovers::new(alloc),
            own,
            touched: IndexSet::new(alloc),
            changed: Vec::new(alloc),
            fresh,
            bound: usize::MAX,
        })
    }

    // The table at an index is replaced by one that reads other names.
    fn touch(
        &mut self,
        alloc: Global,
        place: usize,
        before: &[Name],
        now: &[Name],
    ) -> Result<(), AllocError>
        ensures rows { OnOk result (self.new.changed.items ≡ self.old.changed.items) }
        ensures savings { OnOk result ((rule : Rule) (placed : Placed) (old new : Table)
            (met new_met : NamedCover → Bool) → table_at placed.slots place ≡ Some old
            → new.output ≡ old.output → before.now ≡ old.inputs → now.now ≡ new.inputs
            → IsAside met new_met old new → AreSavingsBy rule placed self.old met
            → AreSavingsBy rule (with_slot placed place (Some new)) self.new new_met) }
    {
        push_names(alloc, &mut self.touched, before)?;
        push_names(alloc, &mut self.touched, now)?;
        let _old = taken(&mut self.own, place);
        self.fresh.push(place)?;
        Ok(())
    }

    /// Announces that the table at an index of a network is about to change. After an error
    /// anything may be kept.
    pub fn set<R: Row>(
        &mut self,
        alloc: Global,
        work: &WorkingNetwork<R>,
        place: usize,
        table: &CoverTable<R>,
    ) -> Result<(), AllocError>
        ensures { OnOk result ((rule : Rule) (old : Table) → table_at work.now.slots place
            ≡ Some old → AreSavings rule work.now self.old
            → AreSavings rule (with_slot work.now place (Some (named old.output table.now))) self.new) }
    {
        match work.entry(place) {
            None => Ok(()),
            Some(entry) => {
                push_rows(alloc, &mut self.changed, &entry.table)?;
                push_rows(alloc, &mut self.changed, table)?;
                let before = entry.table.inputs.as_slice();
                self.touch(alloc, place, before, table.inputs.as_slice())?;
                Ok(())
            }
        }
    }

    /// Announces that a table is about to be added as the last of a network. After an error
    /// anything may be kept.
    pub fn push<R: Row>(
        &mut self,
        alloc: Global,
        work: &WorkingNetwork<R>,
        table: &CoverTable<R>,
    ) -> Result<(), AllocError>
        ensures { OnOk result ((rule : Rule) (output : List ℕ)
            → AreSavings rule work.now self.old → AreSavings rule
            (with_last work.now (named output table.now)) self.new) }
    {
        push_rows(alloc, &mut self.changed, table)?;
        push_names(alloc, &mut self.touched, table.inputs.as_slice())?;
        self.own.push(None)?;
        self.fresh.push(work.len())?;
        Ok(())
    }
}
