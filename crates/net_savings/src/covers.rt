//! Covers, what each of them saves, and an index of covers by one name of each.
//!
//! A cover whose saving is set for the first time is appended to the list under a name that the
//! caller gives, and is not removed from it. The ranking holds exactly the covers that save a
//! literal or more. Callers rely on `saving` for the saving that was set last, and on `ranking` to
//! begin with the covers that save most. After an error anything may be known.

ghost use Rattle.std.specs.Prelude.{◌≡◌, ◌&&◌, ◌++◌, ◌∷◌, [], ℕ, List, Some, None, filter, length, bytes_eq, is_none, if◌then◌else◌, IfOk, OnOk};
ghost use Rattle.cover_names.specs.Literals.{NamedCover, cover_cmp};
ghost use Rattle.net_queue.specs.Greatest.{greatest_cmp};
ghost use Rattle.net_queue.specs.Queue.{AreRanked};
ghost use Rattle.net_savings.specs.Meeting.{is_met};
ghost use Rattle.net_savings.specs.Orders.{cover_eq};
ghost use Rattle.net_savings.specs.Ranking.{saving_in, covers_under, rank_in};

use crate::marks::RowMarks;
use crate::named::{list_new, met_of};
use crate::ordered::OrderedCover;
use crate::ranking::Savings;
use circuit_model::Name;
use indexmap::IndexMap;
use sis_base::Sequence;
use std::alloc::{AllocError, Global};
use std::cmp::Reverse;
use std::collections::BTreeSet;
use std::marker::Model;

/// Covers, what each of them saves, and the name under which each is found. Contracts see what is
/// known of them.
#[derive(Drop)]
pub(crate) struct RankedCovers {
    savings: Savings,
    lists: IndexMap<Name, Sequence<OrderedCover>>,
}

impl Model for RankedCovers {
    ghost use Rattle.net_savings.specs.Ranking.{KnownCovers};

    ghost Value = { KnownCovers };

    ghost view = { λ r. record { savings = r.savings; lists = r.lists.entries } };
}

impl RankedCovers {
    /// No covers. Allocates nothing.
    pub(crate) fn new(alloc: Global) -> RankedCovers
        ensures savings { (cover : NamedCover) → saving_in result cover ≡ None }
        ensures lists { (name : List ℕ) → covers_under result name ≡ [] }
    {
        RankedCovers {
            savings: Savings::new(alloc),
            lists: IndexMap::new(alloc),
        }
    }

    /// The number of covers whose saving is known.
    pub(crate) fn len(&self) -> usize
        ensures { result ≡ length self.now.savings }
    {
        self.savings.len()
    }

    /// What a cover saves, if it is known.
    pub(crate) fn saving(&self, cover: &OrderedCover) -> Option<u128>
        ensures { result ≡ saving_in self.now cover.now }
    {
        self.savings.get(cover)
    }

    /// Sets what a cover saves; one whose saving is not known yet is appended to the list under a
    /// name. After an error anything may be known.
    pub(crate) fn set(
        &mut self,
        alloc: Global,
        cover: &OrderedCover,
        name: &Name,
        saving: u128,
    ) -> Result<(), AllocError>
        ensures savings { OnOk result ((other : NamedCover) → saving_in self.new other
            ≡ (if cover_eq cover.now other then Some saving else saving_in self.old other)) }
        ensures lists { OnOk result ((other : List ℕ) → covers_under self.new other
            ≡ (if is_none (saving_in self.old cover.now) && bytes_eq name.now other then covers_under self.old other ++ cover.now ∷ [] else covers_under self.old other)) }
    {
        let before = self.savings.set(alloc, cover, saving)?;
        list_new(alloc, &mut self.lists, name, cover, before.is_none())?;
        Ok(())
    }

    /// Those covers that are listed under a name and that rows meet.
    pub(crate) fn met_under(
        &self,
        alloc: Global,
        name: &Name,
        rows: &RowMarks,
    ) -> Result<Vec<OrderedCover>, AllocError>
        ensures { IfOk result (λ covers. covers.items ≡ filter (is_met rows.now)
            (covers_under self.now name.now)) }
    {
        match self.lists.get(name) {
            None => Ok(Vec::new(alloc)),
            Some(list) => met_of(alloc, list.as_slice(), rows),
        }
    }

    /// The covers that save a literal or more: the one that saves most first, and of those that
    /// save as much the first in the order of covers.
    pub(crate) fn ranking(&self) -> &BTreeSet<(Reverse<u128>, OrderedCover)>
        ensures { AreRanked greatest_cmp cover_cmp (rank_in self.now) result.now.keys }
    {
        self.savings.order()
    }
}
