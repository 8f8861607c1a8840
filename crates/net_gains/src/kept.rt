//! The rows of tables by numbers, and the gains of divisors in all of them together.
//!
//! Source: Rajski and Vasudevamurthy (IEEE Transactions on CAD 11, 1992). Invariant (`IsKept`): all
//! numbers are those of literals, and the totals are what the tables gain together. Contracts see
//! only the names and the cubes of each table. Callers rely on `push` and `set` to accept a table
//! exactly if it can be counted, and on `first` for the cover that saves most of those that are
//! admissible, of several the first. After an error anything may be kept.

ghost use Rattle.std.specs.Prelude.{◌≡◌, ◌<◌, ℕ, true, false, List, [], length, IfOk, MatchOption};
ghost use Rattle.circuit_model.specs.Names.{has, all_different};
ghost use Rattle.net_candidates.specs.Candidates.{cubes_of};
ghost use Rattle.cover_names.specs.Literals.{NamedCover};
ghost use Rattle.net_core.specs.Tables.{named, IsOverInputs};
ghost use Rattle.net_gains.specs.Kept.{with_last, with_cubes, is_countable, Saves, IsFirst};

use crate::codes::Codes;
use crate::counted::Counted;
use crate::passing::passing_cover;
use crate::rows::numbers_of;
use crate::trial::Trial;
use circuit_model::Name;
use cover_names::NamedCover;
use cube_cover::Row;
use net_core::CoverTable;
use std::alloc::{AllocError, Global};
use std::marker::Model;
use std::mem;

/// The cubes of tables, and what covers save in them. Contracts see it as the names and the cubes.
pub struct DivisorGains {
    codes: Codes,
    counted: Counted,
}

// Written out, so that dropping it is one call in the functions that own it.
impl Drop for DivisorGains {
    fn drop(self) {
        let DivisorGains {
            codes: _codes,
            counted: _counted,
        } = self;
    }
}

impl Model for DivisorGains {
    ghost use Rattle.std.specs.Prelude.{map};
    ghost use Rattle.net_gains.specs.Kept.{Kept};
    ghost use Rattle.net_gains.specs.Numbers.{tables_in, cubes_at, IsKept};

    ghost Value = { Kept };

    ghost view = { λ k. record { names = k.codes; tables = map (cubes_at k.codes) (tables_in k.counted.tables.items) } };

    ghost invariant = { λ k. IsKept k.codes k.counted };
}

impl DivisorGains {
    /// No tables yet, over names, which may be in any order and occur more than once. Also an error
    /// if there are too many names to have numbers.
    pub fn new(alloc: Global, names: Vec<Name>) -> Result<DivisorGains, AllocError>
        ensures names { IfOk result (λ kept. (name : List ℕ) → has kept.names name
            ≡ has names.items name) }
        ensures tables { IfOk result (λ kept. kept.tables ≡ []) }
    {
        Ok(DivisorGains {
            codes: Codes::of(names)?,
            counted: Counted::new(alloc),
        })
    }

    /// Appends a table. False, and nothing changes, if an input is not one of the names or a row
    /// occurs twice. Also an error if a total is too large for a machine word. After an error
    /// anything may be kept.
    pub fn push<R: Row>(&mut self, alloc: Global, table: &CoverTable<R>) -> Result<bool, AllocError>
        requires over { IsOverInputs table.now }
        requires once { all_different table.now.inputs ≡ true }
        ensures counted { IfOk result (λ counted. (output : List ℕ) → counted
            ≡ is_countable self.old.names (named output table.now)) }
        ensures taken { IfOk result (λ counted. counted ≡ true → (output : List ℕ) → self.new
            ≡ with_last self.old (cubes_of (named output table.now))) }
        ensures left { IfOk result (λ counted. counted ≡ false → self.new ≡ self.old) }
    {
        match numbers_of(alloc, &self.codes, table)? {
            None => Ok(false),
            Some(cubes) => {
                let counted = mem::replace(&mut self.counted, Counted::new(alloc));
                self.counted = counted.with_table(alloc, cubes)?;
                Ok(true)
            }
        }
    }

    /// Replaces the table at an index. False, and nothing changes, if an input is not one of the
    /// names or a row occurs twice. Also an error if a total is too large for a machine word. After
    /// an error anything may be kept.
    pub fn set<R: Row>(
        &mut self,
        alloc: Global,
        place: usize,
        table: &CoverTable<R>,
    ) -> Result<bool, AllocError>
        requires place { place < length self.old.tables }
        requires over { IsOverInputs table.now }
        requires once { all_different table.now.inputs ≡ true }
        ensures counted { IfOk result (λ counted. (output : List ℕ) → counted
            ≡ is_countable self.old.names (named output table.now)) }
        ensures taken { IfOk result (λ counted. counted ≡ true → (output : List ℕ) → self.new
            ≡ with_cubes self.old place (cubes_of (named output table.now))) }
        ensures left { IfOk result (λ counted. counted ≡ false → self.new ≡ self.old) }
    {
        match numbers_of(alloc, &self.codes, table)? {
            None => Ok(false),
            Some(cubes) => {
                let counted = mem::replace(&mut self.counted, Counted::new(alloc));
                self.counted = counted.with_cubes(alloc, place, cubes)?;
                Ok(true)
            }
        }
    }

    /// Of the covers that save more than their own literals and are admissible the one that saves
    /// most, of several the first; none if no cover saves and is admissible.
    pub fn first<T: Trial>(
        &self,
        alloc: Global,
        trial: &T,
    ) -> Result<Option<NamedCover>, AllocError>
        requires { T.IsReady trial.now }
        ensures { IfOk result (λ found. MatchOption found
            ((cover : NamedCover) → Saves self.now cover → T.Passes trial.now cover → ⊥)
            (IsFirst (T.Passes trial.now) self.now)) }
    {
        self.codes.sound();
        for ranked in self.counted.totals.order() {
            if let Some(cover) = passing_cover(alloc, &self.codes, trial, &ranked.1)? {
                return Ok(Some(cover));
            }
        }
        Ok(None)
    }
}
