//! The best candidate of a network, by savings that are kept from step to step.
//!
//! First the savings that changes touched are brought up to date; then the covers that save are
//! searched, best first, for one that is still a candidate. Covers that no table gives any more are
//! kept until there are too many of them. Callers rely on `AreSavings` after a call, on exactly the
//! best candidate (`IsNext`), on none exactly if extraction is done, and on `ManyKernels` with the
//! first table that has too many kernels.

ghost use Rattle.std.specs.Prelude.{◌≡◌, ◌↔◌, ℕ, ◌≤◌, true, Some, [], slice_get, IsTrue, IfOk, IfErr, OnOk, MatchOption};
ghost use Rattle.circuit_model.specs.Soundness.{IsSound};
ghost use Rattle.circuit_model.specs.declared.circuit.Table.{Table};
ghost use Rattle.net_candidates.specs.Candidates.{IsCandidate, literals_in};
ghost use Rattle.net_candidates.specs.Extracting.{IsNext, IsDone};
ghost use Rattle.net_candidates.specs.declared.rule.Rule.{Rule};
ghost use Rattle.net_readers.specs.Fanouts.{is_in};
ghost use Rattle.net_core.specs.Fresh.{IsNewName};
ghost use Rattle.net_work.specs.Placed.{standing, circuit_of, table_at};
ghost use Rattle.net_savings.specs.Listing.{AreKept, IsListed, IsUnlisted};
ghost use Rattle.net_savings.specs.Savings.{held, held_at, IsIn, AreSavings};

use crate::cover_set::CoverSet;
use crate::fault::SavingsFault;
use crate::kept::CandidateQueue;
use crate::owned::OwnLists;
use crate::refreshing::refresh;
use crate::saving::places_for;
use crate::sharing::is_shared_at;
use circuit_model::Name;
use cover_names::NamedCover;
use cube_cover::Row;
use net_candidates::Rule;
use net_work::WorkingNetwork;
use sis_base::Copied;
use std::alloc::{AllocError, Global};

// Whether a cover is in a list, if there is one.
fn holds(list: &Option<CoverSet>, cover: &NamedCover) -> bool
    ensures { result ≡ held list.now cover.now }
{
    match list {
        None => false,
        Some(covers) => covers.has(cover),
    }
}

// Whether a cover is in the list at an index.
fn is_held(own: &OwnLists, place: usize, cover: &NamedCover) -> bool
    ensures { result ≡ held_at (slice_get own.now.items place) cover.now }
{
    match own.get(place) {
        None => false,
        Some(list) => holds(list, cover),
    }
}

// Whether a cover is in a list at one of some indices.
fn is_held_at(own: &OwnLists, places: &[usize], cover: &NamedCover) -> bool
    ensures { IsTrue result ↔ ((place : ℕ) × (is_in places.now place ≡ true)
        × IsIn own.now.items place cover.now) }
{
    for place in places {
        if is_held(own, *place, cover) {
            return true;
        }
    }
    false
}

// Whether a cover is a candidate, if all tables are listed.
fn is_candidate<R: Row>(
    alloc: Global,
    work: &WorkingNetwork<R>,
    rule: Rule,
    own: &OwnLists,
    cover: &NamedCover,
) -> Result<bool, AllocError>
    requires sound { IsSound (circuit_of work.now) }
    requires some { 1 ≤ literals_in cover.now }
    requires kept { AreKept rule work.now.slots own.now.items }
    requires listed { (place : ℕ) (table : Table) → table_at work.now.slots place ≡ Some table
        → IsListed own.now.items place }
    ensures { IfOk result (λ is. IsTrue is ↔ IsCandidate rule (standing work.now.slots) cover.now) }
{
    let places = places_for(alloc, work, cover.as_slice())?;
    match rule {
        Rule::Gcx => is_shared_at(alloc, work, places.as_slice(), cover),
        _ => Ok(is_held_at(own, places.as_slice(), cover)),
    }
}

// The first of the ranking that is a candidate, when all savings are up to date.
fn first_saved<R: Row>(
    alloc: Global,
    work: &WorkingNetwork<R>,
    rule: Rule,
    name: &Name,
    kept: &CandidateQueue,
) -> Result<Option<NamedCover>, AllocError>
    requires sound { IsSound (circuit_of work.now) }
    requires free { IsNewName (circuit_of work.now) name.now }
    requires savings { AreSavings rule work.now kept.now }
    requires touched { kept.now.touched.keys ≡ [] }
    requires fresh { kept.now.fresh.items ≡ [] }
    ensures { IfOk result (λ found. MatchOption found (IsDone rule (circuit_of work.now))
        (IsNext rule (circuit_of work.now) name.now)) }
{
    for ranked in kept.ranked.ranking() {
        let cover = ranked.1.get();
        if is_candidate(alloc, work, rule, &kept.own, cover)? {
            return Ok(Some(cover.copy(alloc)?));
        }
    }
    Ok(None)
}

// Begins again if so many covers are known that many may be given by no table any more. So the work
// for such covers is at most in proportion to the work for the others; no clause says so.
fn begin_where_stale<R: Row>(
    alloc: Global,
    work: &WorkingNetwork<R>,
    kept: &mut CandidateQueue,
) -> Result<(), AllocError>
    ensures { OnOk result ((rule : Rule) → AreSavings rule work.now kept.old
        → AreSavings rule work.now kept.new) }
{
    if kept.bound < kept.ranked.len() {
        *kept = CandidateQueue::begin(alloc, work)?;
    }
    Ok(())
}

/// The best candidate of a network by a rule, under a new name: all savings that changes touched
/// are recomputed, and the first of the ranking that is still a candidate is returned; none if none
/// saves a literal. `ManyKernels` with the name of the first table that has too many kernels.
pub fn best_saved<R: Row>(
    alloc: Global,
    work: &WorkingNetwork<R>,
    rule: Rule,
    name: &Name,
    kept: &mut CandidateQueue,
) -> Result<Option<NamedCover>, SavingsFault>
    requires sound { IsSound (circuit_of work.now) }
    requires free { IsNewName (circuit_of work.now) name.now }
    requires savings { AreSavings rule work.now kept.old }
    ensures savings { OnOk result (AreSavings rule work.now kept.new) }
    ensures found { IfOk result (λ found. MatchOption found (IsDone rule (circuit_of work.now))
        (IsNext rule (circuit_of work.now) name.now)) }
    ensures stopped { IfErr result (IsUnlisted rule (circuit_of work.now)) }
{
    begin_where_stale(alloc, work, kept)?;
    refresh(alloc, work, rule, name, kept)?;
    let found = first_saved(alloc, work, rule, name, kept)?;
    Ok(found)
}
