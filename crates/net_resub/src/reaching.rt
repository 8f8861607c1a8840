//! Whether the table at one index depends on that at another, through any number of tables.
//!
//! Source: De Micheli, "Synthesis and Optimization of Digital Circuits", chapter 8 (a logic network
//! as a directed graph). A depth-first search from a table over its fanins marks all it reaches. If
//! the other table reads all that the first reads no search is made, since a dependence would close
//! a cycle. Callers rely on `is_led` exactly.

ghost use Rattle.std.specs.Prelude.{◌≡◌, ℕ, true, Option, List, ◌++◌, option_to_list, IfOk, OnOk};
ghost use Rattle.circuit_model.specs.Names.{has, all_different};
ghost use Rattle.circuit_model.specs.Soundness.{outputs_of, IsSound};
ghost use Rattle.circuit_checks.specs.Graphs.{reads_of};
ghost use Rattle.circuit_checks.specs.Searching.{is_seen};
ghost use Rattle.net_work.specs.Placed.{standing, circuit_of};
ghost use Rattle.net_resub.specs.Best.{is_led};
ghost use Rattle.net_resub.specs.Reaching.{places_named, graph_of, ReadsAll};

use circuit_checks::{is_seen, note_all, unmarked};
use circuit_model::{Name, has_name};
use cube_cover::Row;
use net_work::WorkingNetwork;
use std::alloc::{AllocError, Global};

// Appends an index, if there is one.
fn push_found(places: &mut Vec<usize>, found: Option<usize>) -> Result<(), AllocError>
    ensures { OnOk result (places.new.items ≡ places.old.items ++ option_to_list found) }
{
    if let Some(place) = found {
        places.push(place)?;
    }
    Ok(())
}

// The indices of the tables that drive names.
fn places_named<R: Row>(
    alloc: Global,
    work: &WorkingNetwork<R>,
    names: &[Name],
) -> Result<Vec<usize>, AllocError>
    requires { all_different (outputs_of (standing work.now.slots)) ≡ true }
    ensures { IfOk result (λ places. places.items ≡ places_named work.now.slots names.now) }
{
    let mut places = Vec::with_capacity(alloc, names.len())?;
    for name in names {
        push_found(&mut places, work.place_of(name))?;
    }
    Ok(places)
}

// The indices of the tables that the one at an index reads.
fn reads_at<R: Row>(
    alloc: Global,
    work: &WorkingNetwork<R>,
    place: usize,
) -> Result<Vec<usize>, AllocError>
    requires { all_different (outputs_of (standing work.now.slots)) ≡ true }
    ensures { IfOk result (λ places. places.items ≡ reads_of (graph_of work.now.slots) place) }
{
    match work.entry(place) {
        None => Ok(Vec::new(alloc)),
        Some(entry) => places_named(alloc, work, entry.table.inputs.as_slice()),
    }
}

// For each index, whether the table at a given index depends on the one there.
fn reached<R: Row>(
    alloc: Global,
    work: &WorkingNetwork<R>,
    from: usize,
) -> Result<Vec<bool>, AllocError>
    requires { all_different (outputs_of (standing work.now.slots)) ≡ true }
    ensures { IfOk result (λ seen. (place : ℕ) → is_seen seen.items place
        ≡ is_led work.now.slots from place) }
{
    let mut seen = unmarked(alloc, work.len())?;
    let mut pending = Vec::new(alloc);
    let first = reads_at(alloc, work, from)?;
    note_all(first.as_slice(), &mut seen, &mut pending)?;
    while let Some(place) = pending.pop() {
        let reads = reads_at(alloc, work, place)?;
        note_all(reads.as_slice(), &mut seen, &mut pending)?;
    }
    Ok(seen)
}

// Whether all names are among others.
fn are_all_among(names: &[Name], others: &[Name]) -> bool
    ensures { result ≡ true → (name : List ℕ) → has names.now name ≡ true → has others.now name
        ≡ true }
{
    for name in names {
        if !has_name(others, name) {
            return false;
        }
    }
    true
}

// Whether the table at an index reads all that the one at another index reads.
fn reads_all<R: Row>(work: &WorkingNetwork<R>, place: usize, by: usize) -> bool
    ensures { result ≡ true → ReadsAll work.now.slots place by }
{
    match work.entry(place) {
        None => false,
        Some(entry) => match work.entry(by) {
            None => false,
            Some(by) => are_all_among(by.table.inputs.as_slice(), entry.table.inputs.as_slice()),
        },
    }
}

/// Whether the table at an index depends, in a step or more, on that at another one. If the other
/// one reads all that the first one reads, no search is made: no signal depends on itself.
pub(crate) fn is_led<R: Row>(
    alloc: Global,
    work: &WorkingNetwork<R>,
    from: usize,
    to: usize,
) -> Result<bool, AllocError>
    requires { IsSound (circuit_of work.now) }
    ensures { IfOk result (λ led. led ≡ is_led work.now.slots from to) }
{
    if reads_all(work, to, from) {
        return Ok(false);
    }
    let seen = reached(alloc, work, from)?;
    Ok(is_seen(seen.as_slice(), to))
}
