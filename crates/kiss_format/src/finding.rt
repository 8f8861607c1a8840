//! The first clash of the rows of a machine.
//!
//! Source: De Micheli, "Synthesis and Optimization of Digital Circuits", chapter 9: a state table
//! gives at most one next state and one value of each output for a state and an input.
//! `first_clash` returns exactly that of `specs/Clashes.antt` of circuit_model: the first row that
//! clashes with an earlier one, and the first that it clashes with. A row of one state is compared
//! only with the rows of its group and with those of every state (`groups`); no clause says so.

ghost use Rattle.std.specs.Prelude.{◌≡◌, ◌<◌, Some, length, take, find, IfSome, IfOk};
ghost use Rattle.circuit_model.specs.declared.machine.Clash.{Clash};
ghost use Rattle.circuit_model.specs.Clashes.{may_agree, agree_all, may_be_one, clash as clash_by, clash_with, first_clash};
ghost use Rattle.kiss_format.specs.Groups.{clash_at, lesser, AreGroups};

use crate::groups::{Places, no_groups, note_row};
use circuit_model::{Clash, MachineRow, Tri};
use std::alloc::{AllocError, Global};

/// Whether two characters may be one bit.
fn may_agree(place: Tri, other: Tri) -> bool
    ensures { result ≡ may_agree place other }
{
    match place {
        Tri::Free => true,
        Tri::Zero => match other {
            Tri::One => false,
            _ => true,
        },
        Tri::One => match other {
            Tri::Zero => false,
            _ => true,
        },
    }
}

/// Whether two rows of characters have a point in common.
fn agree_all(row: &[Tri], other: &[Tri]) -> bool
    ensures { result ≡ agree_all row.now other.now }
{
    for i in 0..row.len() {
        if i >= other.len() {
            return true;
        }
        if !may_agree(row[i], other[i]) {
            return false;
        }
    }
    true
}

/// Whether two states may be one.
fn may_be_one(state: Option<usize>, other: Option<usize>) -> bool
    ensures { result ≡ may_be_one state other }
{
    match state {
        None => true,
        Some(state) => match other {
            None => true,
            Some(other) => state == other,
        },
    }
}

/// Whether two rows clash.
#[tactic(auto, unfolding(circuit_model::specs::Clashes::clash))]
fn clash(row: &MachineRow, other: &MachineRow) -> bool
    ensures { result ≡ clash_by row.now other.now }
{
    if !may_be_one(row.current, other.current) {
        return false;
    }
    if !agree_all(row.input.as_slice(), other.input.as_slice()) {
        return false;
    }
    !(may_be_one(row.next, other.next) && agree_all(row.output.as_slice(), other.output.as_slice()))
}

/// The index of the first row that clashes with a row.
fn clash_with(front: &[MachineRow], row: &MachineRow) -> Option<usize>
    ensures value { result ≡ clash_with 0 front.now row.now }
    ensures within { IfSome result (λ place. place < length front.now) }
{
    for place in 0..front.len() {
        if clash(&front[place], row) {
            return Some(place);
        }
    }
    None
}

/// Whether the row of an index clashes with a row.
fn clash_at(rows: &[MachineRow], row: &MachineRow, place: usize) -> bool
    ensures { result ≡ clash_at rows.now row.now place }
{
    match rows.get(place) {
        None => false,
        Some(earlier) => clash(earlier, row),
    }
}

/// The first of some indices whose row clashes with a row.
fn clash_among(rows: &[MachineRow], places: &[usize], row: &MachineRow) -> Option<usize>
    ensures { result ≡ find (clash_at rows.now row.now) places.now }
{
    for place in places {
        if clash_at(rows, row, *place) {
            return Some(*place);
        }
    }
    None
}

/// The lesser of two indices.
fn lesser(place: Option<usize>, other: Option<usize>) -> Option<usize>
    ensures { result ≡ lesser place other }
{
    match place {
        None => other,
        Some(place) => match other {
            None => Some(place),
            Some(other) => Some(place.min(other)),
        },
    }
}

/// The index of the first of the rows before `later` that clashes with a row of one state.
fn clash_of_state(
    rows: &[MachineRow],
    groups: &[Places],
    later: usize,
    state: usize,
    row: &MachineRow,
) -> Option<usize>
    requires inside { later < length rows.now }
    requires grouped { AreGroups rows.now later groups.now }
    requires state { row.now.current ≡ Some state }
    ensures { result ≡ clash_with 0 (take later rows.now) row.now }
{
    let own = clash_among(rows, groups[state % rows.len()].as_slice(), row);
    lesser(own, clash_among(rows, groups[rows.len()].as_slice(), row))
}

/// The index of the first of the rows before `later` that clashes with a row.
fn clash_before(
    rows: &[MachineRow],
    groups: &[Places],
    later: usize,
    row: &MachineRow,
) -> Option<usize>
    requires inside { later < length rows.now }
    requires grouped { AreGroups rows.now later groups.now }
    ensures value { result ≡ clash_with 0 (take later rows.now) row.now }
    ensures within { IfSome result (λ place. place < length rows.now) }
{
    match row.current {
        None => clash_with(&rows[..later], row),
        Some(state) => clash_of_state(rows, groups, later, state, row),
    }
}

/// The first row that clashes with an earlier one, and the first that it clashes with; none if no
/// two rows clash. A row of one state is compared only with those of its group and those of every
/// state.
pub(crate) fn first_clash(alloc: Global, rows: &[MachineRow]) -> Result<Option<Clash>, AllocError>
    ensures value { IfOk result (λ found. found ≡ first_clash rows.now) }
    ensures within { IfOk result (λ found. IfSome found
        (λ (clash : Clash). clash.earlier < length rows.now)) }
    ensures later_within { IfOk result (λ found. IfSome found
        (λ (clash : Clash). clash.later < length rows.now)) }
{
    let mut groups = no_groups(alloc, rows)?;
    for later in 0..rows.len() {
        if let Some(earlier) = clash_before(rows, groups.as_slice(), later, &rows[later]) {
            return Ok(Some(Clash { earlier, later }));
        }
        note_row(&mut groups, rows, later)?;
    }
    Ok(None)
}
