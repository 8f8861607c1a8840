//! Sums of single literals: all steps at such a table in one pass, without its tables in between.
//!
//! Source: the SIS report (UCB/ERL M92/41), `tech_decomp`. While there are too many rows, the first
//! ones become a table, whose signal is a row after the others. Invariant (`IsSumOn`): a list of
//! literals over a list of names represents the table; names are only appended, and the table is
//! written once, at the end. Callers rely on the chain of steps (`IsAlong`), each as it is defined.

ghost use Rattle.std.specs.Prelude.{◌≡◌, ℕ, ◌+◌, ◌^◌, ◌<◌, ◌≤◌, true, Some, List, [], ◌∷◌, ◌++◌, length, map, drop, take, IfOk, IfErr, IfSome, OnOk};
ghost use Rattle.std.specs.List.{AllByRecursion};
ghost use Rattle.circuit_model.specs.Names.{all_different};
ghost use Rattle.circuit_model.specs.declared.circuit.Table.{Table};
ghost use Rattle.net_core.specs.Fresh.{node_count};
ghost use Rattle.net_core.specs.Reads.{IsBounded};
ghost use Rattle.net_core.specs.Tables.{named, IsOverInputs};
ghost use Rattle.net_core.specs.declared.adding.AddFault.TheVariants.{NodeLimit};
ghost use Rattle.net_work.specs.Placed.{circuit_of, table_at};
ghost use Rattle.sis_base.specs.declared.limits.TheConstants.{MAX_NODES};
ghost use Rattle.net_decomp.specs.Cursor.{IsNext, Parts};
ghost use Rattle.net_decomp.specs.Sums.{single_row, sum_rows, shifted, shifted_rows, sum_table, IsBelow, IsBetween, IsListed, IsSumBound, IsSum, IsSumAt, IsFirstParted};

use crate::Rule;
use crate::stepping::{push_name, tidy_table};
use circuit_model::{Name, Names, names_copied};
use cube_cover::Row;
use net_core::{AddFault, CoverTable};
use net_work::WorkingNetwork;
use sis_base::Copied;
use std::alloc::{AllocError, Global};

/// With so many names no further one is appended, so that no table has 2^30 inputs.
const INPUT_BOUND: usize = (1 << 30) - 1;

/// With so many literals no further one is appended, so that no table has 2^33 rows.
const ROW_BOUND: usize = (1 << 33) - 1;

/// A literal: the index of its signal in a list of names, and its bit.
#[derive(Clone, Copy)]
pub(crate) struct Literal {
    pub(crate) place: usize,
    pub(crate) bit: bool,
}

/// Columns, from one index up to another.
pub(crate) struct Span {
    pub(crate) from: usize,
    pub(crate) to: usize,
}

/// A table of rows of one literal each, and how many of them a gate may have.
#[derive(Drop)]
pub(crate) struct Sum {
    pub(crate) names: Names,
    pub(crate) literals: Vec<Literal>,
    pub(crate) phase: bool,
    pub(crate) most: usize,
}

// A row of one literal.
#[tactic(auto, using(crate::proofs::Singles::single_past))]
fn single_row<R: Row>(alloc: Global, width: usize, literal: Literal) -> Result<R, AllocError>
    ensures { IfOk result (λ row. R.literals row ≡ single_row width literal) }
{
    let mut row = R::dashes(alloc, width)?;
    if literal.place < width {
        row.set(literal.place, Some(literal.bit));
    }
    Ok(row)
}

// The literal in the columns after the first ones.
fn shifted(literal: Literal, from: usize) -> Literal
    ensures { result ≡ shifted from literal }
{
    Literal {
        place: literal.place.saturating_sub(from),
        bit: literal.bit,
    }
}

// Rows of one literal each, without the first columns.
fn shifted_rows<R: Row>(
    alloc: Global,
    width: usize,
    literals: &[Literal],
    from: usize,
) -> Result<Vec<R>, AllocError>
    ensures { IfOk result (λ made. map R.literals made.items
        ≡ shifted_rows width from literals.now) }
{
    let mut made = Vec::with_capacity(alloc, literals.len())?;
    for literal in literals {
        made.push(single_row(alloc, width, shifted(*literal, from))?)?;
    }
    Ok(made)
}

// The columns that hold literals below a width.
fn span_of(literals: &[Literal], width: usize) -> Span
    requires { AllByRecursion (IsBelow width) literals.now }
    ensures within { AllByRecursion (IsBetween result.from result.to) literals.now }
    ensures order { result.from ≤ result.to }
    ensures fits { result.to ≤ width }
{
    let mut from = width;
    let mut to = 0;
    for literal in literals {
        from = from.min(literal.place);
        if to <= literal.place {
            to = literal.place + 1;
        }
    }
    Span {
        from: from.min(to),
        to,
    }
}

// The table whose rows have one literal each, in normal form. Only the names between the first and
// the last one that the literals read are looked at.
fn sum_table<R: Row>(
    alloc: Global,
    names: &Names,
    literals: &[Literal],
    phase: bool,
) -> Result<CoverTable<R>, AllocError>
    requires { IsListed names.now literals.now }
    ensures tidy { IfOk result (λ made. (name : List ℕ) → named name made
        ≡ sum_table names.now name phase literals.now) }
    ensures over { IfOk result IsOverInputs }
    ensures once { IfOk result (λ made. all_different made.inputs ≡ true) }
    ensures bounded { IfOk result (λ made. (name : List ℕ) → IsBounded (named name made)) }
{
    let Span { from, to } = span_of(literals, names.len());
    let (front, _behind) = names.as_slice().split_at(to);
    let (_before, few) = front.split_at(from);
    let rows = shifted_rows(alloc, few.len(), literals, from)?;
    tidy_table(alloc, names_copied(alloc, few)?, rows, phase)
}

// The literal of a row of the given width; none if it does not have exactly one.
fn literal_in<R: Row>(row: &R, width: usize) -> Option<Literal>
    ensures { IfSome result (λ literal. IsBelow width literal
        × (R.literals row.now ≡ single_row width literal)) }
{
    if row.width() != width || row.literal_count() != 1 {
        return None;
    }
    match row.next_literal(0) {
        None => None,
        Some(place) => match row.at(place) {
            None => None,
            Some(bit) => Some(Literal { place, bit }),
        },
    }
}

// The literals of rows; none if some row does not have exactly one.
fn literals_in<R: Row>(
    alloc: Global,
    rows: &[R],
    width: usize,
) -> Result<Option<Vec<Literal>>, AllocError>
    ensures { IfOk result (λ found. IfSome found (λ made.
        AllByRecursion (IsBelow width) made.items
        × (map R.literals rows.now ≡ sum_rows width made.items))) }
{
    let mut made = Vec::with_capacity(alloc, rows.len())?;
    for row in rows {
        match literal_in(row, width) {
            None => return Ok(None),
            Some(literal) => made.push(literal)?,
        }
    }
    Ok(Some(made))
}

// How many rows a gate may have by a rule; none if fewer than two, or without bound.
fn most_of(rule: Rule) -> Option<usize>
    ensures { IfSome result (IsSumBound rule) }
{
    match rule {
        Rule::Shared => None,
        Rule::Gates(_, most) => { if most < 2 { None } else { Some(most) } }
    }
}

// The literals of a table; none if some row does not have exactly one.
fn sum_of<R: Row>(
    alloc: Global,
    table: &CoverTable<R>,
    most: usize,
) -> Result<Option<Sum>, AllocError>
    ensures { IfOk result (λ found. IfSome found (λ sum. (sum.most ≡ most)
        × ((name : List ℕ) → IsSum (named name table.now) sum))) }
{
    match literals_in(alloc, table.cover.rows(), table.inputs.len())? {
        None => Ok(None),
        Some(literals) => Ok(Some(Sum {
            names: table.inputs.copy(alloc)?,
            literals,
            phase: table.phase,
            most,
        })),
    }
}

// The literals of the table at an index; none if some row does not have exactly one, or if the
// rule gives no bound.
fn sum_at<R: Row>(
    alloc: Global,
    work: &WorkingNetwork<R>,
    place: usize,
    rule: Rule,
) -> Result<Option<Sum>, AllocError>
    ensures { IfOk result (λ found. IfSome found (IsSumAt rule work.now.slots place)) }
{
    match most_of(rule) {
        None => Ok(None),
        Some(most) => match work.entry(place) {
            None => Ok(None),
            Some(entry) => sum_of(alloc, &entry.table, most),
        },
    }
}

// An error if with one more name or literal there might be a table that is too large.
fn check_bounds(names: usize, literals: usize) -> Result<(), AllocError>
    ensures { OnOk result ((names + 1 < 2 ^ 30) × (literals + 1 < 2 ^ 33)) }
{
    if names < INPUT_BOUND && literals < ROW_BOUND {
        Ok(())
    } else {
        Err(AllocError)
    }
}

// Appends a name and its positive literal.
fn push_signal(names: &mut Names, literals: &mut Vec<Literal>, name: Name) -> Result<(), AllocError>
    ensures names { OnOk result (names.new ≡ names.old ++ name ∷ []) }
    ensures literals { OnOk result (literals.new.items ≡ literals.old.items
        ++ (record { place = length names.old; bit = true }) ∷ []) }
{
    literals.push(Literal {
        place: names.len(),
        bit: true,
    })?;
    push_name(names, name)
}

// The first literals after an index become a table, and its signal a literal after the others.
fn part_first<R: Row>(
    alloc: Global,
    work: &mut WorkingNetwork<R>,
    names: &mut Names,
    literals: &mut Vec<Literal>,
    first: usize,
    most: usize,
) -> Result<(), AddFault>
    requires within { first + most ≤ length literals.old.items }
    requires listed { IsListed names.old (drop first literals.old.items) }
    ensures parted { OnOk result (IsFirstParted first most names.old literals.old.items work.old
        names.new literals.new.items work.new) }
    ensures limit { IfErr result (λ fault. fault ≡ NodeLimit → MAX_NODES ≤ node_count
        (circuit_of work.old)) }
{
    check_bounds(names.len(), literals.len())?;
    let (_done, left) = literals.as_slice().split_at(first);
    let (front, _rest) = left.split_at(most);
    let part = sum_table(alloc, names, front, true)?;
    let name = work.add(alloc, part)?;
    push_signal(names, literals, name)?;
    Ok(())
}

// Decomposes the table at an index, whose rows are single literals, until it is done; returns the
// number of nodes then. After an error the network may be any.
fn part_literals<R: Row>(
    alloc: Global,
    work: &mut WorkingNetwork<R>,
    nodes: u128,
    place: usize,
    sum: Sum,
    rule: Rule,
) -> Result<u128, AddFault>
    requires next { IsNext rule nodes place work.old }
    requires sum { IsSumAt rule work.old.slots place sum }
    ensures { Parts result rule place work.old work.new }
{
    let Sum {
        mut names,
        mut literals,
        phase,
        most,
    } = sum;
    let mut first = 0;
    let mut count = nodes;
    while most < literals.len() - first {
        part_first(alloc, work, &mut names, &mut literals, first, most)?;
        first += most;
        count += 1;
    }
    let (_done, left) = literals.as_slice().split_at(first);
    let table = sum_table(alloc, &names, left, phase)?;
    work.set(alloc, place, table)?;
    Ok(count)
}

/// Decomposes the table at an index, which is in normal form, until it is done, if its rows are
/// single literals; returns the number of nodes then. `NodeLimit` if there is no room for a part.
/// After an error the network may be any.
pub(crate) fn part_sum<R: Row>(
    alloc: Global,
    work: &mut WorkingNetwork<R>,
    nodes: u128,
    place: usize,
    rule: Rule,
) -> Result<u128, AddFault>
    requires { IsNext rule nodes place work.old }
    ensures { Parts result rule place work.old work.new }
{
    match sum_at(alloc, work, place, rule)? {
        None => Ok(nodes),
        Some(sum) => part_literals(alloc, work, nodes, place, sum, rule),
    }
}
