//! The circuit of a seed and a number of tables.
//!
//! The rule is the project's own (`specs/Generated.antt`), with the draws of `draws`. Signals are
//! numbered: 16 inputs, 8 latch outputs, then the tables. Each table is a gate over two different
//! signals drawn from those before it, so the tables form no cycle. The latches and the outputs
//! take the last eight signals. `generate` returns exactly `generated seed tables`: the same
//! circuit for the same numbers.

ghost use Rattle.std.specs.Prelude.{◌≡◌, ◌+◌, ◌<◌, ◌≤◌, [], ◌∷◌, map, length, IfOk, OnOk};
ghost use Rattle.std.specs.List.{range_with_len};
ghost use Rattle.circuit_gen.specs.Draws.{next};
ghost use Rattle.circuit_gen.specs.Generated.{gate_table, generated, latch_at, second_of, signal, signals, table_at, table_behind};

use crate::draws::Draws;
use crate::gates::{Gate, gate_of};
use crate::naming::{INPUTS, LEAVES, name_of, names_from, signal_names};
use circuit_model::{Circuit, Latch, Latches, Name, Names, Table, Tables};
use sis_base::Sequence;
use std::alloc::{AllocError, Global};

/// The number of latches, and of outputs.
const LATCHES: usize = 8;

/// The number of gates.
const GATES: usize = 4;

/// The second input, by the number that was drawn for it: the signal after the first input if the
/// first was drawn again.
fn second_of(bound: usize, first: usize, second: usize) -> usize
    requires first { first < bound }
    requires second { second < bound }
    ensures value { result ≡ second_of bound first second }
    ensures below { result < bound }
{
    if second == first {
        (first + 1) % bound
    } else {
        second
    }
}

/// The names of two signals.
fn two_names(
    alloc: Global,
    names: &[Name],
    first: usize,
    second: usize,
) -> Result<Names, AllocError>
    requires names { names.now ≡ signals 0 (length names.now) }
    requires first { first < length names.now }
    requires second { second < length names.now }
    ensures { IfOk result (λ made. made ≡ signal first ∷ signal second ∷ []) }
{
    let mut made = Vec::with_capacity(alloc, 2)?;
    made.push(name_of(alloc, names, first)?)?;
    made.push(name_of(alloc, names, second)?)?;
    Ok(Sequence::from_vec(made))
}

/// A gate over two signals as the table of an index.
fn gate_table(
    alloc: Global,
    names: &[Name],
    place: usize,
    first: usize,
    second: usize,
    gate: Gate,
) -> Result<Table, AllocError>
    requires names { names.now ≡ signals 0 (length names.now) }
    requires place { 24 + place < length names.now }
    requires first { first < 24 + place }
    requires second { second < 24 + place }
    ensures { IfOk result (λ table. table ≡ gate_table place first second gate) }
{
    Ok(Table {
        inputs: two_names(alloc, names, first, second)?,
        output: name_of(alloc, names, LEAVES + place)?,
        rows: gate.rows(alloc)?,
        phase: gate.phase(),
    })
}

/// The table of an index, by the next three draws.
#[tactic(auto, unfolding(crate::specs::Generated::table_behind))]
fn drawn_table(
    alloc: Global,
    names: &[Name],
    place: usize,
    draws: &mut Draws,
) -> Result<Table, AllocError>
    requires names { names.now ≡ signals 0 (length names.now) }
    requires place { 24 + place < length names.now }
    ensures value { IfOk result (λ table. table ≡ table_behind draws.old.number place) }
    ensures number { draws.new.number ≡ next (next (next draws.old.number)) }
{
    let bound = LEAVES + place;
    let first = draws.draw(bound);
    let second = draws.draw(bound);
    let gate = draws.draw(GATES);
    gate_table(
        alloc,
        names,
        place,
        first,
        second_of(bound, first, second),
        gate_of(gate),
    )
}

/// `count` tables, by the draws of a seed.
fn tables_over(alloc: Global, names: &[Name], seed: u64, count: usize) -> Result<Tables, AllocError>
    requires names { names.now ≡ signals 0 (length names.now) }
    requires room { 24 + count ≤ length names.now }
    ensures { IfOk result (λ tables. tables ≡ map (table_at seed) (range_with_len 0 count)) }
{
    let mut draws = Draws { number: seed };
    let mut tables = Vec::with_capacity(alloc, count)?;
    for place in 0..count {
        tables.push(drawn_table(alloc, names, place, &mut draws)?)?;
    }
    Ok(Sequence::from_vec(tables))
}

/// The latch of an index over so many tables.
fn latch_at(alloc: Global, names: &[Name], tables: usize, place: usize) -> Result<Latch, AllocError>
    requires names { names.now ≡ signals 0 (length names.now) }
    requires room { 24 + tables ≤ length names.now }
    requires place { place < 8 }
    ensures { IfOk result (λ latch. latch ≡ latch_at tables place) }
{
    Ok(Latch {
        input: name_of(alloc, names, INPUTS + tables + place)?,
        output: name_of(alloc, names, INPUTS + place)?,
        init: 0,
    })
}

/// The latches over so many tables.
fn latches_over(alloc: Global, names: &[Name], tables: usize) -> Result<Latches, AllocError>
    requires names { names.now ≡ signals 0 (length names.now) }
    requires room { 24 + tables ≤ length names.now }
    ensures { IfOk result (λ latches. latches ≡ map (latch_at tables) (range_with_len 0 8)) }
{
    let mut latches = Vec::with_capacity(alloc, LATCHES)?;
    for place in 0..LATCHES {
        latches.push(latch_at(alloc, names, tables, place)?)?;
    }
    Ok(Sequence::from_vec(latches))
}

/// The circuit over the names of its signals.
#[tactic(auto, unfolding(crate::specs::Generated::generated))]
fn circuit_over(
    alloc: Global,
    names: &[Name],
    seed: u64,
    tables: usize,
) -> Result<Circuit, AllocError>
    requires names { names.now ≡ signals 0 (length names.now) }
    requires room { 24 + tables ≤ length names.now }
    ensures { IfOk result (λ circuit. circuit ≡ generated seed tables) }
{
    Ok(Circuit {
        name: Name::from_slice(alloc, b"gen".as_slice())?,
        inputs: names_from(alloc, names, 0, INPUTS)?,
        outputs: names_from(alloc, names, INPUTS + tables, LATCHES)?,
        clocks: Sequence::new(alloc),
        timing: None,
        latches: latches_over(alloc, names, tables)?,
        tables: tables_over(alloc, names, seed, tables)?,
        dont_care: Sequence::new(alloc),
    })
}

/// The circuit of a seed and a number of tables.
pub fn generate(alloc: Global, seed: u64, tables: u16) -> Result<Circuit, AllocError>
    ensures { IfOk result (λ circuit. circuit ≡ generated seed tables) }
{
    let tables = usize::from(tables);
    let names = signal_names(alloc, LEAVES + tables)?;
    circuit_over(alloc, names.as_slice(), seed, tables)
}
