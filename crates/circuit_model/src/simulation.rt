//! Simulation of a circuit over rows of input bits.
//!
//! Source: the BLIF appendix of the SIS report (UCB/ERL M92/41): a latch is one clock step of
//! delay, and `.exdc` leaves outputs free. A step computes the bits of all signals level by level
//! (`specs/Levels.antt`), from 0 at each table, until they no longer change or there were as many
//! levels as tables. `Circuit::simulate` returns exactly the `run` of `specs/Runs.antt`, for every
//! circuit; it answers `BadWidth` exactly if the start or a row does not fit.

ghost use Rattle.std.specs.Prelude.{◌≡◌, ◌++◌, ◌==◌, false, map, length, IfOk, OnOk, IsTrue, ◌↔◌};
ghost use Rattle.std.specs.List.{list_all};
ghost use Rattle.sis_base.specs.Rows.{agrees, matches, some_matches};
ghost use Rattle.circuit_model.specs.Values.{literal_of, table_value};
ghost use Rattle.circuit_model.specs.Runs.{run, outputs_at, next_state, IsInputRow};
ghost use Rattle.circuit_model.specs.Levels.{bit_at, level_of, settled_bits, tri_at, wiring_of};
ghost use Rattle.circuit_model.specs.Simulation.{Fits, Simulates};

use crate::circuit::{Circuit, Row, Table, Tri};
use crate::wiring::{OutputPlaces, Places, Wiring, wire};
use sis_base::Sequence;
use std::alloc::{AllocError, AllocFailed, Global};

/// Bits in order: a state, with one for each latch, or an input row, with one for each input.
pub type Bits = Sequence<bool>;
/// What a circuit shows: for each step a row with one character for each output, `-` if it is free.
pub type Simulated = Sequence<Row>;

/// Why a simulation does not run.
#[derive(Debug, Drop, PartialEq)]
pub enum SimFault {
    /// The start does not have one bit for each latch, or some row not one for each input.
    BadWidth,
    /// Memory ran out.
    Memory,
}

impl From<AllocError> for SimFault {
    ghost use Rattle.std.specs.Prelude.{◌≡◌};
    ghost use Rattle.circuit_model.specs.declared.simulation.SimFault.TheVariants.{Memory};

    ghost from_gives = { λ _ fault. fault ≡ Memory };

    fn from(_error: AllocError) -> Self {
        SimFault::Memory
    }
}

impl<T: Drop> From<AllocFailed<T>> for SimFault {
    ghost use Rattle.std.specs.Prelude.{◌≡◌};
    ghost use Rattle.circuit_model.specs.declared.simulation.SimFault.TheVariants.{Memory};

    ghost from_gives = { λ _ fault. fault ≡ Memory };

    fn from(_error: AllocFailed<T>) -> Self {
        SimFault::Memory
    }
}

/// The bit of an index; false if there is none.
fn bit_at(bits: &[bool], place: Option<usize>) -> bool
    ensures { result ≡ bit_at bits.now place }
{
    match place {
        None => false,
        Some(place) => bits.get(place).copied().unwrap_or(false),
    }
}

/// Whether a character of a row agrees with a bit.
fn agrees(tri: Tri, bit: bool) -> bool
    ensures { result ≡ agrees (literal_of tri) bit }
{
    match tri {
        Tri::Zero => !bit,
        Tri::One => bit,
        Tri::Free => true,
    }
}

/// Whether a row matches the bits of its inputs.
fn row_matches(row: &[Tri], places: &[Option<usize>], bits: &[bool]) -> bool
    ensures { result ≡ matches (map literal_of row.now) (map (bit_at bits.now) places.now) }
{
    for i in 0..row.len() {
        if i >= places.len() {
            return true;
        }
        if !agrees(row[i], bit_at(bits, places[i])) {
            return false;
        }
    }
    true
}

/// Whether some row matches the bits of its inputs.
fn rows_match(rows: &[Row], places: &[Option<usize>], bits: &[bool]) -> bool
    ensures { result ≡ some_matches (map (map literal_of) rows.now)
        (map (bit_at bits.now) places.now) }
{
    for row in rows {
        if row_matches(row.as_slice(), places, bits) {
            return true;
        }
    }
    false
}

/// The value of a table, given the indices of its inputs and all bits.
#[tactic(auto, unfolding(crate::specs::Values::table_value, sis_base::specs::Rows::value_by_phase))]
fn table_bit(table: &Table, places: &[Option<usize>], bits: &[bool]) -> bool
    ensures { result ≡ table_value table.now (map (bit_at bits.now) places.now) }
{
    let matched = rows_match(table.rows.as_slice(), places, bits);
    if table.phase { matched } else { !matched }
}

/// Appends the tables' values, given that the bits of all signals were `old`.
#[tactic(auto, using(crate::proofs::Levels::level_done, std::proofs::lemmas::Grind::common_steps))]
fn add_level(
    bits: &mut Vec<bool>,
    tables: &[Table],
    reads: &[Places],
    old: &[bool],
) -> Result<(), AllocError>
    requires { length reads.now ≡ length tables.now }
    ensures { OnOk result (bits.new.items ≡ bits.old.items ++ level_of tables.now reads.now old.now) }
{
    for i in 0..tables.len() {
        bits.push(table_bit(&tables[i], reads[i].as_slice(), old))?;
    }
    Ok(())
}

/// The bits of all signals one level after `old`.
#[tactic(auto, using(std::proofs::lemmas::Grind::common_steps))]
fn next_bits(
    alloc: Global,
    tables: &[Table],
    reads: &[Places],
    front: &[bool],
    back: &[bool],
    old: &[bool],
) -> Result<Vec<bool>, AllocError>
    requires { length reads.now ≡ length tables.now }
    ensures { IfOk result (λ bits. bits.items ≡ front.now ++
        (level_of tables.now reads.now old.now ++ back.now)) }
{
    let mut bits = front.to_vec(alloc)?;
    add_level(&mut bits, tables, reads, old)?;
    bits.extend_from_slice(back)?;
    Ok(bits)
}

/// Appends a 0 for each table.
fn add_zeros(bits: &mut Vec<bool>, tables: &[Table]) -> Result<(), AllocError>
    ensures { OnOk result (bits.new.items ≡ bits.old.items ++ map (λ table. false) tables.now) }
{
    for _table in tables {
        bits.push(false)?;
    }
    Ok(())
}

/// The bits of all signals with each table at 0.
#[tactic(auto, using(std::proofs::lemmas::Grind::common_steps))]
fn first_bits(
    alloc: Global,
    tables: &[Table],
    front: &[bool],
    back: &[bool],
) -> Result<Vec<bool>, AllocError>
    ensures { IfOk result (λ bits. bits.items ≡ front.now ++
        (map (λ table. false) tables.now ++ back.now)) }
{
    let mut bits = front.to_vec(alloc)?;
    add_zeros(&mut bits, tables)?;
    bits.extend_from_slice(back)?;
    Ok(bits)
}

/// Whether two lists of bits are equal.
fn are_equal(first: &[bool], second: &[bool]) -> bool
    ensures { IsTrue result ↔ (first.now ≡ second.now) }
{
    first == second
}

/// The bits of all signals at the depth that is the number of tables, or when they no longer
/// change.
fn settle(
    alloc: Global,
    tables: &[Table],
    reads: &[Places],
    front: &[bool],
    back: &[bool],
) -> Result<Vec<bool>, AllocError>
    requires { length reads.now ≡ length tables.now }
    ensures { IfOk result (λ bits. bits.items ≡ settled_bits tables.now reads.now front.now
        back.now) }
{
    let mut bits = first_bits(alloc, tables, front, back)?;
    for depth in 0..tables.len() {
        let next = next_bits(alloc, tables, reads, front, back, bits.as_slice())?;
        if are_equal(next.as_slice(), bits.as_slice()) {
            return Ok(next);
        }
        bits = next;
    }
    Ok(bits)
}

/// What an output shows.
fn tri_at(bits: &[bool], free_bits: &[bool], places: OutputPlaces) -> Tri
    ensures { result ≡ tri_at bits.now free_bits.now places }
{
    if bit_at(free_bits, places.dont_care) {
        Tri::Free
    } else if bit_at(bits, places.signal) {
        Tri::One
    } else {
        Tri::Zero
    }
}

/// What all outputs show.
fn shown_at(
    alloc: Global,
    outputs: &[OutputPlaces],
    bits: &[bool],
    free_bits: &[bool],
) -> Result<Row, AllocError>
    ensures { IfOk result (λ shown. shown ≡ map (tri_at bits.now free_bits.now) outputs.now) }
{
    let mut shown = Row::new(alloc);
    for places in outputs {
        shown.push(tri_at(bits, free_bits, *places))?;
    }
    Ok(shown)
}

/// The bits of some indices.
fn bits_at(alloc: Global, places: &[Option<usize>], bits: &[bool]) -> Result<Vec<bool>, AllocError>
    ensures { IfOk result (λ found. found.items ≡ map (bit_at bits.now) places.now) }
{
    let mut found = Vec::with_capacity(alloc, places.len())?;
    for place in places {
        found.push(bit_at(bits, *place))?;
    }
    Ok(found)
}

/// The bits of the leaves.
fn leaf_bits(alloc: Global, row: &[bool], state: &[bool]) -> Result<Vec<bool>, AllocError>
    ensures { IfOk result (λ bits. bits.items ≡ row.now ++ state.now) }
{
    let mut bits = row.to_vec(alloc)?;
    bits.extend_from_slice(state)?;
    Ok(bits)
}

/// What a circuit shows at a step, and the state after it.
#[derive(Drop)]
struct Step {
    shown: Row,
    state: Vec<bool>,
}

/// A step from a state under an input row.
fn advance(
    alloc: Global,
    circuit: &Circuit,
    wiring: &Wiring,
    state: &[bool],
    row: &[bool],
) -> Result<Step, AllocError>
    requires wired { wiring.now ≡ wiring_of circuit.now }
    requires state { length state.now ≡ length circuit.now.latches }
    requires row { IsInputRow circuit.now row.now }
    ensures shown { IfOk result (λ step. step.shown ≡ outputs_at circuit.now state.now row.now) }
    ensures state { IfOk result (λ step. step.state.items
        ≡ next_state circuit.now state.now row.now) }
{
    let leaves = leaf_bits(alloc, row, state)?;
    let tables = circuit.tables.as_slice();
    let bits = settle(
        alloc,
        tables,
        wiring.tables.as_slice(),
        leaves.as_slice(),
        &[],
    )?;
    let part = circuit.dont_care.as_slice();
    let free_bits = settle(
        alloc,
        part,
        wiring.dont_care.as_slice(),
        &[],
        leaves.as_slice(),
    )?;
    let shown = shown_at(
        alloc,
        wiring.outputs.as_slice(),
        bits.as_slice(),
        free_bits.as_slice(),
    )?;
    let next = bits_at(alloc, wiring.latches.as_slice(), bits.as_slice())?;
    Ok(Step { shown, state: next })
}

/// Whether each row has a width.
fn have_width(rows: &[Bits], width: usize) -> bool
    ensures { result ≡ list_all (λ row. length row == width) rows.now }
{
    rows.iter().all(|row| row.len() == width)
}

/// Whether a start and input rows have a bit for each latch and for each input.
fn do_fit(circuit: &Circuit, start: &[bool], rows: &[Bits]) -> bool
    ensures { IsTrue result ↔ Fits circuit.now start.now rows.now }
{
    start.len() == circuit.latches.len() && have_width(rows, circuit.inputs.len())
}

/// The run over rows that fit.
fn run_over(
    alloc: Global,
    circuit: &Circuit,
    start: &[bool],
    rows: &[Bits],
) -> Result<Simulated, AllocError>
    requires { Fits circuit.now start.now rows.now }
    ensures { IfOk result (λ shown. shown ≡ run circuit.now start.now rows.now) }
{
    let wiring = wire(alloc, circuit)?;
    let mut state = start.to_vec(alloc)?;
    let mut all_shown = Sequence::new(alloc);
    for row in rows {
        let Step { shown, state: next } = advance(
            alloc,
            circuit,
            &wiring,
            state.as_slice(),
            row.as_slice(),
        )?;
        all_shown.push(shown)?;
        state = next;
    }
    Ok(all_shown)
}

impl Circuit {
    /// What the outputs show at each step from a start, with a bit for each latch, over rows with a
    /// bit for each input.
    pub fn simulate(
        &self,
        alloc: Global,
        start: &[bool],
        rows: &[Bits],
    ) -> Result<Simulated, SimFault>
        ensures { Simulates self.now start.now rows.now result }
    {
        if !do_fit(self, start, rows) {
            return Err(SimFault::BadWidth);
        }
        let shown = run_over(alloc, self, start, rows)?;
        Ok(shown)
    }
}
