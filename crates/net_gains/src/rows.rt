//! The rows of tables by numbers: for each row the numbers of its literals, in rising order.
//!
//! The numbers of an input's two literals are looked up once for each table. Callers rely on
//! `AreNumbers`, and on none exactly if an input is not one of the names or a row occurs twice.

ghost use Rattle.std.specs.Prelude.{◌≡◌, ◌++◌, ◌∷◌, [], ℕ, true, false, List, map, IfOk, OnOk, MatchOption};
ghost use Rattle.std.specs.Ordering.{nat_cmp};
ghost use Rattle.circuit_model.specs.Names.{all_different};
ghost use Rattle.cover_names.specs.Literals.{sorted as sorted_by};
ghost use Rattle.net_core.specs.Tables.{named, IsOverInputs};
ghost use Rattle.net_gains.specs.Kept.{is_countable};
ghost use Rattle.net_gains.specs.Numbers.{lists_in, number_in, numbers_from, rising_from, AreNumbers};

use crate::Numbers;
use crate::codes::{Codes, Signal};
use alg_div::literals_of;
use cube_cover::Row;
use indexmap::IndexSet;
use net_core::CoverTable;
use std::alloc::{AllocError, Global};

// The number of a signal's literal.
fn number_of(signal: Signal, bit: bool) -> u32
    ensures { result ≡ number_in signal bit }
{
    if bit {
        signal.positive
    } else {
        signal.negative
    }
}

// Appends the number of a signal's literal in a column, if the column has one.
fn add_number(numbers: &mut Vec<u32>, signal: Signal, place: Option<bool>) -> Result<(), AllocError>
    ensures { OnOk result (numbers.new.items ≡ numbers.old.items ++ numbers_from (signal ∷ [])
        (place ∷ [])) }
{
    if let Some(bit) = place {
        numbers.push(number_of(signal, bit))?;
    }
    Ok(())
}

// The numbers of a row's literals, in the order of the signals.
fn numbers_over(
    alloc: Global,
    signals: &[Signal],
    row: &[Option<bool>],
) -> Result<Vec<u32>, AllocError>
    ensures { IfOk result (λ numbers. numbers.items ≡ numbers_from signals.now row.now) }
{
    let mut numbers = Vec::new(alloc);
    for (signal, place) in signals.iter().zip(row) {
        add_number(&mut numbers, *signal, *place)?;
    }
    Ok(numbers)
}

// Numbers in rising order, each once.
fn in_order(numbers: Vec<u32>) -> Vec<u32>
    ensures { result.items ≡ sorted_by nat_cmp numbers.items }
{
    let mut sorted = numbers;
    sorted.sort_unstable();
    sorted.dedup();
    sorted
}

// The rising numbers of rows.
fn cubes_over<R: Row>(
    alloc: Global,
    signals: &[Signal],
    rows: &[R],
) -> Result<Vec<Vec<u32>>, AllocError>
    ensures { IfOk result (λ cubes. lists_in cubes.items ≡ map (rising_from signals.now)
        (map R.literals rows.now)) }
{
    let mut cubes = Vec::with_capacity(alloc, rows.len())?;
    for row in rows {
        let literals = literals_of(alloc, row)?;
        cubes.push(in_order(numbers_over(alloc, signals, literals.as_slice())?))?;
    }
    Ok(cubes)
}

// Whether no cube occurs twice.
fn are_apart(alloc: Global, cubes: &[Vec<u32>]) -> Result<bool, AllocError>
    ensures { IfOk result (λ answer. answer ≡ all_different (lists_in cubes.now)) }
{
    let mut seen = IndexSet::new(alloc);
    for cube in cubes {
        seen.insert_full(Numbers::from_slice(alloc, cube.as_slice())?)?;
    }
    Ok(seen.len() == cubes.len())
}

/// The numbers of a table's rows, if each input has numbers and no row occurs twice.
pub(crate) fn numbers_of<R: Row>(
    alloc: Global,
    codes: &Codes,
    table: &CoverTable<R>,
) -> Result<Option<Vec<Vec<u32>>>, AllocError>
    requires over { IsOverInputs table.now }
    requires once { all_different table.now.inputs ≡ true }
    ensures { IfOk result (λ found. (output : List ℕ) → MatchOption found
        (is_countable codes.now (named output table.now) ≡ false)
        (λ cubes. AreNumbers codes.now (named output table.now) (lists_in cubes.items))) }
{
    codes.sound();
    let signals = match codes.signals(alloc, table.inputs.as_slice())? {
        None => return Ok(None),
        Some(signals) => signals,
    };
    let cubes = cubes_over(alloc, signals.as_slice(), table.cover.rows())?;
    if !are_apart(alloc, cubes.as_slice())? {
        return Ok(None);
    }
    Ok(Some(cubes))
}
