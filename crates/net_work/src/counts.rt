//! The use counts of all signals: for each signal the number of rows with a literal of it.
//!
//! Source: Brayton, Rudell, Sangiovanni-Vincentelli and Wang, "MIS: A Multiple-Level Logic
//! Optimization System" (1987): how often a node is used decides its elimination value. `add` and
//! `remove` change the counts by exactly the uses of one table, which must list each input once. A
//! count that does not fit a machine word is an error, after which the counts have no meaning.

ghost use Rattle.std.specs.Prelude.{◌≡◌, ℕ, ◌+◌, ◌≤◌, true, Some, List, [], length, bytes_eq, if◌then◌else◌, IfOk, OnOk};
ghost use Rattle.indexmap.specs.IndexMap.{get};
ghost use Rattle.circuit_model.specs.Names.{all_different};
ghost use Rattle.net_core.specs.Reads.{uses_in};
ghost use Rattle.net_core.specs.Tables.{named};
ghost use Rattle.net_work.specs.Uses.{count_at, number_of, told_uses};

use crate::table::uses_by_input;
use circuit_model::Name;
use cube_cover::Row;
use indexmap::IndexMap;
use net_core::CoverTable;
use sis_base::Copied;
use std::alloc::{AllocError, Global};

/// For each signal the number of rows with a literal of it.
pub struct UseCounts {
    pub(crate) counts: IndexMap<Name, u64>,
}

// Written out, so that functions that own counts drop them in one call.
impl Drop for UseCounts {
    fn drop(self) {
        let UseCounts { counts: _counts } = self;
    }
}

// The count of a signal, 0 if it has none.
fn count_of(counts: &IndexMap<Name, u64>, name: &Name) -> u64
    ensures { result ≡ count_at (get bytes_eq counts.now name.now) }
{
    match counts.get(name) {
        None => 0,
        Some(count) => *count,
    }
}

// Sets the count of a signal.
fn set_count(
    alloc: Global,
    counts: &mut IndexMap<Name, u64>,
    name: &Name,
    count: u64,
) -> Result<(), AllocError>
    ensures { OnOk result ((other : List ℕ) → get bytes_eq counts.new other
        ≡ (if bytes_eq name.now other then Some count else get bytes_eq counts.old other)) }
{
    let key = name.copy(alloc)?;
    let _count = counts.insert(key, count)?;
    Ok(())
}

// Adds a number to the count of a signal.
fn gain(
    alloc: Global,
    counts: &mut IndexMap<Name, u64>,
    name: &Name,
    number: u64,
) -> Result<(), AllocError>
    ensures { OnOk result ((other : List ℕ) → count_at (get bytes_eq counts.new other) ≡ count_at
        (get bytes_eq counts.old other) + (if bytes_eq name.now other then number else 0)) }
{
    match count_of(counts, name).checked_add(number) {
        None => Err(AllocError),
        Some(count) => set_count(alloc, counts, name, count),
    }
}

// Subtracts a number from the count of a signal.
fn lose(
    alloc: Global,
    counts: &mut IndexMap<Name, u64>,
    name: &Name,
    number: u64,
) -> Result<(), AllocError>
    requires { number ≤ count_at (get bytes_eq counts.old name.now) }
    ensures { OnOk result ((other : List ℕ) → count_at (get bytes_eq counts.new other) +
        (if bytes_eq name.now other then number else 0) ≡ count_at (get bytes_eq counts.old other)) }
{
    let count = count_of(counts, name);
    set_count(alloc, counts, name, count - number)
}

// Adds to the count of each of some different signals its number.
fn gain_all(
    alloc: Global,
    counts: &mut IndexMap<Name, u64>,
    names: &[Name],
    numbers: &[u64],
) -> Result<(), AllocError>
    requires different { all_different names.now ≡ true }
    requires many { length numbers.now ≡ length names.now }
    ensures { OnOk result ((other : List ℕ) → count_at (get bytes_eq counts.new other) ≡ count_at
        (get bytes_eq counts.old other) + number_of names.now numbers.now other) }
{
    for (i, name) in names.iter().enumerate() {
        gain(alloc, counts, name, numbers[i])?;
    }
    Ok(())
}

// Subtracts from the count of each of some different signals its number.
fn lose_all(
    alloc: Global,
    counts: &mut IndexMap<Name, u64>,
    names: &[Name],
    numbers: &[u64],
) -> Result<(), AllocError>
    requires different { all_different names.now ≡ true }
    requires many { length numbers.now ≡ length names.now }
    requires enough { (name : List ℕ) → number_of names.now numbers.now name ≤ count_at
        (get bytes_eq counts.old name) }
    ensures { OnOk result ((other : List ℕ) → count_at
        (get bytes_eq counts.new other) + number_of names.now numbers.now other ≡ count_at
        (get bytes_eq counts.old other)) }
{
    for (i, name) in names.iter().enumerate() {
        lose(alloc, counts, name, numbers[i])?;
    }
    Ok(())
}

impl UseCounts {
    /// No uses; allocates nothing.
    pub fn of_none(alloc: Global) -> UseCounts
        ensures { (name : List ℕ) → told_uses result name ≡ 0 }
    {
        UseCounts {
            counts: IndexMap::new(alloc),
        }
    }

    /// The uses of a signal.
    pub fn uses(&self, name: &Name) -> u64
        ensures { result ≡ told_uses self.now name.now }
    {
        count_of(&self.counts, name)
    }

    /// Adds the uses of a table, which must list each input once.
    pub fn add<R: Row>(&mut self, alloc: Global, table: &CoverTable<R>) -> Result<(), AllocError>
        requires once { all_different table.now.inputs ≡ true }
        ensures { OnOk result ((output name : List ℕ) → told_uses self.new name
            ≡ told_uses self.old name + uses_in name (named output table.now)) }
    {
        let numbers = uses_by_input(alloc, table)?;
        gain_all(
            alloc,
            &mut self.counts,
            table.inputs.as_slice(),
            numbers.as_slice(),
        )
    }

    /// Subtracts the uses of a table, which must list each input once and whose uses must be
    /// counted.
    pub fn remove<R: Row>(&mut self, alloc: Global, table: &CoverTable<R>) -> Result<(), AllocError>
        requires once { all_different table.now.inputs ≡ true }
        requires counted { (name : List ℕ) → uses_in name
            (named [] table.now) ≤ told_uses self.old name }
        ensures { OnOk result ((output name : List ℕ) → told_uses self.new name + uses_in name
            (named output table.now) ≡ told_uses self.old name) }
    {
        let numbers = uses_by_input(alloc, table)?;
        lose_all(
            alloc,
            &mut self.counts,
            table.inputs.as_slice(),
            numbers.as_slice(),
        )
    }
}
