//! Queries about the tables of a network: literals, fanouts, uses and elimination values.
//!
//! Source: Brayton, Rudell, Sangiovanni-Vincentelli and Wang, "MIS: A Multiple-Level Logic
//! Optimization System" (1987); De Micheli, "Synthesis and Optimization of Digital Circuits",
//! chapter 8. Eliminating a node of l literals that is used n times adds n * l - n - l literals; a
//! use is a row with a literal of the node's signal. All answers are exact. The sums cannot
//! overflow if the network has its bounds (`HasBounds`), which `lits` and `value` require.

ghost use Rattle.std.specs.Prelude.{◌≡◌, ℕ, ◌+◌, ◌*◌, ◌^◌, ◌<◌, ◌≤◌, ℤ, pos, ◌-ℤ◌, Bool, true, Option, Some, None, List, [], ◌∷◌, ◌++◌, length, map, sum_by, bytes_eq, position, slice_index_or, if◌then◌else◌, IfOk, OnOk};
ghost use Rattle.std.specs.List.{AllByRecursion};
ghost use Rattle.circuit_model.specs.Counts.{is_literal, literals_of_row, literals_of_table, literals_of};
ghost use Rattle.circuit_model.specs.declared.circuit.Tri.TheVariants.{Free};
ghost use Rattle.circuit_model.specs.declared.circuit.Table.{Table};
ghost use Rattle.net_core.specs.Tables.{character_of, characters_of, named};
ghost use Rattle.net_core.specs.Places.{present, written_of};
ghost use Rattle.net_core.specs.Reads.{readers_of, rows_with, uses_in, uses_of, own_literals, value_of, IsBounded, HasBounds};

use crate::network::Network;
use crate::places::Entry;
use crate::table::CoverTable;
use circuit_model::{Name, Names, has_name};
use cube_cover::Row;
use sis_base::{Copied, Sequence};
use std::alloc::{AllocError, Global};

// 1 for a literal, 0 for a dash.
fn literal_count(place: Option<bool>) -> usize
    ensures { result ≡ (if is_literal (character_of place) then 1 else 0) }
{
    match place {
        None => 0,
        Some(_) => 1,
    }
}

/// The number of a row's literals.
pub fn row_literals<R: Row>(row: &R) -> usize
    ensures literals { result ≡ literals_of_row (characters_of (R.literals row.now)) }
    ensures bound { result ≤ length (R.literals row.now) }
{
    row.literal_count()
}

// The number of literals of rows.
fn rows_literals<R: Row>(rows: &[R]) -> u128
    requires { length rows.now < 2 ^ 33 }
    ensures bound { result ≤ 2 ^ 97 }
    ensures literals { result ≡ sum_by literals_of_row
        (map characters_of (map R.literals rows.now)) }
{
    let mut total: u128 = 0;
    for row in rows {
        total += row_literals(row) as u128;
    }
    total
}

// 1 for a row with a literal in a column, else 0.
fn use_count<R: Row>(row: &R, place: usize) -> usize
    ensures literal { result ≡ (if is_literal (slice_index_or
        (characters_of (R.literals row.now)) place Free) then 1 else 0) }
    ensures bound { result ≤ 1 }
{
    if place < row.width() {
        literal_count(row.at(place))
    } else {
        0
    }
}

/// The number of rows with a literal in a column.
#[tactic(auto, unfolding(crate::specs::Reads::rows_with))]
pub fn rows_uses<R: Row>(rows: &[R], place: usize) -> usize
    ensures uses { result ≡ rows_with place (map characters_of (map R.literals rows.now)) }
    ensures bound { result ≤ length rows.now }
{
    let mut count = 0;
    for row in rows {
        count += use_count(row, place);
    }
    count
}

// The index of a name among names.
fn place_among(names: &Names, name: &Name) -> Option<usize>
    ensures { result ≡ position (bytes_eq name.now) names.now }
{
    names.as_slice().iter().position(|other| *name == *other)
}

// The uses of a name in a table: the rows with a literal of it.
#[tactic(auto, unfolding(crate::specs::Reads::uses_in, crate::specs::Tables::named))]
fn table_uses<R: Row>(table: &CoverTable<R>, name: &Name) -> usize
    ensures uses { (output : List ℕ) → result ≡ uses_in name.now (named output table.now) }
    ensures bound { result ≤ length table.now.cover.rows }
{
    match place_among(&table.inputs, name) {
        None => 0,
        Some(place) => rows_uses(table.cover.rows(), place),
    }
}

// The number of a table's literals.
#[tactic(auto, unfolding(circuit_model::specs::Counts::literals_of_table, crate::specs::Tables::named))]
fn table_literals<R: Row>(table: &CoverTable<R>) -> u128
    requires { length table.now.cover.rows < 2 ^ 33 }
    ensures literals { (output : List ℕ) → result ≡ literals_of_table (named output table.now) }
    ensures bound { result ≤ 2 ^ 97 }
{
    rows_literals(table.cover.rows())
}

// The literals of the table at a place.
#[tactic(auto, unfolding(crate::specs::Places::present))]
fn slot_literals<R: Row>(slot: &Option<Entry<R>>) -> u128
    requires { AllByRecursion IsBounded (present (slot.now ∷ [])) }
    ensures literals { result ≡ sum_by literals_of_table (present (slot.now ∷ [])) }
    ensures bound { result ≤ length (present (slot.now ∷ [])) * 2 ^ 97 }
{
    match slot {
        None => 0,
        Some(entry) => table_literals(&entry.table),
    }
}

// The number of literals of the tables in slots.
fn slots_literals<R: Row>(slots: &[Option<Entry<R>>]) -> u128
    requires few { length (present slots.now) < 2 ^ 29 }
    requires rows { AllByRecursion IsBounded (present slots.now) }
    ensures { result ≡ sum_by literals_of_table (present slots.now) }
{
    let mut total: u128 = 0;
    for slot in slots {
        total += slot_literals(slot);
    }
    total
}

// The uses of a name in the table of a slot, 0 if it is empty.
#[tactic(auto, using(crate::proofs::Counting::one_present), unfolding(crate::specs::Places::present))]
fn slot_uses<R: Row>(slot: &Option<Entry<R>>, name: &Name) -> u128
    requires { AllByRecursion IsBounded (present (slot.now ∷ [])) }
    ensures uses { result ≡ sum_by (uses_in name.now) (present (slot.now ∷ [])) }
    ensures bound { result ≤ length (present (slot.now ∷ [])) * 2 ^ 33 }
{
    match slot {
        None => 0,
        Some(entry) => table_uses(&entry.table, name) as u128,
    }
}

// The uses of a name in the tables of slots.
#[tactic(auto, unfolding(crate::specs::Reads::uses_of))]
fn slots_uses<R: Row>(slots: &[Option<Entry<R>>], name: &Name) -> u128
    requires few { length (present slots.now) < 2 ^ 29 }
    requires rows { AllByRecursion IsBounded (present slots.now) }
    ensures uses { result ≡ uses_of (present slots.now) name.now }
    ensures bound { result ≤ 2 ^ 62 }
{
    let mut total: u128 = 0;
    for slot in slots {
        total += slot_uses(slot, name);
    }
    total
}

// Appends the name of a slot's table, if it reads a name.
#[tactic(auto, unfolding(crate::specs::Places::present, crate::specs::Reads::readers_of, crate::specs::Tables::named))]
fn push_reader<R: Row>(
    alloc: Global,
    made: &mut Vec<Name>,
    slot: &Option<Entry<R>>,
    name: &Name,
) -> Result<(), AllocError>
    ensures { OnOk result (made.new.items ≡ made.old.items ++ readers_of
        (present (slot.now ∷ [])) name.now) }
{
    if let Some(entry) = slot {
        if has_name(entry.table.inputs.as_slice(), name) {
            made.push(entry.output.copy(alloc)?)?;
        }
    }
    Ok(())
}

// n * l - n - l, for n uses and l literals.
fn worth(uses: u128, literals: u128) -> i128
    requires uses { uses ≤ 2 ^ 62 }
    requires literals { literals ≤ 2 ^ 63 }
    ensures { result ≡ pos (uses * literals) -ℤ pos uses -ℤ pos literals }
{
    let both = uses * literals;
    both as i128 - uses as i128 - literals as i128
}

impl<R: Row> Network<R> {
    /// The number of literals in all rows of all tables outside the don't-care part.
    #[tactic(auto, unfolding(circuit_model::specs::Counts::literals_of))]
    pub fn lits(&self) -> u128
        requires { HasBounds self.now }
        ensures { result ≡ literals_of self.now }
    {
        slots_literals(self.slots())
    }

    /// The fanouts of a name: the names of the tables that read it, in table order.
    pub fn readers(&self, alloc: Global, name: &Name) -> Result<Names, AllocError>
        ensures { IfOk result (λ names. names ≡ readers_of self.now.tables name.now) }
    {
        let mut made = Vec::new(alloc);
        for slot in self.slots() {
            push_reader(alloc, &mut made, slot, name)?;
        }
        Ok(Sequence::from_vec(made))
    }

    /// The elimination value of a name: n * l - n - l for its n uses and its table's l literals,
    /// where l is 0 if it has no table.
    #[tactic(auto, unfolding(crate::specs::Reads::value_of))]
    pub fn value(&self, name: &Name) -> i128
        requires { HasBounds self.now }
        ensures { result ≡ value_of self.now.tables name.now }
    {
        let uses = slots_uses(self.slots(), name);
        let literals = self.own_literals(name);
        worth(uses, literals)
    }

    // The number of literals of the table of a name, 0 if there is none.
    #[tactic(auto, unfolding(crate::specs::Reads::own_literals))]
    fn own_literals(&self, name: &Name) -> u128
        requires { HasBounds self.now }
        ensures literals { result ≡ own_literals self.now.tables name.now }
        ensures bound { result ≤ 2 ^ 63 }
    {
        self.sound();
        match self.table(name) {
            None => 0,
            Some(table) => table_literals(table),
        }
    }
}
