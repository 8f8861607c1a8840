//! Counts of one table: the uses of each input, its literals, and its elimination value (De
//! Micheli, "Synthesis and Optimization of Digital Circuits", chapter 8, elimination). The counts
//! are exact.

ghost use Rattle.std.specs.Prelude.{◌≡◌, ℕ, ◌+◌, ◌*◌, ◌^◌, ◌≤◌, ◌<◌, pos, ◌-ℤ◌, List, length, map, sum_by, IfOk};
ghost use Rattle.circuit_model.specs.Counts.{literals_of_row, literals_of_table};
ghost use Rattle.net_core.specs.Tables.{characters_of, named};
ghost use Rattle.net_work.specs.Uses.{uses_from, AreUses};

use cube_cover::Row;
use net_core::{CoverTable, row_literals, rows_uses};
use std::alloc::{AllocError, Global};

// The greatest count of uses and of literals for which an elimination value is computed.
const COUNT_LIMIT: u128 = 1 << 58;

/// For each input of a table, in order, the number of rows with a literal of it.
#[tactic(auto, unfolding(net_core::specs::Tables::named))]
pub fn uses_by_input<R: Row>(alloc: Global, table: &CoverTable<R>) -> Result<Vec<u64>, AllocError>
    ensures { IfOk result (λ numbers. (output : List ℕ) → AreUses numbers.items
        (named output table.now)) }
{
    let rows = table.cover.rows();
    let mut numbers = Vec::with_capacity(alloc, table.inputs.len())?;
    for place in 0..table.inputs.len() {
        numbers.push(rows_uses(rows, place) as u64)?;
    }
    Ok(numbers)
}

// The number of literals of rows.
fn rows_literals<R: Row>(rows: &[R]) -> u128
    ensures { result ≡ sum_by literals_of_row (map characters_of (map R.literals rows.now)) }
{
    let mut total: u128 = 0;
    for row in rows {
        total += row_literals(row) as u128;
    }
    total
}

/// The number of a table's literals.
#[tactic(auto, unfolding(circuit_model::specs::Counts::literals_of_table, net_core::specs::Tables::named))]
pub fn literal_count<R: Row>(table: &CoverTable<R>) -> u128
    ensures { (output : List ℕ) → result ≡ literals_of_table (named output table.now) }
{
    rows_literals(table.cover.rows())
}

/// The elimination value n * l - n - l, for n uses and l literals. An error if a count is above
/// 2^58, which no memory can hold.
pub fn worth(uses: u128, literals: u128) -> Result<i128, AllocError>
    ensures { IfOk result (λ value. value ≡ pos (uses * literals) -ℤ pos uses -ℤ pos literals) }
{
    if uses > COUNT_LIMIT || literals > COUNT_LIMIT {
        return Err(AllocError);
    }
    let both = uses * literals;
    Ok(both as i128 - uses as i128 - literals as i128)
}
