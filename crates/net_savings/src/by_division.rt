//! What a table loses by a cover, as the division of its rows tells.
//!
//! Source: Brayton, Rudell, Sangiovanni-Vincentelli and Wang, "MIS: A Multiple-Level Logic
//! Optimization System" (1987): the value of a divisor. Each product of a cube of the quotient and
//! one of the divisor goes, and each cube of the quotient stays, with one literal more. So the
//! divided table of distinct rows need not be made. Callers rely on `loss_by_division`: the number
//! is exact if there is one.

ghost use Rattle.std.specs.Prelude.{◌≡◌, ℕ, ◌+◌, ◌-◌, ◌*◌, ◌<◌, true, false, Some, List, length, map, IfOk, IfSome};
ghost use Rattle.circuit_model.specs.Names.{has, all_different};
ghost use Rattle.net_candidates.proofs.Products.{literals_in_all};
ghost use Rattle.alg_tables.specs.Dividing.{is_undivided, IsDivision};
ghost use Rattle.net_core.specs.Tables.{named, IsOverInputs};
ghost use Rattle.net_savings.specs.Saving.{IsLoss};

use crate::by_rows::{are_distinct, product_of, sum_of};
use alg_tables::Division;
use cover_names::Cube;
use cube_cover::Row;
use net_core::CoverTable;
use sis_base::limits::MAX_INPUTS;
use std::alloc::{AllocError, Global};

// The number of literals of rows.
fn literals_in<R: Row>(rows: &[R]) -> Result<u128, AllocError>
    ensures { IfOk result (λ count. count ≡ literals_in_all (map R.literals rows.now)) }
{
    let mut count = 0;
    for row in rows {
        count = sum_of(count, row.literal_count() as u128)?;
    }
    Ok(count)
}

// The literals that distinct rows lose by a division.
fn lost_by_division<R: Row>(parts: &Division<R>) -> Result<u128, AllocError>
    ensures { IfOk result (λ lost. lost
        ≡ (length parts.now.divisor.rows * literals_in_all parts.now.quotient.rows
        + length parts.now.quotient.rows * literals_in_all parts.now.divisor.rows)
        - (literals_in_all parts.now.quotient.rows + length parts.now.quotient.rows)) }
{
    let divisor = parts.divisor.rows();
    let quotient = parts.quotient.rows();
    let kept = literals_in(quotient)?;
    let by_quotient = product_of(divisor.len() as u128, kept)?;
    let by_divisor = product_of(quotient.len() as u128, literals_in(divisor)?)?;
    let gone = sum_of(by_quotient, by_divisor)?;
    let left = sum_of(kept, quotient.len() as u128)?;
    Ok(gone.saturating_sub(left))
}

/// The number of literals that a table loses by a cover that divides it, if the division tells it:
/// the rows of the table and those of the divisor are distinct, and the table may get one more
/// input.
pub(crate) fn loss_by_division<R: Row>(
    alloc: Global,
    table: &CoverTable<R>,
    cover: &[Cube],
    parts: &Division<R>,
) -> Result<Option<u128>, AllocError>
    requires over { IsOverInputs table.now }
    requires once { all_different table.now.inputs ≡ true }
    requires parts { IsDivision cover.now table.now parts.now }
    requires divided { (output : List ℕ) → is_undivided cover.now (named output table.now)
        ≡ false }
    ensures { IfOk result (λ loss. IfSome loss (λ lost. (name output : List ℕ)
        → has table.now.inputs name ≡ false
        → IsLoss name cover.now (Some (named output table.now)) (Some lost))) }
{
    // by this call the rows are known to have the cover's width
    let rows = table.cover.rows();
    if table.inputs.len() >= MAX_INPUTS
        || !are_distinct(alloc, rows)?
        || !are_distinct(alloc, parts.divisor.rows())?
    {
        return Ok(None);
    }
    let lost = lost_by_division(parts)?;
    Ok(Some(lost))
}
