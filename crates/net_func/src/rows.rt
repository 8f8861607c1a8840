//! The function of a table over functions of its inputs: a sum of products, or its complement.
//!
//! Each row is multiplied literal by literal in the order of columns, and the products are added
//! row by row; in phase 0 the sum is complemented. `TooBig` is returned only if one of these
//! partial products or sums is above the limit (`HasBigPart`). Callers rely on the exact function,
//! and on earlier numbers to stay.

ghost use Rattle.std.specs.Prelude.{◌≡◌, ℕ, ◌<◌, true, false, ◌&&◌, Err, [], length, take, slice_index_or, IfOk};
ghost use Rattle.sis_base.specs.Rows.{agrees, matches, HasWidth};
ghost use Rattle.func_core.specs.Numbers.{Means, IsBig, Stays};
ghost use Rattle.net_func.specs.Locals.{local_value, HasBigPart};
ghost use Rattle.net_func.specs.Numbered.{computed, bits_of, AllStand};

use crate::local::Local;
use func_core::{Func, FuncFault, Functions};

/// The product of a function and a literal of another one; the function itself for a dash.
fn and_literal<F: Functions>(
    functions: &mut F,
    product: Func,
    literal: Option<bool>,
    input: Func,
) -> Result<Func, FuncFault>
    requires product { F.holds functions.old product.0 }
    requires input { F.holds functions.old input.0 }
    ensures ok { IfOk result (λ made. Means F.holds F.tree F.limit functions.new made.0
        (λ point. computed F.tree functions.old product point && agrees literal (computed F.tree
        functions.old input point))) }
    ensures big { result ≡ Err FuncFault.TooBig → IsBig (F.limit functions.old)
        (λ point. computed F.tree functions.old product point && agrees literal (computed F.tree
        functions.old input point)) }
    ensures stays { Stays F.holds F.tree F.limit functions.old functions.new }
{
    match literal {
        None => Ok(product),
        Some(true) => functions.and(product, input),
        Some(false) => {
            let opposite = functions.not(input)?;
            functions.and(product, opposite)
        }
    }
}

/// The product of the literals of a row over the functions of the inputs.
fn row_product<T: Local, F: Functions>(
    functions: &mut F,
    table: &T,
    row: usize,
    inputs: &[Func],
) -> Result<Func, FuncFault>
    requires stand { AllStand F.holds functions.old inputs.now }
    requires row { row < length (T.local table.now).rows }
    requires width { length (slice_index_or (T.local table.now).rows row []) ≡ length inputs.now }
    ensures ok { IfOk result (λ made. Means F.holds F.tree F.limit functions.new made.0
        (λ point. matches (slice_index_or (T.local table.now).rows row []) (bits_of F.tree
        functions.old inputs.now point))) }
    ensures big { result ≡ Err FuncFault.TooBig → (count : ℕ) × IsBig (F.limit functions.old)
        (λ point. matches (take count (slice_index_or (T.local table.now).rows row [])) (bits_of
        F.tree functions.old inputs.now point)) }
    ensures stays { Stays F.holds F.tree F.limit functions.old functions.new }
{
    let mut product = functions.constant(true)?;
    for (place, input) in inputs.iter().enumerate() {
        product = and_literal(functions, product, table.literal(row, place), *input)?;
    }
    Ok(product)
}

/// The function of a table over the functions of its inputs.
pub fn table_function<T: Local, F: Functions>(
    functions: &mut F,
    table: &T,
    inputs: &[Func],
) -> Result<Func, FuncFault>
    requires stand { AllStand F.holds functions.old inputs.now }
    requires width { HasWidth (length inputs.now) (T.local table.now).rows }
    ensures ok { IfOk result (λ made. Means F.holds F.tree F.limit functions.new made.0
        (λ point. local_value (T.local table.now)
        (bits_of F.tree functions.old inputs.now point))) }
    ensures big { result ≡ Err FuncFault.TooBig
        → HasBigPart (F.limit functions.old) (T.local table.now) (bits_of F.tree functions.old
        inputs.now) }
    ensures stays { Stays F.holds F.tree F.limit functions.old functions.new }
{
    let mut sum = functions.constant(false)?;
    for row in 0..table.row_count() {
        let product = row_product(functions, table, row, inputs)?;
        sum = functions.or(sum, product)?;
    }
    if table.phase() {
        return Ok(sum);
    }
    functions.not(sum)
}
