//! Products with the literals of rows, set differences with rows, and the two tests built on them.
//!
//! Source: De Micheli, "Synthesis and Optimization of Digital Circuits", chapter 7 (rows as
//! products of literals). A product takes the literals of a row in the order of columns; rows are
//! removed from a function one after the other. `meets` and `has_own` ask whether the function that
//! remains is zero. Callers rely on the exact answer, on a refusal only if one of the functions
//! built is above the limit (`specs/Products.antt`), and on no answer then; earlier numbers stay.

ghost use Rattle.std.specs.Prelude.{◌≡◌, ℕ, true, length, map, Err, IfOk, OnOk};
ghost use Rattle.std.specs.List.{AllByRecursion};
ghost use Rattle.sis_base.specs.Rows.{HasWidth};
ghost use Rattle.cover_min.specs.Points.{has_point, has_own_point};
ghost use Rattle.func_core.specs.Trees.{constant, complement, conjunction};
ghost use Rattle.func_core.specs.Numbers.{IsBig, Stays};
ghost use Rattle.odc_simplify.specs.Seen.{IsOver, seen_at};
ghost use Rattle.odc_simplify.specs.Products.{with_literal, product, without, outside};
ghost use Rattle.odc_simplify.specs.Products.{IsBigWith, IsBigAlong, IsBigWithout, IsBigOutside};
ghost use Rattle.odc_simplify.specs.Products.{IsBigBeside};
ghost use Rattle.odc_simplify.specs.Held.{Gives, Makes, IsLiteral, AreLiterals};
ghost use Rattle.odc_simplify.specs.Held.{function_of, inputs_of};

use cube_cover::Row;
use func_core::{Func, FuncFault, Functions};

/// The functions of the two literals of an input.
#[derive(Clone, Copy)]
pub struct Literal {
    pub positive: Func,
    pub negative: Func,
}

// The conjunction of two functions.
pub(crate) fn conjoin<F: Functions>(functions: &mut F, f: Func, g: Func) -> Result<Func, FuncFault>
    requires f { F.holds functions.old f.0 }
    requires g { F.holds functions.old g.0 }
    ensures stays { Stays F.holds F.tree F.limit functions.old functions.new }
    ensures makes { Makes (F.holds functions.new) (F.tree functions.new) result
        (conjunction (function_of (F.tree functions.old) f) (function_of (F.tree functions.old) g))
        (IsBig (F.limit functions.old) (conjunction (function_of (F.tree functions.old) f)
        (function_of (F.tree functions.old) g))) }
{
    let made = functions.and(f, g)?;
    Ok(made)
}

// The constant function 1.
fn everywhere<F: Functions>(functions: &mut F) -> Result<Func, FuncFault>
    ensures stays { Stays F.holds F.tree F.limit functions.old functions.new }
    ensures made { IfOk result (λ made. Gives (F.holds functions.new) (F.tree functions.new) made
        (constant true)) }
    ensures fits { result ≡ Err FuncFault.TooBig → ⊥ }
{
    let made = functions.constant(true)?;
    Ok(made)
}

// The complement of a function.
pub(crate) fn opposite<F: Functions>(functions: &mut F, f: Func) -> Result<Func, FuncFault>
    requires { F.holds functions.old f.0 }
    ensures stays { Stays F.holds F.tree F.limit functions.old functions.new }
    ensures made { IfOk result (λ made. Gives (F.holds functions.new) (F.tree functions.new) made
        (complement (function_of (F.tree functions.old) f))) }
    ensures fits { result ≡ Err FuncFault.TooBig → ⊥ }
{
    let made = functions.not(f)?;
    Ok(made)
}

// The conjunction of a function and the literal of an input, if there is one.
fn add_literal<F: Functions>(
    functions: &mut F,
    from: Func,
    literal: Literal,
    place: Option<bool>,
) -> Result<Func, FuncFault>
    requires from { F.holds functions.old from.0 }
    requires literal { IsLiteral (F.holds functions.old) (F.tree functions.old) literal }
    ensures stays { Stays F.holds F.tree F.limit functions.old functions.new }
    ensures makes { Makes (F.holds functions.new) (F.tree functions.new) result
        (with_literal (function_of (F.tree functions.old) from)
        (function_of (F.tree functions.old) literal.positive) place)
        (IsBigWith (F.limit functions.old) (function_of (F.tree functions.old) from)
        (function_of (F.tree functions.old) literal.positive) place) }
{
    match place {
        None => Ok(from),
        Some(true) => conjoin(functions, from, literal.positive),
        Some(false) => conjoin(functions, from, literal.negative),
    }
}

// The conjunction of a function and the literals of a row.
fn product_of<R: Row, F: Functions>(
    functions: &mut F,
    from: Func,
    literals: &[Literal],
    row: &R,
) -> Result<Func, FuncFault>
    requires from { F.holds functions.old from.0 }
    requires literals { AreLiterals (F.holds functions.old) (F.tree functions.old) literals.now }
    requires width { length (R.literals row.now) ≡ length literals.now }
    ensures stays { Stays F.holds F.tree F.limit functions.old functions.new }
    ensures makes { Makes (F.holds functions.new) (F.tree functions.new) result
        (product (function_of (F.tree functions.old) from)
        (inputs_of (F.tree functions.old) literals.now) (R.literals row.now))
        (IsBigAlong (F.limit functions.old) (function_of (F.tree functions.old) from)
        (inputs_of (F.tree functions.old) literals.now) (R.literals row.now)) }
{
    let mut made = from;
    for (place, literal) in literals.iter().enumerate() {
        made = add_literal(functions, made, *literal, row.at(place))?;
    }
    Ok(made)
}

// A function outside the product of a row.
fn without_row<R: Row, F: Functions>(
    functions: &mut F,
    from: Func,
    literals: &[Literal],
    row: &R,
) -> Result<Func, FuncFault>
    requires from { F.holds functions.old from.0 }
    requires literals { AreLiterals (F.holds functions.old) (F.tree functions.old) literals.now }
    requires width { length (R.literals row.now) ≡ length literals.now }
    ensures stays { Stays F.holds F.tree F.limit functions.old functions.new }
    ensures makes { Makes (F.holds functions.new) (F.tree functions.new) result
        (without (function_of (F.tree functions.old) from)
        (inputs_of (F.tree functions.old) literals.now) (R.literals row.now))
        (IsBigWithout (F.limit functions.old) (function_of (F.tree functions.old) from)
        (inputs_of (F.tree functions.old) literals.now) (R.literals row.now)) }
{
    let all = everywhere(functions)?;
    let product = product_of(functions, all, literals, row)?;
    let outside = opposite(functions, product)?;
    conjoin(functions, from, outside)
}

// A function outside the products of all of some rows.
fn without_rows<R: Row, F: Functions>(
    functions: &mut F,
    from: Func,
    literals: &[Literal],
    rows: &[R],
) -> Result<Func, FuncFault>
    requires from { F.holds functions.old from.0 }
    requires literals { AreLiterals (F.holds functions.old) (F.tree functions.old) literals.now }
    requires widths { HasWidth (length literals.now) (map R.literals rows.now) }
    ensures stays { Stays F.holds F.tree F.limit functions.old functions.new }
    ensures makes { Makes (F.holds functions.new) (F.tree functions.new) result
        (outside (function_of (F.tree functions.old) from)
        (inputs_of (F.tree functions.old) literals.now) (map R.literals rows.now))
        (IsBigOutside (F.limit functions.old) (function_of (F.tree functions.old) from)
        (inputs_of (F.tree functions.old) literals.now) (map R.literals rows.now)) }
{
    let mut left = from;
    for row in rows {
        left = without_row(functions, left, literals, row)?;
    }
    Ok(left)
}

/// Whether a row has a point at which a function of leaves is seen.
pub(crate) fn meets<R: Row, F: Functions>(
    functions: &mut F,
    f: Func,
    literals: &[Literal],
    row: &R,
) -> Result<bool, FuncFault>
    requires f { F.holds functions.old f.0 }
    requires literals { AreLiterals (F.holds functions.old) (F.tree functions.old) literals.now }
    requires width { length (R.literals row.now) ≡ length literals.now }
    ensures stays { Stays F.holds F.tree F.limit functions.old functions.new }
    ensures answer { IfOk result (λ answer. (leaves : ℕ)
        → IsOver leaves (function_of (F.tree functions.old) f)
        → AllByRecursion (IsOver leaves) (inputs_of (F.tree functions.old) literals.now)
        → answer ≡ has_point (seen_at leaves (inputs_of (F.tree functions.old) literals.now)
        (function_of (F.tree functions.old) f)) (R.literals row.now)) }
    ensures passed { OnOk result (IsBigAlong (F.limit functions.old)
        (function_of (F.tree functions.old) f)
        (inputs_of (F.tree functions.old) literals.now) (R.literals row.now) → ⊥) }
    ensures refused { result ≡ Err FuncFault.TooBig → IsBigAlong (F.limit functions.old)
        (function_of (F.tree functions.old) f)
        (inputs_of (F.tree functions.old) literals.now) (R.literals row.now) }
{
    let product = product_of(functions, f, literals, row)?;
    Ok(!functions.is_zero(product))
}

/// Whether a row has a point at which a function of leaves is seen and which no other row covers.
pub(crate) fn has_own<R: Row, F: Functions>(
    functions: &mut F,
    f: Func,
    literals: &[Literal],
    row: &R,
    others: &[R],
) -> Result<bool, FuncFault>
    requires f { F.holds functions.old f.0 }
    requires literals { AreLiterals (F.holds functions.old) (F.tree functions.old) literals.now }
    requires width { length (R.literals row.now) ≡ length literals.now }
    requires widths { HasWidth (length literals.now) (map R.literals others.now) }
    ensures stays { Stays F.holds F.tree F.limit functions.old functions.new }
    ensures answer { IfOk result (λ answer. (leaves : ℕ)
        → IsOver leaves (function_of (F.tree functions.old) f)
        → AllByRecursion (IsOver leaves) (inputs_of (F.tree functions.old) literals.now)
        → answer ≡ has_own_point (seen_at leaves (inputs_of (F.tree functions.old) literals.now)
        (function_of (F.tree functions.old) f)) (R.literals row.now) (map R.literals others.now)) }
    ensures passed { OnOk result (IsBigBeside (F.limit functions.old)
        (function_of (F.tree functions.old) f)
        (inputs_of (F.tree functions.old) literals.now) (R.literals row.now)
        (map R.literals others.now) → ⊥) }
    ensures refused { result ≡ Err FuncFault.TooBig → IsBigBeside (F.limit functions.old)
        (function_of (F.tree functions.old) f)
        (inputs_of (F.tree functions.old) literals.now) (R.literals row.now)
        (map R.literals others.now) }
{
    let product = product_of(functions, f, literals, row)?;
    let own = without_rows(functions, product, literals, others)?;
    Ok(!functions.is_zero(own))
}
