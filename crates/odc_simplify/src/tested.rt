//! The minimum of a table's rows, given the functions of its output, of its observability, and of
//! its inputs.
//!
//! Source: De Micheli, "Synthesis and Optimization of Digital Circuits", chapter 8 (observability
//! don't-care conditions). A point must be 1 where the output is 1 and observable, 0 where it is 0
//! and observable, and is free otherwise. Callers rely on `minimum_rows` for exactly these
//! don't-cares, and on `Refused` only if one of the functions built is above the limit.

ghost use Rattle.std.specs.Prelude.{◌≡◌, ◌⊎◌, length, map, Err, IfOk};
ghost use Rattle.std.specs.List.{AllByRecursion};
ghost use Rattle.cover_min.specs.Minimum.{minimum_rows};
ghost use Rattle.cover_min.specs.Refusals.{RefusesMinimum};
ghost use Rattle.func_core.specs.Numbers.{IsBig, Stays};
ghost use Rattle.func_core.specs.declared.functions.Func.{Func};
ghost use Rattle.odc_simplify.specs.Seen.{IsOver};
ghost use Rattle.odc_simplify.specs.Held.{IsLiteral, AreLiterals, function_of, inputs_of};
ghost use Rattle.odc_simplify.specs.Held.{held_meaning, held_refusals};
ghost use Rattle.odc_simplify.specs.Turns.{held_by, AreTests};

use crate::oracle::{fault_of, minimise};
use crate::products::{Literal, conjoin, opposite};
use cover_min::OracleFault;
use cube_cover::{Cover, Row};
use func_core::{Func, FuncFault, Functions};
use std::alloc::{AllocError, Global};

// The functions by which a table is tested: where it must be 1, where it must be 0, and its inputs.
#[derive(Drop)]
struct Tested {
    on: Func,
    off: Func,
    literals: Vec<Literal>,
}

// The literals of an input, whose function is given.
fn literal_of<F: Functions>(functions: &mut F, positive: Func) -> Result<Literal, AllocError>
    requires { F.holds functions.old positive.0 }
    ensures stays { Stays F.holds F.tree F.limit functions.old functions.new }
    ensures literal { IfOk result (λ literal.
        IsLiteral (F.holds functions.new) (F.tree functions.new) literal) }
    ensures positive { IfOk result (λ literal. literal.positive ≡ positive) }
{
    match opposite(functions, positive) {
        Ok(negative) => Ok(Literal { positive, negative }),
        Err(_fault) => Err(AllocError),
    }
}

// The literals of inputs, whose functions are given in order.
fn literals_of<F: Functions>(
    alloc: Global,
    functions: &mut F,
    inputs: &[Func],
) -> Result<Vec<Literal>, AllocError>
    requires { AllByRecursion (λ (f : Func). F.holds functions.old f.0) inputs.now }
    ensures stays { Stays F.holds F.tree F.limit functions.old functions.new }
    ensures literals { IfOk result (λ literals.
        AreLiterals (F.holds functions.new) (F.tree functions.new) literals.items) }
    ensures inputs { IfOk result (λ literals. inputs_of (F.tree functions.new) literals.items
        ≡ map (function_of (F.tree functions.old)) inputs.now) }
{
    let mut literals = Vec::with_capacity(alloc, inputs.len())?;
    for input in inputs {
        literals.push(literal_of(functions, *input)?)?;
    }
    Ok(literals)
}

// The functions by which a table is tested; the complement of its own is never too big.
fn tests_of<F: Functions>(
    alloc: Global,
    functions: &mut F,
    leaves: usize,
    own: Func,
    seen: Func,
    inputs: &[Func],
) -> Result<Tested, FuncFault>
    requires own { F.holds functions.old own.0 }
    requires seen { F.holds functions.old seen.0 }
    requires inputs { AllByRecursion (λ (f : Func). F.holds functions.old f.0) inputs.now }
    ensures stays { Stays F.holds F.tree F.limit functions.old functions.new }
    ensures made { IfOk result (AreTests (F.holds functions.new) (F.tree functions.new)
        (held_by (F.tree functions.old) leaves own seen inputs.now)) }
    ensures refused { result ≡ Err FuncFault.TooBig
        → IsBig (F.limit functions.old)
        (held_by (F.tree functions.old) leaves own seen inputs.now).on
        ⊎ IsBig (F.limit functions.old)
        (held_by (F.tree functions.old) leaves own seen inputs.now).off }
{
    let on = conjoin(functions, own, seen)?;
    let below = opposite(functions, own)?;
    let off = conjoin(functions, below, seen)?;
    let literals = literals_of(alloc, functions, inputs)?;
    Ok(Tested { on, off, literals })
}

/// The minimum of a cover by the functions of a table and of its inputs, over some leaves: a point
/// of the inputs is free if the table is not observable wherever the point occurs. `Refused` only
/// if a function that is built is too big.
pub(crate) fn least_cover<R: Row, F: Functions>(
    alloc: Global,
    functions: &mut F,
    cover: Cover<R>,
    leaves: usize,
    own: Func,
    seen: Func,
    inputs: &[Func],
) -> Result<Cover<R>, OracleFault>
    requires width { cover.width ≡ length inputs.now }
    requires own { F.holds functions.old own.0 }
    requires seen { F.holds functions.old seen.0 }
    requires inputs { AllByRecursion (λ (f : Func). F.holds functions.old f.0) inputs.now }
    requires own_looks { IsOver leaves (function_of (F.tree functions.old) own) }
    requires seen_looks { IsOver leaves (function_of (F.tree functions.old) seen) }
    requires inputs_look { AllByRecursion (IsOver leaves)
        (map (function_of (F.tree functions.old)) inputs.now) }
    ensures stays { Stays F.holds F.tree F.limit functions.old functions.new }
    ensures minimum { IfOk result (λ least. least ≡ record cover {
      rows = minimum_rows (held_meaning
          (held_by (F.tree functions.old) leaves own seen inputs.now)) cover.rows;
    }) }
    ensures refused { result ≡ Err OracleFault.Refused
        → IsBig (F.limit functions.old)
        (held_by (F.tree functions.old) leaves own seen inputs.now).on
        ⊎ (IsBig (F.limit functions.old)
        (held_by (F.tree functions.old) leaves own seen inputs.now).off
        ⊎ RefusesMinimum
        (held_meaning (held_by (F.tree functions.old) leaves own seen inputs.now))
        (held_refusals (F.limit functions.old)
        (held_by (F.tree functions.old) leaves own seen inputs.now)) cover.rows) }
{
    match tests_of(alloc, functions, leaves, own, seen, inputs) {
        Err(fault) => Err(fault_of(fault)),
        Ok(tests) => {
            let Tested { on, off, literals } = tests;
            minimise(
                alloc,
                functions,
                cover,
                leaves,
                on,
                off,
                literals.as_slice(),
            )
        }
    }
}
