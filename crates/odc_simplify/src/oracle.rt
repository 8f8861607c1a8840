//! The minimum of a table's rows, by functions of leaves that are numbers of a borrowed object.
//!
//! Source: R. E. Bryant, "Graph-Based Algorithms for Boolean Function Manipulation", IEEE
//! Transactions on Computers C-35 (1986). A test multiplies a function by the literals of a row,
//! removes other rows from it, and asks whether it is false everywhere. The object keeps its
//! numbers, so it can be asked again. Callers rely on `minimum_rows`, and on `Refused` if a
//! function that a test builds is above the limit, unless memory runs out, and only then.

ghost use Rattle.std.specs.Prelude.{◌≡◌, length, Err, IfOk, OnOk};
ghost use Rattle.cover_min.specs.Minimum.{minimum_rows};
ghost use Rattle.cover_min.specs.Refusals.{RefusesMinimum};
ghost use Rattle.func_core.specs.Numbers.{Stays as NumbersStay};
ghost use Rattle.odc_simplify.specs.Held.{IsReadyBy, held_of, held_meaning, held_refusals};

use crate::products::{Literal, has_own, meets};
use cover_min::{Oracle, OracleFault, prime_irredundant};
use cube_cover::{Cover, Row};
use func_core::{Func, FuncFault, Functions};
use std::alloc::Global;

// Functions of leaves, by numbers of a borrowed object: where a function must be 1, where it must
// be 0, and those of the inputs. The object and the literals are borrowed, so this value owns no
// memory.
#[derive(Drop)]
struct FunctionOracle<'a, 'b, F: Functions> {
    functions: &'a mut F,
    leaves: usize,
    on: Func,
    off: Func,
    literals: &'b [Literal],
}

// A function that is too big is reported as a refusal.
pub(crate) fn fault_of(fault: FuncFault) -> OracleFault
    ensures refused { result ≡ OracleFault.Refused → fault ≡ FuncFault.TooBig }
{
    match fault {
        FuncFault::TooBig => OracleFault::Refused,
        FuncFault::Memory => OracleFault::Memory,
    }
}

impl<R: Row, F: Functions> Oracle<R> for FunctionOracle<'_, '_, F> {
    ghost use Rattle.std.specs.Prelude.{◌≡◌, map};
    ghost use Rattle.std.proofs.Common.{ap};
    ghost use Rattle.odc_simplify.specs.Held.{held_of, held_meaning, held_refusals, IsReadyBy, Keeps};
    ghost use Rattle.odc_simplify.specs.Held.{keeps_itself, keeps_through, refusals_same};

    ghost meaning = { λ it. held_meaning
        (held_of (F.tree it.functions.now) it.leaves it.on it.off it.literals.now) };

    ghost refusals = { λ it. held_refusals (F.limit it.functions.now)
        (held_of (F.tree it.functions.now) it.leaves it.on it.off it.literals.now) };

    ghost IsReady = { λ it. IsReadyBy (F.holds it.functions.now) (F.tree it.functions.now)
        it.leaves it.on it.off it.literals.now };

    ghost Stays = { λ before after. Keeps F.holds F.tree F.limit
        before.functions.ghost_name after.functions.ghost_name
        before.functions.now after.functions.now
        (held_of (F.tree before.functions.now) before.leaves before.on before.off
        before.literals.now)
        (held_of (F.tree after.functions.now) after.leaves after.on after.off after.literals.now)
        (IsReadyBy (F.holds before.functions.now) (F.tree before.functions.now)
        before.leaves before.on before.off before.literals.now)
        (IsReadyBy (F.holds after.functions.now) (F.tree after.functions.now)
        after.leaves after.on after.off after.literals.now) };

    fn meets_off(&mut self, _alloc: Global, row: &R) -> Result<bool, OracleFault> {
        match meets(self.functions, self.off, self.literals, row) {
            Ok(answer) => Ok(answer),
            Err(fault) => Err(fault_of(fault)),
        }
    }

    fn has_own_point(
        &mut self,
        _alloc: Global,
        row: &R,
        others: &Cover<R>,
    ) -> Result<bool, OracleFault> {
        match has_own(self.functions, self.on, self.literals, row, others.rows()) {
            Ok(answer) => Ok(answer),
            Err(fault) => Err(fault_of(fault)),
        }
    }

    ghost reflexive = { λ state. keeps_itself _ _ _ _ _ _ _ };

    ghost transitive = { λ first then last before after.
        keeps_through _ _ _ _ _ _ _ _ _ _ _ _ _ _ _ before after };

    ghost ready_stays = { λ before after stays. stays.ready };

    ghost meaning_stays = { λ before after stays. ap held_meaning stays.same };

    ghost refusals_stay = { λ before after stays.
        refusals_same _ _ _ _ stays.numbers.same stays.same };
}

/// The minimum of a cover whose columns are the inputs of the literals, where a point of the inputs
/// is free if neither of two functions of leaves is seen there. `Refused` only if a function that a
/// test builds is too big, and no minimum then.
pub(crate) fn minimise<R: Row, F: Functions>(
    alloc: Global,
    functions: &mut F,
    cover: Cover<R>,
    leaves: usize,
    on: Func,
    off: Func,
    literals: &[Literal],
) -> Result<Cover<R>, OracleFault>
    requires ready { IsReadyBy (F.holds functions.old)
        (F.tree functions.old) leaves on off literals.now }
    requires width { cover.width ≡ length literals.now }
    ensures stays { NumbersStay F.holds F.tree F.limit functions.old functions.new }
    ensures minimum { IfOk result (λ least. least ≡ record cover {
      rows = minimum_rows
          (held_meaning (held_of (F.tree functions.old) leaves on off literals.now)) cover.rows;
    }) }
    ensures passed { OnOk result (RefusesMinimum
        (held_meaning (held_of (F.tree functions.old) leaves on off literals.now))
        (held_refusals (F.limit functions.old)
        (held_of (F.tree functions.old) leaves on off literals.now)) cover.rows → ⊥) }
    ensures refused { result ≡ Err OracleFault.Refused → RefusesMinimum
        (held_meaning (held_of (F.tree functions.old) leaves on off literals.now))
        (held_refusals (F.limit functions.old)
        (held_of (F.tree functions.old) leaves on off literals.now)) cover.rows }
{
    let mut oracle = FunctionOracle {
        functions,
        leaves,
        on,
        off,
        literals,
    };
    prime_irredundant(alloc, cover, &mut oracle)
}
