//! Cases of functions by number, as plain trees and in one shared table of nodes.
//!
//! A case gives the kind of functions and a limit on their size, then an operation on some
//! variables, or a network and the name of one of its tables. The answer has the size of the
//! function and a point where it is true, or the sizes of the network's functions. The functions
//! are generic in `Functions`, so both kinds are called in the same way.

ghost use Rattle.std.specs.Prelude.{◌≡◌, ℕ, ◌≤◌, true, List, IfOk};
ghost use Rattle.std.specs.List.{AllByRecursion};
ghost use Rattle.circuit_model.specs.Names.{has};
ghost use Rattle.circuit_model.specs.Soundness.{outputs_of};
ghost use Rattle.func_core.specs.declared.functions.Func.{Func};

use crate::networks::has_table;
use crate::puts::put_value;
use crate::reads::network;
use circuit_model::Name;
use cube_cover::PlainRow;
use func_core::{Func, FuncFault, Functions, PlainFunctions};
use func_shared::SharedFunctions;
use line_words::name_of;
use net_core::Network;
use net_func::{NetFuncFault, Signals, care, forced, signal_functions};
use std::alloc::Global;
use trial_cases::{Case, CaseFault, number_of};

/// The limit of a case, which is at least 1.
pub fn limit_of(case: &Case<'_>) -> Result<usize, CaseFault>
    ensures { IfOk result (λ limit. 1 ≤ limit) }
{
    let limit = number_of(case.word(2))?;
    if limit == 0 {
        return Err(CaseFault::Bad);
    }
    Ok(limit)
}

/// Appends the answer to a case of functions: the kind of functions, a limit, an operation, the
/// number of the first variable, the distance of two, and how many there are.
pub fn answer(alloc: Global, out: &mut Vec<u8>, case: &Case<'_>) -> Result<(), CaseFault> {
    let limit = limit_of(case)?;
    match case.word(1) {
        "plain" => put_combined(alloc, out, &mut PlainFunctions::new(alloc, limit), case),
        "shared" => put_combined(alloc, out, &mut SharedFunctions::new(alloc, limit), case),
        _ => Err(CaseFault::Bad),
    }
}

/// The operation of a name on two functions; the constant 1 for any other name.
fn operation<F: Functions>(
    functions: &mut F,
    name: &str,
    f: Func,
    g: Func,
) -> Result<Func, FuncFault>
    requires f { F.holds functions.old f.0 }
    requires g { F.holds functions.old g.0 }
    ensures stands { IfOk result (λ h. F.holds functions.new h.0) }
{
    match name {
        "not" => functions.not(f),
        "and" => functions.and(f, g),
        "or" => functions.or(f, g),
        "xor" => functions.xor(f, g),
        _ => functions.constant(true),
    }
}

/// The operation of a name on so many variables, one after the other.
fn combined<F: Functions>(
    functions: &mut F,
    name: &str,
    first: usize,
    distance: usize,
    count: usize,
) -> Result<Func, FuncFault>
    ensures stands { IfOk result (λ h. F.holds functions.new h.0) }
{
    let mut made = functions.var(first)?;
    let mut place = first;
    for _ in 1..count {
        place = place.saturating_add(distance);
        let next = functions.var(place)?;
        made = operation(functions, name, made, next)?;
    }
    Ok(made)
}

/// Appends the size of the function of a case, and, unless the case asks for the size alone, a
/// point where the function is true.
fn put_combined<F: Functions>(
    alloc: Global,
    out: &mut Vec<u8>,
    functions: &mut F,
    case: &Case<'_>,
) -> Result<(), CaseFault> {
    let first = number_of(case.word(4))?;
    let distance = number_of(case.word(5))?;
    let count = number_of(case.word(6))?;
    match combined(functions, case.word(3), first, distance, count) {
        Err(fault) => put_value(alloc, out, &fault),
        Ok(f) => {
            put_value(alloc, out, &functions.size(f)?)?;
            if case.word(7) == "size" {
                return Ok(());
            }
            put_value(alloc, out, &functions.one_point(f)?)
        }
    }
}

/// Appends the answer to a case of a network: the kind of functions, a limit, the name of a table.
pub fn put_signals(
    alloc: Global,
    out: &mut Vec<u8>,
    case: &Case<'_>,
    text: &[u8],
) -> Result<(), CaseFault> {
    let limit = limit_of(case)?;
    let network = &network(alloc, text)?;
    match case.word(1) {
        "plain" => put_told(
            alloc,
            out,
            &mut PlainFunctions::new(alloc, limit),
            network,
            case,
        ),
        "shared" => put_told(
            alloc,
            out,
            &mut SharedFunctions::new(alloc, limit),
            network,
            case,
        ),
        _ => Err(CaseFault::Bad),
    }
}

/// Appends the sizes of functions of a network, and those with the table of a name set to 1, if
/// there is such a table.
fn put_told<F: Functions>(
    alloc: Global,
    out: &mut Vec<u8>,
    functions: &mut F,
    network: &Network<PlainRow>,
    case: &Case<'_>,
) -> Result<(), CaseFault> {
    let made = signal_functions(alloc, network, functions);
    put_last(alloc, out, functions, made)?;
    let name = name_of(alloc, case.word(3).as_bytes())?;
    if has_table(network, &name) {
        return put_fixed(alloc, out, functions, network, &name);
    }
    Ok(())
}

/// Appends the size of the last signal's function with the table of a name set to 1, and that of
/// the condition under which its signal is observable from outside.
fn put_fixed<F: Functions>(
    alloc: Global,
    out: &mut Vec<u8>,
    functions: &mut F,
    network: &Network<PlainRow>,
    name: &Name,
) -> Result<(), CaseFault>
    requires { has (outputs_of network.now.tables) name.now ≡ true }
{
    let made = forced(alloc, network, name, true, functions);
    put_last(alloc, out, functions, made)?;
    match care(alloc, network, name, functions) {
        Err(fault) => put_value(alloc, out, &fault),
        Ok(f) => put_value(alloc, out, &functions.size(f)?),
    }
}

/// Appends how many signals have a function, and the size of the last one.
fn put_last<F: Functions>(
    alloc: Global,
    out: &mut Vec<u8>,
    functions: &F,
    made: Result<Signals, NetFuncFault>,
) -> Result<(), CaseFault>
    requires { IfOk made (λ signals. AllByRecursion
        (λ (pair : List ℕ × Func). F.holds functions.now pair.1.0) signals.own) }
{
    match made {
        Err(fault) => put_value(alloc, out, &fault),
        Ok(signals) => match signals.own.as_slice().last() {
            None => put_value(alloc, out, &0),
            Some((_name, f)) => {
                put_value(alloc, out, &signals.own.len())?;
                put_value(alloc, out, &functions.size(*f)?)
            }
        },
    }
}
