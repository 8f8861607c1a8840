//! The names of signals by their numbers: `i`, `l` or `t` and a number, as `signal` of
//! `specs/Generated.antt` defines. The names of all signals are made once and copied from that
//! list.

ghost use Rattle.std.specs.Prelude.{◌≡◌, ◌+◌, ◌<◌, ◌≤◌, ◌++◌, decimal, codes, length, IfOk};
ghost use Rattle.circuit_gen.specs.Generated.{signal, signals};

use circuit_model::{Name, Names};
use sis_base::{Copied, Sequence};
use std::alloc::{AllocError, Global};

/// The number of inputs.
pub(crate) const INPUTS: usize = 16;

/// The number of inputs and latches.
pub(crate) const LEAVES: usize = 24;

/// The name of a signal.
#[tactic(auto, unfolding(crate::specs::Generated::signal))]
fn signal_name(alloc: Global, number: usize) -> Result<Name, AllocError>
    ensures { IfOk result (λ name. name ≡ signal number) }
{
    let name = if number < INPUTS {
        format!(in alloc; "i{number}")?
    } else if number < LEAVES {
        let latch = number - INPUTS;
        format!(in alloc; "l{latch}")?
    } else {
        let table = number - LEAVES;
        format!(in alloc; "t{table}")?
    };
    Name::from_slice(alloc, name.as_bytes())
}

/// The names of the first `count` signals.
#[tactic(auto, using(crate::proofs::Numbers::signals_more, std::proofs::lemmas::Grind::common_steps))]
pub(crate) fn signal_names(alloc: Global, count: usize) -> Result<Vec<Name>, AllocError>
    ensures { IfOk result (λ names. names.items ≡ signals 0 count) }
{
    let mut names = Vec::with_capacity(alloc, count)?;
    for number in 0..count {
        names.push(signal_name(alloc, number)?)?;
    }
    Ok(names)
}

/// A copy of the name of a signal.
pub(crate) fn name_of(alloc: Global, names: &[Name], number: usize) -> Result<Name, AllocError>
    requires names { names.now ≡ signals 0 (length names.now) }
    requires inside { number < length names.now }
    ensures { IfOk result (λ name. name ≡ signal number) }
{
    names[number].copy(alloc)
}

/// The names of `count` signals from a number on.
pub(crate) fn names_from(
    alloc: Global,
    names: &[Name],
    first: usize,
    count: usize,
) -> Result<Names, AllocError>
    requires names { names.now ≡ signals 0 (length names.now) }
    requires inside { first + count ≤ length names.now }
    ensures { IfOk result (λ made. made ≡ signals first count) }
{
    let mut made = Vec::with_capacity(alloc, count)?;
    for place in 0..count {
        made.push(name_of(alloc, names, first + place)?)?;
    }
    Ok(Sequence::from_vec(made))
}
