//! The codes of states: binary codes of the least length, the lowest bit first, or one-hot codes
//! with one bit for each state (De Micheli, "Synthesis and Optimization of Digital Circuits",
//! chapter 9; `specs/Codes.antt`).

ghost use Rattle.std.specs.Prelude.{◌≡◌, ◌≤◌, IfOk};
ghost use Rattle.state_code.specs.Codes.{least_bits, code_width, code_bit, code_of, codes_from};

use sis_base::{Copied, Name, Sequence};
use std::alloc::{AllocError, Global};

/// How states are coded: by their numbers, in the least number of bits, or by one bit for each.
#[derive(Clone, Copy, Debug, PartialEq, Eq)]
pub enum Style {
    Natural,
    OneHot,
}

/// The name of a state, and its bits in the order of the latches.
#[derive(Drop)]
pub struct Code {
    pub state: Name,
    pub bits: Sequence<bool>,
}

/// Codes, in the order of the states.
pub type Codes = Sequence<Code>;

/// The least number of bits that give so many different codes.
fn least_bits(count: usize) -> usize
    ensures { result ≡ least_bits count }
{
    for bits in 0..64 {
        if count as u128 <= 1 << bits {
            return bits;
        }
    }
    64
}

/// How many bits the codes of `states` states have.
pub(crate) fn code_width(style: Style, states: usize) -> usize
    ensures value { result ≡ code_width style states }
    ensures bound { result ≤ states }
{
    match style {
        Style::Natural => least_bits(states),
        Style::OneHot => states,
    }
}

/// A bit of the code of a state.
pub(crate) fn code_bit(style: Style, state: usize, bit: usize) -> bool
    ensures { result ≡ code_bit style state bit }
{
    match style {
        Style::Natural => bit < 64 && (state >> bit) % 2 == 1,
        Style::OneHot => state == bit,
    }
}

/// The code of a state.
fn code_of(
    alloc: Global,
    style: Style,
    width: usize,
    state: usize,
) -> Result<Sequence<bool>, AllocError>
    ensures { IfOk result (λ bits. bits ≡ code_of style width state) }
{
    let mut bits = Vec::with_capacity(alloc, width)?;
    for bit in 0..width {
        bits.push(code_bit(style, state, bit))?;
    }
    Ok(Sequence::from_vec(bits))
}

/// The codes of states, in order.
pub(crate) fn codes_of(
    alloc: Global,
    style: Style,
    width: usize,
    states: &[Name],
) -> Result<Codes, AllocError>
    ensures { IfOk result (λ codes. codes ≡ codes_from style width 0 states.now) }
{
    let mut codes = Vec::with_capacity(alloc, states.len())?;
    for (number, state) in states.iter().enumerate() {
        codes.push(Code {
            state: state.copy(alloc)?,
            bits: code_of(alloc, style, width, number)?,
        })?;
    }
    Ok(Sequence::from_vec(codes))
}
