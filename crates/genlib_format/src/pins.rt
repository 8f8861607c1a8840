//! The PIN lines of a gate: `PIN name phase load maxload rise-block rise-fanout fall-block
//! fall-fanout` in the genlib format of SIS (UCB/ERL M92/41). Lines are read as long as the next
//! word is `PIN`; `number_fault` judges the six numbers later.

ghost use Rattle.std.specs.Prelude.{◌≡◌, ◌≤◌, length, option_map, IfSome, IfOk};
ghost use Rattle.genlib_format.specs.Pins.{is_phase, is_number, are_numbers};
ghost use Rattle.genlib_format.specs.Pins.{begins_pin, pin_at, pins_at};

use crate::rest::Rest;
use crate::words::Lined;
use sis_base::{Copied, Name, Sequence};
use sis_text::Decimal;
use std::alloc::{AllocError, Global};

/// A pin as its line is written: its name, the words of its delays, and whether all six words after
/// its phase are numbers.
#[derive(Debug, Drop)]
pub struct PinLine {
    pub name: Name,
    pub rise: Name,
    pub fall: Name,
    pub is_numeric: bool,
}

/// Lines of pins, in order.
pub type PinLines = Sequence<PinLine>;

/// Whether a word is a phase.
#[tactic(auto, unfolding(crate::specs::Pins::is_phase))]
fn is_phase(word: &Name) -> bool
    ensures { result ≡ is_phase word.now }
{
    word.as_slice() == b"INV".as_slice()
        || word.as_slice() == b"NONINV".as_slice()
        || word.as_slice() == b"UNKNOWN".as_slice()
}

/// Whether a word is a number.
pub fn is_number(word: &Name) -> bool
    ensures { result ≡ is_number word.now }
{
    Decimal::parse(word.as_slice()).is_some()
}

/// Whether all words are numbers.
fn are_numbers(words: &[Lined]) -> bool
    ensures { result ≡ are_numbers words.now }
{
    words.iter().all(|lined| is_number(&lined.word))
}

/// Whether the next word is `PIN`.
#[tactic(auto, unfolding(crate::specs::Pins::begins_pin))]
fn begins_pin(words: &[Lined]) -> bool
    ensures { result ≡ begins_pin words.now }
{
    match words {
        [] => false,
        [lined, ..] => lined.word.as_slice() == b"PIN".as_slice(),
    }
}

/// The pin of the line at the front; none if words are missing or the phase is not one.
#[tactic(auto, using(crate::proofs::PinSteps::pin_read, crate::proofs::PinSteps::no_phase, crate::proofs::PinSteps::pin_short, std::proofs::lemmas::Grind::common_steps))]
fn pin_at(alloc: Global, words: &[Lined]) -> Result<Option<PinLine>, AllocError>
    ensures value { IfOk result (λ pin. pin ≡ pin_at words.now) }
    ensures within { IfOk result (λ pin. IfSome pin (λ _. 9 ≤ length words.now)) }
{
    if words.len() < 9 || !is_phase(&words[2].word) {
        return Ok(None);
    }
    Ok(Some(PinLine {
        name: words[1].word.copy(alloc)?,
        rise: words[5].word.copy(alloc)?,
        fall: words[7].word.copy(alloc)?,
        is_numeric: are_numbers(&words[3..9]),
    }))
}

/// Reads the lines of pins at the front; none if one of them is not a pin's.
#[tactic(auto, using(crate::proofs::PinSteps::pins_first, crate::proofs::PinSteps::pins_step, crate::proofs::PinSteps::pins_cut, crate::proofs::PinSteps::pins_done, std::proofs::lemmas::Grind::common_steps))]
pub fn pin_lines(rest: &mut Rest, alloc: Global) -> Result<Option<PinLines>, AllocError>
    ensures { IfOk result (λ found. pins_at rest.old
        ≡ option_map (λ pins. record { made = pins; rest = rest.new }) found) }
{
    let mut pins = Sequence::new(alloc);
    while begins_pin(rest.ahead()) {
        match pin_at(alloc, rest.ahead())? {
            Some(pin) => pins.push(pin)?,
            None => return Ok(None),
        }
        rest.skip(9);
    }
    Ok(Some(pins))
}
