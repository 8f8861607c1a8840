//! The kinds of words that a command may require, and the value of a word of each kind.
//!
//! After the command language of the SIS manual (UCB/ERL M92/41). `value_of` returns exactly the
//! value that `specs/Kinds.antt` defines, or none if the word is of another kind. A `File` is UTF-8
//! text that does not begin with `-`; numbers are decimal digits within their bounds, and an
//! integer fits 32 bits.

ghost use Rattle.std.specs.Prelude.{◌≡◌, ◌+◌, ◌-◌, ◌*◌, ◌^◌, ◌<◌, ◌≤◌, min, IfOk, IfSome, Some, None, if◌then◌else◌, true, length};
ghost use Rattle.sis_text.specs.Decimals.{number_of};
ghost use Rattle.sis_text.specs.Words.{begins_with};
ghost use Rattle.sis_script.specs.Kinds.{are_digits, integer_of, is_file_word, number_within, style_of, value_of};

use crate::command::{RawWord, Style};
use sis_text::{Word, are_digits as all_digits};
use std::alloc::{AllocError, Global};

/// What a word may be.
#[derive(Clone, Copy)]
pub(crate) enum Kind {
    /// Text that does not begin with `-`.
    File,
    /// Any word.
    Name,
    /// Decimal digits of a number from the first bound to the second.
    Number(u64, u64),
    /// Decimal digits, or a `-` and decimal digits, of an integer of 32 bits.
    Integer,
    /// The word `nocomp`: no complement is computed.
    NoComplement,
    /// The word `natural` or `onehot`, a style of state codes.
    Style,
}

/// What a word gives, by its kind.
#[derive(Drop)]
pub(crate) enum Value {
    File(Word),
    Name(RawWord),
    Number(u64),
    Integer(i32),
    NoComplement,
    Style(Style),
}

/// Whether the first byte is `-`.
pub(crate) fn begins_with_dash(word: &[u8]) -> bool
    ensures { result ≡ begins_with 45 word.now }
{
    match word {
        [] => false,
        [first, ..] => *first == 45,
    }
}

/// The word that names a file, if these bytes are one.
fn file_word(alloc: Global, bytes: &[u8]) -> Result<Option<Word>, AllocError>
    ensures { IfOk result (λ word. word ≡
        (if is_file_word bytes.now then Some bytes.now else None)) }
{
    if begins_with_dash(bytes) {
        return Ok(None);
    }
    match str::from_utf8(bytes) {
        Ok(text) => Ok(Some(Word::new(alloc, text)?)),
        Err(_) => Ok(None),
    }
}

/// A word of a script as it was read.
pub(crate) fn raw_word(alloc: Global, bytes: &[u8]) -> Result<RawWord, AllocError>
    ensures { IfOk result (λ word. word ≡ bytes.now) }
{
    RawWord::from_slice(alloc, bytes)
}

/// The number that digits write, or the greatest of 128 bits where it is above that.
fn capped_number(digits: &[u8]) -> u128
    ensures { result ≡ min (number_of digits.now) (2 ^ 128 - 1) }
{
    let mut number: u128 = 0;
    for digit in digits {
        number = number
            .saturating_mul(10)
            .saturating_add(digit.saturating_sub(b'0') as u128);
    }
    number
}

/// Whether there are decimal digits and nothing else.
fn are_digits(word: &[u8]) -> bool
    ensures { result ≡ are_digits word.now }
{
    !word.is_empty() && all_digits(word)
}

/// The number that digits denote, if it is within these bounds.
#[tactic(auto, using(crate::proofs::Numbers::found_within), unfolding(crate::specs::Kinds::number_within))]
fn number_within(least: u64, most: u64, word: &[u8]) -> Option<u64>
    ensures value { result ≡ number_within least most word.now }
    ensures bound { IfSome result (λ number. number ≤ most) }
{
    if !are_digits(word) {
        return None;
    }
    let number = capped_number(word);
    if least as u128 <= number && number <= most as u128 {
        Some(number as u64)
    } else {
        None
    }
}

/// The integer of 32 bits that digits denote, or digits after a `-`.
#[tactic(auto, unfolding(crate::specs::Kinds::integer_of))]
fn integer_of(word: &[u8]) -> Option<i32>
    ensures { result ≡ integer_of word.now }
{
    if begins_with_dash(word) {
        let number = number_within(0, 1 << 31, &word[1..])?;
        Some((-(number as i64)) as i32)
    } else {
        let number = number_within(0, (1 << 31) - 1, word)?;
        Some(number as i32)
    }
}

/// The style of state codes that a word names, if any.
fn style_of(word: &[u8]) -> Option<Style>
    ensures { result ≡ style_of word.now }
{
    if word == b"natural".as_slice() {
        Some(Style::Natural)
    } else if word == b"onehot".as_slice() {
        Some(Style::OneHot)
    } else {
        None
    }
}

/// The value of a word if a word of this kind is required.
#[tactic(auto, unfolding(crate::specs::Kinds::value_of))]
pub(crate) fn value_of(alloc: Global, kind: Kind, word: &[u8]) -> Result<Option<Value>, AllocError>
    ensures { IfOk result (λ value. value ≡ value_of kind word.now) }
{
    match kind {
        Kind::File => match file_word(alloc, word)? {
            Some(file) => Ok(Some(Value::File(file))),
            None => Ok(None),
        },
        Kind::Name => Ok(Some(Value::Name(raw_word(alloc, word)?))),
        Kind::Number(least, most) => match number_within(least, most, word) {
            Some(number) => Ok(Some(Value::Number(number))),
            None => Ok(None),
        },
        Kind::Integer => match integer_of(word) {
            Some(number) => Ok(Some(Value::Integer(number))),
            None => Ok(None),
        },
        Kind::NoComplement => {
            if word == b"nocomp".as_slice() {
                Ok(Some(Value::NoComplement))
            } else {
                Ok(None)
            }
        }
        Kind::Style => match style_of(word) {
            Some(style) => Ok(Some(Value::Style(style))),
            None => Ok(None),
        },
    }
}
