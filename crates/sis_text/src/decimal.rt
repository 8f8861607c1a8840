//! Decimal numbers of library files, kept exactly in millionths.
//!
//! Source: the genlib format of SIS (UCB/ERL M92/41). `Decimal::parse` accepts exactly the numbers
//! of `specs/Decimals.antt`: at most nine digits before the point and six after it, so each is
//! below 10^15 millionths. `Decimal::print` writes six digits after the point. A number below 10^15
//! millionths is read back from its text unchanged.

ghost use Rattle.std.specs.Prelude.{◌≡◌, option_map, ◌^◌, ◌<◌, ◌≤◌, ◌++◌, true, Some, length, IfOk, IfSome, ◌+◌, ◌-◌, ◌*◌, ◌/◌, ◌%◌, ◌==◌, not};
ghost use Rattle.std.specs.List.{list_all, take_while};
ghost use Rattle.sis_text.specs.declared.decimal.Decimal.{Decimal};
ghost use Rattle.sis_text.specs.Decimals.{is_digit, number_of, whole_part, fraction_part, are_parts, millionths_of, decimal_of, decimal_text, six_digits};

use std::alloc::{AllocError, Global};

/// A number in millionths.
#[derive(Clone, Copy, PartialEq, Eq, Debug)]
pub struct Decimal(pub u128);

/// Whether a byte is a decimal digit.
fn is_digit(byte: u8) -> bool
    ensures { result ≡ is_digit byte }
{
    b'0' <= byte && byte <= b'9'
}

/// Whether all bytes are decimal digits.
pub fn are_digits(bytes: &[u8]) -> bool
    ensures { result ≡ list_all is_digit bytes.now }
{
    bytes.iter().all(|byte| is_digit(*byte))
}

/// The number that digits denote.
#[tactic(auto, using(crate::proofs::DecimalSteps::small))]
pub fn number_of(digits: &[u8]) -> u128
    requires few { length digits.now ≤ 9 }
    requires digits { list_all is_digit digits.now ≡ true }
    ensures value { result ≡ number_of digits.now }
    ensures bound { result < 10 ^ length digits.now }
{
    let mut number = 0;
    for digit in digits {
        number = number * 10 + (*digit - b'0') as u128;
    }
    number
}

/// The number of bytes before the first point.
fn whole_len(word: &[u8]) -> usize
    ensures value { result ≡ length (take_while (λ byte. not (byte == 46)) word.now) }
    ensures within { result ≤ length word.now }
{
    word.iter().take_while(|byte| **byte != b'.').count()
}

/// The millionths of a fraction, given as a number and the count of its digits after the point.
#[tactic(auto, using(crate::proofs::DecimalSteps::scaled_fits))]
fn scaled(number: u128, len: usize) -> u128
    requires few { len ≤ 6 }
    requires digits { number < 10 ^ len }
    ensures value { result ≡ number * 10 ^ (6 - len) }
    ensures bound { result < 1000000 }
{
    number * 10_u128.pow((6 - len) as u32)
}

/// The bytes before the first point.
#[tactic(auto, unfolding(crate::specs::Decimals::whole_part), using(crate::proofs::Steps::front_taken, std::proofs::lemmas::Grind::common_steps))]
fn whole_part(word: &[u8]) -> &[u8]
    ensures { result.now ≡ whole_part word.now }
{
    &word[..whole_len(word)]
}

/// The bytes after the first point.
#[tactic(auto, unfolding(crate::specs::Decimals::whole_part, crate::specs::Decimals::fraction_part), using(std::proofs::lemmas::List::drop_min, std::proofs::lemmas::Grind::common_steps))]
fn fraction_part(word: &[u8]) -> &[u8]
    ensures { result.now ≡ fraction_part word.now }
{
    let start = whole_len(word).saturating_add(1).min(word.len());
    &word[start..]
}

/// Whether both parts are digits, neither too many nor none in all.
#[tactic(auto, unfolding(crate::specs::Decimals::are_parts))]
fn are_parts(whole: &[u8], fraction: &[u8]) -> bool
    ensures value { result ≡ are_parts whole.now fraction.now }
    ensures whole_digits { result ≡ true → list_all is_digit whole.now ≡ true }
    ensures fraction_digits { result ≡ true → list_all is_digit fraction.now ≡ true }
    ensures whole_len { result ≡ true → length whole.now ≤ 9 }
    ensures fraction_len { result ≡ true → length fraction.now ≤ 6 }
{
    if whole.len() > 9 || fraction.len() > 6 {
        return false;
    }
    are_digits(whole) && are_digits(fraction) && whole.len() + fraction.len() > 0
}

/// The millionths that both parts denote.
#[tactic(auto, unfolding(crate::specs::Decimals::millionths_of))]
fn millionths_of(whole: &[u8], fraction: &[u8]) -> u128
    requires whole_digits { list_all is_digit whole.now ≡ true }
    requires fraction_digits { list_all is_digit fraction.now ≡ true }
    requires whole_len { length whole.now ≤ 9 }
    requires fraction_len { length fraction.now ≤ 6 }
    ensures value { result ≡ millionths_of whole.now fraction.now }
    ensures bound { result < 10 ^ 15 }
{
    number_of(whole) * 1_000_000 + scaled(number_of(fraction), fraction.len())
}

/// A digit of a number, by its weight.
fn digit(number: u128, weight: u128) -> u8
    requires { 0 < weight }
    ensures { result ≡ 48 + number / weight % 10 }
{
    b'0' + (number / weight % 10) as u8
}

/// The six digits of a number below a million.
#[tactic(auto, unfolding(crate::specs::Decimals::six_digits))]
fn six_digits(number: u128) -> [u8; 6]
    ensures { result ≡ six_digits number }
{
    [
        digit(number, 100_000),
        digit(number, 10_000),
        digit(number, 1_000),
        digit(number, 100),
        digit(number, 10),
        digit(number, 1),
    ]
}

/// A number of millionths as text.
#[tactic(auto, unfolding(crate::specs::Decimals::decimal_text))]
fn decimal_text(alloc: Global, millionths: u128) -> Result<Vec<u8>, AllocError>
    ensures { IfOk result (λ text. text.items ≡ decimal_text millionths) }
{
    let whole = millionths / 1_000_000;
    let shown = format!(in alloc; "{whole}")?;
    let mut text = Vec::new(alloc);
    text.extend_from_slice(shown.as_bytes())?;
    text.push(b'.')?;
    text.extend_from_slice(six_digits(millionths % 1_000_000).as_slice())?;
    Ok(text)
}

impl Decimal {
    /// The number that a word denotes: at most nine digits, then a point and at most six digits, or
    /// no point; at least one digit in all. None for any other word. Takes no memory.
    #[tactic(auto, unfolding(crate::specs::Decimals::decimal_of))]
    pub fn parse(word: &[u8]) -> Option<Decimal>
        ensures value { option_map (λ (decimal : Decimal). decimal.0) result
            ≡ decimal_of word.now }
        ensures bound { IfSome result (λ (decimal : Decimal). decimal.0 < 10 ^ 15) }
    {
        let whole = whole_part(word);
        let fraction = fraction_part(word);
        if !are_parts(whole, fraction) {
            return None;
        }
        Some(Decimal(millionths_of(whole, fraction)))
    }

    /// The number as text, with six digits after the point. Below 10^15 millionths the text is read
    /// back as the same number.
    pub fn print(&self, alloc: Global) -> Result<Vec<u8>, AllocError>
        ensures value { IfOk result (λ text. text.items ≡ decimal_text self.now.0) }
        ensures read_back { IfOk result (λ text. self.now.0 < 10 ^ 15 → decimal_of text.items
            ≡ Some self.now.0) }
    {
        decimal_text(alloc, self.0)
    }
}
