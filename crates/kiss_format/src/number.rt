//! The numbers of inputs and outputs: decimal numerals of one to four digits without a leading
//! zero, from 1 to `MAX_PORTS`.

ghost use Rattle.std.specs.Prelude.{◌≡◌, ◌≤◌, true, length};
ghost use Rattle.std.specs.List.{list_all};
ghost use Rattle.sis_text.specs.Words.{begins_with};
ghost use Rattle.sis_text.specs.Decimals.{is_digit};
ghost use Rattle.kiss_format.specs.Statements.{is_numeral, count_of, count_in};
ghost use Rattle.line_words.specs.LineWords.{texts};

use sis_base::limits::MAX_PORTS;
use sis_text::{are_digits, number_of};

/// Whether the first byte is `0`.
fn begins_with_zero(word: &[u8]) -> bool
    ensures { result ≡ begins_with 48 word.now }
{
    match word {
        [b'0', ..] => true,
        _ => false,
    }
}

/// Whether a word is one of one to four digits, the first not `0`.
fn is_numeral(word: &[u8]) -> bool
    ensures value { result ≡ is_numeral word.now }
    ensures digits { result ≡ true → list_all is_digit word.now ≡ true }
    ensures few { result ≡ true → length word.now ≤ 4 }
{
    if !are_digits(word) || word.is_empty() || word.len() > 4 {
        return false;
    }
    !begins_with_zero(word)
}

/// The number from 1 to `MAX_PORTS` that a word denotes, without a leading zero.
#[tactic(auto, unfolding(crate::specs::Statements::count_of))]
fn count_of(word: &[u8]) -> Option<usize>
    ensures { result ≡ count_of word.now }
{
    if !is_numeral(word) {
        return None;
    }
    let number = number_of(word);
    if number > MAX_PORTS as u128 {
        return None;
    }
    Some(number as usize)
}

/// The number from 1 to `MAX_PORTS` of a single word.
pub fn count_in(words: &[&[u8]]) -> Option<usize>
    ensures { result ≡ count_in (texts words.now) }
{
    match words {
        [word] => count_of(word),
        _ => None,
    }
}
