//! The names that the words of a `.subckt` line mention.
//!
//! Source: BLIF appendix of the SIS report (UCB/ERL M92/41): the name of a model, then words
//! `formal=actual`. `long_subckt_name` returns the length of the first of these names that is too
//! long; a word that is no pair mentions none (`subckt_names` of `specs/Lines.antt`).

ghost use Rattle.std.specs.Prelude.{◌≡◌, ◌∷◌, [], flat_map, find, is_some, option_copied};
ghost use Rattle.line_words.specs.LineWords.{texts, long_name};
ghost use Rattle.blif_lines.specs.Lines.{pair_names, subckt_names};

use blif_gates::{is_pair, pin_in, signal_in};
use line_words::{first_word, long_name, other_words};

/// The length of the first name of a pair that is longer than a name may be.
fn long_in_pair(word: &[u8]) -> Option<usize>
    ensures { result ≡ long_name (pair_names word.now) }
{
    if !is_pair(word) {
        return None;
    }
    long_name([pin_in(word), signal_in(word)].as_slice())
}

/// Whether a pair has a name that is longer than a name may be.
fn is_long_pair(word: &[u8]) -> bool
    ensures { result ≡ is_some (long_name (pair_names word.now)) }
{
    long_in_pair(word).is_some()
}

/// The first pair with a name that is longer than a name may be.
fn first_long_pair<'a, 'w>(words: &'w [&'a [u8]]) -> Option<&'w &'a [u8]>
    ensures { option_copied result
        ≡ find (λ word. is_some (long_name (pair_names word.now))) words.now }
{
    words.iter().find(|word| is_long_pair(word))
}

/// The length of the first name of pairs that is longer than a name may be.
fn long_pair_name(words: &[&[u8]]) -> Option<usize>
    ensures { result ≡ long_name (flat_map pair_names (texts words.now)) }
{
    match first_long_pair(words) {
        None => None,
        Some(word) => long_in_pair(word),
    }
}

/// The length of a word that is longer than a name may be.
fn long_word(word: &[u8]) -> Option<usize>
    ensures { result ≡ long_name (word.now ∷ []) }
{
    long_name([word].as_slice())
}

/// The length of the first name that the words of a line mention and that is longer than a name may
/// be.
pub fn long_subckt_name(words: &[&[u8]]) -> Option<usize>
    ensures { result ≡ long_name (subckt_names (texts words.now)) }
{
    match long_word(first_word(words)) {
        None => long_pair_name(other_words(words)),
        Some(len) => Some(len),
    }
}
