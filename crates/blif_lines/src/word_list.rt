//! The words of one line of a model, as slices of the text that is read.
//!
//! Source: BLIF appendix of the SIS report (UCB/ERL M92/41). `keyword_of` returns the kind of a
//! line by its first word, exactly as `specs/Keyword.antt`; the lines of areas, delays, loads and
//! events are skipped. The other calls return the last word, all words but the last, the first few,
//! a latch's output, or the bytes of all words joined, as a row is written.

ghost use Rattle.std.specs.Prelude.{◌≡◌, true, take, bytes_eq, codes, IfOk, OnOk, OnErr, if◌then◌else◌};
ghost use Rattle.std.specs.List.{list_any};
ghost use Rattle.circuit_model.specs.Names.{has};
ghost use Rattle.sis_text.specs.Words.{begins_with};
ghost use Rattle.line_words.specs.LineWords.{texts};
ghost use Rattle.blif_lines.specs.Keyword.{keyword_of, skipped_words};
ghost use Rattle.blif_lines.specs.Lines.{input_words, last_word, joined};
ghost use Rattle.blif_lines.specs.Reader.{latch_output};
ghost use Rattle.blif_lines.specs.Steps.{with_more};

use crate::keyword::Keyword;
use circuit_model::Names;
use line_words::add_names;
use std::alloc::{AllocError, Global};

/// Whether a word begins with `.`.
fn is_dotted(word: &[u8]) -> bool
    ensures { result ≡ begins_with 46 word.now }
{
    match word {
        [b'.', ..] => true,
        _ => false,
    }
}

/// What a line is, by its first word.
#[tactic(auto, using(crate::proofs::Words::row_word))]
pub fn keyword_of(word: &[u8]) -> Keyword
    ensures { result ≡ keyword_of word.now }
{
    // A row is known by its first byte, before it is compared with any word.
    if !is_dotted(word) {
        return Keyword::Row;
    }
    dotted_keyword(word)
}

/// The kind of a line whose first word begins with `.`.
#[tactic(auto, unfolding(crate::specs::Keyword::keyword_of))]
fn dotted_keyword(word: &[u8]) -> Keyword
    requires { begins_with 46 word.now ≡ true }
    ensures { result ≡ keyword_of word.now }
{
    if word == b".model".as_slice() {
        Keyword::Model
    } else if word == b".inputs".as_slice() {
        Keyword::Inputs
    } else if word == b".outputs".as_slice() {
        Keyword::Outputs
    } else if word == b".clock".as_slice() {
        Keyword::Clock
    } else {
        node_keyword(word)
    }
}

/// The same of a line that is not one of the model, its ports or its clocks.
fn node_keyword(word: &[u8]) -> Keyword
    requires { begins_with 46 word.now ≡ true }
    ensures { result ≡ (if bytes_eq word.now (codes ".names") then Keyword.Names else
        (if bytes_eq word.now (codes ".latch") then Keyword.Latch else
        (if bytes_eq word.now (codes ".gate") then Keyword.Gate else
        (if bytes_eq word.now (codes ".subckt") then Keyword.Subckt else
        (if bytes_eq word.now (codes ".start_kiss") then Keyword.StartKiss else
        (if bytes_eq word.now (codes ".exdc") then Keyword.DontCare else
        (if bytes_eq word.now (codes ".end") then Keyword.End else
        (if has skipped_words word.now then Keyword.Skipped else
        (if begins_with 46 word.now then Keyword.Other else Keyword.Row))))))))) }
{
    if word == b".names".as_slice() {
        Keyword::Names
    } else if word == b".latch".as_slice() {
        Keyword::Latch
    } else if word == b".gate".as_slice() {
        Keyword::Gate
    } else if word == b".subckt".as_slice() {
        Keyword::Subckt
    } else if word == b".start_kiss".as_slice() {
        Keyword::StartKiss
    } else if word == b".exdc".as_slice() {
        Keyword::DontCare
    } else if word == b".end".as_slice() {
        Keyword::End
    } else if is_skipped(word) {
        Keyword::Skipped
    } else {
        Keyword::Other
    }
}

/// Whether a word is among others.
fn is_among(words: &[&[u8]], word: &[u8]) -> bool
    ensures { result ≡ list_any (λ one. bytes_eq word.now one.now) words.now }
{
    words.iter().any(|other| word == *other)
}

/// Whether a line with this first word is skipped.
fn is_skipped(word: &[u8]) -> bool
    ensures { result ≡ has skipped_words word.now }
{
    let skipped = [
        b".latch_order".as_slice(),
        b".code".as_slice(),
        b".area".as_slice(),
        b".delay".as_slice(),
        b".wire_load_slope".as_slice(),
        b".wire".as_slice(),
        b".input_arrival".as_slice(),
        b".default_input_arrival".as_slice(),
        b".output_required".as_slice(),
        b".default_output_required".as_slice(),
        b".input_drive".as_slice(),
        b".default_input_drive".as_slice(),
        b".output_load".as_slice(),
        b".default_output_load".as_slice(),
        b".max_input_load".as_slice(),
        b".default_max_input_load".as_slice(),
        b".cycle".as_slice(),
        b".clock_event".as_slice(),
    ];
    is_among(skipped.as_slice(), word)
}

/// The last word; the empty one if there is none.
pub fn last_word<'a>(words: &[&'a [u8]]) -> &'a [u8]
    ensures { result.now ≡ last_word (texts words.now) }
{
    match words {
        [] => b"".as_slice(),
        [.., last] => last,
    }
}

/// All words but the last.
pub fn front_words<'a, 'w>(words: &'w [&'a [u8]]) -> &'w [&'a [u8]]
    ensures { texts result.now ≡ input_words (texts words.now) }
{
    match words {
        [] => words,
        [front @ .., _] => front,
    }
}

/// The first words, at most so many.
pub fn first_words<'a, 'w>(words: &'w [&'a [u8]], count: usize) -> &'w [&'a [u8]]
    ensures { texts result.now ≡ take count (texts words.now) }
{
    &words[..count.min(words.len())]
}

/// The output of a latch, by the words of its line.
pub fn latch_output<'a, 'w>(words: &'w [&'a [u8]]) -> &'w [&'a [u8]]
    ensures { texts result.now ≡ latch_output (texts words.now) }
{
    match words {
        [] => words,
        [_, others @ ..] => first_words(others, 1),
    }
}

/// Appends a name for each word, while the names still grow. On an error the names stay.
pub fn add_more(
    alloc: Global,
    had: bool,
    names: &mut Names,
    words: &[&[u8]],
) -> Result<(), AllocError>
    ensures ok { OnOk result (names.new ≡ with_more had names.old (texts words.now)) }
    ensures err { OnErr result (names.new ≡ names.old) }
{
    if !had {
        add_names(alloc, names, words)?;
    }
    Ok(())
}

/// The bytes of all words, one after the other.
pub fn joined(alloc: Global, words: &[&[u8]]) -> Result<Vec<u8>, AllocError>
    ensures { IfOk result (λ bytes. bytes.items ≡ joined (texts words.now)) }
{
    let mut bytes = Vec::new(alloc);
    for word in words {
        bytes.extend_from_slice(word)?;
    }
    Ok(bytes)
}
