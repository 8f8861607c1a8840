//! The kind of a logical line of a KISS2 table, by its first word (`specs/Keywords.antt`).

ghost use Rattle.std.specs.Prelude.{◌≡◌, if◌then◌else◌};
ghost use Rattle.sis_text.specs.Words.{begins_with};
ghost use Rattle.kiss_format.specs.Keywords.{keyword_of};
ghost use Rattle.kiss_format.specs.declared.keyword.Keyword.{Keyword};

/// The kinds of lines: the dotted words that are known, rows, and every other dotted word.
#[derive(Clone, Copy, Debug, PartialEq, Eq)]
pub enum Keyword {
    Inputs,
    Outputs,
    Products,
    States,
    Reset,
    End,
    Row,
    Other,
}

/// What a line is, by its first word.
#[tactic(auto, unfolding(crate::specs::Keywords::keyword_of))]
pub fn keyword_of(word: &[u8]) -> Keyword
    ensures { result ≡ keyword_of word.now }
{
    if word == b".i".as_slice() {
        Keyword::Inputs
    } else if word == b".o".as_slice() {
        Keyword::Outputs
    } else if word == b".p".as_slice() {
        Keyword::Products
    } else if word == b".s".as_slice() {
        Keyword::States
    } else if word == b".r".as_slice() {
        Keyword::Reset
    } else if word == b".e".as_slice() || word == b".end".as_slice() {
        Keyword::End
    } else {
        dotted_or_row(word)
    }
}

/// A dotted word that is not known, or the first word of a row.
fn dotted_or_row(word: &[u8]) -> Keyword
    ensures { result ≡ (if begins_with 46 word.now then Keyword.Other else Keyword.Row) }
{
    match word {
        [b'.', ..] => Keyword::Other,
        _ => Keyword::Row,
    }
}
