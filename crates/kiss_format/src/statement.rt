//! What a logical line says by itself: its statement.
//!
//! Source: SIS report (UCB/ERL M92/41), KISS2 tables. `statement_of` returns exactly the statement
//! of `specs/Statements.antt`; its words are slices of the line's. What the lines before it mean
//! for it is no part of a statement.

ghost use Rattle.std.specs.Prelude.{◌≡◌};
ghost use Rattle.line_words.specs.LineWords.{texts};
ghost use Rattle.kiss_format.specs.Statements.{said_by, of_word, of_reset, of_row};
ghost use Rattle.kiss_format.specs.Steps.{said};

use crate::keyword::{Keyword, keyword_of};
use crate::number::count_in;
use line_words::{are_characters, first_word, other_words};

/// The words of a row.
#[derive(Clone, Copy)]
pub struct RowWords<'a> {
    pub input: &'a [u8],
    pub current: &'a [u8],
    pub next: &'a [u8],
    pub output: &'a [u8],
}

/// What a line says: a number of inputs or of outputs, the reset state, a row, nothing that the
/// rows do not tell; or its words are no row, or no header.
#[derive(Clone, Copy)]
pub enum Statement<'a> {
    Inputs(usize),
    Outputs(usize),
    Reset(&'a [u8]),
    Row(RowWords<'a>),
    Nothing,
    NoRow,
    NoHeader,
}

/// The statement of the words after the first of a `.p` or `.s` line.
fn of_word<'a>(words: &[&'a [u8]]) -> Statement<'a>
    ensures { said result ≡ of_word (texts words.now) }
{
    match words {
        [_] => Statement::Nothing,
        _ => Statement::NoHeader,
    }
}

/// The statement of the words after the first of an `.r` line.
fn of_reset<'a>(words: &[&'a [u8]]) -> Statement<'a>
    ensures { said result ≡ of_reset (texts words.now) }
{
    match words {
        [word] => Statement::Reset(word),
        _ => Statement::NoHeader,
    }
}

/// The statement of the words of a row.
fn of_row<'a>(words: &[&'a [u8]]) -> Statement<'a>
    ensures { said result ≡ of_row (texts words.now) }
{
    match words {
        [input, current, next, output] if are_characters(input) && are_characters(output) => {
            Statement::Row(RowWords {
                input,
                current,
                next,
                output,
            })
        }
        _ => Statement::NoRow,
    }
}

/// The statement of a line's words.
#[tactic(auto, unfolding(crate::specs::Statements::said_by))]
pub fn statement_of<'a>(words: &[&'a [u8]]) -> Statement<'a>
    ensures { said result ≡ said_by (texts words.now) }
{
    let others = other_words(words);
    match keyword_of(first_word(words)) {
        Keyword::Inputs => match count_in(others) {
            None => Statement::NoHeader,
            Some(count) => Statement::Inputs(count),
        },
        Keyword::Outputs => match count_in(others) {
            None => Statement::NoHeader,
            Some(count) => Statement::Outputs(count),
        },
        Keyword::Products | Keyword::States => of_word(others),
        Keyword::Reset => of_reset(others),
        Keyword::End => Statement::Nothing,
        Keyword::Row => of_row(words),
        Keyword::Other => Statement::NoHeader,
    }
}
