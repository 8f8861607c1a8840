//! The cases that a trial program answers, in the form of its input.
//!
//! A case is a line of words, which give the call and its arguments, then lines of any form, up to
//! a line `==`. Lines that begin with `//` are remarks. A program prints for each case its first
//! line, with `> ` before it, and the answer; or `bad case`, if the lines do not fit the call. The
//! expected output, like the input, is worked out by hand, from the definitions or from their
//! sources.
//!
//! A text is written as lines of which each gives its bytes without a line end: `\n`, `\r`, `\t`
//! are those bytes, `\s` a blank, and `\` before another character is that character. A line
//! `*COUNT REST` is the bytes of REST as often as the number says, with `\i` for the number of the
//! copy, from 0.
#![tactic(auto)]

mod case;
mod fault;
mod texts;

pub use case::{Case, Trial, answers, begin_answer, cases, end_answer};
pub use fault::CaseFault;
pub use texts::{number_of, put_line, put_number, put_shown, text_of, unescaped};
