//! The tokens of an expression.

/// A token. A name is the index of its pin; `Other` is a character that no expression has.
#[derive(Clone, Copy, Debug, PartialEq, Eq)]
pub enum Token {
    Constant(bool),
    Name(usize),
    Bang,
    Quote,
    Star,
    Plus,
    Open,
    Close,
    Other,
}
