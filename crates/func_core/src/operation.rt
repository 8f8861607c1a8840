//! Operations on two functions.

/// An operation on two bits, which commutes.
#[derive(Clone, Copy, Debug, PartialEq, Eq)]
pub enum Operation {
    And,
    Or,
    Xor,
}
