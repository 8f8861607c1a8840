//! The rules of decomposition: by shared literals, or to gates of bounded size.

/// The rule by which tables are decomposed.
#[derive(Clone, Copy, Debug, PartialEq, Eq)]
pub enum Rule {
    /// The literal that occurs in most rows is factored out of them, while some literal occurs in
    /// two rows.
    Shared,
    /// Each table becomes a product of at most so many literals, or a sum of at most so many rows
    /// of one literal each. With a number below 2 a table may be decomposed without end, until
    /// there is no room.
    Gates(usize, usize),
}
