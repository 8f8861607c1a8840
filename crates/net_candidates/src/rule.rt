//! The rules of extraction: `fx`, `gkx` and `gcx`.

/// Which candidates are extracted.
#[derive(Clone, Copy, Debug, PartialEq, Eq)]
pub enum Rule {
    /// What two rows of a table have besides what they share, if both have something, as a sum; and
    /// products of two literals of a row.
    Fx,
    /// Kernels of tables.
    Gkx,
    /// What two rows share, of one table or of two, if it is two literals or more.
    Gcx,
}
