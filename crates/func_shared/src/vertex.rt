//! A vertex of the table.

/// A vertex: its variable, and the numbers of its halves for false and for true. Twelve bytes.
#[derive(Clone, Copy, Debug, PartialEq, Eq, Hash)]
pub struct Vertex {
    pub place: u32,
    pub low: u32,
    pub high: u32,
}
