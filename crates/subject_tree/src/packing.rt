//! Vertices packed into eight bytes, as an arena keeps them.
//!
//! The kind of a vertex is encoded by a number that no vertex uses. Callers rely on `unpacked`:
//! what was packed is read back unchanged.

ghost use Rattle.std.specs.Prelude.{◌≡◌, ◌<◌, IfOk};
ghost use Rattle.subject_tree.specs.Packing.{unpacked};

use crate::arena::Vertex;
use std::alloc::AllocError;

/// A vertex as two small numbers. One of them is `NOWHERE` where there is only one number: the
/// first at a leaf, and the second at an inverter.
#[derive(Clone, Copy, Debug, PartialEq, Eq, Hash)]
pub struct Packed {
    pub first: u32,
    pub second: u32,
}

// Means that there is no number; no number is as large.
const NOWHERE: u32 = 4_294_967_295;

// A number as one of 32 bits; want of memory if it is too large.
fn small(number: usize) -> Result<u32, AllocError>
    ensures same { IfOk result (λ made. made ≡ number) }
    ensures less { IfOk result (λ made. made < 4294967295) }
{
    if number < 4_294_967_295 {
        Ok(number as u32)
    } else {
        Err(AllocError)
    }
}

/// A vertex, packed; want of memory if a number in it is too large for that.
pub fn pack(vertex: Vertex) -> Result<Packed, AllocError>
    ensures { IfOk result (λ packed. unpacked packed ≡ vertex) }
{
    match vertex {
        Vertex::Leaf(place) => Ok(Packed {
            first: NOWHERE,
            second: small(place)?,
        }),
        Vertex::Inv(below) => Ok(Packed {
            first: small(below)?,
            second: NOWHERE,
        }),
        Vertex::Nand(left, right) => Ok(Packed {
            first: small(left)?,
            second: small(right)?,
        }),
    }
}

impl Packed {
    /// The vertex that is packed.
    pub fn vertex(&self) -> Vertex
        ensures { result ≡ unpacked self.now }
    {
        if self.first == NOWHERE {
            Vertex::Leaf(self.second as usize)
        } else if self.second == NOWHERE {
            Vertex::Inv(self.first as usize)
        } else {
            Vertex::Nand(self.first as usize, self.second as usize)
        }
    }
}
