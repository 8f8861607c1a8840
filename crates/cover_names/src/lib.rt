//! Cubes and covers of literals by name, sorted, so that tables with different inputs can be
//! compared for what they share.
//!
//! Source: Brayton, Rudell, Sangiovanni-Vincentelli and Wang, "MIS: A Multiple-Level Logic
//! Optimization System" (1987). `specs/Literals.antt` has the orders, `specs/Cubes.antt` the
//! conversions between rows over inputs and cubes. Promised: each call gives exactly what its
//! definition says. `laws`: the orders are total; a sorted list is strictly increasing, has the
//! items that were sorted and no others, and depends on these items alone; rows, cubes and covers
//! have the same value in each form; rows are recovered from their cubes.
#![tactic(auto)]

mod cubes;
pub mod laws;
mod literal;

pub use cubes::{
    compare_covers, compare_cubes, cover_over, cube_over, row_over, sorted_cover, sorted_cube,
};
pub use literal::{Cube, Literal, NamedCover};
