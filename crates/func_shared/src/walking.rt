//! Walks over the vertices of one function: its size, by a worklist that holds each number once,
//! and its path to a point at which it is true.

ghost use Rattle.std.specs.Prelude.{◌≡◌, ◌<◌, ◌≤◌, IfOk, OnOk, MatchOption};
ghost use Rattle.func_core.specs.Sizes.{size};
ghost use Rattle.func_core.specs.Points.{path};
ghost use Rattle.func_shared.specs.Vertices.{tree_at, IsNumber};
ghost use Rattle.func_shared.specs.Walks.{with_number};

use crate::table::Table;
use indexmap::IndexSet;
use std::alloc::{AllocError, Global};

/// Adds a number to those seen, unless it is a constant's.
fn see(seen: &mut IndexSet<u32>, number: u32) -> Result<(), AllocError>
    ensures { OnOk result (seen.new.keys ≡ with_number seen.old.keys number) }
{
    if number >= 2 {
        seen.insert(number)?;
    }
    Ok(())
}

/// The number of vertices of a number's tree, or `None` if it is above the limit. The walk stops
/// after it has seen more than the limit, so it takes no longer than what it sees; no clause says
/// so.
pub(crate) fn count_within(
    alloc: Global,
    table: &Table,
    number: u32,
    limit: usize,
) -> Result<Option<usize>, AllocError>
    requires { IsNumber table.now number }
    ensures { IfOk result (λ found. MatchOption found (limit < size (tree_at table.now number))
        (λ count. (count ≡ size (tree_at table.now number)) × (count ≤ limit))) }
{
    table.sound();
    let mut seen = IndexSet::new(alloc);
    see(&mut seen, number)?;
    let mut done = 0;
    while let Some(next) = seen.get_index(done).copied() {
        if seen.len() > limit {
            return Ok(None);
        }
        if let Some(vertex) = table.vertex(next) {
            see(&mut seen, vertex.low)?;
            see(&mut seen, vertex.high)?;
        }
        done += 1;
    }
    Ok(Some(done))
}

/// The literals on the path from a number that takes the half in which a variable is false unless
/// that is the constant false.
pub(crate) fn path_of(
    alloc: Global,
    table: &Table,
    number: u32,
) -> Result<Vec<(usize, bool)>, AllocError>
    requires { IsNumber table.now number }
    ensures { IfOk result (λ literals. literals.items ≡ path (tree_at table.now number)) }
{
    table.sound();
    let mut literals = Vec::new(alloc);
    let mut at = number;
    while let Some(vertex) = table.vertex(at) {
        if vertex.low == 0 {
            literals.push((vertex.place as usize, true))?;
            at = vertex.high;
        } else {
            literals.push((vertex.place as usize, false))?;
            at = vertex.low;
        }
    }
    Ok(literals)
}
