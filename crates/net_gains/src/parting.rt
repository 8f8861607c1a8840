//! Two lists of cubes compared: the cubes of both, those removed and those added.
//!
//! Callers rely on each part to have the order of its list. The sets borrow the cubes; only the
//! parts are copies.

ghost use Rattle.std.specs.Prelude.{◌≡◌, List, ℕ, map, IfOk};
ghost use Rattle.circuit_model.specs.Names.{has};
ghost use Rattle.net_gains.specs.Turning.{among, apart};

use indexmap::IndexSet;
use std::alloc::{AllocError, Global};

/// Two lists of cubes by their parts: the cubes of both, those of the first alone and those of the
/// second alone.
#[derive(Drop)]
pub(crate) struct Parts {
    pub(crate) kept: Vec<Vec<u32>>,
    pub(crate) gone: Vec<Vec<u32>>,
    pub(crate) come: Vec<Vec<u32>>,
}

// The set of some cubes, which are borrowed.
fn set_of<'a>(alloc: Global, cubes: &'a [Vec<u32>]) -> Result<IndexSet<&'a [u32]>, AllocError>
    ensures { IfOk result (λ set. (cube : List ℕ) → has (map (λ key. key.now) set.keys) cube ≡ has
        (map (λ cube. cube.items) cubes.now) cube) }
{
    let mut set = IndexSet::new(alloc);
    for cube in cubes {
        let _new = set.insert(cube.as_slice())?;
    }
    Ok(set)
}

// Whether a cube is in a set.
fn holds(set: &IndexSet<&[u32]>, cube: &[u32]) -> bool
    ensures { result ≡ has (map (λ key. key.now) set.now.keys) cube.now }
{
    set.contains(cube)
}

// The cubes that are in a set.
fn cubes_in(
    alloc: Global,
    cubes: &[Vec<u32>],
    set: &IndexSet<&[u32]>,
) -> Result<Vec<Vec<u32>>, AllocError>
    ensures { IfOk result (λ made. map (λ cube. cube.items) made.items ≡ among
        (map (λ key. key.now) set.now.keys) (map (λ cube. cube.items) cubes.now)) }
{
    let mut made = Vec::new(alloc);
    for cube in cubes {
        if holds(set, cube.as_slice()) {
            made.push(Vec::from_slice(alloc, cube.as_slice())?)?;
        }
    }
    Ok(made)
}

// The cubes that are not in a set.
fn cubes_beside(
    alloc: Global,
    cubes: &[Vec<u32>],
    set: &IndexSet<&[u32]>,
) -> Result<Vec<Vec<u32>>, AllocError>
    ensures { IfOk result (λ made. map (λ cube. cube.items) made.items ≡ apart
        (map (λ key. key.now) set.now.keys) (map (λ cube. cube.items) cubes.now)) }
{
    let mut made = Vec::new(alloc);
    for cube in cubes {
        if !holds(set, cube.as_slice()) {
            made.push(Vec::from_slice(alloc, cube.as_slice())?)?;
        }
    }
    Ok(made)
}

/// The parts of two lists of cubes, by at most two look-ups of each cube.
pub(crate) fn parts_of(
    alloc: Global,
    old: &[Vec<u32>],
    new: &[Vec<u32>],
) -> Result<Parts, AllocError>
    ensures kept { IfOk result (λ parts. map (λ cube. cube.items) parts.kept.items ≡ among
        (map (λ cube. cube.items) new.now) (map (λ cube. cube.items) old.now)) }
    ensures gone { IfOk result (λ parts. map (λ cube. cube.items) parts.gone.items ≡ apart
        (map (λ cube. cube.items) new.now) (map (λ cube. cube.items) old.now)) }
    ensures come { IfOk result (λ parts. map (λ cube. cube.items) parts.come.items ≡ apart
        (map (λ cube. cube.items) old.now) (map (λ cube. cube.items) new.now)) }
{
    let new_set = set_of(alloc, new)?;
    let kept = cubes_in(alloc, old, &new_set)?;
    let gone = cubes_beside(alloc, old, &new_set)?;
    let old_set = set_of(alloc, old)?;
    let come = cubes_beside(alloc, new, &old_set)?;
    Ok(Parts { kept, gone, come })
}
