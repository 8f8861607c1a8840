//! The common and the remaining literals of two cubes, and covers of two cubes or of two literals.
//!
//! Source: Rajski and Vasudevamurthy (IEEE Transactions on CAD 11, 1992): double-cube divisors and
//! their base. Literals keep the order of their cube.

ghost use Rattle.std.specs.Prelude.{◌≡◌, [], ◌∷◌, IfOk};
ghost use Rattle.std.specs.List.{list_any};
ghost use Rattle.net_candidates.specs.Candidates.{same_literal, shared, own};
ghost use Rattle.net_candidates.specs.Parts.{IsSumOfTwo};

use cover_names::{Cube, Literal, NamedCover, sorted_cover};
use sis_base::{Copied, Sequence};
use std::alloc::{AllocError, Global};

// Whether two literals are the same; names are compared only where the bits agree.
fn are_same(one: &Literal, other: &Literal) -> bool
    ensures { result ≡ same_literal one.now other.now }
{
    one.bit == other.bit && one.name == other.name
}

/// Whether a cube has a literal.
pub fn has_literal(cube: &[Literal], literal: &Literal) -> bool
    ensures { result ≡ list_any (same_literal literal.now) cube.now }
{
    cube.iter().any(|other| are_same(literal, other))
}

/// The literals of a cube that another one has too, in the cube's order.
pub fn shared_literals(alloc: Global, one: &Cube, other: &Cube) -> Result<Cube, AllocError>
    ensures { IfOk result (λ cube. cube ≡ shared one.now other.now) }
{
    let mut literals = Vec::new(alloc);
    for literal in one.as_slice() {
        if has_literal(other.as_slice(), literal) {
            literals.push(literal.copy(alloc)?)?;
        }
    }
    Ok(Sequence::from_vec(literals))
}

/// The literals of a cube that another one lacks, in the cube's order.
pub fn own_literals(alloc: Global, one: &Cube, other: &Cube) -> Result<Cube, AllocError>
    ensures { IfOk result (λ cube. cube ≡ own one.now other.now) }
{
    let mut literals = Vec::new(alloc);
    for literal in one.as_slice() {
        if !has_literal(other.as_slice(), literal) {
            literals.push(literal.copy(alloc)?)?;
        }
    }
    Ok(Sequence::from_vec(literals))
}

/// The sorted cover of what each of two cubes has that the other lacks, if both have something.
pub fn sum_of_two(alloc: Global, one: &Cube, other: &Cube) -> Result<Option<NamedCover>, AllocError>
    ensures { IfOk result (λ found. IsSumOfTwo one.now other.now found) }
{
    let left = own_literals(alloc, one, other)?;
    let right = own_literals(alloc, other, one)?;
    if left.is_empty() || right.is_empty() {
        return Ok(None);
    }
    let mut cubes = Sequence::new(alloc);
    cubes.push(left)?;
    cubes.push(right)?;
    Ok(Some(sorted_cover(cubes)))
}

/// The cover of the one cube of two literals, in the order given.
pub fn product_of_two(
    alloc: Global,
    one: &Literal,
    other: &Literal,
) -> Result<NamedCover, AllocError>
    ensures { IfOk result (λ cover. cover ≡ (one.now ∷ other.now ∷ []) ∷ []) }
{
    let mut cube = Sequence::new(alloc);
    cube.push(one.copy(alloc)?)?;
    cube.push(other.copy(alloc)?)?;
    let mut cover = Sequence::new(alloc);
    cover.push(cube)?;
    Ok(cover)
}
