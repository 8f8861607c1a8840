//! Division, and the laws of its results: the parts make up the dividend, and the quotient is
//! unique.

ghost use Rattle.std.specs.Prelude.{◌≡◌, ◌↔◌, ◌⊎◌, Bool, Option, List, IfOk};
ghost use Rattle.cube_cover.specs.Covers.{Shape};
ghost use Rattle.alg_div.specs.Cubes.{Has, products};
ghost use Rattle.alg_div.specs.Quotient.{IsQuotient, IsRemainder};

use crate::steps::{indices_for, others_of, products_of, quotient_of};
use cube_cover::{Cover, Row};
use std::alloc::{AllocError, Global};

/// The quotient and the remainder of f by d; both covers must have one width. The quotient's cubes
/// are in the order of their products with d's first cube in f, the remainder's in the order of f.
/// If d has no cube, the quotient is empty.
pub fn divide<R: Row>(
    alloc: Global,
    f: &Cover<R>,
    d: &Cover<R>,
) -> Result<(Cover<R>, Cover<R>), AllocError>
    requires { f.now.width ≡ d.now.width }
    ensures widths { IfOk result (λ both. (both.0.width ≡ f.now.width)
        × (both.1.width ≡ f.now.width)) }
    ensures quotient { IfOk result (λ both. IsQuotient f.now.width f.now.rows d.now.rows
        both.0.rows) }
    ensures remainder { IfOk result (λ both. IsRemainder f.now.rows d.now.rows both.0.rows
        both.1.rows) }
{
    // by this call the divisor's rows are known to have its width
    let _of_one_width = d.rows();
    let terms = quotient_of(alloc, f, d)?;
    let taken = products_of(alloc, terms.as_slice(), d)?;
    let indices = indices_for(alloc, taken.as_slice(), f.rows().len())?;
    let rest = others_of(alloc, f, taken.as_slice(), &indices)?;
    let width = f.width();
    let quotient = Cover::of(width, terms);
    let remainder = Cover::of(width, rest);
    Ok((quotient, remainder))
}

/// A law, which computes nothing: the products of the quotient's and the divisor's cubes and the
/// rows of the remainder are exactly the rows of f, and no row of the remainder is such a product.
pub fn quotient_parts<R: Row>(f: &Cover<R>, d: &Cover<R>, quotient: &Cover<R>, remainder: &Cover<R>)
    requires quotient { IsQuotient f.now.width f.now.rows d.now.rows quotient.now.rows }
    requires remainder { IsRemainder f.now.rows d.now.rows quotient.now.rows remainder.now.rows }
    ensures all { (row : List (Option Bool)) → Has row f.now.rows
        ↔ (Has row (products quotient.now.rows d.now.rows) ⊎ Has row remainder.now.rows) }
    ensures apart { (row : List (Option Bool)) → Has row (products quotient.now.rows d.now.rows)
        → Has row remainder.now.rows → ⊥ }
{}

/// A law, which computes nothing: the quotient is unique.
pub fn quotient_one<R: Row>(f: &Cover<R>, d: &Cover<R>, quotient: &Cover<R>, other: &Cover<R>)
    requires quotient { IsQuotient f.now.width f.now.rows d.now.rows quotient.now.rows }
    requires other { IsQuotient f.now.width f.now.rows d.now.rows other.now.rows }
    ensures { quotient.now.rows ≡ other.now.rows }
{}
