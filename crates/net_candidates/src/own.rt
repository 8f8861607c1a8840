//! The candidates that one table gives by itself, under each rule of extraction.
//!
//! Source: Rajski and Vasudevamurthy, "The testability-preserving concurrent decomposition and
//! factorization of Boolean expressions" (IEEE Transactions on CAD 11, 1992), for `fx`; Brayton and
//! McMullen, "The Decomposition and Factorization of Boolean Expressions" (1982), for `gkx`. Under
//! `Fx` these are double-cube divisors and products of two literals, under `Gkx` kernels, under
//! `Gcx` none. Callers rely on `IsOwn`: exactly these candidates, perhaps more than once, on a list
//! only if there are at most `MAX_KERNELS` kernels, and on `ManyKernels` only if there are more.

ghost use Rattle.std.specs.Prelude.{◌≡◌, ◌↔◌, ◌++◌, ℕ, List, map, flat_map, length, IfOk, IfErr, OnOk};
ghost use Rattle.alg_div.specs.Cubes.{Has};
ghost use Rattle.alg_kernel.specs.Kernels.{rows_in};
ghost use Rattle.net_candidates.specs.Extracting.{HasManyCandidates, IsListable};
ghost use Rattle.cover_names.specs.Cubes.{cover_over};
ghost use Rattle.cover_names.specs.Literals.{NamedCover};
ghost use Rattle.net_core.specs.Tables.{named, IsOverInputs};
ghost use Rattle.net_candidates.specs.Listed.{IsOwn};
ghost use Rattle.net_candidates.specs.Pairs.{made_by_pairs, sum_of, product_of};
ghost use Rattle.net_candidates.specs.declared.fault.ListFault.TheVariants.{ManyKernels};

use crate::Rule;
use crate::cubes::cubes_of;
use crate::fault::ListFault;
use crate::pairs::{Pairing, add_pairs};
use crate::parts::{product_of_two, sum_of_two};
use alg_div::all_literals_of;
use alg_kernel::kernels;
use circuit_model::Name;
use cover_names::{Cube, Literal, NamedCover, cover_over};
use cube_cover::{Cover, Row};
use net_core::CoverTable;
use std::alloc::{AllocError, Global};

// The sum of what each of two cubes has that the other lacks.
struct Sums;

impl Pairing<Cube> for Sums {
    ghost use Rattle.net_candidates.specs.Pairs.{sum_of};

    ghost gives = { sum_of };

    fn made_of(
        &self,
        alloc: Global,
        one: &Cube,
        other: &Cube,
    ) -> Result<Option<NamedCover>, AllocError> {
        sum_of_two(alloc, one, other)
    }
}

// The product of two literals.
struct Products;

impl Pairing<Literal> for Products {
    ghost use Rattle.net_candidates.specs.Pairs.{product_of};

    ghost gives = { product_of };

    fn made_of(
        &self,
        alloc: Global,
        one: &Literal,
        other: &Literal,
    ) -> Result<Option<NamedCover>, AllocError> {
        Ok(Some(product_of_two(alloc, one, other)?))
    }
}

// Appends the products of each two literals of some cubes.
fn add_products(alloc: Global, cubes: &[Cube], made: &mut Vec<NamedCover>) -> Result<(), AllocError>
    ensures { OnOk result (made.new.items ≡ made.old.items ++ flat_map
        (made_by_pairs product_of) cubes.now) }
{
    for cube in cubes {
        add_pairs(alloc, &Products, cube.as_slice(), made)?;
    }
    Ok(())
}

// The sums of each two of some cubes and the products of each two literals of one.
fn sums_and_products(alloc: Global, cubes: &[Cube]) -> Result<Vec<NamedCover>, AllocError>
    ensures { IfOk result (λ made. made.items ≡ made_by_pairs sum_of cubes.now ++ flat_map
        (made_by_pairs product_of) cubes.now) }
{
    let mut made = Vec::new(alloc);
    add_pairs(alloc, &Sums, cubes, &mut made)?;
    add_products(alloc, cubes, &mut made)?;
    Ok(made)
}

// The sorted covers of some kernels over names.
fn covers_over<R: Row>(
    alloc: Global,
    names: &[Name],
    kernels: &[Cover<R>],
) -> Result<Vec<NamedCover>, AllocError>
    ensures { IfOk result (λ made. made.items ≡ map (cover_over names.now) (rows_in kernels.now)) }
{
    let mut made = Vec::with_capacity(alloc, kernels.len())?;
    for kernel in kernels {
        let rows = all_literals_of(alloc, kernel.rows())?;
        made.push(cover_over(alloc, names, rows.as_slice())?)?;
    }
    Ok(made)
}

/// The candidates that a table gives by itself under a rule: sums of two cubes and products of two
/// literals, or kernels; none under the third rule. If kernels are asked for and there are more
/// than `MAX_KERNELS`, the result is `ManyKernels`, unless memory runs out first.
pub fn own_candidates<R: Row>(
    alloc: Global,
    rule: Rule,
    table: &CoverTable<R>,
) -> Result<Vec<NamedCover>, ListFault>
    requires { IsOverInputs table.now }
    ensures own { IfOk result (λ made. (output : List ℕ) (cover : NamedCover) → Has cover made.items
        ↔ IsOwn rule (named output table.now) cover) }
    ensures listable { IfOk result (λ made. (output : List ℕ) → IsListable rule
        (named output table.now)) }
    ensures many { IfErr result (λ fault. fault ≡ ManyKernels → (output : List ℕ)
        → HasManyCandidates rule (named output table.now)) }
{
    match rule {
        Rule::Fx => {
            let cubes = cubes_of(alloc, table)?;
            Ok(sums_and_products(alloc, cubes.as_slice())?)
        }
        Rule::Gkx => {
            let kernels = kernels(alloc, &table.cover)?;
            Ok(covers_over(alloc, table.inputs.as_slice(), kernels.as_slice())?)
        }
        Rule::Gcx => Ok(Vec::new(alloc)),
    }
}
