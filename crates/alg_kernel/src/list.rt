//! The kernels of a cover: `kernels` sorts the rows, each once, searches, and makes covers of what
//! it found. A cover of fewer than two different rows has no kernel.

ghost use Rattle.std.specs.Prelude.{◌≡◌, ℕ, ◌≤◌, Bool, Option, List, length, map, IfOk};
ghost use Rattle.std.specs.Result.{IsErrOf};
ghost use Rattle.sis_base.specs.Rows.{HasWidth};
ghost use Rattle.cube_cover.specs.Covers.{Shape};
ghost use Rattle.alg_div.specs.Cubes.{Has};
ghost use Rattle.alg_div.specs.Steps.{literals_in};
ghost use Rattle.alg_kernel.specs.Kernels.{AreKernels, MoreKernels, rows_in};
ghost use Rattle.alg_kernel.specs.Search.{kernels_in};

use crate::rows::sort_rows;
use crate::search::{KernelFault, search};
use alg_div::{all_literals_of, cover_of};
use cube_cover::{Cover, Row};
use sis_base::limits::MAX_KERNELS;
use std::alloc::{AllocError, Global};

// Makes covers of a width from the given rows.
fn covers_of<R: Row>(
    alloc: Global,
    width: usize,
    kernels: &[Vec<Vec<Option<bool>>>],
) -> Result<Vec<Cover<R>>, AllocError>
    requires { (kernel : List (List (Option Bool))) → Has kernel (kernels_in kernels.now)
        → HasWidth width kernel }
    ensures rows { IfOk result (λ made. rows_in made.items ≡ kernels_in kernels.now) }
    ensures widths { IfOk result (λ made. (cover : Shape) → Has cover made.items → cover.width
        ≡ width) }
{
    let mut made = Vec::with_capacity(alloc, kernels.len())?;
    for kernel in kernels {
        made.push(cover_of(alloc, width, kernel.as_slice())?)?;
    }
    Ok(made)
}

/// The kernels of f, each once: the quotients of f by a cube that have two cubes or more and no
/// common literal. The order of f's rows, and repeated rows, make no difference.
///
/// The rows of each kernel are in increasing order, compared column by column, a dash before a
/// negative literal before a positive one; so are the kernels, row by row. `KernelLimit` if there
/// are more than `MAX_KERNELS` kernels.
pub fn kernels<R: Row>(alloc: Global, f: &Cover<R>) -> Result<Vec<Cover<R>>, KernelFault>
    ensures kernels { IfOk result (λ made. AreKernels f.now.width f.now.rows (rows_in made.items)) }
    ensures widths { IfOk result (λ made. (kernel : Shape) → Has kernel made.items → kernel.width
        ≡ f.now.width) }
    ensures room { IfOk result (λ made. length made.items ≤ MAX_KERNELS) }
    ensures refused { MoreKernels MAX_KERNELS f.now.width f.now.rows → IfOk result (λ made. ⊥) }
    ensures over { IsErrOf result KernelFault.KernelLimit
        → MoreKernels MAX_KERNELS f.now.width f.now.rows }
{
    let width = f.width();
    let rows = sort_rows(all_literals_of(alloc, f.rows())?);
    if rows.len() < 2 {
        return Ok(Vec::new(alloc));
    }
    let found = search(alloc, width, rows.as_slice())?;
    let made = covers_of(alloc, width, found.as_slice())?;
    Ok(made)
}
