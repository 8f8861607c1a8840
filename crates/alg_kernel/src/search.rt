//! The search for kernels: each kernel that is found is entered once, and explored at each literal
//! that occurs in two of its rows.
//!
//! Source: Brayton and McMullen, "The Decomposition and Factorization of Boolean Expressions"
//! (1982); De Micheli, "Synthesis and Optimization of Digital Circuits", chapter 8 (kernels by
//! recursion over literals). `seen` has the kernels found, sorted, and `todo` those not explored
//! yet. Invariant: each seen kernel is in `todo` or all its steps lead to seen kernels. So, when
//! `todo` is empty, all kernels are seen. `KernelLimit` exactly if there are more than
//! `MAX_KERNELS`.

ghost use Rattle.std.specs.Prelude.{◌≡◌, ℕ, ◌<◌, ◌≤◌, ◌++◌, ◌∷◌, Bool, Option, Some, None, List, length, map, [], IfOk, OnOk, MatchResult, option_map};
ghost use Rattle.std.specs.Result.{IsErrOf};
ghost use Rattle.std.specs.List.{insert};
ghost use Rattle.sis_base.specs.Rows.{HasWidth};
ghost use Rattle.alg_div.specs.Cubes.{Has};
ghost use Rattle.alg_div.specs.Steps.{literals_in};
ghost use Rattle.alg_kernel.specs.Kernels.{row_cmp, rows_cmp, Ascends};
ghost use Rattle.alg_kernel.specs.Search.{kernels_in, holding_rows, kernel_at, IsKernelAt, IsBetween, IsStep, IsExplored, IsMore, TooMany, AreFound, MoreFound};

use crate::rows::{copies_of, count_at, make_cube_free, rows_at};
use sis_base::limits::MAX_KERNELS;
use std::alloc::{AllocError, Global};

/// Why there are no kernels: there are more than `MAX_KERNELS`, or there is not enough memory.
#[derive(Debug, Drop)]
pub enum KernelFault {
    KernelLimit,
    Memory,
}

impl From<AllocError> for KernelFault {
    ghost use Rattle.alg_kernel.specs.declared.search.KernelFault.TheVariants.{Memory};

    ghost from_gives = { λ _ fault. fault ≡ Memory };

    fn from(_error: AllocError) -> KernelFault {
        KernelFault::Memory
    }
}

// The kernel of the rows with a literal, if at least two rows have it.
fn kernel_of(
    alloc: Global,
    width: usize,
    rows: &[Vec<Option<bool>>],
    place: usize,
    bit: bool,
) -> Result<Option<Vec<Vec<Option<bool>>>>, AllocError>
    requires width { HasWidth width (literals_in rows.now) }
    requires place { place < width }
    ensures { IfOk result (λ kernel. IsKernelAt (literals_in rows.now) place bit
        (option_map (λ made. literals_in made.items) kernel)) }
{
    if count_at(width, rows, place, bit) < 2 {
        return Ok(None);
    }
    let chosen = rows_at(alloc, width, rows, place, bit)?;
    let kernel = make_cube_free(alloc, width, chosen.as_slice())?;
    Ok(Some(kernel))
}

// Inserts a kernel into `seen` at an index, and appends a copy to `todo`.
fn add(
    alloc: Global,
    kernel: Vec<Vec<Option<bool>>>,
    place: usize,
    seen: &mut Vec<Vec<Vec<Option<bool>>>>,
    todo: &mut Vec<Vec<Vec<Option<bool>>>>,
) -> Result<(), AllocError>
    requires { place ≤ length seen.old.items }
    ensures seen { OnOk result (kernels_in seen.new.items ≡ insert (kernels_in seen.old.items) place
        (literals_in kernel.items)) }
    ensures todo { OnOk result (kernels_in todo.new.items
        ≡ kernels_in todo.old.items ++ literals_in kernel.items ∷ []) }
{
    todo.push(copies_of(alloc, kernel.as_slice())?)?;
    seen.insert(place, kernel)?;
    Ok(())
}

// The index of a kernel in increasing order, or the one at which it belongs.
fn find_kernel(
    seen: &[Vec<Vec<Option<bool>>>],
    kernel: &Vec<Vec<Option<bool>>>,
) -> Result<usize, usize>
    requires { Ascends rows_cmp (kernels_in seen.now) }
    ensures { MatchResult result (λ place. Has (literals_in kernel.now.items) (kernels_in seen.now))
        (λ place. IsBetween (kernels_in seen.now) place (literals_in kernel.now.items)) }
{
    seen.binary_search(kernel)
}

// Enters a kernel, unless it is seen, if there is room.
fn enter(
    alloc: Global,
    kernel: Vec<Vec<Option<bool>>>,
    seen: &mut Vec<Vec<Vec<Option<bool>>>>,
    todo: &mut Vec<Vec<Vec<Option<bool>>>>,
) -> Result<(), KernelFault>
    requires order { Ascends rows_cmp (kernels_in seen.old.items) }
    requires room { length (kernels_in seen.old.items) ≤ MAX_KERNELS }
    ensures more { OnOk result (IsMore (λ other. other ≡ literals_in kernel.items)
        (kernels_in seen.old.items) (kernels_in todo.old.items) (kernels_in seen.new.items)
        (kernels_in todo.new.items)) }
    ensures has { OnOk result (Has (literals_in kernel.items) (kernels_in seen.new.items)) }
    ensures over { IsErrOf result KernelFault.KernelLimit → TooMany
        (λ other. other ≡ literals_in kernel.items) (kernels_in seen.old.items) }
{
    match find_kernel(seen.as_slice(), &kernel) {
        Ok(_) => Ok(()),
        Err(place) => {
            if seen.len() >= MAX_KERNELS {
                return Err(KernelFault::KernelLimit);
            }
            add(alloc, kernel, place, seen, todo)?;
            Ok(())
        }
    }
}

// Enters the kernel of the rows with a literal, if at least two rows have it.
fn step(
    alloc: Global,
    width: usize,
    kernel: &[Vec<Option<bool>>],
    place: usize,
    bit: bool,
    seen: &mut Vec<Vec<Vec<Option<bool>>>>,
    todo: &mut Vec<Vec<Vec<Option<bool>>>>,
) -> Result<(), KernelFault>
    requires width { HasWidth width (literals_in kernel.now) }
    requires place { place < width }
    requires order { Ascends rows_cmp (kernels_in seen.old.items) }
    requires room { length (kernels_in seen.old.items) ≤ MAX_KERNELS }
    ensures more { OnOk result (IsMore (IsStep (literals_in kernel.now)) (kernels_in seen.old.items)
        (kernels_in todo.old.items) (kernels_in seen.new.items) (kernels_in todo.new.items)) }
    ensures has { OnOk result (2 ≤ length (holding_rows place bit (literals_in kernel.now)) → Has
        (kernel_at place bit (literals_in kernel.now)) (kernels_in seen.new.items)) }
    ensures over { IsErrOf result KernelFault.KernelLimit → TooMany
        (IsStep (literals_in kernel.now)) (kernels_in seen.old.items) }
{
    match kernel_of(alloc, width, kernel, place, bit)? {
        None => Ok(()),
        Some(next) => enter(alloc, next, seen, todo),
    }
}

// Enters the kernels of each literal that occurs in two rows.
fn explore(
    alloc: Global,
    width: usize,
    kernel: &[Vec<Option<bool>>],
    seen: &mut Vec<Vec<Vec<Option<bool>>>>,
    todo: &mut Vec<Vec<Vec<Option<bool>>>>,
) -> Result<(), KernelFault>
    requires width { HasWidth width (literals_in kernel.now) }
    requires order { Ascends rows_cmp (kernels_in seen.old.items) }
    requires room { length (kernels_in seen.old.items) ≤ MAX_KERNELS }
    ensures more { OnOk result (IsMore (IsStep (literals_in kernel.now)) (kernels_in seen.old.items)
        (kernels_in todo.old.items) (kernels_in seen.new.items) (kernels_in todo.new.items)) }
    ensures explored { OnOk result (IsExplored (kernels_in seen.new.items) (literals_in kernel.now)) }
    ensures over { IsErrOf result KernelFault.KernelLimit → TooMany
        (IsStep (literals_in kernel.now)) (kernels_in seen.old.items) }
{
    for place in 0..width {
        step(alloc, width, kernel, place, false, seen, todo)?;
        step(alloc, width, kernel, place, true, seen, todo)?;
    }
    Ok(())
}

// All kernels of rows, which must be in increasing order and at least two.
pub fn search(
    alloc: Global,
    width: usize,
    rows: &[Vec<Option<bool>>],
) -> Result<Vec<Vec<Vec<Option<bool>>>>, KernelFault>
    requires width { HasWidth width (literals_in rows.now) }
    requires two { 2 ≤ length rows.now }
    ensures found { IfOk result (λ seen. AreFound width (literals_in rows.now)
        (kernels_in seen.items)) }
    ensures room { IfOk result (λ seen. length (kernels_in seen.items) ≤ MAX_KERNELS) }
    ensures over { IsErrOf result KernelFault.KernelLimit → MoreFound width (literals_in rows.now) }
{
    let mut seen = Vec::new(alloc);
    let mut todo = Vec::new(alloc);
    let first = make_cube_free(alloc, width, rows)?;
    enter(alloc, first, &mut seen, &mut todo)?;
    while let Some(kernel) = todo.pop() {
        explore(alloc, width, kernel.as_slice(), &mut seen, &mut todo)?;
    }
    Ok(seen)
}
