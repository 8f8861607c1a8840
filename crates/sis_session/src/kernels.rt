//! The lines of kernels, one kernel on a line as the sum of its cubes (`specs/Told.antt`). A table
//! with more than `MAX_KERNELS` kernels is refused.

ghost use Rattle.std.specs.Prelude.{◌≡◌, ◌++◌, ℕ, List, length, map, flat_map, IfOk, OnOk};
ghost use Rattle.std.specs.Result.{IsErrOf};
ghost use Rattle.cube_cover.specs.Covers.{Shape};
ghost use Rattle.alg_div.specs.Cubes.{Has};
ghost use Rattle.alg_factor.specs.Texts.{row_text, sum_text};
ghost use Rattle.alg_kernel.specs.Kernels.{AreKernels, rows_in};
ghost use Rattle.net_core.specs.Tables.{HasCharacters};
ghost use Rattle.net_decomp.specs.Partings.{rows_of};
ghost use Rattle.net_candidates.specs.Extracting.{HasManyKernels};
ghost use Rattle.sis_session.specs.Told.{AreKernelLines, kernel_line};

use alg_factor::sum_text;
use alg_kernel::{KernelFault, kernels};
use circuit_model::{Name, Table};
use cube_cover::{Cover, PlainRow};
use net_core::CoverTable;
use std::alloc::{AllocError, Global};

// The lines of covers over inputs, as sums of their cubes.
fn lines_of(
    alloc: Global,
    names: &[Name],
    covers: &[Cover<PlainRow>],
) -> Result<Vec<u8>, AllocError>
    requires { (kernel : Shape) → Has kernel covers.now → kernel.width ≡ length names.now }
    ensures { IfOk result (λ text. text.items ≡ flat_map (kernel_line names.now)
        (rows_in covers.now)) }
{
    let mut text = Vec::new(alloc);
    for cover in covers {
        let line = sum_text(alloc, names, cover.rows())?;
        text.extend_from_slice(line.as_slice())?;
        text.push(10)?;
    }
    Ok(text)
}

// The kernels of a table's rows.
#[tactic(auto, unfolding(net_core::specs::Tables::covered))]
fn kernels_of(alloc: Global, written: &Table) -> Result<Vec<Cover<PlainRow>>, KernelFault>
    requires { HasCharacters (length written.now.inputs) written.now.rows }
    ensures kernels { IfOk result (λ found. AreKernels (length written.now.inputs)
        (rows_of written.now) (rows_in found.items)) }
    ensures widths { IfOk result (λ found. (kernel : Shape) → Has kernel found.items
        → kernel.width ≡ length written.now.inputs) }
    ensures refused { HasManyKernels written.now → IfOk result (λ found. ⊥) }
    ensures over { IsErrOf result KernelFault.KernelLimit → HasManyKernels written.now }
{
    match CoverTable::<PlainRow>::from_written(alloc, written) {
        Ok(table) => kernels(alloc, &table.cover),
        Err(_) => Err(KernelFault::Memory),
    }
}

/// The lines of a table's kernels, each of whose rows has a character for each input. `KernelLimit`
/// if there are more than `MAX_KERNELS` kernels.
pub fn kernel_lines(alloc: Global, written: &Table) -> Result<Vec<u8>, KernelFault>
    requires { HasCharacters (length written.now.inputs) written.now.rows }
    ensures lines { IfOk result (λ text. AreKernelLines written.now text.items) }
    ensures refused { HasManyKernels written.now → IfOk result (λ text. ⊥) }
    ensures over { IsErrOf result KernelFault.KernelLimit → HasManyKernels written.now }
{
    let found = match kernels_of(alloc, written) {
        Ok(found) => found,
        Err(fault) => return Err(fault),
    };
    match lines_of(alloc, written.inputs.as_slice(), found.as_slice()) {
        Ok(text) => Ok(text),
        Err(_) => Err(KernelFault::Memory),
    }
}
