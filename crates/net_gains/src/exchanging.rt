//! The gains of all divisors, kept while tables are added and change.
//!
//! Source: Rajski and Vasudevamurthy (IEEE Transactions on CAD 11, 1992): the weight of a divisor
//! is a sum over pairs of cubes. Callers rely on the total of every cover after a change to be the
//! one before, with what new cubes gain and without what old cubes gained. After an error any
//! totals may be kept.

ghost use Rattle.std.specs.Prelude.{◌≡◌, ◌≤◌, ℕ, ◌+◌, true, List, map, OnOk};
ghost use Rattle.circuit_model.specs.Names.{all_different};
ghost use Rattle.net_gains.specs.CodedGains.{gains};
ghost use Rattle.net_gains.specs.Totals.{total_of, AreCubes};

use crate::pairs::note_with;
use crate::parting::parts_of;
use crate::totals::{Change, Totals};
use std::alloc::{AllocError, Global};

/// Adds a table of rising cubes. Also an error if a total is too large for a machine word. After an
/// error any totals may be kept.
pub(crate) fn add(totals: &mut Totals, alloc: Global, cubes: &[Vec<u32>]) -> Result<(), AllocError>
    requires { AreCubes (map (λ cube. cube.items) cubes.now) }
    ensures { OnOk result ((cover : List (List ℕ)) → total_of totals.new cover
        ≡ total_of totals.old cover + gains cover (map (λ cube. cube.items) cubes.now)) }
{
    note_with(totals, alloc, Change::Comes, cubes, &[], &[])
}

/// Replaces the cubes of a table by others. Pairs of cubes that stay are not counted again, nor are
/// products that a removed cube and the added cube paired with it have in common; no clause says
/// so. Also an error if a total is too large for a machine word. After an error any totals may be
/// kept.
pub(crate) fn exchange(
    totals: &mut Totals,
    alloc: Global,
    old: &[Vec<u32>],
    new: &[Vec<u32>],
) -> Result<(), AllocError>
    requires old { AreCubes (map (λ cube. cube.items) old.now) }
    requires new { AreCubes (map (λ cube. cube.items) new.now) }
    requires old_once { all_different (map (λ cube. cube.items) old.now) ≡ true }
    requires new_once { all_different (map (λ cube. cube.items) new.now) ≡ true }
    requires enough { (cover : List (List ℕ)) → gains cover
        (map (λ cube. cube.items) old.now) ≤ total_of totals.old cover }
    ensures { OnOk result ((cover : List (List ℕ)) → total_of totals.new cover + gains cover
        (map (λ cube. cube.items) old.now) ≡ total_of totals.old cover + gains cover
        (map (λ cube. cube.items) new.now)) }
{
    let parts = parts_of(alloc, old, new)?;
    let kept = parts.kept.as_slice();
    let gone = parts.gone.as_slice();
    let come = parts.come.as_slice();
    note_with(totals, alloc, Change::Goes, gone, kept, come)?;
    note_with(totals, alloc, Change::Comes, come, kept, gone)
}
