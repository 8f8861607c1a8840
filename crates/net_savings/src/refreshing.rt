//! Brings the savings of candidates up to date after changes of the network.
//!
//! The savings of covers found under a touched name that rows of changed tables meet are
//! recomputed, and fresh tables are listed again. Callers rely on no name being touched and no
//! table fresh afterwards.

ghost use Rattle.std.specs.Prelude.{◌≡◌, [], IfErr, OnOk};
ghost use Rattle.circuit_model.specs.Soundness.{IsSound};
ghost use Rattle.net_core.specs.Fresh.{IsNewName};
ghost use Rattle.net_work.specs.Placed.{circuit_of};
ghost use Rattle.net_savings.specs.Listing.{IsUnlisted};
ghost use Rattle.net_savings.specs.Savings.{AreSavings};

use crate::fault::SavingsFault;
use crate::kept::CandidateQueue;
use crate::listing::list_places;
use crate::renewing::renew_touched;
use crate::rows::RowIndex;
use circuit_model::Name;
use cube_cover::Row;
use indexmap::IndexSet;
use net_candidates::Rule;
use net_work::WorkingNetwork;
use std::alloc::Global;
use std::mem;

/// So many covers that no table gives any more are always tolerated.
const STALE_COVERS: usize = 100;

/// Recomputes all that changes touched. `ManyKernels` with the name of the first table that has too
/// many kernels.
pub(crate) fn refresh<R: Row>(
    alloc: Global,
    work: &WorkingNetwork<R>,
    rule: Rule,
    name: &Name,
    kept: &mut CandidateQueue,
) -> Result<(), SavingsFault>
    requires sound { IsSound (circuit_of work.now) }
    requires free { IsNewName (circuit_of work.now) name.now }
    requires savings { AreSavings rule work.now kept.old }
    ensures savings { OnOk result (AreSavings rule work.now kept.new) }
    ensures touched { OnOk result (kept.new.touched.keys ≡ []) }
    ensures fresh { OnOk result (kept.new.fresh.items ≡ []) }
    ensures stopped { IfErr result (IsUnlisted rule (circuit_of work.now)) }
{
    let touched = mem::replace(&mut kept.touched, IndexSet::new(alloc));
    let fresh = mem::replace(&mut kept.fresh, Vec::new(alloc));
    let changed = mem::replace(&mut kept.changed, Vec::new(alloc));
    let index = RowIndex::of_readers(alloc, work, fresh.as_slice())?;
    let names = touched.as_slice();
    renew_touched(alloc, work, &index, name, &mut kept.ranked, changed, names)?;
    list_places(
        alloc,
        work,
        &index,
        rule,
        name,
        &mut kept.ranked,
        &mut kept.own,
        fresh.as_slice(),
    )?;
    // As many as are known at the beginning, a quarter more, and a constant.
    let known = kept.ranked.len();
    let bound = known.saturating_add(known / 4).saturating_add(STALE_COVERS);
    kept.bound = kept.bound.min(bound);
    Ok(())
}
