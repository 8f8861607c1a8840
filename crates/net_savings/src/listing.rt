//! Lists tables: what a table gives by itself, and together with the tables that were listed
//! before.

ghost use Rattle.std.specs.Prelude.{◌≡◌, ℕ, ◌<◌, true, List, length, IfErr, OnOk};
ghost use Rattle.circuit_model.specs.Soundness.{IsSound};
ghost use Rattle.net_readers.specs.Fanouts.{is_in};
ghost use Rattle.net_core.specs.Fresh.{IsNewName};
ghost use Rattle.net_work.specs.Placed.{circuit_of};
ghost use Rattle.net_savings.specs.Indexed.{IsIndex};
ghost use Rattle.net_savings.specs.Listing.{IsListed, IsUnlisted};
ghost use Rattle.net_savings.specs.Savings.{AreTrue};

use crate::cover_set::CoverSet;
use crate::covers::RankedCovers;
use crate::fault::SavingsFault;
use crate::own::own_made;
use crate::owned::{OwnLists, is_listed, put_list};
use crate::renewing::note_all;
use crate::rows::RowIndex;
use crate::sharing::shared_here;
use circuit_model::Name;
use cube_cover::Row;
use net_candidates::Rule;
use net_work::WorkingNetwork;
use std::alloc::Global;

// Lists what the table at an index gives, unless it is listed, and sets what that saves.
fn list_place<R: Row>(
    alloc: Global,
    work: &WorkingNetwork<R>,
    index: &RowIndex,
    rule: Rule,
    name: &Name,
    ranked: &mut RankedCovers,
    own: &mut OwnLists,
    place: usize,
) -> Result<(), SavingsFault>
    requires sound { IsSound (circuit_of work.now) }
    requires free { IsNewName (circuit_of work.now) name.now }
    requires index { IsIndex work.now index.now }
    requires known { AreTrue rule work.now ranked.old own.old.items }
    ensures known { OnOk result (AreTrue rule work.now ranked.new own.new.items) }
    ensures stays { OnOk result ((at : ℕ) → IsListed own.old.items at → IsListed own.new.items at) }
    ensures listed { OnOk result (place < length work.now.slots → IsListed own.new.items place) }
    ensures stopped { IfErr result (IsUnlisted rule (circuit_of work.now)) }
{
    if is_listed(own, place) {
        return Ok(());
    }
    let covers = own_made(alloc, work, rule, place)?;
    note_all(alloc, work, index, name, ranked, covers.as_slice())?;
    let shared = shared_here(alloc, work, rule, own, place)?;
    note_all(alloc, work, index, name, ranked, shared.as_slice())?;
    let listed = CoverSet::of(alloc, covers)?;
    put_list(own, place, listed);
    Ok(())
}

/// Lists what the tables at indices give, and sets what that saves. `ManyKernels` with the name of
/// the first table that has too many kernels.
pub(crate) fn list_places<R: Row>(
    alloc: Global,
    work: &WorkingNetwork<R>,
    index: &RowIndex,
    rule: Rule,
    name: &Name,
    ranked: &mut RankedCovers,
    own: &mut OwnLists,
    places: &[usize],
) -> Result<(), SavingsFault>
    requires sound { IsSound (circuit_of work.now) }
    requires free { IsNewName (circuit_of work.now) name.now }
    requires index { IsIndex work.now index.now }
    requires known { AreTrue rule work.now ranked.old own.old.items }
    ensures known { OnOk result (AreTrue rule work.now ranked.new own.new.items) }
    ensures stays { OnOk result ((at : ℕ) → IsListed own.old.items at → IsListed own.new.items at) }
    ensures listed { OnOk result ((at : ℕ) → is_in places.now at ≡ true → at < length work.now.slots
        → IsListed own.new.items at) }
    ensures stopped { IfErr result (IsUnlisted rule (circuit_of work.now)) }
{
    for place in places {
        list_place(alloc, work, index, rule, name, ranked, own, *place)?;
    }
    Ok(())
}
