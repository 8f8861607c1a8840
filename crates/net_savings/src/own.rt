//! The candidates that the table at an index of a working network gives by itself.
//!
//! Callers rely on `AreOwn`: exactly these candidates, none if there is no table. `ManyKernels` has
//! the name of the first table of the network that has too many kernels, whichever index was asked
//! for.

ghost use Rattle.std.specs.Prelude.{◌≡◌, IfOk, IfErr};
ghost use Rattle.std.specs.List.{AllByRecursion};
ghost use Rattle.net_candidates.specs.Extracting.{IsListable};
ghost use Rattle.net_core.specs.Places.{written_of};
ghost use Rattle.net_core.specs.Tables.{IsOverInputs};
ghost use Rattle.net_work.specs.Placed.{standing, circuit_of, table_at};
ghost use Rattle.net_savings.specs.Listing.{AreOwn, IsMany, IsManyIn, IsUnlisted};

use crate::fault::SavingsFault;
use cover_names::NamedCover;
use cube_cover::Row;
use net_candidates::{ListFault, Rule, own_candidates};
use net_core::Entry;
use net_work::WorkingNetwork;
use sis_base::Copied;
use std::alloc::Global;

// What a table gives by itself.
fn own_of<R: Row>(
    alloc: Global,
    rule: Rule,
    entry: &Entry<R>,
) -> Result<Vec<NamedCover>, SavingsFault>
    requires { IsOverInputs entry.now.table }
    ensures own { IfOk result (λ own. AreOwn rule (Some (written_of entry.now)) own.items) }
    ensures many { IfErr result (IsMany rule (written_of entry.now)) }
{
    match own_candidates(alloc, rule, &entry.table) {
        Ok(own) => Ok(own),
        Err(ListFault::ManyKernels) => {
            let name = entry.output.copy(alloc)?;
            Err(SavingsFault::ManyKernels(name))
        }
        Err(ListFault::Memory) => Err(SavingsFault::Memory),
    }
}

// What the table at an index gives by itself.
fn own_at<R: Row>(
    alloc: Global,
    work: &WorkingNetwork<R>,
    rule: Rule,
    place: usize,
) -> Result<Vec<NamedCover>, SavingsFault>
    ensures own { IfOk result (λ own. AreOwn rule (table_at work.now.slots place) own.items) }
    ensures many { IfErr result (IsManyIn rule (table_at work.now.slots place)) }
{
    match work.entry(place) {
        None => Ok(Vec::new(alloc)),
        Some(entry) => own_of(alloc, rule, entry),
    }
}

// The first table with too many kernels, or `Memory` if memory runs out.
fn first_many<R: Row>(alloc: Global, work: &WorkingNetwork<R>, rule: Rule) -> SavingsFault
    requires { AllByRecursion (IsListable rule) (standing work.now.slots) → ⊥ }
    ensures { IsUnlisted rule (circuit_of work.now) result }
{
    for place in 0..work.len() {
        match own_at(alloc, work, rule, place) {
            Ok(_covers) => {}
            Err(fault) => return fault,
        }
    }
    unreachable!()
}

/// What the table at an index gives by itself; `ManyKernels` with the name of the first table of
/// the network that has too many kernels.
pub(crate) fn own_made<R: Row>(
    alloc: Global,
    work: &WorkingNetwork<R>,
    rule: Rule,
    place: usize,
) -> Result<Vec<NamedCover>, SavingsFault>
    ensures own { IfOk result (λ covers. AreOwn rule (table_at work.now.slots place) covers.items) }
    ensures stopped { IfErr result (IsUnlisted rule (circuit_of work.now)) }
{
    match own_at(alloc, work, rule, place) {
        Ok(covers) => Ok(covers),
        Err(SavingsFault::ManyKernels(_name)) => Err(first_many(alloc, work, rule)),
        Err(fault) => Err(fault),
    }
}
