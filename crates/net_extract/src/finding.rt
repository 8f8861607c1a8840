//! The best candidate of a network: by gains for `fx` if they are counted, else by savings.
//!
//! Savings are computed from the first search that needs them. Callers rely on exactly the best
//! candidate, whichever way it is found, and on gains and savings that are those of the network
//! afterwards.

ghost use Rattle.std.specs.Prelude.{◌≡◌, IfOk, IfErr, OnOk, MatchOption};
ghost use Rattle.circuit_model.specs.Soundness.{IsSound};
ghost use Rattle.net_candidates.specs.Extracting.{IsNext, IsDone};
ghost use Rattle.net_savings.specs.Savings.{AreSavings};
ghost use Rattle.net_core.specs.Fresh.{IsNewName};
ghost use Rattle.net_work.specs.Placed.{circuit_of};
ghost use Rattle.net_extract.specs.Going.{IsStopped};
ghost use Rattle.net_extract.specs.Known.{AreCounted, AreSaved};

use crate::counted::best_counted;
use crate::fault::ExtractFault;
use crate::known::Known;
use circuit_model::Name;
use cover_names::NamedCover;
use cube_cover::Row;
use net_candidates::Rule;
use net_savings::{CandidateQueue, best_saved};
use net_work::WorkingNetwork;
use std::alloc::{AllocError, Global};

// The savings of candidates; new ones if none are kept.
fn savings_of<R: Row>(
    alloc: Global,
    work: &WorkingNetwork<R>,
    rule: Rule,
    kept: Option<CandidateQueue>,
) -> Result<CandidateQueue, AllocError>
    requires { AreSaved rule work.now kept }
    ensures { IfOk result (AreSavings rule work.now) }
{
    match kept {
        None => CandidateQueue::begin(alloc, work),
        Some(kept) => Ok(kept),
    }
}

// The best candidate of a network under a new name, by savings.
fn best_by_savings<R: Row>(
    alloc: Global,
    work: &WorkingNetwork<R>,
    rule: Rule,
    name: &Name,
    known: &mut Known,
) -> Result<Option<NamedCover>, ExtractFault>
    requires sound { IsSound (circuit_of work.now) }
    requires free { IsNewName (circuit_of work.now) name.now }
    requires saved { AreSaved rule work.now known.old.savings }
    ensures known { known.new.gains ≡ known.old.gains }
    ensures saved { OnOk result (AreSaved rule work.now known.new.savings) }
    ensures found { IfOk result (λ found. MatchOption found (IsDone rule (circuit_of work.now))
        (IsNext rule (circuit_of work.now) name.now)) }
    ensures stopped { IfErr result (IsStopped rule (circuit_of work.now)) }
{
    let mut kept = savings_of(alloc, work, rule, known.savings.take())?;
    let found = best_saved(alloc, work, rule, name, &mut kept)?;
    known.savings = Some(kept);
    Ok(found)
}

/// The best candidate of a network under a new name: of `fx` by the gains if they are known, else
/// by savings. None if none saves a literal. `KernelLimit` with the name of the first table that
/// has too many kernels.
pub(crate) fn best_known<R: Row>(
    alloc: Global,
    work: &WorkingNetwork<R>,
    rule: Rule,
    name: &Name,
    known: &mut Known,
) -> Result<Option<NamedCover>, ExtractFault>
    requires sound { IsSound (circuit_of work.now) }
    requires free { IsNewName (circuit_of work.now) name.now }
    requires known { AreCounted work.now.slots known.old.gains }
    requires saved { AreSaved rule work.now known.old.savings }
    ensures known { OnOk result (AreCounted work.now.slots known.new.gains) }
    ensures saved { OnOk result (AreSaved rule work.now known.new.savings) }
    ensures found { IfOk result (λ found. MatchOption found (IsDone rule (circuit_of work.now))
        (IsNext rule (circuit_of work.now) name.now)) }
    ensures stopped { IfErr result (IsStopped rule (circuit_of work.now)) }
{
    match (rule, &known.gains) {
        (Rule::Fx, Some(gains)) => Ok(best_counted(alloc, work, name, gains)?),
        _ => best_by_savings(alloc, work, rule, name, known),
    }
}
