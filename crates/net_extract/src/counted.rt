//! The best candidate of `fx`, by the gains that are kept.
//!
//! The gains say what a divisor saves; a cover is admissible if no table has too many inputs after
//! it is extracted. Callers rely on exactly the best candidate, and on none exactly if extraction
//! is done.

ghost use Rattle.std.specs.Prelude.{◌≡◌, IfOk, MatchOption};
ghost use Rattle.circuit_model.specs.Soundness.{IsSound};
ghost use Rattle.net_candidates.specs.Extracting.{IsNext, IsDone};
ghost use Rattle.net_candidates.specs.declared.rule.Rule.TheVariants.{Fx};
ghost use Rattle.net_core.specs.Fresh.{IsNewName};
ghost use Rattle.net_work.specs.Placed.{circuit_of};
ghost use Rattle.net_extract.specs.Known.{IsCounted};

use circuit_model::Name;
use cover_names::NamedCover;
use cube_cover::Row;
use net_gains::pair_laws::{gains_are_what_tables_lose, what_gains_is_a_candidate};
use net_gains::{DivisorGains, Trial};
use net_savings::fits_input_limit;
use net_work::WorkingNetwork;
use std::alloc::{AllocError, Global};

// The test of `fx`: whether a cover, extracted from a network under a name, leaves no table with
// too many inputs. What it saves is known from the gains.
#[derive(Drop)]
struct NarrowTrial<'a, R: Row> {
    work: &'a WorkingNetwork<R>,
    name: &'a Name,
}

impl<'a, R: Row> Trial for NarrowTrial<'a, R> {
    ghost use Rattle.circuit_model.specs.Soundness.{IsSound};
    ghost use Rattle.net_core.specs.Fresh.{IsNewName};
    ghost use Rattle.net_work.specs.Placed.{standing, circuit_of};
    ghost use Rattle.net_savings.specs.Saving.{LeavesNarrow};

    ghost IsReady = { λ t. IsSound (circuit_of t.work.now) × IsNewName (circuit_of t.work.now) t.name.now };

    ghost Passes = { λ t cover. LeavesNarrow (standing t.work.now.slots) t.name.now cover };

    fn passes(&self, alloc: Global, cover: &NamedCover) -> Result<bool, AllocError> {
        fits_input_limit(alloc, self.work, self.name, cover.as_slice())
    }
}

/// The best candidate of `fx` under a new name, by the gains of all tables; none if none saves a
/// literal.
pub(crate) fn best_counted<R: Row>(
    alloc: Global,
    work: &WorkingNetwork<R>,
    name: &Name,
    gains: &DivisorGains,
) -> Result<Option<NamedCover>, AllocError>
    requires sound { IsSound (circuit_of work.now) }
    requires free { IsNewName (circuit_of work.now) name.now }
    requires counted { IsCounted work.now.slots gains.now }
    ensures { IfOk result (λ found. MatchOption found (IsDone Fx (circuit_of work.now))
        (IsNext Fx (circuit_of work.now) name.now)) }
{
    gains_are_what_tables_lose();
    what_gains_is_a_candidate();
    let trial = NarrowTrial { work, name };
    gains.first(alloc, &trial)
}
