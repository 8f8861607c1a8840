//! Converts a divisor to a cover of names, and tests whether it is admissible.
//!
//! Callers rely on none exactly if the divisor is no cover of the names, or its cover is not
//! admissible.

ghost use Rattle.std.specs.Prelude.{◌≡◌, ◌≤◌, IfOk, MatchOption};
ghost use Rattle.net_gains.specs.Divisors.{cover_of};
ghost use Rattle.net_candidates.specs.Candidates.{literals_in};
ghost use Rattle.net_gains.specs.Numbers.{Fails, DoesPass};

use crate::SharedDivisor;
use crate::codes::Codes;
use crate::trial::Trial;
use cover_names::NamedCover;
use std::alloc::{AllocError, Global};

/// The cover of a divisor that has a literal, if there is one and it is admissible.
pub(crate) fn passing_cover<T: Trial>(
    alloc: Global,
    codes: &Codes,
    trial: &T,
    divisor: &SharedDivisor,
) -> Result<Option<NamedCover>, AllocError>
    requires ready { T.IsReady trial.now }
    requires some { 1 ≤ literals_in (cover_of divisor.now) }
    ensures { IfOk result (λ found. MatchOption found
        (Fails (T.Passes trial.now) codes.now (cover_of divisor.now))
        (DoesPass (T.Passes trial.now) codes.now (cover_of divisor.now))) }
{
    codes.sound();
    let numbers = divisor.cubes(alloc)?;
    match codes.cover(alloc, numbers.as_slice())? {
        None => Ok(None),
        Some(cover) => {
            if trial.passes(alloc, &cover)? {
                Ok(Some(cover))
            } else {
                Ok(None)
            }
        }
    }
}
