//! Cases of cover minimization by an oracle: by the cover itself, or by `Refusing`, an oracle that
//! refuses each question and so shows what is done with a refusal.

use crate::rows::put_made;
use cover_min::{Oracle, OracleFault, prime_irredundant};
use cover_search::TiedCover;
use cube_cover::{Cover, Row};
use sis_base::Copied;
use std::alloc::Global;
use trial_cases::CaseFault;

/// An oracle of a width that refuses each question.
#[derive(Drop)]
struct Refusing {
    width: usize,
}

impl<R: Row> Oracle<R> for Refusing {
    ghost use Rattle.std.specs.Prelude.{◌≡◌, ℕ, false, refl};
    ghost use Rattle.std.proofs.Common.{ap, ◌∙◌};

    ghost meaning = { λ refusing.
        record { width = refusing.width; on = λ point. false; off = λ point. false } };

    ghost refusals = { λ refusing.
        record { off = λ row. Unit {0}; own = λ row others. Unit {0} } };

    ghost IsReady = { λ refusing. Unit {0} };

    ghost Stays = { λ before after. after.width ≡ before.width };

    ghost reflexive = { λ state. refl };

    ghost transitive = { λ first then last earlier later. later ∙ earlier };

    ghost ready_stays = { λ before after stays ready. ready };

    ghost meaning_stays = { λ before after stays. ap (λ (places : ℕ).
        record { width = places; on = λ point. false; off = λ point. false }) stays };

    ghost refusals_stay = { λ before after stays.
        record { off = λ row. (λ h. h, λ h. h); own = λ row others. (λ h. h, λ h. h) } };

    fn meets_off(&mut self, _alloc: Global, _row: &R) -> Result<bool, OracleFault> {
        Err(OracleFault::Refused)
    }

    fn has_own_point(
        &mut self,
        _alloc: Global,
        _row: &R,
        _others: &Cover<R>,
    ) -> Result<bool, OracleFault> {
        Err(OracleFault::Refused)
    }
}

/// Appends the minimum of a cover by the cover itself.
pub fn put_least<R: Row>(alloc: Global, out: &mut Vec<u8>, f: &Cover<R>) -> Result<(), CaseFault> {
    let mut oracle = TiedCover::new(f.copy(alloc)?, Vec::new(alloc));
    let least = prime_irredundant(alloc, f.copy(alloc)?, &mut oracle);
    put_made(alloc, out, &least)
}

/// Appends the minimum of a cover by an oracle that refuses each question.
pub fn put_refused<R: Row>(
    alloc: Global,
    out: &mut Vec<u8>,
    f: &Cover<R>,
) -> Result<(), CaseFault> {
    let mut oracle = Refusing { width: f.width() };
    let least = prime_irredundant(alloc, f.copy(alloc)?, &mut oracle);
    put_made(alloc, out, &least)
}
