//! The questions asked of an incompletely specified function: whether a row meets the off-set, and
//! whether it has a point of the on-set that no other row has. Callers rely on exact answers, and
//! on `Stays`: a question changes neither the meaning nor the refusals.

ghost use Rattle.std.specs.Prelude.{◌≡◌, length, IfOk, OnOk, Err};
ghost use Rattle.cover_min.specs.Points.{has_point, has_own_point};
ghost use Rattle.cover_min.specs.Minimum.{Meaning};
ghost use Rattle.cover_min.specs.Refusals.{Refusals, SameRefusals};

use cube_cover::{Cover, Row};
use std::alloc::{AllocError, Global};

/// Why an oracle does not answer.
#[derive(Clone, Copy, Debug, PartialEq, Eq, Drop)]
pub enum OracleFault {
    /// The oracle refuses the test.
    Refused,
    /// There is not enough memory.
    Memory,
}

impl From<AllocError> for OracleFault {
    ghost use Rattle.std.specs.Prelude.{◌≡◌};
    ghost use Rattle.cover_min.specs.declared.oracle.OracleFault.TheVariants.{Memory};

    ghost from_gives = { λ _ fault. fault ≡ Memory };

    fn from(_error: AllocError) -> OracleFault {
        OracleFault::Memory
    }
}

/// A function with don't-care points, which contracts see as its meaning.
///
/// An oracle that is ready answers. A question preserves what `Stays` says, even if there is no
/// answer: at least the meaning, the refusals and the readiness, and more for an oracle over a
/// borrowed object. A question is refused exactly if the refusals say so.
pub trait Oracle<R: Row> {
    ghost meaning: { Self → Meaning };

    ghost refusals: { Self → Refusals };

    ghost IsReady: { Self → Type 0 };

    ghost Stays: { Self → Self → Type 0 };

    /// Whether the row has a point at which the function must be 0. The row has the function's
    /// width.
    fn meets_off(&mut self, alloc: Global, row: &R) -> Result<bool, OracleFault>
        requires ready { IsReady self.old }
        requires width { length (R.literals row.now) ≡ (meaning self.old).width }
        ensures stays { Stays self.old self.new }
        ensures answer { IfOk result (λ answer.
            answer ≡ has_point (meaning self.old).off (R.literals row.now)) }
        ensures passed { OnOk result ((refusals self.old).off (R.literals row.now) → ⊥) }
        ensures refused { result ≡ Err OracleFault.Refused
            → (refusals self.old).off (R.literals row.now) };

    /// Whether the row has a point at which the function must be 1 and that no row of the others
    /// has. All have the function's width.
    fn has_own_point(
        &mut self,
        alloc: Global,
        row: &R,
        others: &Cover<R>,
    ) -> Result<bool, OracleFault>
        requires ready { IsReady self.old }
        requires row { length (R.literals row.now) ≡ (meaning self.old).width }
        requires others { others.now.width ≡ (meaning self.old).width }
        ensures stays { Stays self.old self.new }
        ensures answer { IfOk result (λ answer.
            answer ≡ has_own_point (meaning self.old).on (R.literals row.now) others.now.rows) }
        ensures passed { OnOk result (
            (refusals self.old).own (R.literals row.now) others.now.rows → ⊥) }
        ensures refused { result ≡ Err OracleFault.Refused
            → (refusals self.old).own (R.literals row.now) others.now.rows };

    ghost reflexive: { (state : Self) → Stays state state };

    ghost transitive: { (first then last : Self)
        → Stays first then → Stays then last → Stays first last };

    ghost ready_stays: { (before after : Self)
        → Stays before after → IsReady before → IsReady after };

    ghost meaning_stays: { (before after : Self)
        → Stays before after → meaning after ≡ meaning before };

    ghost refusals_stay: { (before after : Self)
        → Stays before after → SameRefusals (refusals before) (refusals after) };
}
