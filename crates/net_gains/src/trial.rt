//! The trait of tests whether a cover is admissible.

ghost use Rattle.std.specs.Prelude.{◌≡◌, ◌≤◌, true, false, IfOk};
ghost use Rattle.cover_names.specs.Literals.{NamedCover};
ghost use Rattle.net_candidates.specs.Candidates.{literals_in};

use cover_names::NamedCover;
use std::alloc::{AllocError, Global};

/// A test whether covers are admissible.
pub trait Trial {
    ghost IsReady: { Self → Type 0 };

    ghost Passes: { Self → NamedCover → Type 0 };

    /// Whether a cover that has a literal is admissible, if the test is ready.
    fn passes(&self, alloc: Global, cover: &NamedCover) -> Result<bool, AllocError>
        requires ready { IsReady self.now }
        requires some { 1 ≤ literals_in cover.now }
        ensures yes { IfOk result (λ answer. answer ≡ true → Passes self.now cover.now) }
        ensures no { IfOk result (λ answer. answer ≡ false → Passes self.now cover.now → ⊥) };
}
