//! A cover with ties, as an oracle.
//!
//! Source: De Micheli, "Synthesis and Optimization of Digital Circuits", chapter 8 (satisfiability
//! don't-care conditions). Promised: each answer is exact, and no test is refused.

ghost use Rattle.std.specs.Prelude.{◌≡◌, not, ◌&&◌, ◌++◌, length, map, IfOk, OnOk};
ghost use Rattle.std.specs.List.{AllByRecursion};
ghost use Rattle.sis_base.specs.Rows.{some_matches, HasWidth};
ghost use Rattle.cover_min.specs.Points.{has_point, has_own_point};
ghost use Rattle.cover_search.specs.Ties.{AreWide, keeps_all};
ghost use Rattle.cover_search.specs.Views.{tie_of};
ghost use Rattle.cover_search.specs.Searches.{constraint_of, meeting_rows};

use crate::constraint::Constraint;
use crate::narrow::rows_within;
use crate::search::is_satisfiable;
use cover_min::{Oracle, OracleFault};
use cube_cover::{Cover, Row};
use std::alloc::{AllocError, Global};
use std::marker::Model;

/// The bit in column `place` is the value of the cover by the phase.
#[derive(Drop)]
pub struct NodeConstraint<R: Row> {
    pub place: usize,
    pub cover: Cover<R>,
    pub phase: bool,
}

/// A cover, and ties between columns and other covers, all of one width.
#[derive(Drop)]
pub struct TiedCover<R: Row> {
    cover: Cover<R>,
    ties: Vec<NodeConstraint<R>>,
}

impl<R: Row> Model for TiedCover<R> {
    ghost use Rattle.std.specs.Prelude.{◌≡◌, map};
    ghost use Rattle.std.specs.List.{AllByRecursion};
    ghost use Rattle.cover_search.specs.Ties.{Tied};
    ghost use Rattle.cover_search.specs.Views.{tie_of};

    ghost Value = { Tied };

    ghost view = { λ tied. record { width = tied.cover.width; rows = tied.cover.rows; ties = map tie_of tied.ties.items } };

    ghost invariant = { λ tied. AllByRecursion (λ tie. tie.cover.width ≡ tied.cover.width) tied.ties.items };
}

impl<R: Row> TiedCover<R> {
    /// The cover with ties to covers of its width; allocates nothing.
    pub fn new(cover: Cover<R>, ties: Vec<NodeConstraint<R>>) -> TiedCover<R>
        requires { AllByRecursion (λ tie. tie.cover.width ≡ cover.width) ties.items }
        ensures { result ≡ record {
          width = cover.width;
          rows = cover.rows;
          ties = map tie_of
              ties.items;
        } }
    {
        TiedCover { cover, ties }
    }
}

// The constraint that a cover gives a bit, or the bit that a tie wants, for the rows that meet the
// given row.
fn constraint_within<'a, R: Row>(
    alloc: Global,
    given: &R,
    cover: &'a Cover<R>,
    tie: Option<usize>,
    bit: bool,
) -> Result<Constraint<'a, R>, AllocError>
    requires { cover.now.width ≡ length (R.literals given.now) }
    ensures constraint { IfOk result (λ constraint. constraint
        ≡ record {
          tie = tie;
          bit = bit;
          rows = meeting_rows
              (R.literals given.now) cover.now.rows;
        }) }
    ensures wide { HasWidth (length (R.literals given.now)) cover.now.rows }
{
    let rows = cover.rows();
    let kept = rows_within(alloc, given, rows)?;
    Ok(Constraint::new(tie, bit, kept))
}

// Appends a constraint for each tie.
fn add_ties<'a, R: Row>(
    alloc: Global,
    given: &R,
    ties: &'a [NodeConstraint<R>],
    constraints: &mut Vec<Constraint<'a, R>>,
) -> Result<(), AllocError>
    requires { AllByRecursion (λ tie. tie.cover.width ≡ length (R.literals given.now)) ties.now }
    ensures constraints { OnOk result (constraints.new.items ≡ constraints.old.items ++ map
        (constraint_of (R.literals given.now)) (map tie_of ties.now)) }
    ensures wide { OnOk result (AreWide (length (R.literals given.now)) (map tie_of ties.now)) }
{
    for tie in ties {
        let constraint = constraint_within(alloc, given, &tie.cover, Some(tie.place), tie.phase)?;
        constraints.push(constraint)?;
    }
    Ok(())
}

// Whether the row has a point at which a cover gives 0 and all ties hold.
fn has_off_point<R: Row>(
    alloc: Global,
    given: &R,
    cover: &Cover<R>,
    ties: &[NodeConstraint<R>],
) -> Result<bool, AllocError>
    requires cover { cover.now.width ≡ length (R.literals given.now) }
    requires ties { AllByRecursion (λ tie. tie.cover.width ≡ length (R.literals given.now)) ties.now }
    ensures { IfOk result (λ answer. answer ≡ has_point
        (λ point. not (some_matches cover.now.rows point) && keeps_all (map tie_of ties.now) point)
        (R.literals given.now)) }
{
    let no_row = constraint_within(alloc, given, cover, None, false)?;
    let mut constraints = Vec::new(alloc);
    constraints.push(no_row)?;
    add_ties(alloc, given, ties, &mut constraints)?;
    let answer = is_satisfiable(alloc, given, constraints.as_slice())?;
    Ok(answer)
}

// Whether the row has a point at which a cover gives 1, others give 0 and all ties hold.
fn has_on_point<R: Row>(
    alloc: Global,
    given: &R,
    cover: &Cover<R>,
    others: &Cover<R>,
    ties: &[NodeConstraint<R>],
) -> Result<bool, AllocError>
    requires cover { cover.now.width ≡ length (R.literals given.now) }
    requires others { others.now.width ≡ length (R.literals given.now) }
    requires ties { AllByRecursion (λ tie. tie.cover.width ≡ length (R.literals given.now)) ties.now }
    ensures { IfOk result (λ answer. answer ≡ has_own_point
        (λ point. some_matches cover.now.rows point && keeps_all (map tie_of ties.now) point)
        (R.literals given.now) others.now.rows) }
{
    let no_other = constraint_within(alloc, given, others, None, false)?;
    let some_row = constraint_within(alloc, given, cover, None, true)?;
    let mut constraints = Vec::new(alloc);
    constraints.push(no_other)?;
    constraints.push(some_row)?;
    add_ties(alloc, given, ties, &mut constraints)?;
    let answer = is_satisfiable(alloc, given, constraints.as_slice())?;
    Ok(answer)
}

impl<R: Row> Oracle<R> for TiedCover<R> {
    ghost use Rattle.std.specs.Prelude.{◌≡◌, refl};
    ghost use Rattle.std.proofs.Common.{ap, ◌∙◌};
    ghost use Rattle.cover_min.specs.Refusals.{no_refusals};
    ghost use Rattle.cover_search.specs.Ties.{meaning_of};

    ghost meaning = { λ tied. meaning_of tied };

    ghost refusals = { λ tied. no_refusals };

    ghost IsReady = { λ tied. Unit {0} };

    ghost Stays = { λ before after. after ≡ before };

    ghost reflexive = { λ state. refl };

    ghost transitive = { λ first then last earlier later. later ∙ earlier };

    ghost ready_stays = { λ before after stays ready. ready };

    ghost meaning_stays = { λ before after stays. ap meaning_of stays };

    ghost refusals_stay = { λ before after stays. record { off = λ row. (λ h. h, λ h. h); own = λ row others. (λ h. h, λ h. h) } };

    /// Whether the row has a point at which the cover gives 0 and all ties hold.
    fn meets_off(&mut self, alloc: Global, row: &R) -> Result<bool, OracleFault> {
        let answer = has_off_point(alloc, row, &self.cover, self.ties.as_slice())?;
        Ok(answer)
    }

    /// Whether the row has a point of its own at which the cover gives 1 and all ties hold.
    fn has_own_point(
        &mut self,
        alloc: Global,
        row: &R,
        others: &Cover<R>,
    ) -> Result<bool, OracleFault> {
        let answer = has_on_point(alloc, row, &self.cover, others, self.ties.as_slice())?;
        Ok(answer)
    }
}
