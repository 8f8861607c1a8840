//! The divisions that save literals, kept while tables change one after the other.
//!
//! Source: Brayton, Rudell, Sangiovanni-Vincentelli and Wang, "MIS: A Multiple-Level Logic
//! Optimization System" (1987). Before a table changes the divisions of it and by it are removed
//! (`leave`), and after the change they are computed and added (`come`). Callers rely on `IsKept`:
//! the queue has exactly the divisions that save a literal, and all tables are listed; between the
//! two calls that holds of all tables but one (`IsKeptBeside`).

ghost use Rattle.std.specs.Prelude.{◌≡◌, ◌&&◌, ◌||◌, not, Bool, true, IfOk, OnOk};
ghost use Rattle.net_resub.specs.Divisions.{is_of, is_among, Savings, HasJust};
ghost use Rattle.net_resub.specs.Kept.{IsKept, IsKeptBeside};
ghost use Rattle.net_resub.specs.Pairs.{saving_at};
ghost use Rattle.net_resub.specs.declared.divisions.Division.{Division};

use crate::candidates::{divisions_by, divisions_with};
use crate::divisions::{Division, Divisions, put, take};
use crate::listed::DivisorLists;
use crate::pairs::saving_at;
use cube_cover::Row;
use net_work::WorkingNetwork;
use std::alloc::{AllocError, Global};

/// The divisions of a network that save literals, in their order, and the lists in which its tables
/// are found as divisors.
#[derive(Drop)]
pub(crate) struct Kept {
    pub(crate) divisions: Divisions,
    pub(crate) lists: DivisorLists,
}

// Adds a division to a queue, if it saves literals.
fn put_one<R: Row>(
    alloc: Global,
    work: &WorkingNetwork<R>,
    division: Division,
    divisions: &mut Divisions,
) -> Result<(), AllocError>
    ensures { OnOk result ((test : Division → Bool) → HasJust test
        (saving_at work.now.slots) divisions.old
        → HasJust (λ other. test other || is_of division other) (saving_at work.now.slots) divisions.new) }
{
    let saving = saving_at(alloc, work, division.place, division.by)?;
    put(alloc, divisions, division, saving)
}

// Adds those of some divisions that save literals to a queue.
fn put_all<R: Row>(
    alloc: Global,
    work: &WorkingNetwork<R>,
    come: &[Division],
    divisions: &mut Divisions,
) -> Result<(), AllocError>
    ensures { OnOk result ((test : Division → Bool) → HasJust test
        (saving_at work.now.slots) divisions.old
        → HasJust (λ division. test division || is_among come.now division) (saving_at work.now.slots) divisions.new) }
{
    for division in come {
        put_one(alloc, work, *division, divisions)?;
    }
    Ok(())
}

// Removes divisions from a queue.
fn take_all(gone: &[Division], divisions: &mut Divisions)
    ensures { (test : Division → Bool) (savings : Savings) → HasJust test savings divisions.old
        → HasJust (λ division. test division && not (is_among gone.now division)) savings divisions.new }
{
    for division in gone {
        take(divisions, *division);
    }
}

// All divisions of a network that save literals.
fn all_divisions<R: Row>(alloc: Global, work: &WorkingNetwork<R>) -> Result<Divisions, AllocError>
    ensures { IfOk result (HasJust (λ division. true) (saving_at work.now.slots)) }
{
    let mut divisions = Divisions::new(alloc);
    for by in 0..work.len() {
        let come = divisions_by(alloc, work, by)?;
        put_all(alloc, work, come.as_slice(), &mut divisions)?;
    }
    Ok(divisions)
}

impl Kept {
    /// The queue and the lists of a network.
    pub(crate) fn of<R: Row>(alloc: Global, work: &WorkingNetwork<R>) -> Result<Kept, AllocError>
        ensures { IfOk result (IsKept work.now.slots) }
    {
        let lists = DivisorLists::of(alloc, work)?;
        let divisions = all_divisions(alloc, work)?;
        Ok(Kept { divisions, lists })
    }

    /// Removes the divisions with the table at an index, which is about to change. After an error
    /// anything may be kept.
    pub(crate) fn leave<R: Row>(
        &mut self,
        alloc: Global,
        work: &WorkingNetwork<R>,
        place: usize,
    ) -> Result<(), AllocError>
        requires { IsKept work.now.slots self.old }
        ensures { OnOk result (IsKeptBeside place work.now.slots self.new) }
    {
        let gone = divisions_with(alloc, work, place, &self.lists)?;
        take_all(gone.as_slice(), &mut self.divisions);
        Ok(())
    }

    /// Adds the divisions with the table at an index, which has changed. After an error anything
    /// may be kept.
    pub(crate) fn come<R: Row>(
        &mut self,
        alloc: Global,
        work: &WorkingNetwork<R>,
        place: usize,
    ) -> Result<(), AllocError>
        requires { IsKeptBeside place work.now.slots self.old }
        ensures { OnOk result (IsKept work.now.slots self.new) }
    {
        self.lists.list_divisor(alloc, work, place)?;
        let come = divisions_with(alloc, work, place, &self.lists)?;
        put_all(alloc, work, come.as_slice(), &mut self.divisions)
    }
}
