//! Computes and sets what covers save: again for covers under touched names that rows of changed
//! tables meet, and for covers that are not known.
//!
//! A cover is found under the name of its literals that fewest tables read, counted when its saving
//! was first set; no clause says which name it is. Callers rely on `IsGrown`: savings that are
//! right stay right, and savings that are set stay set. The name for the new signal is given; a
//! saving is the same under any name that no signal has.

ghost use Rattle.std.specs.Prelude.{◌≡◌, ℕ, ◌≤◌, true, List, IfOk, OnOk};
ghost use Rattle.circuit_model.specs.Names.{has};
ghost use Rattle.circuit_model.specs.Soundness.{IsSound};
ghost use Rattle.alg_div.specs.Cubes.{Has};
ghost use Rattle.cover_names.specs.Literals.{NamedCover};
ghost use Rattle.net_core.specs.Fresh.{IsNewName};
ghost use Rattle.net_work.specs.Placed.{circuit_of};
ghost use Rattle.net_savings.specs.Indexed.{IsIndex};
ghost use Rattle.net_savings.specs.Meeting.{is_met};
ghost use Rattle.net_savings.specs.Ranking.{saving_in, covers_under};
ghost use Rattle.net_candidates.specs.Candidates.{literals_in};
ghost use Rattle.net_savings.specs.Savings.{IsRight, IsNoted, AreFound, IsGrown};

use crate::covers::RankedCovers;
use crate::marks::RowMarks;
use crate::ordered::OrderedCover;
use crate::rows::RowIndex;
use crate::saving::{rarest_name, saving_of};
use circuit_model::Name;
use cover_names::{Cube, NamedCover};
use cube_cover::Row;
use net_work::WorkingNetwork;
use sis_base::Copied;
use std::alloc::{AllocError, Global};

// Sets what a cover saves, under a name of it if it is not known yet.
fn renew<R: Row>(
    alloc: Global,
    work: &WorkingNetwork<R>,
    index: &RowIndex,
    name: &Name,
    ranked: &mut RankedCovers,
    cover: &OrderedCover,
) -> Result<(), AllocError>
    requires sound { IsSound (circuit_of work.now) }
    requires free { IsNewName (circuit_of work.now) name.now }
    requires index { IsIndex work.now index.now }
    requires some { 1 ≤ literals_in cover.now }
    ensures grown { OnOk result (IsGrown work.now ranked.old ranked.new) }
    ensures right { OnOk result (IsRight work.now (saving_in ranked.new) cover.now) }
    ensures noted { OnOk result (IsNoted (saving_in ranked.new) cover.now) }
{
    let cubes = cover.get().as_slice();
    let saving = saving_of(alloc, work, index, name, cubes)?;
    match rarest_name(work, cubes) {
        None => unreachable!(),
        Some(found) => {
            ranked.set(alloc, cover, found, saving.unwrap_or(0))?;
            Ok(())
        }
    }
}

// Recomputes what the covers under a name that rows meet save.
fn renew_under<R: Row>(
    alloc: Global,
    work: &WorkingNetwork<R>,
    index: &RowIndex,
    name: &Name,
    ranked: &mut RankedCovers,
    rows: &RowMarks,
    touched: &Name,
) -> Result<(), AllocError>
    requires sound { IsSound (circuit_of work.now) }
    requires free { IsNewName (circuit_of work.now) name.now }
    requires index { IsIndex work.now index.now }
    requires found { AreFound (saving_in ranked.old) (covers_under ranked.old) }
    ensures grown { OnOk result (IsGrown work.now ranked.old ranked.new) }
    ensures right { OnOk result ((cover : NamedCover) → is_met rows.now cover ≡ true → Has cover
        (covers_under ranked.new touched.now) → IsRight work.now (saving_in ranked.new) cover) }
{
    let covers = ranked.met_under(alloc, touched, rows)?;
    for cover in &covers {
        renew(alloc, work, index, name, ranked, cover)?;
    }
    Ok(())
}

/// Recomputes what the covers under names that some rows meet save.
pub(crate) fn renew_touched<R: Row>(
    alloc: Global,
    work: &WorkingNetwork<R>,
    index: &RowIndex,
    name: &Name,
    ranked: &mut RankedCovers,
    changed: Vec<Cube>,
    touched: &[Name],
) -> Result<(), AllocError>
    requires sound { IsSound (circuit_of work.now) }
    requires free { IsNewName (circuit_of work.now) name.now }
    requires index { IsIndex work.now index.now }
    requires found { AreFound (saving_in ranked.old) (covers_under ranked.old) }
    ensures grown { OnOk result (IsGrown work.now ranked.old ranked.new) }
    ensures right { OnOk result ((under : List ℕ) (cover : NamedCover) → has touched.now under ≡ true
        → is_met changed.items cover ≡ true → Has cover (covers_under ranked.new under)
        → IsRight work.now (saving_in ranked.new) cover) }
{
    let rows = RowMarks::new(alloc, changed)?;
    for one in touched {
        renew_under(alloc, work, index, name, ranked, &rows, one)?;
    }
    Ok(())
}

// Sets what a cover saves, unless it is set.
fn note<R: Row>(
    alloc: Global,
    work: &WorkingNetwork<R>,
    index: &RowIndex,
    name: &Name,
    ranked: &mut RankedCovers,
    cover: &NamedCover,
) -> Result<(), AllocError>
    requires sound { IsSound (circuit_of work.now) }
    requires free { IsNewName (circuit_of work.now) name.now }
    requires index { IsIndex work.now index.now }
    requires some { 1 ≤ literals_in cover.now }
    ensures grown { OnOk result (IsGrown work.now ranked.old ranked.new) }
    ensures noted { OnOk result (IsNoted (saving_in ranked.new) cover.now) }
{
    let ordered = OrderedCover::new(cover.copy(alloc)?);
    match ranked.saving(&ordered) {
        Some(_saving) => Ok(()),
        None => renew(alloc, work, index, name, ranked, &ordered),
    }
}

/// Sets what covers save, for those for which no saving is set yet.
pub(crate) fn note_all<R: Row>(
    alloc: Global,
    work: &WorkingNetwork<R>,
    index: &RowIndex,
    name: &Name,
    ranked: &mut RankedCovers,
    covers: &[NamedCover],
) -> Result<(), AllocError>
    requires sound { IsSound (circuit_of work.now) }
    requires free { IsNewName (circuit_of work.now) name.now }
    requires index { IsIndex work.now index.now }
    requires some { (cover : NamedCover) → Has cover covers.now → 1 ≤ literals_in cover }
    ensures grown { OnOk result (IsGrown work.now ranked.old ranked.new) }
    ensures noted { OnOk result ((cover : NamedCover) → Has cover covers.now → IsNoted
        (saving_in ranked.new) cover) }
{
    for cover in covers {
        note(alloc, work, index, name, ranked, cover)?;
    }
    Ok(())
}
