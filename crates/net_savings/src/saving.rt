//! What a candidate saves: the literals that its dividends lose, less the literals of its own
//! table.
//!
//! Source: Brayton, Rudell, Sangiovanni-Vincentelli and Wang, "MIS: A Multiple-Level Logic
//! Optimization System" (1987): the value of a divisor is the literals that it saves. A table can
//! be divided only if it reads all names of the cover and has a row for each of its cubes. So only
//! the tables that the index of rows (`rows`) finds are looked at, or, without it, the fanouts of
//! the name that has the fewest; they are divided only if neither their rows (`by_rows`) nor the
//! quotient (`by_division`) tells what they lose. Callers rely on `IsSaved`: the exact number, and none exactly if nothing is saved
//! or a table would have more than `MAX_INPUTS` inputs.

ghost use Rattle.std.specs.Prelude.{◌≡◌, ℕ, ◌+◌, ◌-◌, ◌≤◌, ◌<◌, ltb, ◌&&◌, ◌⊎◌, true, false, Option, Some, List, [], ◌∷◌, length, IfOk, IfSome, MatchOption};
ghost use Rattle.std.specs.List.{list_all};
ghost use Rattle.std.specs.List.Sorted.{IsStrictlyIncreasing};
ghost use Rattle.circuit_model.specs.Names.{has, all_different};
ghost use Rattle.circuit_model.specs.Soundness.{IsSound};
ghost use Rattle.circuit_model.specs.declared.circuit.Table.{Table};
ghost use Rattle.alg_div.specs.Cubes.{Has};
ghost use Rattle.net_readers.specs.Fanouts.{is_in};
ghost use Rattle.cover_names.specs.Cubes.{is_over, names_in};
ghost use Rattle.cover_names.specs.declared.literal.Literal.{Literal};
ghost use Rattle.net_core.specs.Fresh.{IsNewName};
ghost use Rattle.net_core.specs.Tables.{named, IsOverInputs};
ghost use Rattle.net_work.specs.Placed.{standing, circuit_of, table_at};
ghost use Rattle.net_candidates.specs.Candidates.{literals_in};
ghost use Rattle.net_savings.specs.Indexed.{IsLostIn, IsIndex, AreAll};
ghost use Rattle.net_savings.specs.Meeting.{is_apart};
ghost use Rattle.net_savings.specs.Saving.{IsLoss, AreLosses, IsSaved};

use crate::by_division::loss_by_division;
use crate::by_rows::{loss_by_rows, product_of, sum_of};
use crate::meeting::is_apart;
use crate::rows::RowIndex;
use alg_tables::{cover_table, divided_table, division_of};
use circuit_model::{Name, has_name};
use cover_names::{Cube, Literal};
use cube_cover::Row;
use net_core::CoverTable;
use net_work::{WorkingNetwork, literal_count};
use sis_base::limits::MAX_INPUTS;
use std::alloc::{AllocError, Global};

// The name of the first literal of a cover.
fn first_name(cover: &[Cube]) -> Option<&Name>
    ensures { MatchOption result (literals_in cover.now ≡ 0)
        (λ name. has (names_in cover.now) name.now ≡ true) }
{
    for cube in cover {
        if let Some(literal) = cube.as_slice().first() {
            return Some(&literal.name);
        }
    }
    None
}

// The one of two names that fewer tables read, the second if as many do; no clause says which of
// the two it is.
fn rarer<'a, R: Row>(work: &WorkingNetwork<R>, one: &'a Name, other: &'a Name) -> &'a Name
    ensures { (result.now ≡ one.now) ⊎ (result.now ≡ other.now) }
{
    if work.reader_count(one) < work.reader_count(other) {
        one
    } else {
        other
    }
}

// Of a name and those of a cube's literals the one that fewest tables read; no clause says which of
// them it is.
fn rarest_in<'a, R: Row>(work: &WorkingNetwork<R>, cube: &'a [Literal], name: &'a Name) -> &'a Name
    ensures { (result.now ≡ name.now)
        ⊎ ((literal : Literal) × Has literal cube.now × (literal.name ≡ result.now)) }
{
    let mut rarest = name;
    for literal in cube {
        rarest = rarer(work, &literal.name, rarest);
    }
    rarest
}

/// The name of a cover's literals that fewest tables read; no clause says which of them it is. None
/// if the cover has no literal.
pub(crate) fn rarest_name<'a, R: Row>(
    work: &WorkingNetwork<R>,
    cover: &'a [Cube],
) -> Option<&'a Name>
    ensures { MatchOption result (literals_in cover.now ≡ 0)
        (λ name. has (names_in cover.now) name.now ≡ true) }
{
    let mut rarest = first_name(cover)?;
    for cube in cover {
        rarest = rarest_in(work, cube.as_slice(), rarest);
    }
    Some(rarest)
}

/// Indices of the network, each once, in rising order, which include those of all tables that read
/// all that a cover reads.
pub fn places_for<R: Row>(
    alloc: Global,
    work: &WorkingNetwork<R>,
    cover: &[Cube],
) -> Result<Vec<usize>, AllocError>
    requires { 1 ≤ literals_in cover.now }
    ensures rising { IfOk result (λ places. IsStrictlyIncreasing places.items) }
    ensures within { IfOk result (λ places. (at : ℕ) → is_in places.items at ≡ true
        → at < length work.now.slots) }
    ensures all { IfOk result (λ places. (at : ℕ) (table : Table)
        → table_at work.now.slots at ≡ Some table → is_over table.inputs cover.now ≡ true
        → is_in places.items at ≡ true) }
{
    match rarest_name(work, cover) {
        None => unreachable!(),
        Some(name) => {
            let readers = work.readers(alloc, name)?;
            Ok(readers.into_vec())
        }
    }
}

// Indices, each once, which include those of all tables that a cover divides.
fn divided_places<R: Row>(
    alloc: Global,
    work: &WorkingNetwork<R>,
    index: &RowIndex,
    cover: &[Cube],
) -> Result<Vec<usize>, AllocError>
    requires index { IsIndex work.now index.now }
    requires some { 1 ≤ literals_in cover.now }
    ensures { IfOk result (λ places. AreAll cover.now work.now.slots places.items) }
{
    if index.knows_all(cover) {
        let met = index.met_places(alloc, cover)?;
        return Ok(met);
    }
    let readers = places_for(alloc, work, cover)?;
    Ok(readers)
}

// Whether a table has too many inputs, and a name is one of them.
fn is_wide<R: Row>(table: &CoverTable<R>, name: &Name) -> bool
    ensures { result ≡ (ltb MAX_INPUTS (length table.now.inputs) && has table.now.inputs name.now) }
{
    MAX_INPUTS < table.inputs.len() && has_name(table.inputs.as_slice(), name)
}

// The number of literals that a table loses by a cover of one cube, if its rows tell it.
fn loss_by_one<R: Row>(
    alloc: Global,
    table: &CoverTable<R>,
    cover: &[Cube],
) -> Result<Option<u128>, AllocError>
    requires over { IsOverInputs table.now }
    requires once { all_different table.now.inputs ≡ true }
    ensures { IfOk result (λ loss. IfSome loss (λ lost. (name output : List ℕ)
        → has table.now.inputs name ≡ false
        → IsLoss name cover.now (Some (named output table.now)) (Some lost))) }
{
    match cover {
        [cube] => loss_by_rows(alloc, table, cube.as_slice()),
        _ => Ok(None),
    }
}

// The number of literals that a table loses by a cover, by the divided table; none if that has too
// many inputs.
fn loss_by_table<R: Row>(
    alloc: Global,
    table: &CoverTable<R>,
    name: &Name,
    cover: &[Cube],
) -> Result<Option<u128>, AllocError>
    requires over { IsOverInputs table.now }
    requires once { all_different table.now.inputs ≡ true }
    requires free { has table.now.inputs name.now ≡ false }
    ensures { IfOk result (λ loss. (output : List ℕ)
        → IsLoss name.now cover.now (Some (named output table.now)) loss) }
{
    // by this call the rows are known to have the cover's width
    let _of_one_width = table.cover.rows();
    match divided_table(alloc, table, name, true, cover)? {
        None => Ok(Some(0)),
        Some(made) => {
            if is_wide(&made, name) {
                Ok(None)
            } else {
                Ok(Some(literal_count(table).saturating_sub(literal_count(&made))))
            }
        }
    }
}

/// The number of literals that a table loses if it is divided by a cover; none if it would have too
/// many inputs. The divided table is made only if neither the rows nor their division tells.
pub(crate) fn loss_of<R: Row>(
    alloc: Global,
    table: &CoverTable<R>,
    name: &Name,
    cover: &[Cube],
) -> Result<Option<u128>, AllocError>
    requires over { IsOverInputs table.now }
    requires once { all_different table.now.inputs ≡ true }
    requires free { has table.now.inputs name.now ≡ false }
    ensures { IfOk result (λ loss. (output : List ℕ)
        → IsLoss name.now cover.now (Some (named output table.now)) loss) }
{
    if let Some(lost) = loss_by_one(alloc, table, cover)? {
        return Ok(Some(lost));
    }
    match division_of(alloc, table, cover)? {
        None => Ok(Some(0)),
        Some(parts) => match loss_by_division(alloc, table, cover, &parts)? {
            Some(lost) => Ok(Some(lost)),
            None => loss_by_table(alloc, table, name, cover),
        },
    }
}

// The number of literals that the table at an index loses, 0 if there is none.
fn loss_at<R: Row>(
    alloc: Global,
    work: &WorkingNetwork<R>,
    name: &Name,
    cover: &[Cube],
    place: usize,
) -> Result<Option<u128>, AllocError>
    requires sound { IsSound (circuit_of work.now) }
    requires free { IsNewName (circuit_of work.now) name.now }
    ensures { IfOk result (λ loss. IsLoss name.now cover.now (table_at work.now.slots place) loss) }
{
    match work.entry(place) {
        None => Ok(Some(0)),
        Some(entry) => loss_of(alloc, &entry.table, name, cover),
    }
}

// The number of literals that the tables at some indices lose together; none if one of them would
// have too many inputs.
fn losses_at<R: Row>(
    alloc: Global,
    work: &WorkingNetwork<R>,
    name: &Name,
    cover: &[Cube],
    places: &[usize],
) -> Result<Option<u128>, AllocError>
    requires sound { IsSound (circuit_of work.now) }
    requires free { IsNewName (circuit_of work.now) name.now }
    ensures { IfOk result (λ losses. AreLosses name.now cover.now work.now.slots places.now
        losses) }
{
    let mut total = 0;
    for place in places {
        match loss_at(alloc, work, name, cover, *place)? {
            None => return Ok(None),
            Some(lost) => total = sum_of(total, lost)?,
        }
    }
    Ok(Some(total))
}

// By how much a number, if there is one, exceeds another one; none if it does not.
fn excess(lost: Option<u128>, own: u128) -> Option<u128>
    ensures { MatchOption result ((number : ℕ) → lost ≡ Some number → number ≤ own)
        (λ more. (lost ≡ Some (more + own)) × (1 ≤ more)) }
{
    match lost {
        None => None,
        Some(lost) => { if own < lost { Some(lost - own) } else { None } }
    }
}

// The number of literals that all tables lose by one cube, by rows that tell it and by the tables
// that are not told by their rows; none if one of the tables would have too many inputs.
fn lost_by_rows<R: Row>(
    alloc: Global,
    work: &WorkingNetwork<R>,
    index: &RowIndex,
    name: &Name,
    cover: &[Cube],
    cube: &[Literal],
) -> Result<Option<u128>, AllocError>
    requires sound { IsSound (circuit_of work.now) }
    requires free { IsNewName (circuit_of work.now) name.now }
    requires index { IsIndex work.now index.now }
    requires one { cover.now ≡ cube.now ∷ [] }
    requires known { list_all (λ (literal : Literal). has index.now.names.keys literal.name)
        cube.now ≡ true }
    requires apart { is_apart cube.now ≡ true }
    requires some { 1 ≤ length cube.now }
    ensures { IfOk result (IsLostIn (standing work.now.slots) name.now cover.now) }
{
    let count = index.rows.count_holders(alloc, cube)?;
    match losses_at(alloc, work, name, cover, index.others.as_slice())? {
        None => Ok(None),
        Some(rest) => {
            let product = product_of(count as u128, (cube.len() - 1) as u128)?;
            let lost = sum_of(product, rest)?;
            Ok(Some(lost))
        }
    }
}

// The number of literals that all tables lose by a cover, table by table; none if one of them would
// have too many inputs.
fn lost_by_tables<R: Row>(
    alloc: Global,
    work: &WorkingNetwork<R>,
    index: &RowIndex,
    name: &Name,
    cover: &[Cube],
) -> Result<Option<u128>, AllocError>
    requires sound { IsSound (circuit_of work.now) }
    requires free { IsNewName (circuit_of work.now) name.now }
    requires index { IsIndex work.now index.now }
    requires some { 1 ≤ literals_in cover.now }
    ensures { IfOk result (IsLostIn (standing work.now.slots) name.now cover.now) }
{
    let places = divided_places(alloc, work, index, cover)?;
    let lost = losses_at(alloc, work, name, cover, places.as_slice())?;
    Ok(lost)
}

// The number of literals that all tables lose by a cover; none if one of them would have too many
// inputs.
fn lost_in_all<R: Row>(
    alloc: Global,
    work: &WorkingNetwork<R>,
    index: &RowIndex,
    name: &Name,
    cover: &[Cube],
) -> Result<Option<u128>, AllocError>
    requires sound { IsSound (circuit_of work.now) }
    requires free { IsNewName (circuit_of work.now) name.now }
    requires index { IsIndex work.now index.now }
    requires some { 1 ≤ literals_in cover.now }
    ensures { IfOk result (IsLostIn (standing work.now.slots) name.now cover.now) }
{
    if let [one] = cover {
        let cube = one.as_slice();
        if !cube.is_empty() && index.knows(cube) && is_apart(cube) {
            return lost_by_rows(alloc, work, index, name, cover, cube);
        }
    }
    lost_by_tables(alloc, work, index, name, cover)
}

/// The number of literals that a cover saves if it is extracted under a new name; none if it saves
/// none, or a table would have too many inputs.
pub(crate) fn saving_of<R: Row>(
    alloc: Global,
    work: &WorkingNetwork<R>,
    index: &RowIndex,
    name: &Name,
    cover: &[Cube],
) -> Result<Option<u128>, AllocError>
    requires sound { IsSound (circuit_of work.now) }
    requires free { IsNewName (circuit_of work.now) name.now }
    requires index { IsIndex work.now index.now }
    requires some { 1 ≤ literals_in cover.now }
    ensures { IfOk result (λ saved. IsSaved (standing work.now.slots) name.now cover.now saved) }
{
    let table: CoverTable<R> = cover_table(alloc, cover)?;
    if MAX_INPUTS < table.inputs.len() {
        return Ok(None);
    }
    let lost = lost_in_all(alloc, work, index, name, cover)?;
    Ok(excess(lost, literal_count(&table)))
}
