//! Lists of covers, each list under a name.
//!
//! A cover is appended to the list under its name, and no cover is removed from a list.

ghost use Rattle.std.specs.Prelude.{◌≡◌, ◌++◌, ◌∷◌, ◌&&◌, [], List, ℕ, filter, bytes_eq, if◌then◌else◌, IfOk, OnOk};
ghost use Rattle.indexmap.specs.IndexMap.{get};
ghost use Rattle.net_savings.specs.Meeting.{is_met};
ghost use Rattle.net_savings.specs.Ranking.{listed};

use crate::marks::RowMarks;
use crate::meeting::is_met;
use crate::ordered::OrderedCover;
use circuit_model::Name;
use indexmap::IndexMap;
use sis_base::{Copied, Sequence};
use std::alloc::{AllocError, Global};

// Appends a cover to the list under a name.
fn put_under(
    alloc: Global,
    lists: &mut IndexMap<Name, Sequence<OrderedCover>>,
    name: &Name,
    cover: OrderedCover,
) -> Result<(), AllocError>
    ensures { OnOk result ((other : List ℕ) → listed (get bytes_eq lists.new other)
        ≡ (if bytes_eq name.now other then listed (get bytes_eq lists.old other) ++ cover ∷ [] else listed (get bytes_eq lists.old other))) }
{
    if let Some(list) = lists.get_mut(name) {
        list.push(cover)?;
        return Ok(());
    }
    let mut list = Sequence::new(alloc);
    list.push(cover)?;
    let key = name.copy(alloc)?;
    let _none = lists.insert(key, list)?;
    Ok(())
}

/// Appends a cover to the list under a name, if it is new.
pub(crate) fn list_new(
    alloc: Global,
    lists: &mut IndexMap<Name, Sequence<OrderedCover>>,
    name: &Name,
    cover: &OrderedCover,
    is_new: bool,
) -> Result<(), AllocError>
    ensures { OnOk result ((other : List ℕ) → listed (get bytes_eq lists.new other)
        ≡ (if is_new && bytes_eq name.now other then listed (get bytes_eq lists.old other) ++ cover.now ∷ [] else listed (get bytes_eq lists.old other))) }
{
    if is_new {
        let copied = cover.copy(alloc)?;
        put_under(alloc, lists, name, copied)?;
    }
    Ok(())
}

/// Those of some covers that rows meet.
pub(crate) fn met_of(
    alloc: Global,
    covers: &[OrderedCover],
    rows: &RowMarks,
) -> Result<Vec<OrderedCover>, AllocError>
    ensures { IfOk result (λ met. met.items ≡ filter (is_met rows.now) covers.now) }
{
    let mut met = Vec::new(alloc);
    for cover in covers {
        if is_met(alloc, rows, cover.get().as_slice())? {
            met.push(cover.copy(alloc)?)?;
        }
    }
    Ok(met)
}
