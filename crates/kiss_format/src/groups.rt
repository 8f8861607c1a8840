//! Groups of row indices by current state: one for each remainder of a state's number, and one for
//! the rows of every state (`specs/Groups.antt`). The invariant `AreGroups` says that the groups
//! list exactly the first rows, in order.

ghost use Rattle.std.specs.Prelude.{◌≡◌, ◌<◌, ◌≤◌, ◌+◌, ◌++◌, ◌∷◌, ◌==◌, ℕ, [], length, replicate, slice_index_or, if◌then◌else◌, IfOk, OnOk};
ghost use Rattle.circuit_model.specs.declared.machine.MachineRow.{MachineRow};
ghost use Rattle.kiss_format.specs.Groups.{group_of, AreGroups};

use circuit_model::MachineRow;
use sis_base::Sequence;
use std::alloc::{AllocError, Global};

/// Indices of rows, in order.
pub type Places = Sequence<usize>;

/// The group of a current state, if there are so many groups of states.
pub fn group_of(count: usize, current: Option<usize>) -> usize
    requires { 0 < count }
    ensures value { result ≡ group_of count current }
    ensures within { result ≤ count }
{
    match current {
        None => count,
        Some(state) => state % count,
    }
}

/// As many empty groups as asked for.
fn empty_groups(alloc: Global, count: usize) -> Result<Vec<Places>, AllocError>
    ensures { IfOk result (λ groups. groups.items ≡ replicate count []) }
{
    let mut groups = Vec::with_capacity(alloc, count)?;
    for _ in 0..count {
        groups.push(Sequence::new(alloc))?;
    }
    Ok(groups)
}

/// The groups of some rows before the first is added.
pub fn no_groups(alloc: Global, rows: &[MachineRow]) -> Result<Vec<Places>, AllocError>
    ensures { IfOk result (λ groups. AreGroups rows.now 0 groups.items) }
{
    let groups = empty_groups(alloc, rows.len() + 1)?;
    Ok(groups)
}

/// Appends an index to a group.
fn note_place(groups: &mut Vec<Places>, group: usize, place: usize) -> Result<(), AllocError>
    requires { group < length groups.old.items }
    ensures length { OnOk result (length groups.new.items ≡ length groups.old.items) }
    ensures each { OnOk result ((other : ℕ) → slice_index_or groups.new.items other []
        ≡ slice_index_or groups.old.items other [] ++ (if group == other then place ∷ [] else [])) }
{
    groups[group].push(place)?;
    Ok(())
}

/// Adds the row of an index to its group, after those before it.
pub fn note_row(
    groups: &mut Vec<Places>,
    rows: &[MachineRow],
    place: usize,
) -> Result<(), AllocError>
    requires inside { place < length rows.now }
    requires grouped { AreGroups rows.now place groups.old.items }
    ensures { OnOk result (AreGroups rows.now (place + 1) groups.new.items) }
{
    let group = group_of(rows.len(), rows[place].current);
    note_place(groups, group, place)?;
    Ok(())
}
