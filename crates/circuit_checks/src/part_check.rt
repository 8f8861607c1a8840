//! The first fault of the tables of a don't-care part: the first name that breaks a rule (SIS
//! report, UCB/ERL M92/41, appendix on BLIF, `.exdc`).
//!
//! The rules: no two tables of the part have one output, each name that is read is an output of the
//! part or a leaf, and no table is reached from itself. One walk over the graph of the tables finds
//! the first cyclic table, and one pass with hash sets finds the first table that breaks a rule; so
//! it takes linear time, but no clause says so.

ghost use Rattle.std.specs.Prelude.{◌≡◌, ◌++◌, IfOk, OnOk};
ghost use Rattle.std.specs.Option.{option_copied};
ghost use Rattle.circuit_checks.specs.Graphs.{first_cyclic};
ghost use Rattle.circuit_model.specs.Soundness.{outputs_of};
ghost use Rattle.circuit_checks.specs.PartChecks.{first_bad_part_name};
ghost use Rattle.circuit_checks.specs.Sets.{Alike, with_name, graph_of, is_at, bad_input_or_cycle, bad_name_by};

use crate::cycle::cyclic_place;
use crate::name_check::first_outside;
use crate::name_set::NameSet;
use circuit_model::{Name, Table};
use sis_base::Copied;
use std::alloc::{AllocError, Global};

/// The name by which the first wrong table of a don't-care part over some leaves breaks a rule.
pub fn first_bad_part_name(
    alloc: Global,
    leaves: &[Name],
    part: &[Table],
) -> Result<Option<Name>, AllocError>
    ensures { IfOk result (λ name. name ≡ first_bad_part_name leaves.now part.now) }
{
    let cyclic = cyclic_place(alloc, part)?;
    match first_bad(alloc, leaves, part, cyclic)? {
        None => Ok(None),
        Some(name) => Ok(Some(name.copy(alloc)?)),
    }
}

/// The name by which the first wrong table breaks a rule, given the index of the first table on a
/// cycle.
fn first_bad<'a>(
    alloc: Global,
    leaves: &[Name],
    part: &'a [Table],
    cyclic: Option<usize>,
) -> Result<Option<&'a Name>, AllocError>
    requires { cyclic ≡ first_cyclic (graph_of part.now) }
    ensures { IfOk result (λ found. option_copied found ≡ first_bad_part_name leaves.now part.now) }
{
    let known = known_names(alloc, leaves, part)?;
    let mut before = NameSet::new(alloc);
    for (place, table) in part.iter().enumerate() {
        let found = bad_name(&known, &mut before, is_at(cyclic, place), table)?;
        if let Some(name) = found {
            return Ok(Some(name));
        }
    }
    Ok(None)
}

/// The names that a table of the part may read: the outputs of its tables and the leaves.
fn known_names<'a>(
    alloc: Global,
    leaves: &'a [Name],
    part: &'a [Table],
) -> Result<NameSet<'a>, AllocError>
    ensures { IfOk result (λ set. Alike set (outputs_of part.now ++ leaves.now)) }
{
    let mut set = NameSet::of_names(alloc, leaves)?;
    for table in part {
        let _added = set.add(&table.output)?;
    }
    Ok(set)
}

/// Whether an index is the one that was found.
fn is_at(found: Option<usize>, place: usize) -> bool
    ensures { result ≡ is_at found place }
{
    match found {
        None => false,
        Some(one) => one == place,
    }
}

/// The name by which a table breaks a rule, if it does. Adds its output to `before`.
#[tactic(auto, unfolding(crate::specs::Sets::bad_name_by))]
fn bad_name<'b, 'a: 'b>(
    known: &NameSet<'_>,
    before: &mut NameSet<'b>,
    on_cycle: bool,
    table: &'a Table,
) -> Result<Option<&'a Name>, AllocError>
    ensures name { IfOk result (λ found. option_copied found
        ≡ bad_name_by known.now before.old on_cycle table.now) }
    ensures before { OnOk result (before.new ≡ with_name before.old table.now.output) }
{
    if !before.add(&table.output)? {
        return Ok(Some(&table.output));
    }
    Ok(bad_input_or_cycle(known, on_cycle, table))
}

/// The first input of a table that is not known; else its output, if it is on a cycle.
#[tactic(auto, unfolding(crate::specs::Sets::bad_input_or_cycle))]
fn bad_input_or_cycle<'a>(known: &NameSet<'_>, on_cycle: bool, table: &'a Table) -> Option<&'a Name>
    ensures { option_copied result ≡ bad_input_or_cycle known.now on_cycle table.now }
{
    if let Some(name) = first_outside(known, table.inputs.as_slice()) {
        return Some(name);
    }
    if on_cycle {
        return Some(&table.output);
    }
    None
}
