//! The first name of a list that is repeated, is missing, or is listed twice.
//!
//! The rules are those of BLIF (appendix of the SIS report, UCB/ERL M92/41): signals are known by
//! their names alone, each has one driver, and each that is read has a driver. Each check returns
//! the first offender in the order of the list that it is given, so that the caller can report it
//! at its position; it looks names up in a `NameSet`. `laws` says what it means that nothing is
//! found.

ghost use Rattle.std.specs.Prelude.{◌≡◌, ℕ, List, not, ◌||◌, find, IfOk, OnOk, if◌then◌else◌};
ghost use Rattle.std.specs.Option.{option_copied};
ghost use Rattle.circuit_model.specs.Names.{has};
ghost use Rattle.circuit_checks.specs.NameChecks.{first_again, first_missing, first_listed_twice, is_twice};
ghost use Rattle.circuit_checks.specs.Sets.{with_name};

use crate::name_set::NameSet;
use circuit_model::Name;
use std::alloc::{AllocError, Global};

/// The first of the names that is known, or that repeats an earlier one.
pub fn first_again<'a>(
    alloc: Global,
    known: &[Name],
    names: &'a [Name],
) -> Result<Option<&'a Name>, AllocError>
    ensures { IfOk result (λ found. option_copied found ≡ first_again known.now names.now) }
{
    let mut set = NameSet::of_names(alloc, known)?;
    let found = first_held(&mut set, names)?;
    Ok(found)
}

/// The first of the names that is in the set or repeats an earlier one. Adds the names before it to
/// the set.
fn first_held<'b, 'a: 'b>(
    set: &mut NameSet<'b>,
    names: &'a [Name],
) -> Result<Option<&'a Name>, AllocError>
    ensures { IfOk result (λ found. option_copied found ≡ first_again set.old names.now) }
{
    for name in names {
        if !set.add(name)? {
            return Ok(Some(name));
        }
    }
    Ok(None)
}

/// The first of the names that is not known.
pub fn first_missing<'a>(
    alloc: Global,
    known: &[Name],
    names: &'a [Name],
) -> Result<Option<&'a Name>, AllocError>
    ensures { IfOk result (λ found. option_copied found ≡ first_missing known.now names.now) }
{
    let set = NameSet::of_names(alloc, known)?;
    let found = first_outside(&set, names);
    Ok(found)
}

/// The first of the names that is not in the set.
pub(crate) fn first_outside<'a>(set: &NameSet<'_>, names: &'a [Name]) -> Option<&'a Name>
    ensures { option_copied result ≡ find (λ (name : List ℕ). not (has set.now name)) names.now }
{
    names.iter().find(|name| !set.holds(name))
}

/// The first name of `in_order` that occurs twice among the inputs, or twice among the outputs.
pub fn first_listed_twice<'a>(
    alloc: Global,
    inputs: &[Name],
    outputs: &[Name],
    in_order: &'a [Name],
) -> Result<Option<&'a Name>, AllocError>
    ensures { IfOk result (λ found. option_copied found
        ≡ first_listed_twice inputs.now outputs.now in_order.now) }
{
    let input_twice = twice(alloc, inputs)?;
    let output_twice = twice(alloc, outputs)?;
    let found = first_of_either(&input_twice, &output_twice, in_order);
    Ok(found)
}

/// The first of the names that is in one of two sets.
fn first_of_either<'a>(
    set: &NameSet<'_>,
    other: &NameSet<'_>,
    names: &'a [Name],
) -> Option<&'a Name>
    ensures { option_copied result ≡ find (λ (name : List ℕ). has set.now name || has other.now
        name) names.now }
{
    names
        .iter()
        .find(|name| set.holds(name) || other.holds(name))
}

/// The names that occur at least twice.
fn twice(alloc: Global, names: &[Name]) -> Result<NameSet<'_>, AllocError>
    ensures { IfOk result (λ set. (name : List ℕ) → has set name ≡ is_twice names.now name) }
{
    let mut seen = NameSet::new(alloc);
    let mut again = NameSet::new(alloc);
    for name in names {
        note(name, &mut seen, &mut again)?;
    }
    Ok(again)
}

/// Adds a name to `seen`, and also to `again` if it was seen before.
fn note<'a>(
    name: &'a Name,
    seen: &mut NameSet<'a>,
    again: &mut NameSet<'a>,
) -> Result<(), AllocError>
    ensures seen { OnOk result (seen.new ≡ with_name seen.old name.now) }
    ensures again { OnOk result (again.new ≡ (if has seen.old name.now then with_name again.old
        name.now else again.old)) }
{
    if !seen.add(name)? {
        let _added = again.add(name)?;
    }
    Ok(())
}
