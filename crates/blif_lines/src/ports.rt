//! Ports that no line lists: the names among some that are not among others, each once, in order of
//! first mention (`names_beside` of `specs/Reader.antt`). Inputs are read and not driven, outputs
//! driven and not read.

ghost use Rattle.std.specs.Prelude.{◌≡◌, not, ◌++◌, ◌∷◌, [], IfOk, OnOk, OnErr, if◌then◌else◌};
ghost use Rattle.circuit_model.specs.Names.{has};
ghost use Rattle.circuit_checks.specs.Sets.{with_name, Alike};
ghost use Rattle.blif_lines.specs.Reader.{names_beside, listed_or};

use circuit_model::{Name, Names};
use indexmap::IndexSet;
use sis_base::{Copied, Sequence};
use std::alloc::{AllocError, Global};

/// Adds a name to a set, and returns whether it is new.
fn add(set: &mut IndexSet<Name>, name: Name) -> Result<bool, AllocError>
    ensures added { IfOk result (λ added. added ≡ not (has set.old.keys name)) }
    ensures names { OnOk result (set.new.keys ≡ with_name set.old.keys name) }
{
    Ok(set.insert(name)?)
}

/// The set of some names.
fn set_of(alloc: Global, names: &[Name]) -> Result<IndexSet<Name>, AllocError>
    ensures { IfOk result (λ set. Alike set.keys names.now) }
{
    let mut set = IndexSet::new(alloc);
    for name in names {
        let _added = add(&mut set, name.copy(alloc)?)?;
    }
    Ok(set)
}

/// Adds a name to a set, and appends it to others if it is new.
fn add_new(
    alloc: Global,
    known: &mut IndexSet<Name>,
    found: &mut Names,
    name: &Name,
) -> Result<(), AllocError>
    ensures known { OnOk result (known.new.keys ≡ with_name known.old.keys name.now) }
    ensures found { OnOk result (found.new ≡ (if has known.old.keys name.now then found.old else
        found.old ++ name.now ∷ [])) }
{
    if add(known, name.copy(alloc)?)? {
        found.push(name.copy(alloc)?)?;
    }
    Ok(())
}

/// The names that are not among others, each once, in order of first mention.
pub fn names_beside(alloc: Global, others: &[Name], names: &[Name]) -> Result<Names, AllocError>
    ensures { IfOk result (λ found. found ≡ names_beside others.now names.now) }
{
    let mut known = set_of(alloc, others)?;
    let mut found = Sequence::new(alloc);
    for name in names {
        add_new(alloc, &mut known, &mut found, name)?;
    }
    Ok(found)
}

/// Sets ports that no line lists to those of `names` that are not among `others`. On an error the
/// ports stay.
pub fn find_ports(
    alloc: Global,
    listed: bool,
    ports: &mut Names,
    others: &[Name],
    names: &[Name],
) -> Result<(), AllocError>
    ensures ok { OnOk result (ports.new
        ≡ listed_or listed ports.old (names_beside others.now names.now)) }
    ensures err { OnErr result (ports.new ≡ ports.old) }
{
    if !listed {
        *ports = names_beside(alloc, others, names)?;
    }
    Ok(())
}
