//! Lists of names: whether one is among them, and copies.

ghost use Rattle.std.specs.Prelude.{◌≡◌, IfOk};
ghost use Rattle.circuit_model.specs.Names.{has};

use crate::circuit::Names;
use sis_base::{Copied, Name, Sequence};
use std::alloc::{AllocError, Global};

/// Whether a name is among names.
pub fn has_name(names: &[Name], name: &Name) -> bool
    ensures { result ≡ has names.now name.now }
{
    names.iter().any(|other| *name == *other)
}

/// Copies of names.
pub fn names_copied(alloc: Global, names: &[Name]) -> Result<Names, AllocError>
    ensures { IfOk result (λ made. made ≡ names.now) }
{
    let mut made = Sequence::new(alloc);
    for name in names {
        made.push(name.copy(alloc)?)?;
    }
    Ok(made)
}
