//! Literals of signals by name, and their order: by name, byte by byte, and of one name the
//! negative literal first.

use circuit_model::Name;
use sis_base::{Copied, Sequence};
use std::alloc::{AllocError, Global};
use std::cmp::Ordering;

/// The positive literal of a signal if `bit` is true, else the negative one.
#[derive(Debug, PartialEq, Eq, Hash, Drop)]
pub struct Literal {
    pub name: Name,
    pub bit: bool,
}

/// A product of literals.
pub type Cube = Sequence<Literal>;
/// A sum of cubes.
pub type NamedCover = Sequence<Cube>;

impl Copied for Literal {
    fn copy(&self, alloc: Global) -> Result<Literal, AllocError> {
        Ok(Literal {
            name: self.name.copy(alloc)?,
            bit: self.bit,
        })
    }
}

impl Ord for Literal {
    ghost use Rattle.cover_names.specs.Literals.{literal_cmp};
    ghost use Rattle.cover_names.specs.Orders.{literal_total, literal_ties};
    ghost use mathlib.Core.Path.{refl};

    ghost cmp = { literal_cmp };

    ghost total = { literal_total };

    ghost matches_partial_cmp = { λ one other. refl };

    ghost matches_eq = { literal_ties };

    fn cmp(&self, other: &Literal) -> Ordering {
        self.name
            .as_slice()
            .cmp(other.name.as_slice())
            .then(self.bit.cmp(&other.bit))
    }
}

impl PartialOrd for Literal {
    ghost use Rattle.std.specs.Ordering.{as_partial_cmp};
    ghost use Rattle.cover_names.specs.Literals.{literal_cmp};
    ghost use Rattle.cover_names.specs.Orders.{literal_partial};

    ghost partial_cmp = { as_partial_cmp literal_cmp };

    ghost laws = { literal_partial };

    fn partial_cmp(&self, other: &Literal) -> Option<Ordering> {
        Some(self.cmp(other))
    }
}
