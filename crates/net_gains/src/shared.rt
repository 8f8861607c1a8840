//! Divisors with several owners: the totals and the ranking share one copy of each, so that it is
//! made once and takes memory once.
//!
//! Source: the project's own representation, a reference count (`Rc`). Promised: contracts see such
//! a divisor as the divisor itself, and so do equality, order and hash. Callers rely on look-ups by
//! a plain divisor to find the shared one (`Equivalent`), so that a divisor is looked up before it
//! is allocated.

ghost use Rattle.std.specs.Prelude.{◌≡◌, map, IfOk};
ghost use Rattle.net_gains.specs.Divisors.{cover_of};
ghost use Rattle.net_candidates.specs.Candidates.{literals_in};

use crate::divisor::Divisor;
use indexmap::Equivalent;
use sis_base::Copied;
use std::alloc::{AllocError, Global};
use std::cmp::Ordering;
use std::fmt;
use std::hash::{Hash, Hasher};
use std::marker::Model;
use std::rc::Rc;

/// A divisor that may have several owners.
pub struct SharedDivisor {
    divisor: Rc<Divisor, Global>,
}

impl Model for SharedDivisor {
    ghost use Rattle.net_gains.specs.declared.divisor.Divisor.{Divisor};

    ghost Value = { Divisor };

    ghost view = { λ s. s.divisor.value };
}

impl Drop for SharedDivisor {
    fn drop(self) {
        let SharedDivisor { divisor: _divisor } = self;
    }
}

impl SharedDivisor {
    /// A divisor with one owner.
    pub(crate) fn new(alloc: Global, divisor: Divisor) -> Result<SharedDivisor, AllocError>
        ensures { IfOk result (λ made. made ≡ divisor) }
    {
        Ok(SharedDivisor {
            divisor: Rc::new(alloc, divisor)?,
        })
    }

    // The divisor.
    fn get(&self) -> &Divisor
        ensures { result.now ≡ self.now }
    {
        self.divisor.as_ref()
    }

    /// The cubes, each by its numbers.
    pub fn cubes(&self, alloc: Global) -> Result<Vec<Vec<u32>>, AllocError>
        ensures { IfOk result (λ cubes. map (λ cube. cube.items) cubes.items ≡ cover_of self.now) }
    {
        let mut cubes = Vec::with_capacity(alloc, 2)?;
        cubes.push(Vec::from_slice(alloc, self.get().first.as_slice())?)?;
        if !self.get().second.is_empty() {
            cubes.push(Vec::from_slice(alloc, self.get().second.as_slice())?)?;
        }
        Ok(cubes)
    }

    /// The number of literals.
    pub fn literals(&self) -> u64
        ensures { result ≡ literals_in (cover_of self.now) }
    {
        self.get().first.as_slice().len() as u64 + self.get().second.as_slice().len() as u64
    }
}

// Adds an owner.
impl Copied for SharedDivisor {
    fn copy(&self, _alloc: Global) -> Result<SharedDivisor, AllocError> {
        Ok(SharedDivisor {
            divisor: self.divisor.clone()?,
        })
    }
}

impl PartialEq for SharedDivisor {
    ghost use Rattle.net_gains.specs.Orders.{divisor_eq, divisors_per};

    ghost eq = { divisor_eq };

    ghost laws = { divisors_per };

    fn eq(&self, other: &SharedDivisor) -> bool {
        self.get() == other.get()
    }
}

impl Eq for SharedDivisor {
    ghost use Rattle.net_gains.specs.Orders.{divisors_equiv};

    ghost laws = { divisors_equiv };
}

impl Hash for SharedDivisor {
    ghost use Rattle.net_gains.specs.Mixing.{divisor_input, divisors_alike};

    ghost hash_input = { divisor_input };

    ghost respects_eq = { divisors_alike };

    fn hash<H: Hasher>(&self, state: &mut H) {
        self.get().hash(state);
    }
}

impl Ord for SharedDivisor {
    ghost use Rattle.net_gains.specs.Divisors.{divisor_cmp};
    ghost use Rattle.net_gains.specs.Orders.{divisor_total, divisor_ties};
    ghost use mathlib.Core.Path.{refl};

    ghost cmp = { divisor_cmp };

    ghost total = { divisor_total };

    ghost matches_partial_cmp = { λ one other. refl };

    ghost matches_eq = { divisor_ties };

    fn cmp(&self, other: &SharedDivisor) -> Ordering {
        self.get().cmp(other.get())
    }
}

impl PartialOrd for SharedDivisor {
    ghost use Rattle.std.specs.Ordering.{as_partial_cmp};
    ghost use Rattle.net_gains.specs.Divisors.{divisor_cmp};
    ghost use Rattle.net_gains.specs.Orders.{divisor_partial};

    ghost partial_cmp = { as_partial_cmp divisor_cmp };

    ghost laws = { divisor_partial };

    fn partial_cmp(&self, other: &SharedDivisor) -> Option<Ordering> {
        Some(self.cmp(other))
    }
}

impl fmt::Debug for SharedDivisor {
    fn fmt<W: fmt::Write>(&self, f: &mut fmt::Formatter<W>) -> fmt::Result {
        self.get().fmt(f)
    }
}

// Lets a divisor be looked up before it has owners.
impl Equivalent<SharedDivisor> for &Divisor {
    ghost use Rattle.net_gains.specs.Orders.{divisor_eq, divisors_equiv};
    ghost use Rattle.net_gains.specs.Mixing.{divisors_alike};

    ghost equivalent = { λ q. divisor_eq q.now };

    ghost respects_hash = { λ q. divisors_alike q.now };

    ghost respects_eq = { λ q. divisors_equiv.congr q.now };

    fn equivalent(&self, key: &SharedDivisor) -> bool {
        *self == key.get()
    }
}
