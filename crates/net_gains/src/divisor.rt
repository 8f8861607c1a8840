//! Divisors as keys of maps: a sum of two cubes, or one cube, by the numbers of their literals.
//!
//! Source: Rajski and Vasudevamurthy, "The testability-preserving concurrent decomposition and
//! factorization of Boolean expressions" (IEEE Transactions on CAD 11, 1992): double-cube divisors
//! and single cubes. The lesser cube is first; a single cube has an empty second. Equality, order
//! and hash are those of the numbers, and cubes of up to `KEPT_INLINE` numbers need no memory of
//! their own.

ghost use Rattle.std.specs.Prelude.{◌≡◌, ◌+◌, ◌∷◌, [], map, length, IfOk};
ghost use Rattle.net_candidates.specs.Candidates.{literals_in};
ghost use Rattle.net_gains.specs.Divisors.{cover_of, Sums};

use crate::comparing::compared;
use crate::mixing::mixed;
use sis_base::Short;
use std::alloc::{AllocError, Global};
use std::cmp::Ordering;
use std::hash::{Hash, Hasher};

/// So many numbers of a cube need no memory of their own.
pub(crate) const KEPT_INLINE: usize = 20;

/// The numbers of a cube, in rising order.
pub type Numbers = Short<u32, KEPT_INLINE>;

/// A sum of two cubes, the lesser one first, or one cube; then the second has no number.
#[derive(Debug, PartialEq, Eq, Drop)]
pub struct Divisor {
    pub first: Numbers,
    pub second: Numbers,
}

// Written out, since a sum has some forty numbers, and each look-up hashes it.
impl Hash for Divisor {
    ghost use Rattle.net_gains.specs.Mixing.{divisor_input, divisors_alike};

    ghost hash_input = { divisor_input };

    ghost respects_eq = { divisors_alike };

    fn hash<H: Hasher>(&self, state: &mut H) {
        state.write_u64(mixed(self.first.as_slice()));
        state.write_u64(mixed(self.second.as_slice()));
    }
}

impl Ord for Divisor {
    ghost use Rattle.net_gains.specs.Divisors.{divisor_cmp};
    ghost use Rattle.net_gains.specs.Orders.{divisor_total, divisor_ties};
    ghost use mathlib.Core.Path.{refl};

    ghost cmp = { divisor_cmp };

    ghost total = { divisor_total };

    ghost matches_partial_cmp = { λ one other. refl };

    ghost matches_eq = { divisor_ties };

    fn cmp(&self, other: &Divisor) -> Ordering {
        let first = compared(self.first.as_slice(), other.first.as_slice());
        if first.is_ne() {
            return first;
        }
        compared(self.second.as_slice(), other.second.as_slice())
    }
}

impl PartialOrd for Divisor {
    ghost use Rattle.std.specs.Ordering.{as_partial_cmp};
    ghost use Rattle.net_gains.specs.Divisors.{divisor_cmp};
    ghost use Rattle.net_gains.specs.Orders.{divisor_partial};

    ghost partial_cmp = { as_partial_cmp divisor_cmp };

    ghost laws = { divisor_partial };

    fn partial_cmp(&self, other: &Divisor) -> Option<Ordering> {
        Some(self.cmp(other))
    }
}

impl Divisor {
    /// The sum of two cubes that differ.
    pub fn of_sum(first: Numbers, second: Numbers) -> Divisor
        ensures { Sums first second result }
    {
        if compared(second.as_slice(), first.as_slice()).is_lt() {
            Divisor {
                first: second,
                second: first,
            }
        } else {
            Divisor { first, second }
        }
    }

    /// The product of two literals.
    pub fn of_product(alloc: Global, one: u32, other: u32) -> Result<Divisor, AllocError>
        ensures { IfOk result (λ product. cover_of product ≡ (one ∷ other ∷ []) ∷ []) }
    {
        Ok(Divisor {
            first: Numbers::from_slice(alloc, &[one, other])?,
            second: Numbers::new(alloc),
        })
    }
}
