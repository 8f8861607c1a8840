//! The lexicographic order of two cubes given by numbers.

ghost use Rattle.std.specs.Prelude.{◌≡◌};
ghost use Rattle.net_gains.specs.CodedGains.{numbers_cmp};

use std::cmp::Ordering;

/// The order of two lists of numbers. Cubes of a dense table mostly differ in their first few
/// numbers, so that one pair at a time is compared, and not a run of them as slices are.
pub(crate) fn compared(one: &[u32], other: &[u32]) -> Ordering
    ensures { result ≡ numbers_cmp one.now other.now }
{
    let both = one.len().min(other.len());
    for at in 0..both {
        let order = one[at].cmp(&other[at]);
        if order.is_ne() {
            return order;
        }
    }
    one.len().cmp(&other.len())
}
