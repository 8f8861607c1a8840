//! The numbers of each of two rising cubes that the other lacks, found by one merge.
//!
//! Both lists are made in one allocation each; one that fills little of its memory is copied. No
//! clause says so.

ghost use Rattle.std.specs.Prelude.{◌≡◌, IfOk};
ghost use Rattle.std.specs.List.Sorted.{IsStrictlySortedBy};
ghost use Rattle.std.specs.Ordering.{nat_cmp};
ghost use Rattle.net_gains.specs.CodedGains.{own};

use crate::divisor::{KEPT_INLINE, Numbers};
use std::alloc::{AllocError, Global};
use std::cmp::Ordering;

// The numbers of a vector: the vector itself, without a copy, if they are many and fill at least
// half of its memory; else a copy that takes no more than it needs, since a long cube may have few
// numbers of its own, and its divisors are kept.
fn settled(alloc: Global, list: Vec<u32>) -> Result<Numbers, AllocError>
    ensures { IfOk result (λ made. made ≡ list.items) }
{
    if list.len() > KEPT_INLINE && list.len() >= list.capacity() / 2 {
        return Ok(Numbers::from_vec(list));
    }
    Numbers::from_slice(alloc, list.as_slice())
}

/// The numbers of each of two rising cubes that the other lacks.
pub(crate) fn own_parts(
    alloc: Global,
    one: &[u32],
    other: &[u32],
) -> Result<(Numbers, Numbers), AllocError>
    requires one { IsStrictlySortedBy nat_cmp one.now }
    requires other { IsStrictlySortedBy nat_cmp other.now }
    ensures { IfOk result (λ parts. (parts.0 ≡ own one.now other.now)
        × (parts.1 ≡ own other.now one.now)) }
{
    // One allocation each: neither has more numbers than its cube.
    let mut ours = Vec::with_capacity(alloc, one.len())?;
    let mut theirs = Vec::with_capacity(alloc, other.len())?;
    let mut i = 0;
    let mut j = 0;
    while i < one.len() && j < other.len() {
        match one[i].cmp(&other[j]) {
            Ordering::Less => {
                ours.push_reserved(one[i]);
                i += 1;
            }
            Ordering::Equal => {
                i += 1;
                j += 1;
            }
            Ordering::Greater => {
                theirs.push_reserved(other[j]);
                j += 1;
            }
        }
    }
    ours.extend_from_slice(&one[i..])?;
    theirs.extend_from_slice(&other[j..])?;
    let of_one = settled(alloc, ours)?;
    let of_other = settled(alloc, theirs)?;
    Ok((of_one, of_other))
}
