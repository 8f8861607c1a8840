//! Adds to the totals, or subtracts from them, what pairs of cubes and pairs of literals gain.
//!
//! Source: Rajski and Vasudevamurthy, "The testability-preserving concurrent decomposition and
//! factorization of Boolean expressions" (IEEE Transactions on CAD 11, 1992): the weights of
//! double-cube divisors and of single cubes. Two cubes gain by the sum of what each has besides the
//! other; a cube gains one literal for each product of two of its literals.

ghost use Rattle.std.specs.Prelude.{◌≡◌, ℕ, List, [], map, slice_index_or, OnOk};
ghost use Rattle.std.specs.List.{AllByRecursion, sum_by};
ghost use Rattle.std.specs.List.Sorted.{IsStrictlySortedBy};
ghost use Rattle.std.specs.Ordering.{nat_cmp};
ghost use Rattle.net_gains.specs.Gains.{over_pairs};
ghost use Rattle.net_gains.specs.CodedGains.{sum_gain};
ghost use Rattle.net_gains.specs.Totals.{total_of, AreCubes};
ghost use Rattle.net_gains.specs.Turning.{own_products, paired_products, paired_gains, AreAllowed, IsTurned};

use crate::divisor::Divisor;
use crate::merging::own_parts;
use crate::totals::{Change, Totals, note};
use std::alloc::{AllocError, Global};

// What saves in pairs: cubes by sums, literals by products.
trait SavesInPairs {
    // What each cover saves if a pair becomes one item.
    ghost gain: { List (List ℕ) → Self → Self → ℕ };

    ghost Rises: { Self → Type 0 };

    // Counts what two save.
    fn note_pair(
        totals: &mut Totals,
        alloc: Global,
        change: Change,
        one: &Self,
        other: &Self,
    ) -> Result<(), AllocError>
        requires one { Rises one.now }
        requires other { Rises other.now }
        requires allowed { AreAllowed change (total_of totals.old)
            (λ cover. gain cover one.now other.now) }
        ensures { OnOk result (IsTurned change (total_of totals.old) (total_of totals.new)
            (λ cover. gain cover one.now other.now)) };
}

// Counts the sum of what each of two rows has besides the other.
fn note_sum(
    totals: &mut Totals,
    alloc: Global,
    change: Change,
    one: &[u32],
    other: &[u32],
) -> Result<(), AllocError>
    requires one { IsStrictlySortedBy nat_cmp one.now }
    requires other { IsStrictlySortedBy nat_cmp other.now }
    requires allowed { AreAllowed change (total_of totals.old)
        (λ cover. sum_gain cover one.now other.now) }
    ensures { OnOk result (IsTurned change (total_of totals.old) (total_of totals.new)
        (λ cover. sum_gain cover one.now other.now)) }
{
    let (ours, theirs) = own_parts(alloc, one, other)?;
    if ours.is_empty() || theirs.is_empty() {
        return Ok(());
    }
    let saving = one.len() as u64 + (theirs.as_slice().len() as u64 - 1);
    note(totals, alloc, change, Divisor::of_sum(ours, theirs), saving)
}

impl SavesInPairs for Vec<u32> {
    ghost use Rattle.std.specs.List.Sorted.{IsStrictlySortedBy};
    ghost use Rattle.std.specs.Ordering.{nat_cmp};
    ghost use Rattle.net_gains.specs.CodedGains.{sum_gain};

    ghost gain = { λ cover one other. sum_gain cover one.items other.items };

    ghost Rises = { λ cube. IsStrictlySortedBy nat_cmp cube.items };

    fn note_pair(
        totals: &mut Totals,
        alloc: Global,
        change: Change,
        one: &Vec<u32>,
        other: &Vec<u32>,
    ) -> Result<(), AllocError> {
        note_sum(totals, alloc, change, one.as_slice(), other.as_slice())
    }
}

// Two literals of a row gain by their product, the lesser one first.
impl SavesInPairs for u32 {
    ghost use Rattle.net_gains.specs.Turning.{either_gain};

    ghost gain = { either_gain };

    ghost Rises = { λ _. Unit {0} };

    fn note_pair(
        totals: &mut Totals,
        alloc: Global,
        change: Change,
        one: &u32,
        other: &u32,
    ) -> Result<(), AllocError> {
        let product = Divisor::of_product(alloc, (*one).min(*other), (*one).max(*other))?;
        note(totals, alloc, change, product, 1)
    }
}

// Counts what one saves with each of some others.
fn note_beside<T: SavesInPairs>(
    totals: &mut Totals,
    alloc: Global,
    change: Change,
    one: &T,
    others: &[T],
) -> Result<(), AllocError>
    requires one { T.Rises one.now }
    requires others { AllByRecursion T.Rises others.now }
    requires allowed { AreAllowed change (total_of totals.old)
        (λ cover. sum_by (T.gain cover one.now) others.now) }
    ensures { OnOk result (IsTurned change (total_of totals.old) (total_of totals.new)
        (λ cover. sum_by (T.gain cover one.now) others.now)) }
{
    for other in others {
        T::note_pair(totals, alloc, change, one, other)?;
    }
    Ok(())
}

// Counts what each two of some save.
fn note_within<T: SavesInPairs>(
    totals: &mut Totals,
    alloc: Global,
    change: Change,
    items: &[T],
) -> Result<(), AllocError>
    requires items { AllByRecursion T.Rises items.now }
    requires allowed { AreAllowed change (total_of totals.old)
        (λ cover. over_pairs (T.gain cover) items.now) }
    ensures { OnOk result (IsTurned change (total_of totals.old) (total_of totals.new)
        (λ cover. over_pairs (T.gain cover) items.now)) }
{
    for place in 0..items.len() {
        note_beside(totals, alloc, change, &items[place], &items[place + 1..])?;
    }
    Ok(())
}

// Counts what each of some saves with each of some others.
fn note_across<T: SavesInPairs>(
    totals: &mut Totals,
    alloc: Global,
    change: Change,
    items: &[T],
    others: &[T],
) -> Result<(), AllocError>
    requires items { AllByRecursion T.Rises items.now }
    requires others { AllByRecursion T.Rises others.now }
    requires allowed { AreAllowed change (total_of totals.old)
        (λ cover. sum_by (λ item. sum_by (T.gain cover item) others.now) items.now) }
    ensures { OnOk result (IsTurned change (total_of totals.old) (total_of totals.new)
        (λ cover. sum_by (λ item. sum_by (T.gain cover item) others.now) items.now)) }
{
    for item in items {
        note_beside(totals, alloc, change, item, others)?;
    }
    Ok(())
}

// Counts the products of a row of which a literal is not its partner's.
fn note_own_products(
    totals: &mut Totals,
    alloc: Global,
    change: Change,
    cube: &[u32],
    partner: &[u32],
) -> Result<(), AllocError>
    requires cube { IsStrictlySortedBy nat_cmp cube.now }
    requires partner { IsStrictlySortedBy nat_cmp partner.now }
    requires allowed { AreAllowed change (total_of totals.old)
        (λ cover. own_products cover cube.now partner.now) }
    ensures { OnOk result (IsTurned change (total_of totals.old) (total_of totals.new)
        (λ cover. own_products cover cube.now partner.now)) }
{
    let (ours, _theirs) = own_parts(alloc, cube, partner)?;
    let (both, _none) = own_parts(alloc, cube, ours.as_slice())?;
    note_within(totals, alloc, change, ours.as_slice())?;
    note_across(totals, alloc, change, ours.as_slice(), both.as_slice())
}

// The row at an index, or one without literals if there is none.
fn partner_at(partners: &[Vec<u32>], place: usize) -> &[u32]
    ensures { result.now ≡ slice_index_or (map (λ cube. cube.items) partners.now) place [] }
{
    if place < partners.len() {
        return partners[place].as_slice();
    }
    &[]
}

// Counts the products of each row of which a literal is not its partner's, the row at the same
// index.
fn note_paired_products(
    totals: &mut Totals,
    alloc: Global,
    change: Change,
    cubes: &[Vec<u32>],
    partners: &[Vec<u32>],
) -> Result<(), AllocError>
    requires cubes { AreCubes (map (λ cube. cube.items) cubes.now) }
    requires partners { AreCubes (map (λ cube. cube.items) partners.now) }
    requires allowed { AreAllowed change (total_of totals.old)
        (λ cover. paired_products cover (map (λ cube. cube.items) cubes.now)
        (map (λ cube. cube.items) partners.now)) }
    ensures { OnOk result (IsTurned change (total_of totals.old) (total_of totals.new)
        (λ cover. paired_products cover (map (λ cube. cube.items) cubes.now)
        (map (λ cube. cube.items) partners.now))) }
{
    for place in 0..cubes.len() {
        let cube = cubes[place].as_slice();
        note_own_products(totals, alloc, change, cube, partner_at(partners, place))?;
    }
    Ok(())
}

/// Counts the sums of rows with one another and with each of some others, and their products
/// besides partners.
pub(crate) fn note_with(
    totals: &mut Totals,
    alloc: Global,
    change: Change,
    cubes: &[Vec<u32>],
    others: &[Vec<u32>],
    partners: &[Vec<u32>],
) -> Result<(), AllocError>
    requires cubes { AreCubes (map (λ cube. cube.items) cubes.now) }
    requires others { AreCubes (map (λ cube. cube.items) others.now) }
    requires partners { AreCubes (map (λ cube. cube.items) partners.now) }
    requires allowed { AreAllowed change (total_of totals.old)
        (λ cover. paired_gains cover (map (λ cube. cube.items) cubes.now)
        (map (λ cube. cube.items) others.now) (map (λ cube. cube.items) partners.now)) }
    ensures { OnOk result (IsTurned change (total_of totals.old) (total_of totals.new)
        (λ cover. paired_gains cover (map (λ cube. cube.items) cubes.now)
        (map (λ cube. cube.items) others.now) (map (λ cube. cube.items) partners.now))) }
{
    note_within(totals, alloc, change, cubes)?;
    note_across(totals, alloc, change, cubes, others)?;
    note_paired_products(totals, alloc, change, cubes, partners)
}
