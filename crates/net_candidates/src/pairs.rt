//! What each two items of a list make together, the earlier item first.
//!
//! A `Pairing` says what two items make, if anything; `add_pairs` appends it for all pairs, in the
//! order of the earlier item and then of the later one.

ghost use Rattle.std.specs.Prelude.{◌≡◌, ◌++◌, Option, IfOk, OnOk};
ghost use Rattle.std.specs.List.{filter_map};
ghost use Rattle.cover_names.specs.Literals.{NamedCover};
ghost use Rattle.net_candidates.specs.Pairs.{made_by_pairs};

use cover_names::NamedCover;
use std::alloc::{AllocError, Global};

/// What two items make, if anything.
pub trait Pairing<T> {
    ghost gives: { T → T → Option NamedCover };

    /// What the two make.
    fn made_of(&self, alloc: Global, one: &T, other: &T) -> Result<Option<NamedCover>, AllocError>
        ensures { IfOk result (λ found. found ≡ gives one.now other.now) };
}

// Appends what an item makes with each of some others.
fn add_with<T, P: Pairing<T>>(
    alloc: Global,
    pairing: &P,
    one: &T,
    others: &[T],
    made: &mut Vec<NamedCover>,
) -> Result<(), AllocError>
    ensures { OnOk result (made.new.items ≡ made.old.items ++ filter_map
        (P.gives one.now) others.now) }
{
    for other in others {
        if let Some(cover) = pairing.made_of(alloc, one, other)? {
            made.push(cover)?;
        }
    }
    Ok(())
}

/// Appends what each two items make.
pub fn add_pairs<T, P: Pairing<T>>(
    alloc: Global,
    pairing: &P,
    items: &[T],
    made: &mut Vec<NamedCover>,
) -> Result<(), AllocError>
    ensures { OnOk result (made.new.items ≡ made.old.items ++ made_by_pairs P.gives items.now) }
{
    let mut rest = items;
    while let Some((one, others)) = rest.split_first() {
        add_with(alloc, pairing, one, others, made)?;
        rest = others;
    }
    Ok(())
}
