//! The ranks of keys and their values.

ghost use Rattle.std.specs.Prelude.{◌≡◌, Option, IfOk};
ghost use Rattle.std.proofs.lemmas.Map.Lookups.{CmpEqualImpliesEq};

use std::alloc::{AllocError, Global};

/// Ranks keys by their values.
pub trait Ranking<K: Ord, V, R: Ord> {
    /// The rank of a key with a value, if it has one.
    ghost rank_of: { K → V → Option R };

    /// Computes the rank of a key with a value, if it has one.
    fn rank(key: &K, value: V) -> Option<R>
        ensures { result ≡ rank_of key.now value };

    /// A copy of a key.
    fn copy(alloc: Global, key: &K) -> Result<K, AllocError>
        ensures { IfOk result (λ made. made ≡ key.now) };

    /// Keys that compare equal are the same.
    ghost keys_exact: { CmpEqualImpliesEq K.cmp };

    /// So are ranks.
    ghost ranks_exact: { CmpEqualImpliesEq R.cmp };
}
