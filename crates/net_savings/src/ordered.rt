//! Covers in their order.

ghost use Rattle.std.specs.Prelude.{◌≡◌};

use cover_names::{NamedCover, compare_covers};
use sis_base::Copied;
use std::alloc::{AllocError, Global};
use std::cmp::Ordering;
use std::marker::Model;

/// A cover, ordered cube by cube; contracts see the cover.
#[derive(Debug, PartialEq, Eq, Hash, Drop)]
pub(crate) struct OrderedCover {
    cover: NamedCover,
}

impl Model for OrderedCover {
    ghost use Rattle.cover_names.specs.Literals.{NamedCover};

    ghost Value = { NamedCover };

    ghost view = { λ o. o.cover };

    ghost inverse = { λ cover. record { cover = cover } };
}

impl OrderedCover {
    /// Wraps a cover.
    pub(crate) fn new(cover: NamedCover) -> OrderedCover
        ensures { result ≡ cover }
    {
        OrderedCover { cover }
    }

    /// The cover.
    pub(crate) fn get(&self) -> &NamedCover
        ensures { result.now ≡ self.now }
    {
        &self.cover
    }
}

impl Copied for OrderedCover {
    fn copy(&self, alloc: Global) -> Result<OrderedCover, AllocError> {
        Ok(OrderedCover {
            cover: self.cover.copy(alloc)?,
        })
    }
}

impl Ord for OrderedCover {
    ghost use Rattle.cover_names.specs.Literals.{cover_cmp};
    ghost use Rattle.cover_names.proofs.Orders.{cover_order};
    ghost use Rattle.net_savings.specs.Orders.{cover_ties};
    ghost use mathlib.Core.Path.{refl};

    ghost cmp = { cover_cmp };

    ghost total = { cover_order.total };

    ghost matches_partial_cmp = { λ one other. refl };

    ghost matches_eq = { cover_ties };

    fn cmp(&self, other: &OrderedCover) -> Ordering {
        compare_covers(&self.cover, &other.cover)
    }
}

impl PartialOrd for OrderedCover {
    ghost use Rattle.std.specs.Cmp.{po};
    ghost use Rattle.std.specs.Ordering.{as_partial_cmp};
    ghost use Rattle.cover_names.specs.Literals.{cover_cmp};
    ghost use Rattle.cover_names.proofs.Orders.{cover_order};
    ghost use Rattle.net_savings.specs.Orders.{cover_ties};

    ghost partial_cmp = { as_partial_cmp cover_cmp };

    ghost laws = { po cover_order.total cover_ties };

    fn partial_cmp(&self, other: &OrderedCover) -> Option<Ordering> {
        Some(self.cmp(other))
    }
}
