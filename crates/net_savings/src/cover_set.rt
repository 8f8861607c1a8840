//! What one table gives by itself: covers, each once, found by hash.
//!
//! Callers rely on the set to have exactly the covers of the list that it is made of.

ghost use Rattle.std.specs.Prelude.{◌≡◌, ◌↔◌, List, IfOk};
ghost use Rattle.std.specs.List.{list_any};
ghost use Rattle.alg_div.specs.Cubes.{Has};
ghost use Rattle.cover_names.specs.Literals.{NamedCover};
ghost use Rattle.net_savings.specs.Orders.{cover_eq};

use cover_names::NamedCover;
use indexmap::IndexSet;
use std::alloc::{AllocError, Global};
use std::marker::Model;

/// Covers, each once; contracts see the list of them.
pub(crate) struct CoverSet {
    covers: IndexSet<NamedCover>,
}

impl Model for CoverSet {
    ghost use Rattle.std.specs.Prelude.{List};
    ghost use Rattle.cover_names.specs.Literals.{NamedCover};

    ghost Value = { List NamedCover };

    ghost view = { λ set. set.covers.keys };
}

// Written out, so that dropping it is one call in the functions that own it.
impl Drop for CoverSet {
    fn drop(self) {
        let CoverSet { covers: _covers } = self;
    }
}

// Some covers, each once.
fn covers_once(alloc: Global, covers: Vec<NamedCover>) -> Result<IndexSet<NamedCover>, AllocError>
    ensures { IfOk result (λ made. (cover : NamedCover) → Has cover made.keys
        ↔ Has cover covers.items) }
{
    let mut made = IndexSet::new(alloc);
    for cover in covers {
        made.insert(cover)?;
    }
    Ok(made)
}

impl CoverSet {
    /// The set of some covers.
    pub(crate) fn of(alloc: Global, covers: Vec<NamedCover>) -> Result<CoverSet, AllocError>
        ensures { IfOk result (λ set. (cover : NamedCover) → Has cover set
            ↔ Has cover covers.items) }
    {
        Ok(CoverSet {
            covers: covers_once(alloc, covers)?,
        })
    }

    /// Whether a cover is in the set.
    pub(crate) fn has(&self, cover: &NamedCover) -> bool
        ensures { result ≡ list_any (cover_eq cover.now) self.now }
    {
        self.covers.contains(cover)
    }
}
