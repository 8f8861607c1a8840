//! Functions as plain trees, one for each number, without sharing.
//!
//! A function's number is the index of its tree, which is reduced and within the limit (R. E.
//! Bryant, 1986). This is the reference implementation of `Functions`: simple, and for small
//! functions only, since an operation recurses as deep as its trees and a size is counted by
//! comparing subtrees.

ghost use Rattle.std.specs.Prelude.{◌≡◌, ℕ, ◌<◌, ◌≤◌, IfOk};

use crate::diagram::{self, Diagram};
use crate::functions::{Func, FuncFault, Functions};
use crate::operation::Operation;
use sis_base::Sequence;
use std::alloc::{AllocError, Global};

/// Functions as plain reduced trees, one for each number. An operation recurses over its trees, as
/// deep as variables occur on a path, and a size is counted by comparing subtrees.
#[derive(Drop)]
pub struct PlainFunctions {
    alloc: Global,
    limit: usize,
    diagrams: Vec<Diagram>,
    ghost positive: { 1 ≤ limit },
}

impl PlainFunctions {
    ghost use Rattle.func_core.specs.Trees.{eval, IsReduced};
    ghost use Rattle.func_core.specs.Sizes.{size};
    ghost use Rattle.func_core.specs.Numbers.{Means, Stays, NoneStands};
    ghost use Rattle.func_core.specs.PlainTrees.{shape, plain_tree, plain_limit, PlainHolds};

    /// An object without valid numbers, for trees of a size up to the limit, which is at least 1;
    /// allocates nothing.
    pub fn new(alloc: Global, limit: usize) -> Self
        requires { 1 ≤ limit }
        ensures limit { ⟦<PlainFunctions as Functions>⟧.limit result ≡ limit }
        ensures none { NoneStands ⟦<PlainFunctions as Functions>⟧.holds result }
    {
        PlainFunctions {
            alloc,
            limit,
            diagrams: Vec::new(alloc),
        }
    }

    /// Appends a reduced tree, unless its size is above the limit; its number is its index.
    fn keep(&mut self, made: Diagram) -> Result<Func, FuncFault>
        requires { IsReduced 0 (shape made) }
        ensures ok { IfOk result (λ h. Means PlainHolds plain_tree plain_limit self.new h.0 (eval
            (shape made))) }
        ensures big { result ≡ Err FuncFault.TooBig → self.old.limit < size (shape made) }
        ensures stays { Stays PlainHolds plain_tree plain_limit self.old self.new }
    {
        let count = diagram::size_of(self.alloc, &made)?;
        if count > self.limit {
            return Err(FuncFault::TooBig);
        }
        let number = self.diagrams.len();
        self.diagrams.push(made).map_err(AllocError::from)?;
        Ok(Func(number))
    }
}

impl Functions for PlainFunctions {
    ghost use Rattle.func_core.specs.PlainTrees.{plain_tree, plain_limit, PlainHolds};

    ghost holds = { PlainHolds };

    ghost tree = { plain_tree };

    ghost limit = { plain_limit };

    fn var(&mut self, place: usize) -> Result<Func, FuncFault> {
        let made = diagram::variable_at(self.alloc, place)?;
        self.keep(made)
    }

    fn constant(&mut self, value: bool) -> Result<Func, FuncFault> {
        self.keep(diagram::leaf(value))
    }

    fn not(&mut self, f: Func) -> Result<Func, FuncFault> {
        let made = diagram::with_constant(self.alloc, Operation::Xor, true, &self.diagrams[f.0])?;
        self.keep(made)
    }

    fn operate(&mut self, operation: Operation, f: Func, g: Func) -> Result<Func, FuncFault> {
        let left = &self.diagrams[f.0];
        let right = &self.diagrams[g.0];
        let made = diagram::combine(self.alloc, operation, left, right)?;
        self.keep(made)
    }

    fn is_zero(&self, f: Func) -> bool {
        diagram::is_false(&self.diagrams[f.0])
    }

    fn one_point(&self, f: Func) -> Result<Option<Sequence<(usize, bool)>>, AllocError> {
        let tree = &self.diagrams[f.0];
        if diagram::is_false(tree) {
            return Ok(None);
        }
        let literals = diagram::path_of(self.alloc, tree)?;
        Ok(Some(Sequence::from_vec(literals)))
    }

    fn size(&self, f: Func) -> Result<usize, AllocError> {
        diagram::size_of(self.alloc, &self.diagrams[f.0])
    }

    // Each number has memory of its own, so even one is worth clearing.
    fn is_full(&self) -> bool {
        !self.diagrams.is_empty()
    }

    fn clear(&mut self) {
        self.diagrams.clear();
    }

    ghost reduced = { λ s n h. h.1 };

    ghost bounded = { λ s n h. h.2 };

    ghost positive = { λ s. s.positive };
}
