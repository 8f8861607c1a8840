//! Functions in one table of different nodes.
//!
//! `SharedFunctions` implements the trait `Functions` of func_core: a function's number is that of
//! its vertex, so equal functions have one number (R. E. Bryant, 1986; K. S. Brace, R. L. Rudell
//! and R. E. Bryant, 1990). Numbers below `standing` are valid. Invariants: valid numbers are
//! numbers of the table, every tree is within the limit, and no two numbers have one tree. A
//! variable above 32 bits is refused with `Memory`; no clause says so.

ghost use Rattle.std.specs.Prelude.{◌≡◌, ℕ, ◌+◌, ◌<◌, ◌≤◌, length, IfOk};
ghost use Rattle.func_shared.specs.Fitting.{AllFit};
ghost use Rattle.func_shared.specs.Vertices.{AreDifferent};

use crate::cache::Pair;
use crate::nodes::Nodes;
use func_core::{Func, FuncFault, Functions, Operation};
use sis_base::Sequence;
use std::alloc::{AllocError, Global};

/// Functions in one table of different nodes: equal functions have one number, and an operation
/// looks up earlier answers. `clear` makes the numbers invalid, and keeps the nodes for later
/// unless there are very many.
#[derive(Drop)]
pub struct SharedFunctions {
    limit: usize,
    nodes: Nodes,
    standing: usize,
    ghost positive: { 1 ≤ limit },
    ghost numbered: { standing ≤ 2 + length nodes },
    ghost fit: { AllFit nodes limit },
    ghost one: { AreDifferent nodes },
}

impl SharedFunctions {
    ghost use Rattle.std.specs.Prelude.{Err};
    ghost use Rattle.func_core.specs.Numbers.{Means, IsBig, Stays, NoneStands};
    ghost use Rattle.func_shared.specs.Vertices.{IsNumber};
    ghost use Rattle.func_shared.specs.Shares.{shared_tree, shared_limit, SharedHolds, operated};

    /// An object without valid numbers, for trees of a size up to the limit, which is at least 1;
    /// allocates nothing.
    pub fn new(alloc: Global, limit: usize) -> Self
        requires { 1 ≤ limit }
        ensures limit { ⟦<SharedFunctions as Functions>⟧.limit result ≡ limit }
        ensures none { NoneStands ⟦<SharedFunctions as Functions>⟧.holds result }
    {
        let nodes = Nodes::new(alloc);
        nodes.sound();
        SharedFunctions {
            limit,
            nodes,
            standing: 0,
        }
    }

    /// The number of a function in the table.
    fn number_of(&self, f: Func) -> u32
        requires { SharedHolds self.now f.0 }
        ensures same { result ≡ f.0 }
        ensures number { IsNumber self.now.nodes result }
    {
        self.nodes.sound();
        f.0 as u32
    }

    /// Makes a number valid.
    fn stand(&mut self, number: u32) -> Func
        requires number { IsNumber self.old.nodes number }
        ensures same { result.0 ≡ number }
        ensures stands { number < self.new.standing }
        ensures old { self.old.standing ≤ self.new.standing }
        ensures nodes { self.new.nodes ≡ self.old.nodes }
        ensures limit { self.new.limit ≡ self.old.limit }
    {
        let number = number as usize;
        self.standing = self.standing.max(number + 1);
        Func(number)
    }
}

impl Functions for SharedFunctions {
    ghost use Rattle.func_shared.specs.Shares.{shared_tree, shared_limit, SharedHolds};

    ghost holds = { SharedHolds };

    ghost tree = { shared_tree };

    ghost limit = { shared_limit };

    fn var(&mut self, place: usize) -> Result<Func, FuncFault> {
        let Ok(place) = u32::try_from(place) else {
            return Err(FuncFault::Memory);
        };
        let number = self.nodes.variable(place)?;
        Ok(self.stand(number))
    }

    fn constant(&mut self, value: bool) -> Result<Func, FuncFault> {
        Ok(self.stand(u32::from(value)))
    }

    fn not(&mut self, f: Func) -> Result<Func, FuncFault> {
        let goal = Pair {
            left: 1,
            right: self.number_of(f),
        };
        let number = self.nodes.operate(Operation::Xor, goal, self.limit)?;
        Ok(self.stand(number))
    }

    fn operate(&mut self, operation: Operation, f: Func, g: Func) -> Result<Func, FuncFault> {
        let left = self.number_of(f);
        let right = self.number_of(g);
        let number = self
            .nodes
            .operate(operation, Pair { left, right }, self.limit)?;
        Ok(self.stand(number))
    }

    fn is_zero(&self, f: Func) -> bool {
        self.nodes.sound();
        f.0 == 0
    }

    fn one_point(&self, f: Func) -> Result<Option<Sequence<(usize, bool)>>, AllocError> {
        if self.is_zero(f) {
            return Ok(None);
        }
        let literals = self.nodes.path(self.number_of(f))?;
        Ok(Some(Sequence::from_vec(literals)))
    }

    fn size(&self, f: Func) -> Result<usize, AllocError> {
        self.nodes.size(self.number_of(f), self.limit)
    }

    fn is_full(&self) -> bool {
        self.nodes.is_crowded()
    }

    fn clear(&mut self) {
        self.standing = 0;
        self.nodes.shed();
    }

    ghost reduced = { λ s n h. h.1 };

    ghost bounded = { λ s n h. s.fit n };

    ghost positive = { λ s. s.positive };
}
