//! The table of vertices together with the remembered answers of operations on it.
//!
//! `operate` returns the number of the result only if its tree is within the limit, and `TooBig`
//! only if it is not; on an error it removes the new vertices and all answers, which no clause
//! says, and earlier numbers denote the same trees. Invariant: all remembered answers are right,
//! and no two numbers have one tree (R. E. Bryant, 1986). `operate` also keeps all trees within the
//! limit. `shed` drops all vertices if there are too many to keep.

ghost use Rattle.std.specs.Prelude.{◌≡◌, ℕ, ◌<◌, ◌≤◌, Err, [], length, IfOk};
ghost use Rattle.func_core.specs.Trees.{Zero, One, Node};
ghost use Rattle.func_core.specs.Sizes.{size};
ghost use Rattle.func_core.specs.Points.{path};
ghost use Rattle.func_shared.specs.Vertices.{tree_at, IsNumber, Has, IsTable, AreDifferent, Grows};
ghost use Rattle.func_shared.specs.Answers.{made};
ghost use Rattle.func_shared.specs.Fitting.{AllFit};

use crate::cache::{Answers, Pair};
use crate::table::Table;
use crate::{answering, walking};
use func_core::{FuncFault, Operation};
use std::alloc::{AllocError, Global};
use std::marker::Model;

/// The number of vertices that are kept, with the answers about them, when no number is valid.
const MAX_NODES_KEPT: usize = 1 << 20;

/// A table and the remembered answers about it, so that no answer outlives a vertex that it
/// mentions. Contracts see the list of its vertices.
#[derive(Drop)]
pub(crate) struct Nodes {
    alloc: Global,
    table: Table,
    answers: Answers,
}

impl Model for Nodes {
    ghost use Rattle.std.specs.Prelude.{List};
    ghost use Rattle.func_shared.specs.declared.vertex.Vertex.{Vertex};

    ghost Value = { List Vertex };

    ghost use Rattle.func_shared.specs.Answers.{AreAnswers};

    ghost view = { λ n. n.table };

    ghost invariant = { λ n. AreAnswers n.table n.answers };
}

impl Nodes {
    /// A table without vertices; allocates nothing.
    pub(crate) fn new(alloc: Global) -> Nodes
        ensures { result ≡ [] }
    {
        Nodes {
            alloc,
            table: Table::new(alloc),
            answers: Answers::new(alloc),
        }
    }

    /// The invariant of every table.
    pub(crate) fn sound(&self)
        ensures { IsTable self.now }
    {
        self.table.sound();
    }

    /// The number of the result of an operation on the trees of two numbers, unless its size is
    /// above the limit. On an error the table is as it was; the clauses say only that earlier
    /// numbers are.
    pub(crate) fn operate(
        &mut self,
        operation: Operation,
        goal: Pair,
        limit: usize,
    ) -> Result<u32, FuncFault>
        requires left { IsNumber self.old goal.left }
        requires right { IsNumber self.old goal.right }
        requires fit { AllFit self.old limit }
        ensures ok { IfOk result (λ number. Has self.new number (made self.old operation goal)) }
        ensures big { result ≡ Err FuncFault.TooBig → limit < size (made self.old operation goal) }
        ensures grows { Grows self.old self.new }
        ensures fit { AllFit self.new limit }
        ensures one { AreDifferent self.new }
    {
        let before = self.table.len();
        let result = self.attempt(operation, goal, limit);
        self.table.sound();
        if result.is_ok() {
            return result;
        }
        self.table.cut(before);
        self.answers.clear();
        self.table.sound();
        result
    }

    /// Like `operate`, but an error may leave new vertices in the table whose trees do not fit.
    fn attempt(&mut self, operation: Operation, goal: Pair, limit: usize) -> Result<u32, FuncFault>
        requires left { IsNumber self.old goal.left }
        requires right { IsNumber self.old goal.right }
        requires fit { AllFit self.old limit }
        ensures ok { IfOk result (λ number. Has self.new number (made self.old operation goal)) }
        ensures big { result ≡ Err FuncFault.TooBig → limit < size (made self.old operation goal) }
        ensures grows { Grows self.old self.new }
        ensures fit { IfOk result (λ _. AllFit self.new limit) }
    {
        let before = self.table.len();
        let number = answering::answer(
            self.alloc,
            &mut self.table,
            &mut self.answers,
            operation,
            goal,
            limit,
        )?;
        self.table.sound();
        if self.table.len() == before || number as usize <= limit {
            return Ok(number);
        }
        let counted = walking::count_within(self.alloc, &self.table, number, limit)?;
        if counted.is_none() {
            return Err(FuncFault::TooBig);
        }
        Ok(number)
    }

    /// The number of the tree of a variable.
    pub(crate) fn variable(&mut self, place: u32) -> Result<u32, AllocError>
        ensures ok { IfOk result (λ number. Has self.new number (Node place Zero One)) }
        ensures grows { Grows self.old self.new }
        ensures fit { (limit : ℕ) → 1 ≤ limit → AllFit self.old limit → AllFit self.new limit }
        ensures one { AreDifferent self.new }
    {
        let joined = self.table.join(place, 0, 1);
        self.table.sound();
        joined
    }

    /// The size of a number's tree, given a bound on it.
    pub(crate) fn size(&self, number: u32, limit: usize) -> Result<usize, AllocError>
        requires number { IsNumber self.now number }
        requires fits { size (tree_at self.now number) ≤ limit }
        ensures { IfOk result (λ count. count ≡ size (tree_at self.now number)) }
    {
        let counted = walking::count_within(self.alloc, &self.table, number, limit)?;
        Ok(counted.unwrap_or(0))
    }

    /// The path of a number's tree to a point at which it is true, if it is not Zero.
    pub(crate) fn path(&self, number: u32) -> Result<Vec<(usize, bool)>, AllocError>
        requires { IsNumber self.now number }
        ensures { IfOk result (λ literals. literals.items ≡ path (tree_at self.now number)) }
    {
        walking::path_of(self.alloc, &self.table, number)
    }

    /// Whether there are too many vertices to keep.
    pub(crate) fn is_crowded(&self) -> bool {
        self.table.len() > MAX_NODES_KEPT
    }

    /// Drops all vertices if there are too many to keep; allocates nothing.
    pub(crate) fn shed(&mut self)
        ensures fit { (limit : ℕ) → AllFit self.old limit → AllFit self.new limit }
        ensures one { AreDifferent self.new }
    {
        if self.table.len() <= MAX_NODES_KEPT {
            return self.table.sound();
        }
        *self = Nodes::new(self.alloc);
        self.table.sound();
    }
}
