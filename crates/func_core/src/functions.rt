//! Functions by number: the contract of every implementation, whether it keeps plain trees or a
//! shared table of nodes.
//!
//! Source: R. E. Bryant, "Graph-Based Algorithms for Boolean Function Manipulation" (1986). A valid
//! number denotes one reduced tree whose size is within the object's limit, and keeps denoting it
//! until `clear`. Callers rely on `TooBig` being exact: a function that fits is never refused for
//! its size.

ghost use Rattle.std.specs.Prelude.{◌≡◌, ℕ, ◌≤◌, ◌↔◌, IsTrue, IfOk};
ghost use Rattle.func_core.specs.Trees.{Tree, Zero, eval, IsReduced, constant, variable, complement, conjunction, disjunction, exclusive_or};
ghost use Rattle.func_core.specs.Sizes.{size};
ghost use Rattle.func_core.specs.Points.{one_path};
ghost use Rattle.func_core.specs.Numbers.{Means, IsBig, Stays, NoneStands};
ghost use Rattle.func_core.specs.Operations.{operation_on};

use crate::operation::Operation;
use sis_base::Sequence;
use std::alloc::AllocError;

/// The number of a function, valid for the object that returned it until its next `clear`.
#[derive(Clone, Copy, Debug, PartialEq, Eq)]
pub struct Func(pub usize);

/// Why no function was returned.
#[derive(Clone, Copy, Debug, PartialEq, Eq)]
pub enum FuncFault {
    /// The function's size is above the limit.
    TooBig,
    /// There is not enough memory, or the object cannot number further variables or functions.
    Memory,
}

impl From<AllocError> for FuncFault {
    ghost use Rattle.std.specs.Prelude.{◌≡◌};
    ghost use Rattle.func_core.specs.declared.functions.FuncFault.TheVariants.{Memory};

    ghost from_gives = { λ _ e. e ≡ Memory };

    fn from(_failed: AllocError) -> FuncFault {
        FuncFault::Memory
    }
}

/// An object that gives Boolean functions numbers. Each valid number denotes one tree, which is
/// reduced and within the object's limit on the size of a tree. The limit is at least 1, the size
/// of a variable.
pub trait Functions: Drop {
    ghost holds: { Self → ℕ → Type 0 };

    ghost tree: { Self → ℕ → Tree };

    ghost limit: { Self → ℕ };

    /// The function that is the bit of a variable. Its size is 1, so it is never too big.
    fn var(&mut self, place: usize) -> Result<Func, FuncFault>
        ensures ok { IfOk result (λ h. Means holds tree limit self.new h.0 (variable place)) }
        ensures fits { result ≡ Err FuncFault.TooBig → ⊥ }
        ensures stays { Stays holds tree limit self.old self.new };

    /// The constant function of a bit. Its size is 0, so it is never too big.
    fn constant(&mut self, value: bool) -> Result<Func, FuncFault>
        ensures ok { IfOk result (λ h. Means holds tree limit self.new h.0 (constant value)) }
        ensures fits { result ≡ Err FuncFault.TooBig → ⊥ }
        ensures stays { Stays holds tree limit self.old self.new };

    /// The complement of a function. It has the function's size, so it is never too big.
    fn not(&mut self, f: Func) -> Result<Func, FuncFault>
        requires { holds self.old f.0 }
        ensures ok { IfOk result (λ h. Means holds tree limit self.new h.0 (complement (eval
            (tree self.old f.0)))) }
        ensures fits { result ≡ Err FuncFault.TooBig → ⊥ }
        ensures stays { Stays holds tree limit self.old self.new };

    /// An operation on two functions.
    fn operate(&mut self, operation: Operation, f: Func, g: Func) -> Result<Func, FuncFault>
        requires f { holds self.old f.0 }
        requires g { holds self.old g.0 }
        ensures ok { IfOk result (λ h. Means holds tree limit self.new h.0 (operation_on operation
            (eval (tree self.old f.0)) (eval (tree self.old g.0)))) }
        ensures big { result ≡ Err FuncFault.TooBig → IsBig (limit self.old) (operation_on operation
            (eval (tree self.old f.0)) (eval (tree self.old g.0))) }
        ensures stays { Stays holds tree limit self.old self.new };

    /// The conjunction of two functions.
    fn and(&mut self, f: Func, g: Func) -> Result<Func, FuncFault>
        requires f { holds self.old f.0 }
        requires g { holds self.old g.0 }
        ensures ok { IfOk result (λ h. Means holds tree limit self.new h.0 (conjunction (eval
            (tree self.old f.0)) (eval (tree self.old g.0)))) }
        ensures big { result ≡ Err FuncFault.TooBig → IsBig (limit self.old) (conjunction (eval
            (tree self.old f.0)) (eval (tree self.old g.0))) }
        ensures stays { Stays holds tree limit self.old self.new }
    {
        self.operate(Operation::And, f, g)
    }

    /// The disjunction of two functions.
    fn or(&mut self, f: Func, g: Func) -> Result<Func, FuncFault>
        requires f { holds self.old f.0 }
        requires g { holds self.old g.0 }
        ensures ok { IfOk result (λ h. Means holds tree limit self.new h.0 (disjunction (eval
            (tree self.old f.0)) (eval (tree self.old g.0)))) }
        ensures big { result ≡ Err FuncFault.TooBig → IsBig (limit self.old) (disjunction (eval
            (tree self.old f.0)) (eval (tree self.old g.0))) }
        ensures stays { Stays holds tree limit self.old self.new }
    {
        self.operate(Operation::Or, f, g)
    }

    /// The exclusive or of two functions.
    fn xor(&mut self, f: Func, g: Func) -> Result<Func, FuncFault>
        requires f { holds self.old f.0 }
        requires g { holds self.old g.0 }
        ensures ok { IfOk result (λ h. Means holds tree limit self.new h.0 (exclusive_or (eval
            (tree self.old f.0)) (eval (tree self.old g.0)))) }
        ensures big { result ≡ Err FuncFault.TooBig → IsBig (limit self.old) (exclusive_or (eval
            (tree self.old f.0)) (eval (tree self.old g.0))) }
        ensures stays { Stays holds tree limit self.old self.new }
    {
        self.operate(Operation::Xor, f, g)
    }

    /// Whether a function is false everywhere; allocates nothing.
    fn is_zero(&self, f: Func) -> bool
        requires { holds self.now f.0 }
        ensures { IsTrue result ↔ (tree self.now f.0 ≡ Zero) };

    /// The literals on the path to a point at which the function is true; `None` exactly if it is
    /// false everywhere. Variables increase, those without a literal may have any bit, and the path
    /// takes the half in which a variable is false unless that half is false everywhere.
    fn one_point(&self, f: Func) -> Result<Option<Sequence<(usize, bool)>>, AllocError>
        requires { holds self.now f.0 }
        ensures { IfOk result (λ point. point ≡ one_path (tree self.now f.0)) };

    /// The size of a function: the number of different inner subtrees of its tree.
    fn size(&self, f: Func) -> Result<usize, AllocError>
        requires { holds self.now f.0 }
        ensures { IfOk result (λ count. count ≡ size (tree self.now f.0)) };

    /// Whether so much is kept that a caller who can do without its numbers should clear it. It
    /// says nothing of any function.
    fn is_full(&self) -> bool;

    /// Makes all numbers invalid; allocates nothing.
    fn clear(&mut self)
        ensures none { NoneStands holds self.new }
        ensures limit { limit self.new ≡ limit self.old };

    ghost reduced: { (state : Self) (n : ℕ) → holds state n → IsReduced 0 (tree state n) };

    ghost bounded: { (state : Self) (n : ℕ) → holds state n → size (tree state n) ≤ limit state };

    ghost positive: { (state : Self) → 1 ≤ limit state };
}
