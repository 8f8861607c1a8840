//! Expressions as nodes in postfix order: operands before their operator, so that none needs a deep
//! recursion. The invariant of `Expr` is that its nodes are the postfix order of a formula.

ghost use Rattle.std.specs.Prelude.{◌≡◌};
ghost use Rattle.genlib_expr.specs.Formula.{ArePostfix};

use sis_base::Sequence;
use std::marker::Model;

/// A step of an expression in postfix order. A pin is given by its index.
#[derive(Clone, Copy, Debug, PartialEq, Eq)]
pub enum Node {
    Constant(bool),
    Pin(usize),
    Not,
    And,
    Or,
}

/// An expression, which contracts see as the list of its nodes; `formula_of` gives its formula.
#[derive(Debug, Drop)]
pub struct Expr {
    nodes: Sequence<Node>,
}

impl Model for Expr {
    ghost use Rattle.std.specs.Prelude.{List};
    ghost use Rattle.genlib_expr.specs.declared.node.Node.{Node};
    ghost use Rattle.genlib_expr.specs.Formula.{ArePostfix};

    ghost Value = { List Node };

    ghost view = { λ expr. expr.nodes };

    ghost invariant = { λ expr. ArePostfix expr.nodes };
}

impl Expr {
    /// The expression whose nodes these are; takes no memory.
    pub(crate) fn from_nodes(nodes: Vec<Node>) -> Expr
        requires { ArePostfix nodes.items }
        ensures { result ≡ nodes.items }
    {
        Expr {
            nodes: Sequence::from_vec(nodes),
        }
    }

    /// The nodes in postfix order: operands, then their operator.
    pub fn nodes(&self) -> &[Node]
        ensures value { result.now ≡ self.now }
        ensures order { ArePostfix self.now }
    {
        self.nodes.as_slice()
    }
}
