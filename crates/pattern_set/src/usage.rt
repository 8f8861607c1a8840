//! Which gates are used in covers: those without constants and with at most `MAX_LITERALS`
//! literals.
//!
//! Both are read off the nodes of the formula in postfix order.

ghost use Rattle.std.specs.Prelude.{◌≡◌};
ghost use Rattle.std.specs.List.{list_any, count_by};
ghost use Rattle.genlib_expr.specs.Formula.{formula_of};
ghost use Rattle.pattern_set.specs.Patterns.{is_used};
ghost use Rattle.pattern_set.specs.Usage.{is_constant_node, is_pin_node};

use genlib_expr::{Expr, Node};
use sis_base::limits::MAX_LITERALS;

// Whether a node is a constant.
fn is_constant(node: &Node) -> bool
    ensures { result ≡ is_constant_node node.now }
{
    match node {
        Node::Constant(_) => true,
        Node::Pin(_) => false,
        Node::Not => false,
        Node::And => false,
        Node::Or => false,
    }
}

// Whether a node is a pin.
fn is_pin(node: &Node) -> bool
    ensures { result ≡ is_pin_node node.now }
{
    match node {
        Node::Constant(_) => false,
        Node::Pin(_) => true,
        Node::Not => false,
        Node::And => false,
        Node::Or => false,
    }
}

// Whether some node is a constant.
fn has_constant(nodes: &[Node]) -> bool
    ensures { result ≡ list_any is_constant_node nodes.now }
{
    nodes.iter().any(|node| is_constant(node))
}

// The number of pins among nodes.
fn literals(nodes: &[Node]) -> usize
    ensures { result ≡ count_by is_pin_node nodes.now }
{
    nodes.iter().filter(|node| is_pin(node)).count()
}

/// Whether a gate of this formula is used in covers.
pub fn is_used(expr: &Expr) -> bool
    ensures { result ≡ is_used (formula_of expr.now) }
{
    let nodes = expr.nodes();
    !has_constant(nodes) && literals(nodes) <= MAX_LITERALS
}
