//! The stack of operands on which nodes in postfix order are evaluated, the newest operand first.

ghost use Rattle.std.specs.Prelude.{◌≡◌, ◌≤◌, ◌∷◌, None, length, IfSome};

use std::collections::VecDeque;

/// The newest two operands, in the order of the expression.
#[derive(Drop)]
pub struct Pair<T: Drop> {
    pub left: T,
    pub right: T,
}

/// Takes the newest two operands off the stack, if there are two.
pub fn take_two<T: Drop>(waiting: &mut VecDeque<T>) -> Option<Pair<T>>
    ensures some { IfSome result (λ two. waiting.old.items
        ≡ two.right ∷ two.left ∷ waiting.new.items) }
    ensures none { result ≡ None → length waiting.old.items ≤ 1 }
{
    let right = waiting.pop_front()?;
    let left = waiting.pop_front()?;
    Some(Pair { left, right })
}
