//! Expressions of gates in genlib libraries: which formula a text spells, over which pins, and what
//! it denotes.
//!
//! Source: the genlib format of SIS (UCB/ERL M92/41). A sum is written with `+`, a product with `*`
//! or with nothing between its factors, a complement with `!` in front or `'` after; names and the
//! constants are primaries, and parentheses hold a sum. `read` returns the one formula that the
//! grammar (`specs/Grammar.antt`) lets the tokens of the text spell (`specs/Text.antt`), with its
//! pins in order of first mention and its depth, and refuses a text exactly if it spells none;
//! `parse` does so for tokens. The text is read from the left with a stack of pending operators
//! (Dijkstra's shunting yard), and a formula is kept as its nodes in postfix order, so neither a
//! chain of operators nor nesting leads to a recursion.
//!
//! `rows` returns exactly the rows of Shannon's expansion over the pins in order (Brayton, Hachtel,
//! McMullen and Sangiovanni-Vincentelli, "Logic Minimization Algorithms for VLSI Synthesis"), and
//! `agree` whether two expressions have the same value at all points (`specs/Functions.antt`). Both
//! build a table of 2^width bits for each node, so they are for few pins.
#![tactic(auto)]

mod expression;
mod listing;
mod node;
mod reading;
mod stack;
mod table;
mod token;
mod tokens;
mod words;

pub use expression::{ExprFault, Parsed, parse, read};
pub use listing::{agree, rows};
pub use node::{Expr, Node};
pub use stack::{Pair, take_two};
pub use token::Token;
pub use words::is_name_byte;
