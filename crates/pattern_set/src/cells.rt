//! The cells of a library, and its gates with their patterns.

use genlib_expr::Expr;
use sis_base::Sequence;
use subject_tree::Arena;

/// A cell of a library: its area in millionths, the formula of its output, and the number of its
/// pins.
#[derive(Clone, Copy)]
pub struct Cell<'a> {
    pub area: u128,
    pub expr: &'a Expr,
    pub pins: usize,
}

/// A gate with its patterns, by their numbers, each once; none if the gate is not used in covers.
#[derive(Drop)]
pub struct PatternGate {
    pub area: u128,
    pub pins: usize,
    pub patterns: Sequence<usize>,
}

/// The gates of a library, in order, with the trees of their patterns. A leaf of a pattern is a
/// pin, by its index.
#[derive(Drop)]
pub struct Patterns {
    pub arena: Arena,
    pub gates: Sequence<PatternGate>,
}

/// What a library lacks: no used gate has the pattern of an inverter, or of a NAND of two pins.
#[derive(Clone, Copy, Debug, PartialEq, Eq)]
pub enum PatternFault {
    NoInverter,
    NoNand,
}
