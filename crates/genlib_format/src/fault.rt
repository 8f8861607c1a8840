//! What is wrong with a library file. `LibFault` has the faults of `specs/Faults.antt` and
//! `specs/Reader.antt`; `ReadFault` adds want of memory.

use sis_base::Name;

/// What a limit is on.
#[derive(Clone, Copy, Debug, PartialEq, Eq)]
pub enum LimitKind {
    /// The bytes of a name: `MAX_NAME`.
    Name,
    /// The nested parentheses of an expression: `MAX_NESTING`.
    Depth,
    /// The pins of a gate: `MAX_PINS`.
    Pins,
    /// The entries of gates and latches: `MAX_GATES`.
    Gates,
}

/// Why a file is not read as a library. Lines are those of an entry's first word, from 1.
#[derive(Debug, Drop, PartialEq)]
pub enum LibFault {
    /// Words without the shape of an entry.
    BadEntry(usize),
    /// An area or a delay that is not a number.
    BadNumber(usize),
    /// A text that spells no expression.
    BadExpr(usize),
    /// A limit is exceeded; the number is what was reached.
    Limit(LimitKind, usize),
    /// A name that is not a pin or has two lines, a pin that is the output, or a pin without a
    /// line.
    BadPin(Name),
    /// A second gate of a name that is not the same cell as the first.
    GateTwice(Name),
}

/// Why a reading ends without a library.
pub type ReadFault = sis_text::ReadFault<LibFault>;
