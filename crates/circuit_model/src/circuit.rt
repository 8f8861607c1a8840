//! The types of circuits.
//!
//! Contracts see all lists in them as plain lists, so that two circuits are equal (`≡`) if all
//! their parts are. What they mean is defined in `specs/Values.antt` and `specs/Runs.antt`, and
//! which circuits are sound in `specs/Soundness.antt`; the types have no invariants of their own.

use sis_base::{Name, Sequence, Short};

/// Names, in order.
pub type Names = Sequence<Name>;
/// A row of a table: one character for each input, in their order.
pub type Row = Short<Tri, 16>;
/// The rows of a table, in order.
pub type Rows = Sequence<Row>;
/// Tables, in order.
pub type Tables = Sequence<Table>;
/// Latches, in order.
pub type Latches = Sequence<Latch>;

/// A character of a row, or an output at a step: `0`, `1`, or `-` (either).
#[derive(Clone, Copy, Debug, Default, PartialEq, Eq)]
pub enum Tri {
    #[default]
    Zero,
    One,
    Free,
}

/// What triggers a latch: falling or rising edge, active high or low.
#[derive(Clone, Copy, Debug, PartialEq, Eq)]
pub enum Kind {
    Fe,
    Re,
    Ah,
    Al,
}

/// A table: if some row matches the inputs' bits the output is `phase`, otherwise the other bit.
#[derive(Debug, Drop, PartialEq)]
pub struct Table {
    pub inputs: Names,
    pub output: Name,
    pub rows: Rows,
    pub phase: bool,
}

/// A latch: one clock step of delay. `init` is 0, 1, 2 (don't care) or 3 (unknown).
#[derive(Debug, Drop, PartialEq)]
pub struct Latch {
    pub input: Name,
    pub output: Name,
    pub init: u8,
}

/// The kind and the control signal that all latches of a circuit share; no control is written
/// `NIL`.
#[derive(Debug, Drop, PartialEq)]
pub struct Timing {
    pub kind: Kind,
    pub control: Option<Name>,
}

/// A circuit: what is kept of a BLIF model. `dont_care` has the tables of its don't-care part.
#[derive(Debug, Drop, PartialEq)]
pub struct Circuit {
    pub name: Name,
    pub inputs: Names,
    pub outputs: Names,
    pub clocks: Names,
    pub timing: Option<Timing>,
    pub latches: Latches,
    pub tables: Tables,
    pub dont_care: Tables,
}
