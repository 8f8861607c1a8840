//! The types of machines. Contracts see all lists in them as plain lists, so that two machines are
//! equal (`≡`) if all their parts are. `specs/MachineSoundness.antt` says which machines are sound.

use crate::{Circuit, Names, Row};
use sis_base::{Name, Sequence};

/// The rows of a machine, in order.
pub type MachineRows = Sequence<MachineRow>;

/// A row: an input cube and a current state, for which it specifies a next state and outputs.
/// States are indices in the machine's list of states; no current state means every state, no next
/// state leaves it open.
#[derive(Debug, Drop, PartialEq)]
pub struct MachineRow {
    pub input: Row,
    pub current: Option<usize>,
    pub next: Option<usize>,
    pub output: Row,
}

/// A machine: what is kept of a KISS2 table. `reset` is the index of the state that it starts in.
#[derive(Debug, Drop, PartialEq)]
pub struct Machine {
    pub name: Name,
    pub inputs: Names,
    pub outputs: Names,
    pub states: Names,
    pub reset: usize,
    pub rows: MachineRows,
}

/// Two rows that clash, by their indices, from 0.
#[derive(Clone, Copy, Debug, PartialEq, Eq)]
pub struct Clash {
    pub earlier: usize,
    pub later: usize,
}

/// What a file specifies: a circuit or a machine.
#[derive(Debug, Drop, PartialEq)]
pub enum Spec {
    Circuit(Circuit),
    Machine(Machine),
}
