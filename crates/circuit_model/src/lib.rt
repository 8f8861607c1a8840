//! Circuits and machines: their types, what they mean over bits, when they are sound, and their
//! texts.
//!
//! A `Circuit` is a BLIF model (SIS report, UCB/ERL M92/41, appendix on BLIF): ports, latches of
//! one clock step of delay, tables of rows, and the don't-care tables. A `Machine` is a KISS2 table
//! (SIS report; De Micheli, "Synthesis and Optimization of Digital Circuits", chapters 3 and 9):
//! symbolic states, and rows of an input cube, a current state, a next state and outputs, each of
//! which may be left open.
//!
//! `specs/` says what they mean: the value of a table (`Values`), runs (`Runs`, `MachineRuns`),
//! when one behavior refines another, be it a circuit's or a machine's (`Behaviors`,
//! `MachineBehaviors`), when two rows clash (`Clashes`), when each is sound (`Soundness`,
//! `MachineSoundness`), and its one text (`Text`, `MachineText`). `laws` and `machine_laws` have
//! the laws over these definitions, each the contract of a public call. `Circuit::simulate` runs a
//! circuit, level by level (`Levels`).
#![tactic(auto)]

mod circuit;
mod copies;
pub mod laws;
mod machine;
mod machine_copies;
pub mod machine_laws;
mod name_list;
mod simulation;
mod wiring;

pub use circuit::{Circuit, Kind, Latch, Latches, Names, Row, Rows, Table, Tables, Timing, Tri};
pub use copies::timing_copied;
pub use machine::{Clash, Machine, MachineRow, MachineRows, Spec};
pub use name_list::{has_name, names_copied};
pub use simulation::{Bits, SimFault, Simulated};
pub use sis_base::Name;
pub use wiring::add_latches;
