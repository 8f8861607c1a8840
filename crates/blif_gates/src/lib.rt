//! The table that the words of a `.gate` line give, by a library.
//!
//! Source: the BLIF appendix of the SIS report (UCB/ERL M92/41), `.gate`, and its genlib format.
//! `specs/GateLines.antt` says which table a line gives and what is wrong with it. `read_gate`
//! returns exactly that table or that fault; `add_signals` appends those signals of a line that are
//! among given names, in its order; `long_signal` finds the first that is too long; `pin_in` and
//! `signal_in` are the parts of one word, and `is_pair` says whether it has both. `laws` says of
//! the table that it is shaped and named by signals of the line, that with a sound library it has
//! at most `MAX_PINS` inputs, and that its value is the function of the gate. A signal may be at
//! two pins: the table then has an input twice.
#![tactic(auto)]

pub mod laws;
mod pairs;
mod reading;

pub use pairs::{add_signals, is_pair, long_signal, pin_in, signal_in};
pub use reading::{GateFault, read_gate};
