//! The session: what is held between two commands, and one step of the command machine.
//!
//! The commands are those of SIS (UCB/ERL M92/41) that are implemented so far. Each has a plan
//! (`specs/Commands.antt`): at most one call on the outside, and what follows from its answer. A
//! step goes by a plan of its command (`specs/Plan.antt`) and makes exactly the call that the plan
//! says, over every outside. Every answer but `Ok` leaves the session as it was, and a script that
//! comes next is nested no deeper than allowed.
//!
//! Laws over steps (`laws`, `specs/Keeping.antt`): what is held refines what was read last; nothing
//! is saved but the text of the network, the netlist or the machine; a command that has what it
//! needs is done; and a command ends in one way, unless memory runs out or a function is too big.
//!
//! Modules: `session` (what is held, and the step), `printing` (what commands print), `algebra`
//! (what they print of tables as algebra, by the lines of `factors` and `kernels`,
//! `specs/Told.antt`), `changing` (what they make of the network), `encoding` and `mapping` (what
//! they make of the machine, and of the network by gates), `outside` (the calls on files and
//! output), `texts` (what is printed; fault_texts describes what is wrong with a file), `refusal`.
#![tactic(auto)]

mod algebra;
mod changing;
mod encoding;
mod factors;
mod generating;
mod kernels;
mod laws;
mod mapping;
mod outside;
mod printing;
mod refusal;
mod session;
mod texts;

pub use alg_kernel::KernelFault;
pub use factors::{factor_line, factor_lines};
pub use kernels::kernel_lines;
pub use laws::{
    changes_have_one_outcome, commands_end_once, commands_have_one_plan, served_commands_are_done,
    steps_keep_refinement, what_is_held_is_written,
};
pub use outside::load;
pub use refusal::{Failed, Next, Refusal, StepFault};
pub use session::{MAX_BYTES, MAX_DEPTH, Session};
pub use texts::{Stats, error_text, refusal_text};
