//! Networks: sound circuits whose tables store their rows as covers, changed one table at a time.
//!
//! Source: De Micheli, "Synthesis and Optimization of Digital Circuits", chapter 8 (logic networks
//! and their transformations), and the BLIF appendix of the SIS report (UCB/ERL M92/41) for the
//! other parts of a circuit. A `CoverTable<R>` has inputs, a cover over them and a phase. Contracts see
//! a `Network<R>` as its circuit; inside, each table has a slot of its own and is found by its
//! name. `Parts<R>` are the parts of a network, for code that changes tables by index rather than
//! by name; the conversions both ways move the parts.
#![tactic(auto)]

mod adding;
mod network;
mod places;
mod reads;
mod reserved;
mod table;
mod tidying;

pub use adding::{AddFault, bracketed_name, is_full};
pub use network::{Network, Parts, Sizes};
pub use places::{Entry, entry_at, found_place, put_last, set_table, unplace};
pub use reads::{row_literals, rows_uses};
pub use reserved::{note, note_all, reserved_names};
pub use table::{CoverTable, bounded};
pub use tidying::tidy;
