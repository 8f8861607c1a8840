//! The definition of sweep, and the circuit on which it runs.
//!
//! Source: the SIS manual (UCB/ERL M92/41), `sweep`; De Micheli, "Synthesis and Optimization of
//! Digital Circuits", chapter 8. `specs/` has the rules over circuits (`Rules`), constants
//! (`Points`), what is needed (`Needed`), what steps keep (`Keeping`), the finished form
//! (`Sweeping`) and tables without fanout (`Idle`); `sweep_laws` states their properties, each law
//! the contract of a call that does nothing.
//!
//! `AliasedTables` is a circuit in which two signals are exchanged in all tables at once (Cormen,
//! Leiserson, Rivest and Stein, "Introduction to Algorithms", third edition, chapter 21: names of
//! sets apart from their elements). Each alias stands for a signal or, by a complemented edge, its
//! complement, and the exact fanouts of the aliases are maintained. Promised: contracts see it as
//! the circuit with its tables over the signals (`specs/Aliases.antt`), and each call says which
//! circuit results. An exchange visits no table, and a change of one table costs the size of the
//! new one and the inputs of the old one; no clause says so. After an error the circuit may be any.
//!
//! `dangling_step` is the last rule in one pass over the circuit, with names looked up in hash
//! tables. `constants`, `leaves` and `places` serve it and the other rules: written constants, the
//! leaves that the don't-care part reads, and the index of the table of a signal.
#![tactic(auto)]

mod aliased_tables;
mod constants;
mod edges;
mod leaves;
mod needed;
mod parts;
mod places;
pub mod sweep_laws;

pub use aliased_tables::AliasedTables;
pub use constants::{constant_table, written_bit};
pub use edges::rows_over;
pub use leaves::{driven_names, is_among, leaves_read};
pub use needed::dangling_step;
pub use places::note_place;
