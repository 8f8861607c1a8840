//! Working networks, on which the commands that change tables operate.
//!
//! Source: De Micheli, "Synthesis and Optimization of Digital Circuits", chapter 8 (logic networks
//! and their transformations), and Brayton, Rudell, Sangiovanni-Vincentelli and Wang, "MIS: A
//! Multiple-Level Logic Optimization System" (1987), for fanouts and values of nodes. Contracts see
//! a `WorkingNetwork<R>` as a frame (the interface: ports, latches, don't-care part), which does
//! not change, and as its tables in slots that they keep (`specs/Placed.antt`). It also maintains
//! an index by name, the fanouts and uses of each signal, the roots, and a number below which no
//! name in brackets is free. Promised: a network is converted to one and back by moves; all queries
//! of tables, slots, fanouts, roots, elimination values and order are exact; a change sets, removes
//! or adds one table and nothing else, and an added table takes the least free name. A change
//! visits only the names that its tables read, and if memory runs out during a change no table is
//! left; no clause says so. Soundness of the circuit is not required: a step passes through
//! circuits that are not sound, and only the conversion back to a network asks for it.
//!
//! `UseCounts` maintains for each signal the number of rows with a literal of it; `uses_by_input`,
//! `literal_count` and `worth` are queries of one table. Promised: after each change the uses of
//! every signal are exactly those before, plus those of the new table and minus those of the old
//! one (`specs/Uses.antt`). A count that does not fit a machine word is reported as an error; after
//! an error the counts have no meaning.
#![tactic(auto)]

mod changes;
mod changing;
mod counts;
mod frame;
mod links;
mod ordering;
mod table;
mod work;

pub use counts::UseCounts;
pub use links::Links;
pub use table::{literal_count, uses_by_input, worth};
pub use work::WorkingNetwork;
