//! Normal forms of the tables of a circuit: folded and tidy tables.
//!
//! A table of a file may list an input more than once (BLIF appendix of the SIS report, UCB/ERL
//! M92/41). `merge_repeated_inputs` gives the table that has the same value at every valuation of the names
//! and lists each input once. `tidied_table` gives the normal form that these crates call tidy:
//! each input once and with a literal in some row, no row twice, phase 1 where there is no row. Its
//! sources are covers and the support of a local function (De Micheli, "Synthesis and Optimization
//! of Digital Circuits", chapters 7 and 8). `specs/` defines both tables; `fold_laws` and
//! `tidy_laws` state their properties.
#![tactic(auto)]

pub mod fold_laws;
mod folding;
mod rows;
mod tidiness;
pub mod tidy_laws;
mod tidying;

pub use folding::{add_row, merge_repeated_inputs};
pub use tidiness::is_tidy_table;
pub use tidying::tidied_table;
