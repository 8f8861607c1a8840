//! Mapped netlists: the result of a technology mapper.
//!
//! Source: the BLIF appendix of the SIS report (UCB/ERL M92/41), `.gate`, and its genlib format. A
//! `Mapped` is a circuit some of whose tables are gates of a library. `specs/Netlists.antt` says
//! which circuit it denotes and when it is sound, `specs/Lines.antt` how it is written, and
//! `specs/Figures.antt` which gates belong to which tree and that their areas sum to its figure. A
//! contract sees all lists as plain lists. The library is not part of a netlist: cells are known by
//! their names. `laws` has the laws of the tables of gates.
#![tactic(auto)]

pub mod laws;
mod mapped;

pub use mapped::{Connection, Connections, Gates, Mapped, Placed, TreeFigure, TreeFigures};
