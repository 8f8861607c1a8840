//! Reads the models of a file as its first one, with each instance in its place.
#![tactic(auto)]

mod checking;
mod file;
mod first_model;
mod flat;
mod graph;
mod instance;
pub mod laws;
mod limits;
mod line_kind;
mod made;
mod mentions;
mod model_tables;
mod models_fault;
mod owned_line;
mod pairs;
mod port_faults;
mod port_lines;
mod ports;
mod reading;
mod side;
mod sizes;
mod word_set;

pub use limits::MAX_DEPTH;
pub use reading::read_lines;
