//! The types of netlists. They have no invariants; `specs/Netlists.antt` and `specs/Figures.antt`
//! say when a netlist is sound and which gates belong to which tree.

use circuit_model::Circuit;
use sis_base::{Name, Sequence};

/// A pin of a gate, or its output, and its signal.
#[derive(Debug, Drop, PartialEq)]
pub struct Connection {
    pub pin: Name,
    pub signal: Name,
}

/// Connections, in order.
pub type Connections = Sequence<Connection>;
/// Gates, in order.
pub type Gates = Sequence<Placed>;
/// The figures of trees, in order.
pub type TreeFigures = Sequence<TreeFigure>;

/// A gate of a netlist: the name of its cell, and its pins with their signals, in the order of the
/// cell, the output last.
#[derive(Debug, Drop, PartialEq)]
pub struct Placed {
    pub cell: Name,
    pub pins: Connections,
}

/// The result for a subject tree: the name of its root, the cost of its cover in millionths, and
/// how many gates of the netlist are its own.
#[derive(Debug, Drop, PartialEq)]
pub struct TreeFigure {
    pub name: Name,
    pub figure: u128,
    pub gates: usize,
}

/// A mapped netlist: gates of a library, and the circuit of all that is not a gate. The gates are
/// in the order of the trees.
#[derive(Debug, Drop, PartialEq)]
pub struct Mapped {
    pub base: Circuit,
    pub gates: Gates,
    pub trees: TreeFigures,
}
