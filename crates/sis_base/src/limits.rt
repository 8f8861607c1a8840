//! The limits of the program: how large the objects that it reads, holds and makes may be.
//!
//! The limits are the project's own. Each has one name here, which definitions, contracts and code
//! share. A function that meets a limit reports it by a variant of its own.

/// Bytes of a name.
pub const MAX_NAME: usize = 1_023;

/// Tables, gates and latches of a circuit, including those of its don't-care part.
pub const MAX_NODES: usize = 1_048_575;

/// Rows of a table, and of each list of rows that a command computes from it.
pub const MAX_ROWS: usize = 1_000_000;

/// Inputs of a table.
pub const MAX_INPUTS: usize = 1_000;

/// Kernels of a table.
pub const MAX_KERNELS: usize = 10_000;

/// Vertices of the subject trees of a network.
pub const MAX_VERTICES: u64 = 1_048_575;

/// Inputs of a machine, and its outputs.
pub const MAX_PORTS: usize = 1_000;

/// Rows of a machine.
pub const MAX_MACHINE_ROWS: usize = 32_767;

/// States of a machine.
pub const MAX_STATES: usize = 4_096;

/// Gates of a library, including entries of latches.
pub const MAX_GATES: usize = 4_096;

/// Pins of a gate.
pub const MAX_PINS: usize = 15;

/// Nested parentheses in the expression of a gate.
pub const MAX_NESTING: usize = 64;

/// Literals of a gate that covers use.
pub const MAX_LITERALS: usize = 6;
