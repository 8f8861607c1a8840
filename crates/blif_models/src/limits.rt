//! How deep the models of a file may nest: a limit of the project's own.

/// The greatest number of `.subckt` lines around a line of a model that is put in.
pub const MAX_DEPTH: usize = 64;
