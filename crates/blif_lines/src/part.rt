//! The parts of a model.

/// The model itself, its don't-care part (after an `.exdc` line), or what follows an `.end` line.
#[derive(Clone, Copy, Debug, PartialEq, Eq)]
pub enum Part {
    Model,
    DontCare,
    Behind,
}
