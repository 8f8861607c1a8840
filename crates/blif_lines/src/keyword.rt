//! The kinds of logical lines of a model, by their first words.

/// The kinds of lines: the dotted words that are known, those whose lines are skipped, rows, and
/// every other dotted word.
#[derive(Clone, Copy, Debug, PartialEq, Eq)]
pub enum Keyword {
    Model,
    Inputs,
    Outputs,
    Clock,
    Names,
    Latch,
    Gate,
    Subckt,
    StartKiss,
    DontCare,
    End,
    Skipped,
    Row,
    Other,
}
