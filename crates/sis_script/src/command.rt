//! The commands of a script, as values: `Op` with its words, `Change` for the commands that make a
//! new network, and the faults of words.
//!
//! After the SIS manual's command language (UCB/ERL M92/41). Words are kept as they were read: a
//! file name is text (`Word`), a signal name is any bytes (`RawWord`). A command with wrong words
//! is an `Op::Bad`, which is refused when the script reaches it. Which words make which command is
//! defined in `specs/Script.antt`.

use sis_base::{Name, Sequence};
use sis_text::Word;

/// A word as it was read: its bytes, which need not be text.
pub type RawWord = Name;
/// Words as they were read, in order.
pub type RawWords = Sequence<RawWord>;

/// What a command does, with its words as they were read.
#[derive(Debug, Drop)]
pub enum Op {
    /// Prints its words as a line.
    Echo(RawWords),
    /// Ends the run.
    Quit,
    /// Reads a file as a circuit or a machine.
    ReadBlif(Word),
    /// Reads a file as a machine.
    ReadKiss(Word),
    /// Reads a file as a library of gates.
    ReadLibrary(Word),
    /// Makes the circuit of a seed and a number of tables.
    Generate(u64, u64),
    /// Writes the network to a file, or to the output if no file is named.
    WriteBlif(Option<Word>),
    /// Writes the machine to a file, or to the output if no file is named.
    WriteKiss(Option<Word>),
    /// Writes the mapped netlist to a file, or to the output if no file is named.
    WriteNetlist(Option<Word>),
    /// Maps the network by the library; prints a line for each tree, or the total alone.
    Map(bool),
    /// Prints the size of the network.
    PrintStats,
    /// Prints the table of a name, or all tables if none is named.
    Print(Option<RawWord>),
    /// Prints the latches.
    PrintLatch,
    /// Prints the factored form of the table of a name, or of all tables if none is named.
    PrintFactor(Option<RawWord>),
    /// Prints the kernels of the table of a name.
    PrintKernel(RawWord),
    /// Changes the network.
    Change(Change),
    /// Makes the network of the machine, with its states coded in this style.
    StateAssign(Style),
    /// Undoes the last change of the network.
    Undo,
    /// Runs the commands of a file.
    Source(Word),
    /// A command that is refused when it is reached.
    Bad(ScriptFault),
}

/// A command that makes a new network from the current one.
#[derive(Clone, Copy, Debug, PartialEq, Eq)]
pub enum Change {
    /// Removes constants, tables of a single input, and what is not needed.
    Sweep,
    /// Eliminates inner tables of a value up to this number into their fanouts, unless a fanout
    /// would get more rows than this.
    Eliminate(i32, u32),
    /// Eliminates all inner tables into their fanouts.
    Collapse,
    /// Minimizes each table, with don't-cares from the tables of its inputs.
    Simplify,
    /// Minimizes each table under all its don't-cares, one table after the other.
    FullSimplify,
    /// Extracts sums of two cubes and products of two literals as new tables, as long as that saves
    /// literals.
    Fx,
    /// Extracts kernels as new tables, as long as that saves literals.
    Gkx,
    /// Extracts cubes that rows share as new tables, as long as that saves literals.
    Gcx,
    /// Divides tables by other existing tables, as long as that saves literals.
    Resub,
    /// Factors literals that rows of a table share out of them: the rest of these rows becomes a
    /// table of its own.
    Decomp,
    /// Makes each table a product of at most so many literals, or a sum of at most so many rows of
    /// one literal each.
    TechDecomp(u16, u16),
}

/// How the states of a machine are coded.
#[derive(Clone, Copy, Debug, PartialEq, Eq)]
pub enum Style {
    /// By the binary digits of their numbers.
    Natural,
    /// By one bit for each state.
    OneHot,
}

/// Why a command is refused for its words alone.
#[derive(Clone, Copy, Debug, PartialEq, Eq)]
pub enum ScriptFault {
    /// Its first word is no command.
    BadCommand,
    /// A word does not fit its slot, or is one too many.
    BadOption,
    /// Each word fits its slot, but a needed word is missing.
    MissingWord,
}

/// A command and its line in the script, from 1.
#[derive(Debug, Drop)]
pub struct Command {
    pub line: usize,
    pub op: Op,
}

/// The commands of a script, in order.
pub type Commands = Sequence<Command>;
