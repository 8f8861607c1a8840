//! What is wrong with a BLIF file. `BlifFault` has the faults of `specs/Lines.antt` and
//! `specs/Reader.antt`, and those of a KISS2 part; `ReadFault` adds want of memory.

use circuit_model::Name;
use kiss_format::KissFault;

/// What a limit is on.
#[derive(Clone, Copy, Debug, PartialEq, Eq)]
pub enum LimitKind {
    /// The bytes of a name: `MAX_NAME`.
    Name,
    /// The tables, latches and gates of a model, including its don't-care part: `MAX_NODES`.
    Tables,
    /// The rows of a table: `MAX_ROWS`.
    Rows,
    /// The inputs of a table: `MAX_INPUTS`.
    Inputs,
    /// The models that are nested in each other: 64.
    Depth,
}

/// Why a file is not read as a circuit. Lines are numbers of physical lines, from 1.
#[derive(Debug, Drop, PartialEq)]
pub enum BlifFault {
    /// A line whose first word begins with `.` and is not known; any line but `.end` after `.end`;
    /// in the don't-care part any line but those of tables, ports and the end; a second don't-care
    /// or KISS2 part; a KISS2 part in a model that is not the first; among the lines of one model a
    /// `.model` line that is not the first.
    UnknownWord(usize),
    /// `.model` with two words or more, `.names`, `.gate` or `.subckt` without one.
    BadArity(usize),
    /// A line that is not a row of a table that is being read.
    BadRow(usize),
    /// A row whose output differs from that of its table's first row.
    MixedPhase(usize),
    /// A `.latch` line whose words are not two signals, then a known kind and its control or
    /// neither, then a digit up to 3 or nothing.
    BadLatch(usize),
    /// A `.model` line with the name of an earlier model of the file.
    ModelTwice(usize),
    /// A `.gate` line without a library.
    NoLibrary(usize),
    /// A `.gate` line whose cell the library does not have.
    UnknownGate(usize),
    /// A `.gate` line with a word after the cell that is not a pair, or whose pairs do not name
    /// each pin and the output once.
    BadPins(usize),
    /// The first `.subckt` line of the file that names no model.
    UnknownModel(usize),
    /// The first `.subckt` line, in the models that the first one reaches, with a word that is no
    /// pair `formal=actual`, with a formal that is no port of its model, with a formal twice, or
    /// without an input of its model.
    BadPorts(usize),
    /// A limit is exceeded; the number is what was reached.
    Limit(LimitKind, usize),
    /// The first model, of those that the first one reaches, that reaches itself.
    Recursion(Name),
    /// The first name made for a signal of an instance that is also made for another signal, or is
    /// in the first model.
    NameClash(Name),
    /// A name that is listed twice among the inputs, or twice among the outputs; or a machine's
    /// output that is its input.
    NameTwice(Name),
    /// What is wrong with a machine's KISS2 part; or the line of its `.i`, otherwise of its `.o`,
    /// if lines list another number of ports.
    BadKiss(KissFault),
    /// The line of the first latch whose kind or control is not that of the first latch.
    MixedClock(usize),
    /// A control of latches that a table, a latch or a gate drives.
    GatedClock(Name),
    /// A signal that a line drives and that is an input or driven by an earlier line.
    TwoDrivers(Name),
    /// A signal that is read and not driven.
    Undriven(Name),
    /// What is wrong with the first wrong table of the don't-care part: its output, if an earlier
    /// one has that too or if it is reached from itself; or a name that it reads and that is
    /// neither a table of the part nor a leaf.
    BadExdc(Name),
    /// The output of the first table that is reached from itself through tables.
    Cycle(Name),
}

/// Why a reading ends without a circuit.
pub type ReadFault = sis_text::ReadFault<BlifFault>;
