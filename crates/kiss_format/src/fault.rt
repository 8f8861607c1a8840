//! What is wrong with a KISS2 table. `KissFault` has the faults of `specs/Lines.antt` and
//! `specs/Reader.antt`; `ReadFault` adds want of memory.

use circuit_model::Name;

/// What a limit is on.
#[derive(Clone, Copy, Debug, PartialEq, Eq)]
pub enum LimitKind {
    /// The bytes of a name: `MAX_NAME`.
    Name,
    /// The rows of a machine: `MAX_MACHINE_ROWS`.
    Rows,
    /// The states of a machine: `MAX_STATES`.
    States,
}

/// Why a table is not read as a machine. Lines are numbers of physical lines, from 1; rows are
/// numbers from 1.
#[derive(Debug, Drop, PartialEq)]
pub enum KissFault {
    /// A dotted word that is not known; `.i` or `.o` twice, after a row, or without one number from
    /// 1 to `MAX_PORTS`; `.p` or `.s` without exactly one word; `.r` twice or without exactly one
    /// word; a first row while `.i` or `.o` is missing.
    BadHeader(usize),
    /// A row that is not an input cube, two states and an output cube, each cube with as many
    /// characters as the header gave.
    BadRow(usize),
    /// Two rows that share an input point and a state, and specify a next state or an output
    /// differently. The second number is that of the first row that clashes with an earlier one,
    /// the first that of the first row with which it clashes.
    RowClash(usize, usize),
    /// The reset state is not a state of a row; `*` if none is named and no row names a current
    /// state.
    NoReset(Name),
    /// There is no row.
    NoRows,
    /// A limit is exceeded; the number is what was reached.
    Limit(LimitKind, usize),
}

/// Why a reading ends without a machine.
pub type ReadFault = sis_text::ReadFault<KissFault>;
