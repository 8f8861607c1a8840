//! The table of commands: for each its word, its options, the slots for its other words, its verb.
//!
//! After the commands of the SIS manual (UCB/ERL M92/41). The table is the list `forms` of
//! `specs/Script.antt`, row for row: `form_named` looks a word up and is proved to find what the
//! list has. A new command whose words say nothing more of the change that it makes is a variant of
//! `Change`, a line of the list and a row of the table.

ghost use Rattle.std.specs.Prelude.{◌≡◌, option_map};
ghost use Rattle.sis_script.specs.Script.{form_named};
ghost use Rattle.sis_script.specs.Verbs.{form_among, meaning};

use crate::command::Change;
use crate::grammar::{OptionForm, Slot};
use crate::kinds::Kind;
use sis_base::limits::{MAX_INPUTS, MAX_ROWS};

/// The greatest number of rows that `eliminate` can be asked to allow in a table.
pub(crate) const MOST_ROWS: u64 = MAX_ROWS as u64;
/// The number of rows that `eliminate` allows in a table by default.
pub(crate) const USUAL_ROWS: u64 = 1_000;
/// The least number of inputs to which `tech_decomp` can be asked to limit a table.
const LEAST_INPUTS: u64 = 2;
/// The greatest number of inputs to which `tech_decomp` can be asked to limit a table.
pub(crate) const MOST_INPUTS: u64 = MAX_INPUTS as u64;
/// The number of inputs to which `tech_decomp` limits a table by default.
pub(crate) const USUAL_INPUTS: u64 = 2;

/// The least number of tables of the circuit that `gen` makes.
const LEAST_TABLES: u64 = 8;
/// The greatest number of tables of the circuit that `gen` makes.
pub const MOST_TABLES: u64 = 20_000;

/// The operation that a command becomes by what its words give.
#[derive(Clone, Copy)]
pub(crate) enum Verb {
    Quit,
    ReadBlif,
    ReadKiss,
    ReadLibrary,
    Generate,
    WriteBlif,
    WriteKiss,
    PrintStats,
    Print,
    PrintLatch,
    PrintFactor,
    PrintKernel,
    Undo,
    Source,
    /// A change of which its words say nothing more.
    Plain(Change),
    Eliminate,
    TechDecomp,
    StateAssign,
    Map,
}

/// A command: its word, its options, the slots for its other words, and its verb.
#[derive(Clone, Copy)]
pub(crate) struct CommandForm {
    pub(crate) word: &'static [u8],
    pub(crate) options: &'static [OptionForm],
    pub(crate) slots: &'static [Slot],
    pub(crate) verb: Verb,
}

const FILE: Slot = Slot::Needed(Kind::File);

const ANY_FILE: Slot = Slot::Optional(Kind::File);

const NAME: Slot = Slot::Needed(Kind::Name);

const ANY_NAME: Slot = Slot::Optional(Kind::Name);

const INTEGER: Slot = Slot::Needed(Kind::Integer);

const ANY_STYLE: Slot = Slot::Optional(Kind::Style);

const SEED: Slot = Slot::Needed(Kind::Number(0, u64::MAX));

const TABLES: Slot = Slot::Needed(Kind::Number(LEAST_TABLES, MOST_TABLES));

/// `-l ROWS`.
const ROWS: OptionForm = OptionForm {
    letter: b'l',
    kind: Some(Kind::Number(1, MOST_ROWS)),
};

/// `-m nocomp`.
const METHOD: OptionForm = OptionForm {
    letter: b'm',
    kind: Some(Kind::NoComplement),
};

/// `-n` without a value: the netlist.
const NETLIST: OptionForm = OptionForm {
    letter: b'n',
    kind: None,
};

/// `-s` without a value: the total alone.
const SHORT: OptionForm = OptionForm {
    letter: b's',
    kind: None,
};

/// `-m 0`, the least area.
const AREA: OptionForm = OptionForm {
    letter: b'm',
    kind: Some(Kind::Number(0, 0)),
};

/// `-a` without a value.
const ALGEBRAIC: OptionForm = OptionForm {
    letter: b'a',
    kind: None,
};

/// `-a N`, the inputs of products.
const PRODUCTS: OptionForm = OptionForm {
    letter: b'a',
    kind: Some(Kind::Number(LEAST_INPUTS, MOST_INPUTS)),
};

/// `-o N`, the inputs of sums.
const SUMS: OptionForm = OptionForm {
    letter: b'o',
    kind: Some(Kind::Number(LEAST_INPUTS, MOST_INPUTS)),
};

/// A row of the table.
macro_rules! form {
    ($word:literal, $options:expr, $slots:expr, $verb:expr) => {
        CommandForm {
            word: $word,
            options: $options,
            slots: $slots,
            verb: $verb,
        }
    };
}

/// The commands, except `echo`, which takes any words.
const FORMS: &[CommandForm] = &[
    form!(b"quit", &[], &[], Verb::Quit),
    form!(b"read_blif", &[], &[FILE], Verb::ReadBlif),
    form!(b"read_kiss", &[], &[FILE], Verb::ReadKiss),
    form!(b"read_library", &[], &[FILE], Verb::ReadLibrary),
    form!(b"gen", &[], &[SEED, TABLES], Verb::Generate),
    form!(b"write_blif", &[NETLIST], &[ANY_FILE], Verb::WriteBlif),
    form!(b"write_kiss", &[], &[ANY_FILE], Verb::WriteKiss),
    form!(b"print_stats", &[], &[], Verb::PrintStats),
    form!(b"print", &[], &[ANY_NAME], Verb::Print),
    form!(b"print_latch", &[], &[], Verb::PrintLatch),
    form!(b"print_factor", &[], &[ANY_NAME], Verb::PrintFactor),
    form!(b"print_kernel", &[], &[NAME], Verb::PrintKernel),
    form!(b"undo", &[], &[], Verb::Undo),
    form!(b"source", &[], &[FILE], Verb::Source),
    form!(b"sweep", &[], &[], Verb::Plain(Change::Sweep)),
    form!(b"eliminate", &[ROWS], &[INTEGER], Verb::Eliminate),
    form!(b"collapse", &[], &[], Verb::Plain(Change::Collapse)),
    form!(b"simplify", &[METHOD], &[], Verb::Plain(Change::Simplify)),
    form!(
        b"full_simplify",
        &[METHOD],
        &[],
        Verb::Plain(Change::FullSimplify)
    ),
    form!(b"fx", &[], &[], Verb::Plain(Change::Fx)),
    form!(b"gkx", &[], &[], Verb::Plain(Change::Gkx)),
    form!(b"gcx", &[], &[], Verb::Plain(Change::Gcx)),
    form!(b"resub", &[ALGEBRAIC], &[], Verb::Plain(Change::Resub)),
    form!(b"decomp", &[], &[], Verb::Plain(Change::Decomp)),
    form!(b"tech_decomp", &[PRODUCTS, SUMS], &[], Verb::TechDecomp),
    form!(b"map", &[AREA, SHORT], &[], Verb::Map),
    form!(b"state_assign", &[], &[ANY_STYLE], Verb::StateAssign),
];

/// The row of a table of commands with this word.
fn form_in(forms: &[CommandForm], word: &[u8]) -> Option<CommandForm>
    ensures { result ≡ form_among word.now forms.now }
{
    forms.iter().find(|form| word == form.word).copied()
}

/// The command of a word.
pub(crate) fn form_named(word: &[u8]) -> Option<CommandForm>
    ensures { option_map meaning result ≡ form_named word.now }
{
    form_in(FORMS, word)
}
