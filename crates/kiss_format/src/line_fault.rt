//! What is wrong with a line: the first of its causes.
//!
//! Source: SIS report (UCB/ERL M92/41), KISS2 tables; the order of the causes and the limits are
//! the project's own (`specs/Lines.antt`). `form_fault` gets what the lines before told and the
//! line's statement, `limit_fault` what is told with it. Each returns exactly the fault of the
//! definition.

ghost use Rattle.std.specs.Prelude.{◌≡◌};
ghost use Rattle.line_words.specs.LineWords.{texts};
ghost use Rattle.kiss_format.specs.Statements.{Reset, NoRow};
ghost use Rattle.kiss_format.specs.Steps.{said, said_row};
ghost use Rattle.kiss_format.specs.Lines.{is_wide, long_fault, ports_fault, count_fault, form_fault, limit_fault};

use crate::draft::Draft;
use crate::fault::{KissFault, LimitKind};
use crate::statement::{RowWords, Statement};
use line_words::long_name;
use sis_base::limits::{MAX_MACHINE_ROWS, MAX_STATES};

/// The fault of the first word that is longer than a name may be.
fn long_fault(words: &[&[u8]]) -> Option<KissFault>
    ensures { result ≡ long_fault (texts words.now) }
{
    match long_name(words) {
        None => None,
        Some(len) => Some(KissFault::Limit(LimitKind::Name, len)),
    }
}

/// Whether a cube has as many characters as the header gave.
fn is_wide(told: Option<usize>, cube: &[u8]) -> bool
    ensures { result ≡ is_wide told cube.now }
{
    match told {
        None => false,
        Some(width) => cube.len() == width,
    }
}

/// The fault of a row where a number of ports is missing.
fn ports_fault(draft: &Draft, number: usize) -> Option<KissFault>
    ensures { result ≡ ports_fault draft.now number }
{
    if draft.inputs.is_none() || draft.outputs.is_none() {
        return Some(KissFault::BadHeader(number));
    }
    None
}

/// What is wrong with a number of ports, where an earlier line may have given it.
fn count_fault(given: Option<usize>, draft: &Draft, number: usize) -> Option<KissFault>
    ensures { result ≡ count_fault given draft.now number }
{
    if given.is_some() || draft.rows.len() != 0 {
        return Some(KissFault::BadHeader(number));
    }
    None
}

/// What is wrong with a reset state.
#[tactic(auto, unfolding(crate::specs::Lines::form_fault, crate::specs::Lines::first_of))]
fn reset_fault(draft: &Draft, number: usize, name: &[u8]) -> Option<KissFault>
    ensures { result ≡ form_fault draft.now number (Reset name.now) }
{
    if draft.reset.is_some() {
        return Some(KissFault::BadHeader(number));
    }
    long_fault(&[name])
}

/// What is wrong with the form of a row.
#[tactic(auto, unfolding(crate::specs::Lines::form_fault, crate::specs::Lines::first_of))]
fn row_fault(draft: &Draft, number: usize, row: RowWords<'_>) -> Option<KissFault>
    ensures { result ≡ form_fault draft.now number (said_row row.entry) }
{
    if let Some(fault) = ports_fault(draft, number) {
        return Some(fault);
    }
    if !is_wide(draft.inputs, row.input) || !is_wide(draft.outputs, row.output) {
        return Some(KissFault::BadRow(number));
    }
    long_fault(&[row.current, row.next])
}

/// What is wrong with words that are no row.
#[tactic(auto, unfolding(crate::specs::Lines::form_fault, crate::specs::Lines::first_of))]
fn words_fault(draft: &Draft, number: usize) -> Option<KissFault>
    ensures { result ≡ form_fault draft.now number NoRow }
{
    if let Some(fault) = ports_fault(draft, number) {
        return Some(fault);
    }
    Some(KissFault::BadRow(number))
}

/// What is wrong with the statement of a line after what was told, but for the limits on rows and
/// states.
#[tactic(auto, unfolding(crate::specs::Lines::form_fault))]
pub fn form_fault(draft: &Draft, number: usize, statement: Statement<'_>) -> Option<KissFault>
    ensures { result ≡ form_fault draft.now number (said statement.entry) }
{
    match statement {
        Statement::Inputs(_) => count_fault(draft.inputs, draft, number),
        Statement::Outputs(_) => count_fault(draft.outputs, draft, number),
        Statement::Reset(name) => reset_fault(draft, number, name),
        Statement::Row(row) => row_fault(draft, number, row),
        Statement::Nothing => None,
        Statement::NoRow => words_fault(draft, number),
        Statement::NoHeader => Some(KissFault::BadHeader(number)),
    }
}

/// A limit that is exceeded.
#[tactic(auto, unfolding(crate::specs::Lines::limit_fault, crate::specs::Lines::first_of))]
pub fn limit_fault(draft: &Draft) -> Option<KissFault>
    ensures { result ≡ limit_fault draft.now }
{
    if draft.rows.len() > MAX_MACHINE_ROWS {
        return Some(KissFault::Limit(LimitKind::Rows, MAX_MACHINE_ROWS + 1));
    }
    if draft.states.len() > MAX_STATES {
        return Some(KissFault::Limit(LimitKind::States, MAX_STATES + 1));
    }
    None
}
