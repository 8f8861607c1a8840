//! What is kept of the lines that are read, and what one more statement makes of it.
//!
//! Source: SIS report (UCB/ERL M92/41), KISS2 tables. A `Draft` is the numbers of ports, the reset
//! state's name, the states in order of first mention, and the rows, as the lines so far tell them
//! (`told` of `specs/Lines.antt`). `take` adds one statement or returns the fault of its line. After
//! an error the draft has no meaning.

ghost use Rattle.std.specs.Prelude.{◌≡◌, IfOk, OnOk};
ghost use Rattle.kiss_format.specs.Lines.{row_of};
ghost use Rattle.kiss_format.specs.Steps.{said, said_row, with_said, draft_fault, no_lines, Takes};

use crate::fault::ReadFault;
use crate::line_fault::{form_fault, limit_fault};
use crate::statement::{RowWords, Statement};
use crate::states::StateNames;
use circuit_model::{MachineRow, MachineRows, Name};
use line_words::{characters, name_of};
use sis_base::Sequence;
use std::alloc::{AllocError, Global};

/// What the lines so far tell: the numbers of inputs and outputs and the name of the reset state, if
/// they are given, the states that rows name, and the rows.
#[derive(Drop)]
pub struct Draft {
    pub inputs: Option<usize>,
    pub outputs: Option<usize>,
    pub reset: Option<Name>,
    pub states: StateNames,
    pub rows: MachineRows,
}

/// The row of four words.
fn row_of(alloc: Global, states: &StateNames, words: RowWords<'_>) -> Result<MachineRow, AllocError>
    ensures { IfOk result (λ row. row ≡ row_of states.now words.entry.input.now
        words.entry.current.now words.entry.next.now words.entry.output.now) }
{
    Ok(MachineRow {
        input: characters(alloc, words.input)?,
        current: states.state(alloc, words.current)?,
        next: states.state(alloc, words.next)?,
        output: characters(alloc, words.output)?,
    })
}

impl Draft {
    /// The draft before the first line; takes no memory.
    pub fn new(alloc: Global) -> Self
        ensures { result ≡ no_lines }
    {
        Draft {
            inputs: None,
            outputs: None,
            reset: None,
            states: StateNames::new(alloc),
            rows: Sequence::new(alloc),
        }
    }

    /// Adds a row and the states that it names.
    fn add_row(&mut self, alloc: Global, words: RowWords<'_>) -> Result<(), AllocError>
        ensures { OnOk result (self.new ≡ with_said (said_row words.entry) self.old) }
    {
        self.states.mention_both(alloc, words.current, words.next)?;
        let row = row_of(alloc, &self.states, words)?;
        self.rows.push(row)?;
        Ok(())
    }

    /// Adds what a statement tells.
    fn add(&mut self, alloc: Global, statement: Statement<'_>) -> Result<(), AllocError>
        ensures { OnOk result (self.new ≡ with_said (said statement.entry) self.old) }
    {
        match statement {
            Statement::Inputs(count) => self.inputs = Some(count),
            Statement::Outputs(count) => self.outputs = Some(count),
            Statement::Reset(name) => self.reset = Some(name_of(alloc, name)?),
            Statement::Row(words) => self.add_row(alloc, words)?,
            _ => (),
        }
        Ok(())
    }

    /// Reads one line, by its number and its statement.
    pub fn take(
        &mut self,
        alloc: Global,
        number: usize,
        statement: Statement<'_>,
    ) -> Result<(), ReadFault>
        ensures { Takes result self.new (draft_fault self.old number (said statement.entry))
            (with_said (said statement.entry) self.old) }
    {
        if let Some(fault) = form_fault(self, number, statement) {
            return Err(ReadFault::Fault(fault));
        }
        self.add(alloc, statement)?;
        match limit_fault(self) {
            None => Ok(()),
            Some(fault) => Err(ReadFault::Fault(fault)),
        }
    }
}
