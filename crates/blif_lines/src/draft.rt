//! What is kept of the lines that are read, and what each kind of line makes of it.
//!
//! Source: BLIF appendix of the SIS report (UCB/ERL M92/41). A `Draft` has the name, ports, clocks,
//! latches and tables of the lines so far, the signals that they drive and read, and the table
//! whose rows are being read. `take` adds one line or returns its fault, exactly as `take_entry` of
//! `specs/Steps.antt`; proofs of this crate say that a draft tells what its lines tell, by which
//! `specs/Lines.antt` and `specs/Reader.antt` define all faults and what is read. After an error
//! the draft has no meaning.

ghost use Rattle.std.specs.Prelude.{◌≡◌, ℕ, Option, List, ◌<◌, [], length, option_copied, IfOk, OnOk, OnErr, IfSome};
ghost use Rattle.sis_text.specs.Entries.{Entry};
ghost use Rattle.line_words.specs.LineWords.{texts};
ghost use Rattle.genlib_format.specs.declared.gate.Gate.{Gate as TheGate};
ghost use Rattle.blif_lines.specs.declared.keyword.Keyword.{Keyword};
ghost use Rattle.blif_lines.specs.Lines.{place_at};
ghost use Rattle.blif_lines.specs.Reader.{named_by, table_of, is_machine, unless};
ghost use Rattle.blif_lines.specs.Steps.{with_row, row_behind, tables_with, closed, place_of, take_as, take_entry, no_lines, told_of, Takes, TakesLine};

use crate::fault::{BlifFault, ReadFault};
use crate::gate_words::{add_gate_signals, gate_table};
use crate::keyword::Keyword;
use crate::latch_words::{add_latch, keep_timing, mixed_at, shared, timing_of};
use crate::line_fault::{
    clock_fault, latch_fault, model_fault, names_fault, place_fault, ports_fault, row_fault,
    start_fault, subckt_fault,
};
use crate::part::Part;
use crate::row::appended;
use crate::word_list::{
    add_more, first_words, front_words, joined, keyword_of, last_word, latch_output,
};
use circuit_model::{Latches, Name, Names, Table, Tables, Timing};
use genlib_format::Library;
use line_words::{add_names, characters, first_word, name_of, other_words};
use sis_base::{Copied, Sequence, Whole};
use std::alloc::{AllocError, AllocFailed, Global};
use std::mem;

/// The table whose rows are being read, and the output character of its rows, once there is one.
#[derive(Drop)]
pub struct Reading {
    pub table: Table,
    pub mark: Option<u8>,
}

/// What the lines so far say: whether there was one, an end, the line that begins the don't-care
/// part, the one that begins a KISS2 part, and a `.subckt` line.
///
/// Of the model's own lines: the name, the ports that are listed and whether a line lists some, all
/// ports in order, clocks, the signals that are driven, those that are read, those that nodes read
/// before a line lists inputs; latches, the timing of the first, the line of the first whose timing
/// differs; and the model's tables, once the don't-care part has begun.
///
/// The tables that were read last, without the one whose rows are being read; and the number of
/// tables, latches and gates.
#[derive(Drop)]
pub struct Draft {
    pub begun: bool,
    pub ended: bool,
    pub has_part: bool,
    pub has_kiss: bool,
    pub has_instances: bool,
    pub name: Name,
    pub lists_inputs: bool,
    pub inputs: Names,
    pub lists_outputs: bool,
    pub outputs: Names,
    pub ports: Names,
    pub clocks: Names,
    pub drives: Names,
    pub reads: Names,
    pub inner: Names,
    pub timing: Option<Timing>,
    pub mixed: Option<usize>,
    pub latches: Latches,
    pub model_tables: Tables,
    pub tables: Tables,
    pub reading: Option<Reading>,
    pub nodes: usize,
}

impl Reading {
    /// The table with one more row.
    #[tactic(auto, unfolding(crate::specs::Steps::with_row))]
    fn with(self, alloc: Global, bytes: &[u8]) -> Result<Self, AllocError>
        requires { length self.table.inputs < length bytes.now }
        ensures { IfOk result (λ reading. reading ≡ with_row self bytes.now) }
    {
        let Reading { table, mark } = self;
        let Table {
            inputs,
            output,
            rows,
            phase: _,
        } = table;
        let width = inputs.len();
        let mark = mark.unwrap_or(bytes[width]);
        let row = characters(alloc, &bytes[..width])?;
        let rows = appended(rows, row)?;
        let phase = mark == b'1';
        Ok(Reading {
            table: Table {
                inputs,
                output,
                rows,
                phase,
            },
            mark: Some(mark),
        })
    }
}

/// The table that is being read, after one more row.
fn row_behind(
    alloc: Global,
    reading: Option<Reading>,
    bytes: &[u8],
) -> Result<Option<Reading>, AllocError>
    requires { IfSome reading (λ one. length one.table.inputs < length bytes.now) }
    ensures { IfOk result (λ next. next ≡ row_behind reading bytes.now) }
{
    match reading {
        None => Ok(None),
        Some(reading) => Ok(Some(reading.with(alloc, bytes)?)),
    }
}

/// The table of a `.names` line, without rows.
#[tactic(auto, unfolding(crate::specs::Reader::table_of))]
fn new_table(alloc: Global, words: &[&[u8]]) -> Result<Table, AllocError>
    ensures { IfOk result (λ table. table ≡ table_of (texts words.now) []) }
{
    let mut inputs = Sequence::new(alloc);
    add_names(alloc, &mut inputs, front_words(words))?;
    let output = name_of(alloc, last_word(words))?;
    Ok(Table {
        inputs,
        output,
        rows: Sequence::new(alloc),
        phase: true,
    })
}

/// The name of a model, by the words of its line.
fn model_name(alloc: Global, words: &[&[u8]]) -> Result<Name, AllocError>
    ensures { IfOk result (λ name. name ≡ named_by Keyword.Model (texts words.now)) }
{
    match words {
        [] => name_of(alloc, b"top".as_slice()),
        [name, ..] => name_of(alloc, name),
    }
}

/// Appends the table that was being read. On an error the tables stay.
#[tactic(auto, unfolding(crate::specs::Steps::tables_with))]
pub fn with_reading(tables: &mut Tables, reading: Option<Reading>) -> Result<(), AllocFailed<Table>>
    ensures ok { OnOk result (tables.new ≡ tables_with tables.old reading) }
    ensures err { OnErr result (tables.new ≡ tables.old) }
{
    match reading {
        None => Ok(()),
        Some(reading) => {
            let Reading { table, mark: _ } = reading;
            tables.push(table)
        }
    }
}

/// The part of the next line.
#[tactic(auto, unfolding(crate::specs::Lines::place_at))]
fn place_at(ended: bool, has_part: bool) -> Part
    ensures { result ≡ place_at ended has_part }
{
    if ended {
        Part::Behind
    } else if has_part {
        Part::DontCare
    } else {
        Part::Model
    }
}

impl Draft {
    /// The draft before the first line.
    pub fn new(alloc: Global) -> Result<Self, AllocError>
        ensures { IfOk result (λ draft. draft ≡ no_lines) }
    {
        Ok(Draft {
            begun: false,
            ended: false,
            has_part: false,
            has_kiss: false,
            has_instances: false,
            name: name_of(alloc, b"top".as_slice())?,
            lists_inputs: false,
            inputs: Sequence::new(alloc),
            lists_outputs: false,
            outputs: Sequence::new(alloc),
            ports: Sequence::new(alloc),
            clocks: Sequence::new(alloc),
            drives: Sequence::new(alloc),
            reads: Sequence::new(alloc),
            inner: Sequence::new(alloc),
            timing: None,
            mixed: None,
            latches: Sequence::new(alloc),
            model_tables: Sequence::new(alloc),
            tables: Sequence::new(alloc),
            reading: None,
            nodes: 0,
        })
    }

    /// The part of the next line.
    fn place(&self) -> Part
        ensures { result ≡ place_of self.now }
    {
        place_at(self.ended, self.has_part)
    }

    /// Ends the table whose rows were being read, unless the next line has a fault.
    #[tactic(auto, unfolding(crate::specs::Steps::closed))]
    fn close_unless(&mut self, fault: Option<BlifFault>) -> Result<(), ReadFault>
        ensures { Takes result self.new (unless fault (closed self.old)) }
    {
        if let Some(fault) = fault {
            return Err(ReadFault::Fault(fault));
        }
        let reading = self.reading.take();
        with_reading(&mut self.tables, reading)?;
        self.begun = true;
        Ok(())
    }

    /// Reads a `.model` line.
    #[tactic(auto, unfolding(crate::specs::Steps::take_as, crate::specs::Steps::closed))]
    fn take_model(&mut self, alloc: Global, number: usize, words: &[&[u8]]) -> Result<(), ReadFault>
        ensures { TakesLine Keyword.Model self.old number (texts words.now) result self.new }
    {
        let fault = model_fault(self.begun, number, words);
        self.close_unless(fault)?;
        self.name = model_name(alloc, words)?;
        Ok(())
    }

    /// Reads an `.inputs` line.
    #[tactic(auto, unfolding(crate::specs::Steps::take_as, crate::specs::Steps::closed))]
    fn take_inputs(
        &mut self,
        alloc: Global,
        number: usize,
        words: &[&[u8]],
    ) -> Result<(), ReadFault>
        ensures { TakesLine Keyword.Inputs self.old number (texts words.now) result self.new }
    {
        let fault = ports_fault(self.place(), number, words);
        self.close_unless(fault)?;
        self.lists_inputs = !self.has_part || self.lists_inputs;
        add_more(alloc, self.has_part, &mut self.inputs, words)?;
        add_more(alloc, self.has_part, &mut self.ports, words)?;
        Ok(())
    }

    /// Reads an `.outputs` line.
    #[tactic(auto, unfolding(crate::specs::Steps::take_as, crate::specs::Steps::closed))]
    fn take_outputs(
        &mut self,
        alloc: Global,
        number: usize,
        words: &[&[u8]],
    ) -> Result<(), ReadFault>
        ensures { TakesLine Keyword.Outputs self.old number (texts words.now) result self.new }
    {
        let fault = ports_fault(self.place(), number, words);
        self.close_unless(fault)?;
        self.lists_outputs = !self.has_part || self.lists_outputs;
        add_more(alloc, self.has_part, &mut self.outputs, words)?;
        add_more(alloc, self.has_part, &mut self.ports, words)?;
        add_more(alloc, self.has_part, &mut self.reads, words)?;
        Ok(())
    }

    /// Reads a `.clock` line.
    #[tactic(auto, unfolding(crate::specs::Steps::take_as, crate::specs::Steps::closed))]
    fn take_clock(&mut self, alloc: Global, number: usize, words: &[&[u8]]) -> Result<(), ReadFault>
        ensures { TakesLine Keyword.Clock self.old number (texts words.now) result self.new }
    {
        let fault = clock_fault(self.place(), number, words);
        self.close_unless(fault)?;
        add_more(alloc, self.has_part, &mut self.clocks, words)?;
        Ok(())
    }

    /// Reads a `.names` line.
    #[tactic(auto, unfolding(crate::specs::Steps::take_as, crate::specs::Steps::closed))]
    fn take_names(&mut self, alloc: Global, number: usize, words: &[&[u8]]) -> Result<(), ReadFault>
        ensures { TakesLine Keyword.Names self.old number (texts words.now) result self.new }
    {
        let fault = names_fault(self.place(), self.nodes, number, words);
        self.close_unless(fault)?;
        let inputs = front_words(words);
        let kept = self.has_part || self.lists_inputs;
        let output = [last_word(words)];
        add_more(alloc, self.has_part, &mut self.drives, output.as_slice())?;
        add_more(alloc, self.has_part, &mut self.reads, inputs)?;
        add_more(alloc, kept, &mut self.inner, inputs)?;
        let table = new_table(alloc, words)?;
        self.reading = Some(Reading { table, mark: None });
        self.nodes += 1;
        Ok(())
    }

    /// Reads a `.latch` line.
    #[tactic(auto, unfolding(crate::specs::Steps::take_as, crate::specs::Steps::closed))]
    fn take_latch(&mut self, alloc: Global, number: usize, words: &[&[u8]]) -> Result<(), ReadFault>
        ensures { TakesLine Keyword.Latch self.old number (texts words.now) result self.new }
    {
        let fault = latch_fault(self.place(), self.nodes, number, words);
        self.close_unless(fault)?;
        let input = first_words(words, 1);
        let kept = self.has_part || self.lists_inputs;
        add_more(alloc, self.has_part, &mut self.drives, latch_output(words))?;
        add_more(alloc, self.has_part, &mut self.reads, input)?;
        add_more(alloc, kept, &mut self.inner, input)?;
        let own = timing_of(alloc, words)?;
        let timing = shared(self.latches.as_slice(), &self.timing, &own);
        self.mixed = mixed_at(self.mixed, timing, number, &own);
        keep_timing(self.latches.as_slice(), &mut self.timing, own);
        add_latch(alloc, &mut self.latches, words)?;
        self.nodes += 1;
        Ok(())
    }

    /// Reads the line that begins the don't-care part.
    #[tactic(auto, unfolding(crate::specs::Steps::take_as, crate::specs::Steps::closed))]
    fn take_part(&mut self, alloc: Global, number: usize) -> Result<(), ReadFault>
        ensures { (words : List (List ℕ))
            → TakesLine Keyword.DontCare self.old number words result self.new }
    {
        let fault = place_fault(self.place(), number);
        self.close_unless(fault)?;
        self.has_part = true;
        self.model_tables = mem::replace(&mut self.tables, Sequence::new(alloc));
        Ok(())
    }

    /// Reads an `.end` line.
    #[tactic(auto, unfolding(crate::specs::Steps::take_as, crate::specs::Steps::closed))]
    fn take_end(&mut self) -> Result<(), ReadFault>
        ensures { (number : ℕ) (words : List (List ℕ))
            → TakesLine Keyword.End self.old number words result self.new }
    {
        self.close_unless(None)?;
        self.ended = true;
        Ok(())
    }

    /// Reads a line that is skipped.
    #[tactic(auto, unfolding(crate::specs::Steps::take_as, crate::specs::Steps::closed))]
    fn take_skipped(&mut self, number: usize) -> Result<(), ReadFault>
        ensures { (words : List (List ℕ))
            → TakesLine Keyword.Skipped self.old number words result self.new }
    {
        let fault = place_fault(self.place(), number);
        self.close_unless(fault)
    }

    /// Reads a row.
    #[tactic(auto, unfolding(crate::specs::Steps::take_as))]
    fn take_row(&mut self, alloc: Global, number: usize, whole: &[&[u8]]) -> Result<(), ReadFault>
        ensures { (library : Option (List TheGate)) (words : List (List ℕ)) → Takes result self.new
            (take_as library Keyword.Row self.old number words (texts whole.now)) }
    {
        let bytes = joined(alloc, whole)?;
        if let Some(fault) = row_fault(self.place(), &self.reading, number, bytes.as_slice()) {
            return Err(ReadFault::Fault(fault));
        }
        let reading = self.reading.take();
        self.reading = row_behind(alloc, reading, bytes.as_slice())?;
        self.begun = true;
        Ok(())
    }

    /// Reads a `.gate` line, by a library that may be missing.
    #[tactic(auto, unfolding(crate::specs::Steps::take_as, crate::specs::Steps::closed))]
    fn take_gate(
        &mut self,
        alloc: Global,
        library: Option<&Library>,
        number: usize,
        words: &[&[u8]],
    ) -> Result<(), ReadFault>
        ensures { (whole : List (List ℕ)) → Takes result self.new
            (take_as (option_copied library.entry) Keyword.Gate self.old number
            (texts words.now) whole) }
    {
        let table = gate_table(alloc, library, self.place(), self.nodes, number, words)?;
        // Wrapped in a `Whole`, so that dropping it is one call.
        let table = Whole { it: table };
        self.close_unless(None)?;
        let output = [table.it.output.as_slice()];
        let inputs = table.it.inputs.as_slice();
        let kept = self.has_part || self.lists_inputs;
        add_more(alloc, self.has_part, &mut self.drives, output.as_slice())?;
        add_gate_signals(alloc, self.has_part, &mut self.reads, words, inputs)?;
        add_gate_signals(alloc, kept, &mut self.inner, words, inputs)?;
        self.tables.push(table.into_it())?;
        self.nodes += 1;
        Ok(())
    }

    /// Reads a `.subckt` line.
    #[tactic(auto, unfolding(crate::specs::Steps::take_as, crate::specs::Steps::closed))]
    fn take_subckt(&mut self, number: usize, words: &[&[u8]]) -> Result<(), ReadFault>
        ensures { TakesLine Keyword.Subckt self.old number (texts words.now) result self.new }
    {
        let fault = subckt_fault(self.place(), number, words);
        self.close_unless(fault)?;
        self.has_instances = true;
        Ok(())
    }

    /// Reads the line that begins a KISS2 part.
    #[tactic(auto, unfolding(crate::specs::Steps::take_as, crate::specs::Steps::closed))]
    fn take_kiss(&mut self, number: usize) -> Result<(), ReadFault>
        ensures { (words : List (List ℕ))
            → TakesLine Keyword.StartKiss self.old number words result self.new }
    {
        let fault = start_fault(self.place(), self.has_kiss, number);
        self.close_unless(fault)?;
        self.has_kiss = true;
        Ok(())
    }

    /// Reads one line, by its number and its words, with a library or without one. After an error
    /// the draft has no meaning.
    #[tactic(auto, unfolding(crate::specs::Steps::take_entry, crate::specs::Keyword::kind_of))]
    pub fn take(
        &mut self,
        alloc: Global,
        library: Option<&Library>,
        number: usize,
        words: &[&[u8]],
    ) -> Result<(), ReadFault>
        ensures { Takes result self.new (take_entry (option_copied library.entry) self.old
            (record { number = number; words = texts words.now })) }
    {
        let others = other_words(words);
        match keyword_of(first_word(words)) {
            Keyword::Model => self.take_model(alloc, number, others),
            Keyword::Inputs => self.take_inputs(alloc, number, others),
            Keyword::Outputs => self.take_outputs(alloc, number, others),
            Keyword::Clock => self.take_clock(alloc, number, others),
            Keyword::Names => self.take_names(alloc, number, others),
            Keyword::Latch => self.take_latch(alloc, number, others),
            Keyword::Gate => self.take_gate(alloc, library, number, others),
            Keyword::Subckt => self.take_subckt(number, others),
            Keyword::StartKiss => self.take_kiss(number),
            Keyword::DontCare => self.take_part(alloc, number),
            Keyword::End => self.take_end(),
            Keyword::Skipped => self.take_skipped(number),
            Keyword::Row => self.take_row(alloc, number, words),
            Keyword::Other => Err(ReadFault::Fault(BlifFault::UnknownWord(number))),
        }
    }

    /// Whether the lines describe a machine: a KISS2 part begins, nothing is driven, and there is
    /// no `.subckt` line.
    pub fn is_machine(&self) -> bool
        ensures { result ≡ is_machine (told_of self.now) }
    {
        self.has_kiss && self.drives.is_empty() && !self.has_instances
    }
}
