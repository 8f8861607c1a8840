//! The text of a circuit or a netlist: each line as words with one blank between, appended to a
//! text.
//!
//! Source: BLIF appendix of the SIS report (UCB/ERL M92/41); the order of the lines is that of
//! `specs/Text.antt` in circuit_model and `specs/Lines.antt` in netlist, and no line is wrapped.
//! The public calls append or return exactly the definition's text. The text is built apart and
//! appended when it is complete: if memory runs out, the text given stays as it was. The private
//! calls may leave a part.

ghost use Rattle.std.specs.Prelude.{◌≡◌, ◌++◌, ◌∷◌, [], map, flat_map, codes, IfOk, OnOk, OnErr};
ghost use Rattle.sis_base.specs.Written.{line_text, lines_text, spaced, joined_words};
ghost use Rattle.circuit_model.specs.Text.{
  clock_lines,
  control_word,
  digit_of_phase,
  dont_care_lines,
  dotted,
  init_word,
  kind_word,
  latch_line,
  row_line,
  table_lines,
  text_of,
  timing_words,
};
ghost use Rattle.netlist.specs.Lines.{pair_word, gate_line, lines_with_gates, netlist_text_of};

use circuit_model::{Circuit, Kind, Latch, Name, Row, Table, Timing, Tri};
use line_words::{end_line, put_characters, put_word};
use netlist::{Connection, Mapped, Placed};
use std::alloc::{AllocError, Global};

/// Puts words, each with a blank before it.
#[tactic(auto, using(std::proofs::lemmas::Grind::common_steps))]
fn put_words(out: &mut Vec<u8>, words: &[Name]) -> Result<(), AllocError>
    ensures { OnOk result (out.new.items ≡ out.old.items ++ flat_map spaced words.now) }
{
    for word in words {
        put_word(out, word.as_slice())?;
    }
    Ok(())
}

/// Appends a line: a first word and others.
#[tactic(auto, unfolding(sis_base::specs::Written::line_text, sis_base::specs::Written::joined_words))]
fn put_line(out: &mut Vec<u8>, first: &[u8], others: &[Name]) -> Result<(), AllocError>
    ensures { OnOk result
        (out.new.items ≡ out.old.items ++ line_text (dotted first.now others.now)) }
{
    let start = out.len();
    out.extend_from_slice(first)?;
    put_words(out, others)?;
    end_line(out, start)?;
    Ok(())
}

/// Appends a line: a first word, others, and a last one.
#[tactic(auto, unfolding(sis_base::specs::Written::line_text, sis_base::specs::Written::joined_words), using(crate::proofs::WriterLines::words_and_last, std::proofs::lemmas::Grind::common_steps))]
fn put_line_to(
    out: &mut Vec<u8>,
    first: &[u8],
    others: &[Name],
    last: &[u8],
) -> Result<(), AllocError>
    ensures { OnOk result
        (out.new.items ≡ out.old.items
        ++ line_text (dotted first.now (others.now ++ last.now ∷ []))) }
{
    let start = out.len();
    out.extend_from_slice(first)?;
    put_words(out, others)?;
    put_word(out, last)?;
    end_line(out, start)?;
    Ok(())
}

/// The digit of a phase.
fn phase_digit(phase: bool) -> u8
    ensures { result ∷ [] ≡ digit_of_phase phase }
{
    if phase { 49 } else { 48 }
}

/// Puts a row: its characters and the phase, or the phase alone where there are no inputs.
#[tactic(auto, unfolding(circuit_model::specs::Text::row_line, sis_base::specs::Written::line_text, sis_base::specs::Written::joined_words), using(crate::proofs::WriterLines::row_words, std::proofs::lemmas::Grind::common_steps))]
fn put_row(out: &mut Vec<u8>, phase: bool, row: &[Tri]) -> Result<(), AllocError>
    ensures { OnOk result (out.new.items ≡ out.old.items ++ line_text (row_line phase row.now)) }
{
    let start = out.len();
    put_characters(out, row)?;
    if !row.is_empty() {
        out.push(32)?;
    }
    out.push(phase_digit(phase))?;
    end_line(out, start)?;
    Ok(())
}

/// Appends rows of one phase.
#[tactic(auto, unfolding(sis_base::specs::Written::lines_text), using(std::proofs::lemmas::Grind::common_steps))]
fn put_rows(out: &mut Vec<u8>, phase: bool, rows: &[Row]) -> Result<(), AllocError>
    ensures { OnOk result
        (out.new.items ≡ out.old.items ++ lines_text (map (row_line phase) rows.now)) }
{
    for row in rows {
        put_row(out, phase, row.as_slice())?;
    }
    Ok(())
}

/// Appends a table: its heading and its rows.
#[tactic(auto, unfolding(circuit_model::specs::Text::table_lines, sis_base::specs::Written::lines_text), using(std::proofs::lemmas::Grind::common_steps))]
fn put_table(out: &mut Vec<u8>, table: &Table) -> Result<(), AllocError>
    ensures { OnOk result (out.new.items ≡ out.old.items ++ lines_text (table_lines table.now)) }
{
    put_line_to(
        out,
        b".names".as_slice(),
        table.inputs.as_slice(),
        table.output.as_slice(),
    )?;
    put_rows(out, table.phase, table.rows.as_slice())?;
    Ok(())
}

/// Appends tables.
#[tactic(auto, unfolding(sis_base::specs::Written::lines_text), using(std::proofs::lemmas::Grind::common_steps))]
fn put_tables(out: &mut Vec<u8>, tables: &[Table]) -> Result<(), AllocError>
    ensures { OnOk result
        (out.new.items ≡ out.old.items ++ lines_text (flat_map table_lines tables.now)) }
{
    for table in tables {
        put_table(out, table)?;
    }
    Ok(())
}

/// The word of a kind.
fn kind_word(kind: Kind) -> &'static [u8]
    ensures { result.now ≡ kind_word kind }
{
    match kind {
        Kind::Fe => b"fe".as_slice(),
        Kind::Re => b"re".as_slice(),
        Kind::Ah => b"ah".as_slice(),
        Kind::Al => b"al".as_slice(),
    }
}

/// The word of a control; `NIL` for none.
fn control_word(control: &Option<Name>) -> &[u8]
    ensures { result.now ≡ control_word control.now }
{
    match control {
        None => b"NIL".as_slice(),
        Some(name) => name.as_slice(),
    }
}

/// The digit of a latch's start value.
#[tactic(auto, using(crate::proofs::WriterLines::init_digit))]
fn init_digit(init: u8) -> u8
    ensures { result ∷ [] ≡ init_word init }
{
    48 + init.min(3)
}

/// Appends the words of a timing, if there is one, each with a blank before it.
#[tactic(auto, unfolding(circuit_model::specs::Text::timing_words), using(std::proofs::lemmas::Grind::common_steps))]
fn put_timing(out: &mut Vec<u8>, timing: &Option<Timing>) -> Result<(), AllocError>
    ensures { OnOk result
        (out.new.items ≡ out.old.items ++ flat_map spaced (timing_words timing.now)) }
{
    if let Some(known) = timing {
        put_word(out, kind_word(known.kind))?;
        put_word(out, control_word(&known.control))?;
    }
    Ok(())
}

/// Appends a latch's input and output.
#[tactic(auto, using(std::proofs::lemmas::Grind::common_steps))]
fn put_latch_ends(out: &mut Vec<u8>, latch: &Latch) -> Result<(), AllocError>
    ensures { OnOk result
        (out.new.items ≡ out.old.items ++ (spaced latch.now.input ++ spaced latch.now.output)) }
{
    put_word(out, latch.input.as_slice())?;
    put_word(out, latch.output.as_slice())?;
    Ok(())
}

/// Appends a latch's start value.
#[tactic(auto, using(std::proofs::lemmas::Grind::common_steps))]
fn put_init(out: &mut Vec<u8>, init: u8) -> Result<(), AllocError>
    ensures { OnOk result (out.new.items ≡ out.old.items ++ spaced (init_word init)) }
{
    out.push(32)?;
    out.push(init_digit(init))?;
    Ok(())
}

/// Appends a latch's line without its end.
#[tactic(auto, unfolding(circuit_model::specs::Text::latch_line, sis_base::specs::Written::joined_words), using(crate::proofs::WriterLines::latch_words, std::proofs::lemmas::Grind::common_steps))]
fn put_latch_words(
    out: &mut Vec<u8>,
    timing: &Option<Timing>,
    latch: &Latch,
) -> Result<(), AllocError>
    ensures { OnOk result
        (out.new.items ≡ out.old.items ++ joined_words (latch_line timing.now latch.now)) }
{
    out.extend_from_slice(b".latch".as_slice())?;
    put_latch_ends(out, latch)?;
    put_timing(out, timing)?;
    put_init(out, latch.init)?;
    Ok(())
}

/// Appends a latch's line.
#[tactic(auto, unfolding(sis_base::specs::Written::line_text), using(std::proofs::lemmas::Grind::common_steps))]
fn put_latch(out: &mut Vec<u8>, timing: &Option<Timing>, latch: &Latch) -> Result<(), AllocError>
    ensures { OnOk result
        (out.new.items ≡ out.old.items ++ line_text (latch_line timing.now latch.now)) }
{
    let start = out.len();
    put_latch_words(out, timing, latch)?;
    end_line(out, start)?;
    Ok(())
}

/// Appends latches.
#[tactic(auto, unfolding(sis_base::specs::Written::lines_text), using(std::proofs::lemmas::Grind::common_steps))]
fn put_latches(
    out: &mut Vec<u8>,
    timing: &Option<Timing>,
    latches: &[Latch],
) -> Result<(), AllocError>
    ensures { OnOk result
        (out.new.items ≡ out.old.items ++ lines_text (map (latch_line timing.now) latches.now)) }
{
    for latch in latches {
        put_latch(out, timing, latch)?;
    }
    Ok(())
}

/// Appends a pin and its signal as one word, with a blank before it.
#[tactic(auto, using(std::proofs::lemmas::Grind::common_steps))]
fn put_pair(out: &mut Vec<u8>, connection: &Connection) -> Result<(), AllocError>
    ensures { OnOk result (out.new.items ≡ out.old.items ++ spaced (pair_word connection.now)) }
{
    put_word(out, connection.pin.as_slice())?;
    out.push(61)?;
    out.extend_from_slice(connection.signal.as_slice())?;
    Ok(())
}

/// Appends pins and their signals, each pair with a blank before it.
#[tactic(auto, using(std::proofs::lemmas::Grind::common_steps))]
fn put_pairs(out: &mut Vec<u8>, pins: &[Connection]) -> Result<(), AllocError>
    ensures { OnOk result
        (out.new.items ≡ out.old.items ++ flat_map spaced (map pair_word pins.now)) }
{
    for connection in pins {
        put_pair(out, connection)?;
    }
    Ok(())
}

/// Appends a gate's line without its end.
#[tactic(auto, unfolding(netlist::specs::Lines::gate_line, sis_base::specs::Written::joined_words), using(std::proofs::lemmas::Grind::common_steps))]
fn put_gate_words(out: &mut Vec<u8>, gate: &Placed) -> Result<(), AllocError>
    ensures { OnOk result (out.new.items ≡ out.old.items ++ joined_words (gate_line gate.now)) }
{
    out.extend_from_slice(b".gate".as_slice())?;
    put_word(out, gate.cell.as_slice())?;
    put_pairs(out, gate.pins.as_slice())?;
    Ok(())
}

/// Appends a gate's line.
#[tactic(auto, unfolding(sis_base::specs::Written::line_text), using(std::proofs::lemmas::Grind::common_steps))]
fn put_gate(out: &mut Vec<u8>, gate: &Placed) -> Result<(), AllocError>
    ensures { OnOk result (out.new.items ≡ out.old.items ++ line_text (gate_line gate.now)) }
{
    let start = out.len();
    put_gate_words(out, gate)?;
    end_line(out, start)?;
    Ok(())
}

/// Appends gates.
#[tactic(auto, unfolding(sis_base::specs::Written::lines_text), using(std::proofs::lemmas::Grind::common_steps))]
fn put_gates(out: &mut Vec<u8>, gates: &[Placed]) -> Result<(), AllocError>
    ensures { OnOk result (out.new.items ≡ out.old.items ++ lines_text (map gate_line gates.now)) }
{
    for gate in gates {
        put_gate(out, gate)?;
    }
    Ok(())
}

/// Appends the clocks, if there are any.
#[tactic(auto, unfolding(circuit_model::specs::Text::clock_lines, sis_base::specs::Written::lines_text), using(std::proofs::lemmas::Grind::common_steps))]
fn put_clocks(out: &mut Vec<u8>, clocks: &[Name]) -> Result<(), AllocError>
    ensures { OnOk result (out.new.items ≡ out.old.items ++ lines_text (clock_lines clocks.now)) }
{
    if !clocks.is_empty() {
        put_line(out, b".clock".as_slice(), clocks)?;
    }
    Ok(())
}

/// Appends the don't-care part, if there is one.
#[tactic(auto, unfolding(circuit_model::specs::Text::dont_care_lines, sis_base::specs::Written::lines_text), using(crate::proofs::WriterLines::dont_care_text, std::proofs::lemmas::Grind::common_steps))]
fn put_dont_care(out: &mut Vec<u8>, tables: &[Table]) -> Result<(), AllocError>
    ensures { OnOk result
        (out.new.items ≡ out.old.items ++ lines_text (dont_care_lines tables.now)) }
{
    if !tables.is_empty() {
        put_line(out, b".exdc".as_slice(), &[])?;
        put_tables(out, tables)?;
    }
    Ok(())
}

/// Appends the ports: the name of the model, the inputs and the outputs.
#[tactic(auto, unfolding(sis_base::specs::Written::lines_text), using(std::proofs::lemmas::Grind::common_steps))]
fn put_ports(out: &mut Vec<u8>, circuit: &Circuit) -> Result<(), AllocError>
    ensures { OnOk result
        (out.new.items ≡ out.old.items
        ++ lines_text (dotted (codes ".model") (circuit.now.name ∷ [])
        ∷ dotted (codes ".inputs") circuit.now.inputs
        ∷ dotted (codes ".outputs") circuit.now.outputs ∷ [])) }
{
    put_line_to(out, b".model".as_slice(), &[], circuit.name.as_slice())?;
    put_line(out, b".inputs".as_slice(), circuit.inputs.as_slice())?;
    put_line(out, b".outputs".as_slice(), circuit.outputs.as_slice())?;
    Ok(())
}

/// Appends what is between the ports and the tables: clocks, latches and gates.
#[tactic(auto, unfolding(sis_base::specs::Written::lines_text), using(std::proofs::lemmas::Grind::common_steps))]
fn put_cells(out: &mut Vec<u8>, gates: &[Placed], circuit: &Circuit) -> Result<(), AllocError>
    ensures { OnOk result
        (out.new.items ≡ out.old.items
        ++ lines_text (clock_lines circuit.now.clocks
        ++ (map (latch_line circuit.now.timing) circuit.now.latches ++ map gate_line gates.now))) }
{
    put_clocks(out, circuit.clocks.as_slice())?;
    put_latches(out, &circuit.timing, circuit.latches.as_slice())?;
    put_gates(out, gates)?;
    Ok(())
}

/// Appends the tables and what follows them: the don't-care part and the end.
#[tactic(auto, unfolding(sis_base::specs::Written::lines_text), using(std::proofs::lemmas::Grind::common_steps))]
fn put_rest(out: &mut Vec<u8>, circuit: &Circuit) -> Result<(), AllocError>
    ensures { OnOk result
        (out.new.items ≡ out.old.items
        ++ lines_text (flat_map table_lines circuit.now.tables
        ++ (dont_care_lines circuit.now.dont_care ++ dotted (codes ".end") [] ∷ []))) }
{
    put_tables(out, circuit.tables.as_slice())?;
    put_dont_care(out, circuit.dont_care.as_slice())?;
    put_line(out, b".end".as_slice(), &[])?;
    Ok(())
}

/// Appends the lines of a circuit, with gates before its tables.
#[tactic(auto, unfolding(netlist::specs::Lines::lines_with_gates, sis_base::specs::Written::lines_text), using(std::proofs::lemmas::Grind::common_steps))]
fn put_lines(out: &mut Vec<u8>, gates: &[Placed], circuit: &Circuit) -> Result<(), AllocError>
    ensures { OnOk result
        (out.new.items ≡ out.old.items ++ lines_text (lines_with_gates gates.now circuit.now)) }
{
    put_ports(out, circuit)?;
    put_cells(out, gates, circuit)?;
    put_rest(out, circuit)?;
    Ok(())
}

/// Appends the lines of a circuit, with gates before its tables; on an error the text given stays
/// as it was.
fn append_lines(
    alloc: Global,
    gates: &[Placed],
    circuit: &Circuit,
    out: &mut Vec<u8>,
) -> Result<(), AllocError>
    ensures ok { OnOk result
        (out.new.items ≡ out.old.items ++ lines_text (lines_with_gates gates.now circuit.now)) }
    ensures err { OnErr result (out.new.items ≡ out.old.items) }
{
    let mut text = Vec::new(alloc);
    put_lines(&mut text, gates, circuit)?;
    if out.is_empty() {
        *out = text;
        return Ok(());
    }
    out.append(&mut text)
}

/// Appends the text of a circuit: ports, clocks, latches, tables, the don't-care part, each word as
/// it is and no line wrapped. On an error the text given stays as it was.
#[tactic(auto, unfolding(circuit_model::specs::Text::text_of, circuit_model::specs::Text::circuit_lines, netlist::specs::Lines::lines_with_gates))]
pub fn circuit_text(alloc: Global, circuit: &Circuit, out: &mut Vec<u8>) -> Result<(), AllocError>
    ensures ok { OnOk result (out.new.items ≡ out.old.items ++ text_of circuit.now) }
    ensures err { OnErr result (out.new.items ≡ out.old.items) }
{
    append_lines(alloc, &[], circuit, out)
}

/// Appends the text of a netlist: like that of its circuit, with a line for each gate between
/// latches and tables. On an error the text given stays as it was.
#[tactic(auto, unfolding(netlist::specs::Lines::netlist_text_of))]
pub fn netlist_text(alloc: Global, mapped: &Mapped, out: &mut Vec<u8>) -> Result<(), AllocError>
    ensures ok { OnOk result (out.new.items ≡ out.old.items ++ netlist_text_of mapped.now) }
    ensures err { OnErr result (out.new.items ≡ out.old.items) }
{
    append_lines(alloc, mapped.gates.as_slice(), &mapped.base, out)
}

/// The text of a table: its heading and its rows.
pub fn table_text(alloc: Global, table: &Table) -> Result<Vec<u8>, AllocError>
    ensures { IfOk result (λ text. text.items ≡ lines_text (table_lines table.now)) }
{
    let mut text = Vec::new(alloc);
    put_table(&mut text, table)?;
    Ok(text)
}

/// The text of tables, one after the other.
pub fn tables_text(alloc: Global, tables: &[Table]) -> Result<Vec<u8>, AllocError>
    ensures { IfOk result (λ text. text.items ≡ lines_text (flat_map table_lines tables.now)) }
{
    let mut text = Vec::new(alloc);
    put_tables(&mut text, tables)?;
    Ok(text)
}

/// The lines of latches with the timing that they share.
pub fn latches_text(
    alloc: Global,
    timing: &Option<Timing>,
    latches: &[Latch],
) -> Result<Vec<u8>, AllocError>
    ensures { IfOk result
        (λ text. text.items ≡ lines_text (map (latch_line timing.now) latches.now)) }
{
    let mut text = Vec::new(alloc);
    put_latches(&mut text, timing, latches)?;
    Ok(text)
}
