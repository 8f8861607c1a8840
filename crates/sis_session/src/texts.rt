//! The texts that the program prints: replies, and the lines of refusals and errors.
//!
//! Each text is here once and is promised byte for byte (`specs/Replies.antt`), so that a script
//! may rely on what it reads. The texts of faults in files are those of fault_texts. A call that
//! runs out of memory leaves the output as it was.

ghost use Rattle.std.specs.Prelude.{◌≡◌, ◌++◌, flat_map, codes, decimal, IfOk, OnOk, OnErr};
ghost use Rattle.sis_base.specs.Written.{spaced};
ghost use Rattle.fault_texts.specs.Texts.{blif_text, kiss_text, library_text};
ghost use Rattle.sis_session.specs.Replies.{
  echo_line,
  error_line,
  file_text,
  numbers_line,
  refusal_line,
  refusal_text,
  script_fault_text,
};

use crate::refusal::Refusal;
use blif_lines::BlifFault;
use fault_texts::{
    cut_on_error, put_blif_fault, put_kiss_fault, put_library_fault, put_three, put_two,
};
use genlib_format::LibFault;
use kiss_format::KissFault;
use net_core::Sizes;
use sis_script::{RawWord, ScriptFault};
use sis_text::Word;
use std::alloc::{AllocError, Global};

/// The size of a network, in numbers.
#[derive(Clone, Copy)]
pub struct Stats {
    pub sizes: Sizes,
    /// The literals of all tables outside the don't-care part.
    pub lits: u128,
}

/// Words as a line, separated by one blank.
#[tactic(auto, unfolding(crate::specs::Replies::echo_line), using(std::proofs::lemmas::Grind::common_steps))]
pub fn echo_text(alloc: Global, words: &[RawWord]) -> Result<Vec<u8>, AllocError>
    ensures { IfOk result (λ text. text.items ≡ echo_line words.now) }
{
    let mut text = Vec::new(alloc);
    if let [first, others @ ..] = words {
        text.extend_from_slice(first.as_slice())?;
        put_spaced(&mut text, others)?;
    }
    text.push(10)?;
    Ok(text)
}

/// Appends words, each with a blank before it.
#[tactic(auto, using(std::proofs::lemmas::Grind::common_steps))]
fn put_spaced(out: &mut Vec<u8>, words: &[RawWord]) -> Result<(), AllocError>
    ensures ok { OnOk result (out.new.items ≡ out.old.items ++ flat_map spaced words.now) }
    ensures err { OnErr result (out.new.items ≡ out.old.items) }
{
    let len = out.len();
    for word in words {
        if let Err(fault) = put_two(out, b" ".as_slice(), word.as_slice()) {
            out.truncate(len);
            return Err(fault);
        }
    }
    Ok(())
}

/// Appends the numbers of the ports and the tables.
#[tactic(auto, using(std::proofs::lemmas::Grind::common_steps))]
fn put_first_counts(out: &mut Vec<u8>, alloc: Global, stats: Stats) -> Result<(), AllocError>
    ensures ok { OnOk result (out.new.items ≡ out.old.items
        ++ (codes " pi=" ++ (decimal stats.sizes.inputs
        ++ (codes " po=" ++ (decimal stats.sizes.outputs
        ++ (codes " nodes=" ++ decimal stats.sizes.tables)))))) }
    ensures err { OnErr result (out.new.items ≡ out.old.items) }
{
    let sizes = stats.sizes;
    let text = format!(in alloc;
        " pi={} po={} nodes={}",
        sizes.inputs, sizes.outputs, sizes.tables
    )?;
    out.extend_from_slice(text.as_bytes())
}

/// Appends the numbers of the latches, the literals and the don't-care tables.
#[tactic(auto, using(std::proofs::lemmas::Grind::common_steps))]
fn put_last_counts(out: &mut Vec<u8>, alloc: Global, stats: Stats) -> Result<(), AllocError>
    ensures ok { OnOk result (out.new.items ≡ out.old.items
        ++ (codes " latches=" ++ (decimal stats.sizes.latches
        ++ (codes " lits=" ++ (decimal stats.lits
        ++ (codes " dc=" ++ decimal stats.sizes.dont_cares)))))) }
    ensures err { OnErr result (out.new.items ≡ out.old.items) }
{
    let sizes = stats.sizes;
    let text = format!(in alloc;
        " latches={} lits={} dc={}",
        sizes.latches, stats.lits, sizes.dont_cares
    )?;
    out.extend_from_slice(text.as_bytes())
}

/// A name and the size of its network, as a line: inputs, outputs, tables, latches, literals,
/// don't-care tables.
#[tactic(auto, unfolding(crate::specs::Replies::numbers_line), using(std::proofs::lemmas::Grind::common_steps))]
pub fn stats_text(alloc: Global, name: &[u8], stats: Stats) -> Result<Vec<u8>, AllocError>
    ensures { IfOk result (λ text. text.items ≡ numbers_line name.now stats) }
{
    let mut text = Vec::new(alloc);
    text.extend_from_slice(name)?;
    put_first_counts(&mut text, alloc, stats)?;
    put_last_counts(&mut text, alloc, stats)?;
    text.push(10)?;
    Ok(text)
}

/// Why a command's words are refused.
fn script_fault_text(fault: ScriptFault) -> &'static [u8]
    ensures { result.now ≡ script_fault_text fault }
{
    match fault {
        ScriptFault::BadCommand => b"unknown command".as_slice(),
        ScriptFault::BadOption => b"bad option".as_slice(),
        ScriptFault::MissingWord => b"missing word".as_slice(),
    }
}

/// Appends a text.
#[tactic(auto, using(std::proofs::lemmas::Grind::common_steps))]
fn put_text(out: &mut Vec<u8>, text: &[u8]) -> Result<(), AllocError>
    ensures ok { OnOk result (out.new.items ≡ out.old.items ++ text.now) }
    ensures err { OnErr result (out.new.items ≡ out.old.items) }
{
    out.extend_from_slice(text)
}

/// Appends the name of a file and what is wrong with it as a circuit.
#[tactic(auto, using(std::proofs::lemmas::Grind::common_steps))]
fn put_circuit_fault(
    out: &mut Vec<u8>,
    alloc: Global,
    file: &Word,
    fault: &BlifFault,
) -> Result<(), AllocError>
    ensures ok { OnOk result (out.new.items
        ≡ out.old.items ++ file_text file.now (blif_text fault.now)) }
    ensures err { OnErr result (out.new.items ≡ out.old.items) }
{
    let len = out.len();
    put_two(out, file.text().as_bytes(), b": ".as_slice())?;
    let put = put_blif_fault(out, alloc, fault);
    cut_on_error(out, len, put)
}

/// Appends the name of a file and what is wrong with it as a machine.
#[tactic(auto, using(std::proofs::lemmas::Grind::common_steps))]
fn put_machine_fault(
    out: &mut Vec<u8>,
    alloc: Global,
    file: &Word,
    fault: &KissFault,
) -> Result<(), AllocError>
    ensures ok { OnOk result (out.new.items
        ≡ out.old.items ++ file_text file.now (kiss_text fault.now)) }
    ensures err { OnErr result (out.new.items ≡ out.old.items) }
{
    let len = out.len();
    put_two(out, file.text().as_bytes(), b": ".as_slice())?;
    let put = put_kiss_fault(out, alloc, fault);
    cut_on_error(out, len, put)
}

/// Appends the name of a file and what is wrong with it as a library.
#[tactic(auto, using(std::proofs::lemmas::Grind::common_steps))]
fn put_gates_fault(
    out: &mut Vec<u8>,
    alloc: Global,
    file: &Word,
    fault: &LibFault,
) -> Result<(), AllocError>
    ensures ok { OnOk result (out.new.items
        ≡ out.old.items ++ file_text file.now (library_text fault.now)) }
    ensures err { OnErr result (out.new.items ≡ out.old.items) }
{
    let len = out.len();
    put_two(out, file.text().as_bytes(), b": ".as_slice())?;
    let put = put_library_fault(out, alloc, fault);
    cut_on_error(out, len, put)
}

/// Appends the number of inputs that the table of a name would have.
#[tactic(auto, using(std::proofs::lemmas::Grind::common_steps))]
fn put_width(
    out: &mut Vec<u8>,
    alloc: Global,
    count: usize,
    name: &RawWord,
) -> Result<(), AllocError>
    ensures ok { OnOk result (out.new.items
        ≡ out.old.items ++ (decimal count ++ (codes " inputs at " ++ name.now))) }
    ensures err { OnErr result (out.new.items ≡ out.old.items) }
{
    let head = format!(in alloc; "{count} inputs at ")?;
    put_two(out, head.as_bytes(), name.as_slice())
}

/// Appends why a command is refused.
#[tactic(auto, unfolding(crate::specs::Replies::refusal_text), using(std::proofs::lemmas::Grind::common_steps))]
fn put_refusal(out: &mut Vec<u8>, alloc: Global, refusal: &Refusal) -> Result<(), AllocError>
    ensures ok { OnOk result (out.new.items ≡ out.old.items ++ refusal_text refusal.now) }
    ensures err { OnErr result (out.new.items ≡ out.old.items) }
{
    match refusal {
        Refusal::Script(fault) => out.extend_from_slice(script_fault_text(*fault)),
        Refusal::Nested => out.extend_from_slice(b"sources nested deeper than 16".as_slice()),
        Refusal::NoNetwork => out.extend_from_slice(b"no network".as_slice()),
        Refusal::NoMachine => out.extend_from_slice(b"no machine".as_slice()),
        Refusal::NoLibrary => out.extend_from_slice(b"no library".as_slice()),
        Refusal::NotMapped => out.extend_from_slice(b"no mapped netlist".as_slice()),
        Refusal::NothingToUndo => out.extend_from_slice(b"nothing to undo".as_slice()),
        Refusal::NoSignal(name) => put_two(out, b"no table ".as_slice(), name.as_slice()),
        Refusal::CubeLimit(name) => {
            put_two(out, b"too many rows at ".as_slice(), name.as_slice())
        }
        Refusal::TooWide(name, count) => put_width(out, alloc, *count, name),
        Refusal::NodeLimit => out.extend_from_slice(b"too many nodes".as_slice()),
        Refusal::KernelLimit(name) => {
            put_two(out, b"too many kernels at ".as_slice(), name.as_slice())
        }
        Refusal::TooBig(name) => put_two(out, b"function too big at ".as_slice(), name.as_slice()),
        Refusal::NoInverter => put_text(out, b"no inverter in the library".as_slice()),
        Refusal::NoNand => put_text(out, b"no nand in the library".as_slice()),
        Refusal::TreeLimit => put_text(out, b"too many tree vertices".as_slice()),
        Refusal::Missing(file) => put_two(out, b"no file ".as_slice(), file.text().as_bytes()),
        Refusal::TooLong(file) => put_three(
            out,
            b"file ".as_slice(),
            file.text().as_bytes(),
            b" is longer than 67108864 bytes".as_slice(),
        ),
        Refusal::Blif(file, fault) => put_circuit_fault(out, alloc, file, fault),
        Refusal::Kiss(file, fault) => put_machine_fault(out, alloc, file, fault),
        Refusal::Lib(file, fault) => put_gates_fault(out, alloc, file, fault),
        Refusal::LongScript => { put_text(out, b"script is longer than 67108864 bytes".as_slice()) }
    }
}

/// Appends the beginning of a line on the error output: the line of the script.
#[tactic(auto, using(std::proofs::lemmas::Grind::common_steps))]
fn put_head(out: &mut Vec<u8>, alloc: Global, line: usize) -> Result<(), AllocError>
    ensures ok { OnOk result (out.new.items
        ≡ out.old.items ++ (codes "sis: line " ++ (decimal line ++ codes ": "))) }
    ensures err { OnErr result (out.new.items ≡ out.old.items) }
{
    let text = format!(in alloc; "sis: line {line}: ")?;
    out.extend_from_slice(text.as_bytes())
}

/// The line on the error output for a refused command of this line.
#[tactic(auto, unfolding(crate::specs::Replies::refusal_line, crate::specs::Replies::error_line), using(std::proofs::lemmas::Grind::common_steps))]
pub fn refusal_text(alloc: Global, line: usize, refusal: &Refusal) -> Result<Vec<u8>, AllocError>
    ensures { IfOk result (λ text. text.items ≡ refusal_line line refusal.now) }
{
    let mut text = Vec::new(alloc);
    put_head(&mut text, alloc, line)?;
    put_refusal(&mut text, alloc, refusal)?;
    text.push(10)?;
    Ok(text)
}

/// The line on the error output with this text.
#[tactic(auto, unfolding(crate::specs::Replies::error_line), using(std::proofs::lemmas::Grind::common_steps))]
pub fn error_text(alloc: Global, line: usize, text: &str) -> Result<Vec<u8>, AllocError>
    ensures { IfOk result (λ made. made.items ≡ error_line line text.now) }
{
    let mut made = Vec::new(alloc);
    put_head(&mut made, alloc, line)?;
    made.extend_from_slice(text.as_bytes())?;
    made.push(10)?;
    Ok(made)
}
