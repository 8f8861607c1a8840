//! Cases of circuits: runs, copies, and checks.
//!
//! The case's text is read as a circuit, which is then simulated, copied, ordered, searched for
//! cycles and wrong names, or cut to what its outputs need. `put_generated` prints a circuit of
//! `gen`, and `put_checks` the checks of names. A text that is no circuit is a bad case.

ghost use Rattle.circuit_model.specs.Soundness.{IsSound};

use crate::puts::{put_circuit, put_names, put_text, put_value};
use crate::reads::{circuit, names};
use circuit_checks::{
    first_again, first_bad_part_name, first_listed_twice, first_missing, first_on_cycle,
};
use circuit_gen::generate;
use circuit_model::{Bits, Circuit, Name, timing_copied};
use circuit_order::order;
use net_wires::{dangling_step, driven_names, is_among, leaves_read};
use sis_base::{Copied, Sequence, Whole};
use std::alloc::{AllocError, Global};
use trial_cases::{Case, CaseFault, number_of};

/// Appends the answer to a case of a circuit.
pub fn answer(
    alloc: Global,
    out: &mut Vec<u8>,
    case: &Case<'_>,
    text: &[u8],
) -> Result<(), CaseFault> {
    let circuit = circuit(alloc, text)?;
    put_about(alloc, out, case, &circuit)
}

/// Appends the circuit of a seed and a number of tables, at most a thousand.
pub fn put_generated(alloc: Global, out: &mut Vec<u8>, case: &Case<'_>) -> Result<(), CaseFault> {
    let seed = number_of(case.word(1))?;
    let tables = number_of(case.word(2))?;
    if tables > 1_000 {
        return Err(CaseFault::Bad);
    }
    put_circuit(alloc, out, &generate(alloc, seed as u64, tables as u16)?)
}

/// Appends the answer about a circuit. A copy is wrapped in a `Whole`, so that dropping it is one
/// call.
fn put_about(
    alloc: Global,
    out: &mut Vec<u8>,
    case: &Case<'_>,
    circuit: &Circuit,
) -> Result<(), CaseFault>
    requires { IsSound circuit.now }
{
    match case.word(1) {
        "simulate" => put_run(alloc, out, circuit, case.word(2), case.word(3)),
        "copy" => put_circuit(
            alloc,
            out,
            &Whole {
                it: circuit.copy(alloc)?,
            }
            .it,
        ),
        "timing" => put_value(
            alloc,
            out,
            &Whole {
                it: timing_copied(alloc, &circuit.timing)?,
            }
            .it,
        ),
        "order" => put_order(alloc, out, circuit),
        "dangling_step" => put_needed(alloc, out, circuit),
        "leaves_read" => put_leaves(alloc, out, circuit),
        _ => Err(CaseFault::Bad),
    }
}

/// The bits of a word; none if it is `.`.
fn bits(alloc: Global, word: &str) -> Result<Bits, AllocError> {
    let mut made = Sequence::new(alloc);
    if word != "." {
        for byte in word.as_bytes() {
            made.push(*byte == b'1')?;
        }
    }
    Ok(made)
}

/// Appends what a circuit shows from a start, over one row.
fn put_run(
    alloc: Global,
    out: &mut Vec<u8>,
    circuit: &Circuit,
    start: &str,
    row: &str,
) -> Result<(), CaseFault> {
    let start = bits(alloc, start)?;
    let rows = [bits(alloc, row)?];
    put_value(
        alloc,
        out,
        &circuit.simulate(alloc, start.as_slice(), &rows),
    )
}

/// Appends the order of a circuit's tables, the first on a cycle, and the first wrong name of its
/// don't-care part.
#[tactic(auto, using(net_wires::proofs::Taking::tables_differ))]
fn put_order(alloc: Global, out: &mut Vec<u8>, circuit: &Circuit) -> Result<(), CaseFault>
    requires { IsSound circuit.now }
{
    let tables = circuit.tables.as_slice();
    put_names(out, order(alloc, tables)?.as_slice())?;
    put_found(out, first_on_cycle(alloc, tables))?;
    let wrong = first_bad_part_name(
        alloc,
        circuit.inputs.as_slice(),
        circuit.dont_care.as_slice(),
    )?;
    put_value(alloc, out, &wrong)
}

/// Appends a name that was found, or `none`.
fn put_found(out: &mut Vec<u8>, found: Result<Option<&Name>, AllocError>) -> Result<(), CaseFault> {
    match found? {
        Some(name) => put_text(out, name.as_slice()),
        None => put_text(out, b"none"),
    }
}

/// Appends the circuit of what is needed, or that all is.
#[tactic(auto, using(net_wires::proofs::Taking::tables_differ, net_wires::proofs::Taking::latches_differ))]
fn put_needed(alloc: Global, out: &mut Vec<u8>, circuit: &Circuit) -> Result<(), CaseFault>
    requires { IsSound circuit.now }
{
    match &dangling_step(alloc, circuit)? {
        None => put_text(out, b"all is needed"),
        Some(needed) => put_circuit(alloc, out, needed),
    }
}

/// Appends which of the letters a to d are driven by tables, and which are leaves that the
/// don't-care part reads.
fn put_leaves(alloc: Global, out: &mut Vec<u8>, circuit: &Circuit) -> Result<(), CaseFault> {
    let driven = Whole {
        it: driven_names(alloc, circuit.tables.as_slice())?,
    };
    let leaves = Whole {
        it: leaves_read(alloc, circuit)?,
    };
    for name in names(alloc, "abcd")?.as_slice() {
        put_value(
            alloc,
            out,
            &(is_among(&driven.it, name), is_among(&leaves.it, name)),
        )?;
    }
    Ok(())
}

/// Appends three names of the second word: the first that is among those of the first word or
/// occurs again, the first that is not among those, and the first that is listed twice in one of
/// the two words.
pub fn put_checks(alloc: Global, out: &mut Vec<u8>, case: &Case<'_>) -> Result<(), CaseFault> {
    let known = names(alloc, case.word(1))?;
    let asked = names(alloc, case.word(2))?;
    let (known, asked) = (known.as_slice(), asked.as_slice());
    put_found(out, first_again(alloc, known, asked))?;
    put_found(out, first_missing(alloc, known, asked))?;
    put_found(out, first_listed_twice(alloc, known, asked, asked))
}
