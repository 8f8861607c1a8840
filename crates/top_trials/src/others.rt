//! Cases `sure` and `endless`: calls of the program over other objects of the outside.
//!
//! `run_sure` runs it over objects that never fail; its clause says that the status is never that
//! of a fault, which follows from the clause `sure` of `run_sis`. `Endless` is a source that always
//! has one more byte, so the script on it is too long.

ghost use Rattle.std.specs.Prelude.{◌≡◌, [], false};
ghost use Rattle.sis_outside.specs.Calls.{SourceKeeps};
ghost use Rattle.sis_top.specs.declared.status.Status.TheVariants as status;

use crate::calls::{put_status, put_told};
use crate::outside::Outside;
use crate::shown::{put_file, put_text};
use sis_outside::{Source, SureSink, SureSource, SureStore, TakeFault};
use sis_text::Word;
use sis_top::{Status, run_sis};
use std::alloc::{AllocError, Global};
use trial_cases::{CaseFault, put_line, put_number};

/// Runs the program on words over objects that never fail: the status is never that of a fault.
fn run_sure(
    alloc: Global,
    words: &[Word],
    store: &mut SureStore,
    input: &mut SureSource,
    out: &mut SureSink,
    err: &mut SureSink,
) -> Status
    ensures { result ≡ status.Fault → ⊥ }
{
    run_sis(alloc, words, store, input, out, err)
}

/// Runs the script on an input that never fails, and appends the result.
pub fn put_sure(alloc: Global, out: &mut Vec<u8>) -> Result<(), CaseFault> {
    let mut store = SureStore::new(alloc);
    store.put_file("a", b".model a\n.inputs x\n.outputs x\n.end\n".as_slice())?;
    let script = b"read_blif a; print_stats; write_blif b; read_blif z".as_slice();
    let mut input = SureSource::new(alloc, script)?;
    put_sure_call(alloc, out, &mut store, &mut input)?;
    Ok(())
}

/// Appends the result of a call over a store and an input that never fail.
fn put_sure_call(
    alloc: Global,
    out: &mut Vec<u8>,
    store: &mut SureStore,
    input: &mut SureSource,
) -> Result<(), AllocError> {
    let mut output = SureSink::new(alloc);
    let mut errors = SureSink::new(alloc);
    let status = run_sure(alloc, &[], store, input, &mut output, &mut errors);
    put_status(alloc, out, status)?;
    put_text(out, "out: ", output.written())?;
    put_text(out, "err: ", errors.written())?;
    put_sure_end(alloc, out, store, input)
}

/// Appends what a store and an input that never fail contain after a call.
fn put_sure_end(
    alloc: Global,
    out: &mut Vec<u8>,
    store: &SureStore,
    input: &SureSource,
) -> Result<(), AllocError> {
    put_file(out, "b: ", store.file("b"))?;
    out.extend_from_slice(b"misses: ")?;
    put_number(alloc, out, store.misses() as usize)?;
    put_line(out, b"")?;
    put_text(out, "left: ", input.left())
}

/// An input without an end.
#[derive(Clone, Copy)]
struct Endless;

impl Source for Endless {
    ghost tells = { λ _. false };

    ghost left = { λ _. [] };

    ghost faults = { λ _. 0 };

    ghost calls = { SourceKeeps (λ _. false) (λ _. []) (λ _. 0) };

    ghost keeps = { λ old call new kept. kept };

    fn take(&mut self, alloc: Global, max: usize) -> Result<Vec<u8>, TakeFault> {
        match Vec::from_elem(alloc, b'#', max.min(1_000_000)) {
            Ok(piece) => Ok(piece),
            Err(_) => Err(TakeFault::Memory),
        }
    }
}

/// Runs the script on an input without an end, and appends the result.
pub fn put_endless(alloc: Global, out: &mut Vec<u8>) -> Result<(), CaseFault> {
    let mut outside = Outside::new(alloc)?;
    let status = run_sis(
        alloc,
        &[],
        &mut outside.store,
        &mut Endless,
        &mut outside.out,
        &mut outside.err,
    );
    put_told(alloc, out, status, &outside)?;
    Ok(())
}
