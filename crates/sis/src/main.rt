//! The program: it makes the real store, input and outputs, passes them to the top call with the
//! words of the command line, and ends with its status. What a real file or stream contains is
//! trusted and not proved.
#![tactic(auto)]

use sis_adapters::{RealStore, StdSink, StdSource, behind_name, words_of};
use sis_text::Word;
use sis_top::{Status, run_sis};
use std::alloc::AllocError;
use std::env;
use std::env::Env;
use std::io::ErrorKind;
use std::process::ExitCode;

/// The program's name and the words of the command line; if the arguments are not text, a name and
/// one word that is not accepted.
fn words<R: Env + AllocGlobal>(rt: &R) -> Result<Vec<Word>, AllocError> {
    let alloc = rt.alloc();
    match env::args(rt) {
        Ok(arguments) => words_of(alloc, arguments),
        Err(error) if error.kind() == ErrorKind::OutOfMemory => Err(AllocError),
        Err(_) => {
            let mut words = Vec::new(alloc);
            words.push(Word::new(alloc, "sis")?)?;
            words.push(Word::new(alloc, "?")?)?;
            Ok(words)
        }
    }
}

fn main(rt: HostRuntime) -> ExitCode {
    let Ok(words) = words(&rt) else {
        return ExitCode::from(Status::Memory.code());
    };
    let mut store = RealStore::new(rt.alloc(), &rt);
    let mut input = StdSource::new(rt.stdin());
    let mut out = StdSink::new(rt.stdout());
    let mut err = StdSink::new(rt.stderr());
    let status = run_sis(
        rt.alloc(),
        behind_name(words.as_slice()),
        &mut store,
        &mut input,
        &mut out,
        &mut err,
    );
    ExitCode::from(status.code())
}
