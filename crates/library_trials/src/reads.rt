//! Reads the circuits, networks, libraries and names that a case is about. A text that is none of
//! these is a bad case; a circuit or library that is returned is proved to be sound.

ghost use Rattle.std.specs.Prelude.{IfOk};
ghost use Rattle.circuit_model.specs.Soundness.{IsSound};
ghost use Rattle.genlib_format.specs.Soundness.{IsSoundGates};

use blif_read::ReadFault as CircuitFault;
use circuit_model::{Circuit, Names, Spec};
use cube_cover::PlainRow;
use genlib_format::{Library, ReadFault as LibraryFault};
use line_words::name_of;
use net_core::Network;
use sis_base::Sequence;
use std::alloc::{AllocError, Global};
use trial_cases::CaseFault;

/// The library of a text; a bad case if the text is not one.
pub fn library(alloc: Global, text: &[u8]) -> Result<Library, CaseFault>
    ensures { IfOk result IsSoundGates }
{
    match genlib_format::read(alloc, text) {
        Ok(library) => Ok(library),
        Err(LibraryFault::Fault(_)) => Err(CaseFault::Bad),
        Err(LibraryFault::Memory) => Err(CaseFault::Memory),
    }
}

/// The circuit of a text; a bad case if the text is not one.
pub fn circuit(alloc: Global, text: &[u8]) -> Result<Circuit, CaseFault>
    ensures { IfOk result IsSound }
{
    match blif_read::read(alloc, text, None) {
        Ok(Spec::Circuit(circuit)) => Ok(circuit),
        Ok(Spec::Machine(_)) => Err(CaseFault::Bad),
        Err(CircuitFault::Fault(_)) => Err(CaseFault::Bad),
        Err(CircuitFault::Memory) => Err(CaseFault::Memory),
    }
}

/// The network of a text.
pub fn network(alloc: Global, text: &[u8]) -> Result<Network<PlainRow>, CaseFault> {
    let circuit = circuit(alloc, text)?;
    Ok(Network::from_circuit(alloc, circuit)?)
}

/// The names of one character each of a word; none if it is `.`.
pub fn names(alloc: Global, word: &str) -> Result<Names, AllocError> {
    let mut made = Sequence::new(alloc);
    if word != "." {
        for byte in word.as_bytes() {
            made.push(name_of(alloc, &[*byte])?)?;
        }
    }
    Ok(made)
}

/// The lines before the first line `and`, and those from it on.
pub fn parted<'a, 'b>(lines: &'b [&'a str]) -> (&'b [&'a str], &'b [&'a str]) {
    let count = lines.iter().take_while(|line| **line != "and").count();
    lines.split_at(count.min(lines.len()))
}
