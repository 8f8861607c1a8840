//! The standard streams as a source and as sinks, which show no bytes and count their faults.
//!
//! A take reads at most 16 KiB, into a buffer that is allocated first, so nothing is lost if memory
//! runs out. A put writes until the whole piece is written, or a write fails or accepts nothing.
//! What a stream contains is trusted, not proved: the contracts bound the length of a piece and say
//! when the count rises.

ghost use Rattle.std.specs.Prelude.{◌≡◌, ◌≤◌, ◌^◌, ℕ, false, [], IsTrue};
ghost use Rattle.sis_outside.specs.Calls.{SourceKeeps, SinkKeeps};

use sis_outside::{PutFault, Sink, Source, TakeFault};
use std::alloc::Global;
use std::io::{Read, Write};

/// The greatest number of bytes that one take asks for.
const PIECE: usize = 16_384;

/// A source over a reader.
#[derive(Drop)]
pub struct StdSource<R: Read> {
    reader: R,
    faults: u64,
}

impl<R: Read> StdSource<R> {
    /// The source of the reader's bytes.
    pub fn new(reader: R) -> Self {
        StdSource { reader, faults: 0 }
    }
}

impl<R: Read> Source for StdSource<R> {
    ghost tells = { λ _. false };

    ghost left = { λ _. [] };

    ghost faults = { λ source. source.faults };

    ghost calls = { SourceKeeps (λ _. false) (λ _. []) (λ source. source.faults) };

    ghost keeps = { λ old call new kept. kept };

    fn take(&mut self, alloc: Global, max: usize) -> Result<Vec<u8>, TakeFault> {
        // The buffer comes first: if memory runs out for it, nothing was read.
        let Ok(mut piece) = Vec::from_elem(alloc, 0u8, max.min(PIECE)) else {
            return Err(TakeFault::Memory);
        };
        match self.reader.read(piece.as_mut_slice()) {
            Ok(count) => {
                piece.truncate(count);
                Ok(piece)
            }
            Err(_) => {
                self.faults = self.faults.saturating_add(1);
                Err(TakeFault::Failed)
            }
        }
    }
}

/// A sink over a writer.
#[derive(Drop)]
pub struct StdSink<W: Write> {
    writer: W,
    faults: u64,
}

impl<W: Write> StdSink<W> {
    /// The sink that the writer receives.
    pub fn new(writer: W) -> Self {
        StdSink { writer, faults: 0 }
    }
}

impl<W: Write> Sink for StdSink<W> {
    ghost tells = { λ _. false };

    ghost written = { λ _. [] };

    ghost faults = { λ sink. sink.faults };

    ghost calls = { SinkKeeps (λ _. false) (λ _. []) (λ sink. sink.faults) };

    ghost keeps = { λ old call new kept. kept };

    fn put(&mut self, piece: &[u8]) -> Result<(), PutFault> {
        if write_whole(&mut self.writer, piece) {
            Ok(())
        } else {
            self.faults = self.faults.saturating_add(1);
            Err(PutFault::Failed)
        }
    }
}

/// Writes all of a piece; false if a write failed or accepted nothing.
pub(crate) fn write_whole<W: Write>(writer: &mut W, piece: &[u8]) -> bool {
    let mut done = 0;
    while done < piece.len() {
        match writer.write(&piece[done..]) {
            Ok(0) | Err(_) => return false,
            Ok(count) => done += count,
        }
    }
    true
}

#[cfg(test)]
mod tests {
    use super::*;
    use std::test::Fail;

    #[test]
    fn a_reader_is_taken_piece_by_piece(rt: HostRuntime) -> Result<(), Fail> {
        let alloc = rt.alloc();
        let mut source = StdSource::new(b"abc".as_slice());
        assert_eq!(rt; source.take(alloc, 2)?.as_slice(), b"ab".as_slice());
        assert_eq!(rt; source.take(alloc, 9)?.as_slice(), b"c".as_slice());
        assert_eq!(rt; source.take(alloc, 9)?.as_slice(), b"".as_slice());
        assert_eq!(rt; source.faults, 0);
        Ok(())
    }

    #[test]
    fn a_writer_takes_whole_pieces(rt: HostRuntime) -> Result<(), Fail> {
        let mut sink = StdSink::new(Vec::new(rt.alloc()));
        sink.put(b"ab")?;
        sink.put(b"c")?;
        assert_eq!(rt; sink.writer.as_slice(), b"abc".as_slice());
        assert_eq!(rt; sink.faults, 0);
        Ok(())
    }
}
