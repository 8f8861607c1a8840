//! The texts of the faults of circuit files: `blif_text` of `specs/Texts.antt`, byte for byte. If
//! memory runs out, the output stays as it was.

ghost use Rattle.std.specs.Prelude.{◌≡◌, ◌++◌, OnOk, OnErr};
ghost use Rattle.fault_texts.specs.Texts.{blif_limit_word, blif_text};

use crate::kiss::put_kiss_fault;
use crate::putting::{put_limit, put_line, put_two};
use blif_lines::{BlifFault, LimitKind};
use std::alloc::{AllocError, Global};

/// The word for what a limit is on.
fn limit_word(kind: LimitKind) -> &'static [u8]
    ensures { result.now ≡ blif_limit_word kind }
{
    match kind {
        LimitKind::Name => b"name".as_slice(),
        LimitKind::Tables => b"tables".as_slice(),
        LimitKind::Rows => b"rows".as_slice(),
        LimitKind::Inputs => b"inputs".as_slice(),
        LimitKind::Depth => b"depth".as_slice(),
    }
}

/// Appends the text of a fault of a circuit file. On an error the output stays as it was.
#[tactic(auto, unfolding(crate::specs::Texts::blif_text), using(std::proofs::lemmas::Grind::common_steps))]
pub fn put_blif_fault(out: &mut Vec<u8>, alloc: Global, fault: &BlifFault) -> Result<(), AllocError>
    ensures ok { OnOk result (out.new.items ≡ out.old.items ++ blif_text fault.now) }
    ensures err { OnErr result (out.new.items ≡ out.old.items) }
{
    match fault {
        BlifFault::UnknownWord(line) => put_line(out, alloc, *line, b"unknown word"),
        BlifFault::BadArity(line) => put_line(out, alloc, *line, b"bad arity"),
        BlifFault::BadRow(line) => put_line(out, alloc, *line, b"bad row"),
        BlifFault::MixedPhase(line) => put_line(out, alloc, *line, b"mixed phase"),
        BlifFault::BadLatch(line) => put_line(out, alloc, *line, b"bad latch"),
        BlifFault::ModelTwice(line) => put_line(out, alloc, *line, b"model twice"),
        BlifFault::NoLibrary(line) => put_line(out, alloc, *line, b"no library"),
        BlifFault::UnknownGate(line) => put_line(out, alloc, *line, b"unknown gate"),
        BlifFault::BadPins(line) => put_line(out, alloc, *line, b"bad pins"),
        BlifFault::UnknownModel(line) => put_line(out, alloc, *line, b"unknown model"),
        BlifFault::BadPorts(line) => put_line(out, alloc, *line, b"bad ports"),
        BlifFault::Limit(kind, reached) => put_limit(out, alloc, limit_word(*kind), *reached),
        BlifFault::Recursion(name) => put_two(out, b"recursion in ", name.as_slice()),
        BlifFault::NameClash(name) => put_two(out, b"name clash at ", name.as_slice()),
        BlifFault::NameTwice(name) => put_two(out, name.as_slice(), b" listed twice"),
        BlifFault::BadKiss(fault) => put_kiss_fault(out, alloc, fault),
        BlifFault::MixedClock(line) => put_line(out, alloc, *line, b"mixed clock"),
        BlifFault::GatedClock(name) => put_two(out, b"gated clock ", name.as_slice()),
        BlifFault::TwoDrivers(name) => put_two(out, b"two drivers of ", name.as_slice()),
        BlifFault::Undriven(name) => put_two(out, b"undriven ", name.as_slice()),
        BlifFault::BadExdc(name) => put_two(out, b"bad don't-care ", name.as_slice()),
        BlifFault::Cycle(name) => put_two(out, b"cycle through ", name.as_slice()),
    }
}
