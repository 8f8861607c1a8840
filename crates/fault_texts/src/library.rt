//! The texts of the faults of library files: `library_text` of `specs/Texts.antt`, byte for byte.
//! If memory runs out, the output stays as it was.

ghost use Rattle.std.specs.Prelude.{◌≡◌, ◌++◌, OnOk, OnErr};
ghost use Rattle.fault_texts.specs.Texts.{library_limit_word, library_text};

use crate::putting::{put_limit, put_line, put_three, put_two};
use genlib_format::{LibFault, LimitKind};
use std::alloc::{AllocError, Global};

/// The word for what a limit is on.
fn limit_word(kind: LimitKind) -> &'static [u8]
    ensures { result.now ≡ library_limit_word kind }
{
    match kind {
        LimitKind::Name => b"name".as_slice(),
        LimitKind::Depth => b"depth".as_slice(),
        LimitKind::Pins => b"pins".as_slice(),
        LimitKind::Gates => b"gates".as_slice(),
    }
}

/// Appends the text of a fault of a library file. On an error the output stays as it was.
#[tactic(auto, unfolding(crate::specs::Texts::library_text), using(std::proofs::lemmas::Grind::common_steps))]
pub fn put_library_fault(
    out: &mut Vec<u8>,
    alloc: Global,
    fault: &LibFault,
) -> Result<(), AllocError>
    ensures ok { OnOk result (out.new.items ≡ out.old.items ++ library_text fault.now) }
    ensures err { OnErr result (out.new.items ≡ out.old.items) }
{
    match fault {
        LibFault::BadEntry(line) => put_line(out, alloc, *line, b"bad entry"),
        LibFault::BadNumber(line) => put_line(out, alloc, *line, b"bad number"),
        LibFault::BadExpr(line) => put_line(out, alloc, *line, b"bad expression"),
        LibFault::Limit(kind, reached) => put_limit(out, alloc, limit_word(*kind), *reached),
        LibFault::BadPin(name) => put_two(out, b"bad pin ", name.as_slice()),
        LibFault::GateTwice(name) => put_three(out, b"gate ", name.as_slice(), b" twice"),
    }
}
