//! The texts of the faults of machine tables: `kiss_text` of `specs/Texts.antt`, byte for byte. If
//! memory runs out, the output stays as it was.

ghost use Rattle.std.specs.Prelude.{◌≡◌, ◌++◌, OnOk, OnErr, codes, decimal};
ghost use Rattle.fault_texts.specs.Texts.{kiss_limit_word, kiss_text};

use crate::putting::{put_limit, put_line, put_two};
use kiss_format::{KissFault, LimitKind};
use std::alloc::{AllocError, Global};

/// The word for what a limit is on.
fn limit_word(kind: LimitKind) -> &'static [u8]
    ensures { result.now ≡ kiss_limit_word kind }
{
    match kind {
        LimitKind::Name => b"name".as_slice(),
        LimitKind::Rows => b"rows".as_slice(),
        LimitKind::States => b"states".as_slice(),
    }
}

/// Appends which rows clash. On an error the output stays as it was.
#[tactic(auto, using(std::proofs::lemmas::Grind::common_steps))]
fn put_clash(
    out: &mut Vec<u8>,
    alloc: Global,
    earlier: usize,
    later: usize,
) -> Result<(), AllocError>
    ensures ok { OnOk result (out.new.items ≡ out.old.items
        ++ (codes "rows " ++ (decimal earlier ++ (codes " and "
        ++ (decimal later ++ codes " clash"))))) }
    ensures err { OnErr result (out.new.items ≡ out.old.items) }
{
    let text = format!(in alloc; "rows {earlier} and {later} clash")?;
    out.extend_from_slice(text.as_bytes())
}

/// Appends the text of a fault of a machine's table. On an error the output stays as it was.
#[tactic(auto, unfolding(crate::specs::Texts::kiss_text), using(std::proofs::lemmas::Grind::common_steps))]
pub fn put_kiss_fault(out: &mut Vec<u8>, alloc: Global, fault: &KissFault) -> Result<(), AllocError>
    ensures ok { OnOk result (out.new.items ≡ out.old.items ++ kiss_text fault.now) }
    ensures err { OnErr result (out.new.items ≡ out.old.items) }
{
    match fault {
        KissFault::BadHeader(line) => put_line(out, alloc, *line, b"bad header"),
        KissFault::BadRow(line) => put_line(out, alloc, *line, b"bad row"),
        KissFault::RowClash(earlier, later) => put_clash(out, alloc, *earlier, *later),
        KissFault::NoReset(name) => put_two(out, b"no reset ", name.as_slice()),
        KissFault::NoRows => put_two(out, b"no rows", b""),
        KissFault::Limit(kind, reached) => put_limit(out, alloc, limit_word(*kind), *reached),
    }
}
