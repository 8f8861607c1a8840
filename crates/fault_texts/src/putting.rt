//! Texts appended to one another, and the texts of a line's fault and of a limit. A call that runs
//! out of memory leaves the output as it was.

ghost use Rattle.std.specs.Prelude.{◌≡◌, ◌++◌, take, OnOk, OnErr};
ghost use Rattle.fault_texts.specs.Texts.{limit_text, line_text};

use std::alloc::{AllocError, Global};

/// The answer of an append; if that is an error, the output is cut back to its first `len` bytes.
pub fn cut_on_error(
    out: &mut Vec<u8>,
    len: usize,
    put: Result<(), AllocError>,
) -> Result<(), AllocError>
    ensures same { result ≡ put }
    ensures ok { OnOk result (out.new.items ≡ out.old.items) }
    ensures err { OnErr result (out.new.items ≡ take len out.old.items) }
{
    if put.is_err() {
        out.truncate(len);
    }
    put
}

/// Appends two texts. On an error the output stays as it was.
#[tactic(auto, using(std::proofs::lemmas::Grind::common_steps))]
pub fn put_two(out: &mut Vec<u8>, first: &[u8], second: &[u8]) -> Result<(), AllocError>
    ensures ok { OnOk result (out.new.items ≡ out.old.items ++ (first.now ++ second.now)) }
    ensures err { OnErr result (out.new.items ≡ out.old.items) }
{
    let len = out.len();
    out.extend_from_slice(first)?;
    let put = out.extend_from_slice(second);
    cut_on_error(out, len, put)
}

/// Appends three texts. On an error the output stays as it was.
#[tactic(auto, using(std::proofs::lemmas::Grind::common_steps))]
pub fn put_three(
    out: &mut Vec<u8>,
    first: &[u8],
    second: &[u8],
    third: &[u8],
) -> Result<(), AllocError>
    ensures ok { OnOk result (out.new.items
        ≡ out.old.items ++ (first.now ++ (second.now ++ third.now))) }
    ensures err { OnErr result (out.new.items ≡ out.old.items) }
{
    let len = out.len();
    put_two(out, first, second)?;
    let put = out.extend_from_slice(third);
    cut_on_error(out, len, put)
}

/// Appends what is wrong with a line. On an error the output stays as it was.
#[tactic(auto, unfolding(crate::specs::Texts::line_text), using(std::proofs::lemmas::Grind::common_steps))]
pub fn put_line(
    out: &mut Vec<u8>,
    alloc: Global,
    line: usize,
    what: &[u8],
) -> Result<(), AllocError>
    ensures ok { OnOk result (out.new.items ≡ out.old.items ++ line_text line what.now) }
    ensures err { OnErr result (out.new.items ≡ out.old.items) }
{
    let head = format!(in alloc; "line {line}: ")?;
    put_two(out, head.as_bytes(), what)
}

/// Appends which limit is exceeded. On an error the output stays as it was.
#[tactic(auto, unfolding(crate::specs::Texts::limit_text), using(std::proofs::lemmas::Grind::common_steps))]
pub fn put_limit(
    out: &mut Vec<u8>,
    alloc: Global,
    kind: &[u8],
    reached: usize,
) -> Result<(), AllocError>
    ensures ok { OnOk result (out.new.items ≡ out.old.items ++ limit_text kind.now reached) }
    ensures err { OnErr result (out.new.items ≡ out.old.items) }
{
    let number = format!(in alloc; " {reached}")?;
    put_three(out, b"limit ".as_slice(), kind, number.as_bytes())
}
