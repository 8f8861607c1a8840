//! Appends words, cube characters and line ends to a text, as a writer does.
//!
//! Source: the BLIF appendix of the SIS report (UCB/ERL M92/41), as `specs/Written.antt` of the
//! base crate states it. A word has one blank before it; a line ends with byte 10, after one more
//! blank if its last byte is `\`. If memory runs out, the text stays as it was.

ghost use Rattle.std.specs.Prelude.{◌≡◌, ◌≤◌, ◌++◌, ◌∷◌, [], map, drop, length, OnOk, OnErr};
ghost use Rattle.sis_base.specs.Written.{line_end, spaced};
ghost use Rattle.circuit_model.specs.Text.{character};

use circuit_model::Tri;
use sis_text::ends_open;
use std::alloc::AllocError;

/// How a line ends: by byte 10, after a blank where the last byte would join the next line.
#[tactic(auto, unfolding(sis_base::specs::Written::line_end))]
fn line_end(line: &[u8]) -> &'static [u8]
    ensures { result.now ≡ line_end line.now }
{
    if ends_open(line) {
        b" \n".as_slice()
    } else {
        b"\n".as_slice()
    }
}

/// Ends the line that begins at `start`: by byte 10, after a blank if the line's last byte would
/// join the next line. On an error the text stays as it was.
pub fn end_line(out: &mut Vec<u8>, start: usize) -> Result<(), AllocError>
    requires { start ≤ length out.old.items }
    ensures ok { OnOk result (out.new.items
        ≡ out.old.items ++ line_end (drop start out.old.items)) }
    ensures err { OnErr result (out.new.items ≡ out.old.items) }
{
    let end = line_end(&out[start..]);
    out.extend_from_slice(end)
}

/// Appends a word with a blank before it. On an error the text stays as it was.
pub fn put_word(out: &mut Vec<u8>, word: &[u8]) -> Result<(), AllocError>
    ensures ok { OnOk result (out.new.items ≡ out.old.items ++ spaced word.now) }
    ensures err { OnErr result (out.new.items ≡ out.old.items) }
{
    let len = out.len();
    out.push(b' ')?;
    match out.extend_from_slice(word) {
        Ok(()) => Ok(()),
        Err(fault) => {
            out.truncate(len);
            Err(fault)
        }
    }
}

/// The byte of a cube character.
fn character(place: Tri) -> u8
    ensures { result ≡ character place }
{
    match place {
        Tri::Zero => b'0',
        Tri::One => b'1',
        Tri::Free => b'-',
    }
}

/// Appends a cube character. On an error the text stays as it was.
fn put_character(out: &mut Vec<u8>, place: Tri) -> Result<(), AllocError>
    ensures ok { OnOk result (out.new.items ≡ out.old.items ++ character place ∷ []) }
    ensures err { OnErr result (out.new.items ≡ out.old.items) }
{
    out.push(character(place))?;
    Ok(())
}

/// Appends the cube characters of a row. On an error the text stays as it was.
#[tactic(auto, using(std::proofs::lemmas::Grind::common_steps))]
pub fn put_characters(out: &mut Vec<u8>, row: &[Tri]) -> Result<(), AllocError>
    ensures ok { OnOk result (out.new.items ≡ out.old.items ++ map character row.now) }
    ensures err { OnErr result (out.new.items ≡ out.old.items) }
{
    let len = out.len();
    for place in row {
        if let Err(fault) = put_character(out, *place) {
            out.truncate(len);
            return Err(fault);
        }
    }
    Ok(())
}
