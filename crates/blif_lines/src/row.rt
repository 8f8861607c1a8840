//! The rows of tables, by their characters: one for each input, then the output's, which all rows
//! of a table share.

ghost use Rattle.std.specs.Prelude.{◌≡◌, ◌<◌, ◌++◌, ◌∷◌, [], true, length, IfOk};
ghost use Rattle.std.specs.List.{list_all};
ghost use Rattle.blif_lines.specs.Lines.{is_output_character, is_row_of, has_mark};

use circuit_model::{Row, Rows};
use line_words::are_characters;
use std::alloc::AllocError;

/// Whether all bytes are output characters.
fn are_output_characters(bytes: &[u8]) -> bool
    ensures { result ≡ list_all is_output_character bytes.now }
{
    bytes.iter().all(|byte| *byte == b'0' || *byte == b'1')
}

/// Whether bytes are a row of a table of this width: a character for each input, then the output's.
#[tactic(auto, unfolding(crate::specs::Lines::is_row_of))]
pub fn is_row(width: usize, bytes: &[u8]) -> bool
    ensures value { result ≡ is_row_of width bytes.now }
    ensures room { result ≡ true → width < length bytes.now }
{
    if bytes.is_empty() || bytes.len() - 1 != width {
        return false;
    }
    are_characters(&bytes[..width]) && are_output_characters(&bytes[width..])
}

/// Whether a byte is the output character of a table, if it has one.
pub fn has_mark(mark: Option<u8>, byte: u8) -> bool
    ensures { result ≡ has_mark mark byte }
{
    match mark {
        None => true,
        Some(mark) => byte == mark,
    }
}

/// Rows with one more.
pub fn appended(rows: Rows, row: Row) -> Result<Rows, AllocError>
    ensures { IfOk result (λ more. more ≡ rows ++ row ∷ []) }
{
    let mut rows = rows;
    rows.push(row)?;
    Ok(rows)
}
