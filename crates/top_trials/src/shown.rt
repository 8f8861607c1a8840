//! Texts as an answer shows them: each line after a mark, a byte that is not printable as `\x` and
//! two hexadecimal digits, and a `\` after a last line without a line end.

use std::alloc::AllocError;
use trial_cases::put_line;

/// The digits of hexadecimal numbers.
const DIGITS: [u8; 16] = *b"0123456789abcdef";

/// Appends a byte of a line as a case writes it, or as a hexadecimal number after `\x`.
fn put_byte(told: &mut Vec<u8>, byte: u8) -> Result<(), AllocError> {
    let high = DIGITS[(byte / 16) as usize];
    let low = DIGITS[(byte % 16) as usize];
    match byte {
        b'\\' => told.extend_from_slice(b"\\\\"),
        b'\t' => told.extend_from_slice(b"\\t"),
        b'\r' => told.extend_from_slice(b"\\r"),
        b' '..=b'~' => told.extend_from_slice(&[byte]),
        _ => told.extend_from_slice(&[b'\\', b'x', high, low]),
    }
}

/// Appends the lines of a text, each after a mark; a `\` follows a last line without a line end.
pub fn put_text(told: &mut Vec<u8>, mark: &str, text: &[u8]) -> Result<(), AllocError> {
    let mut begins = true;
    for byte in text {
        if begins {
            told.extend_from_slice(mark.as_bytes())?;
        }
        begins = *byte == b'\n';
        if begins {
            put_line(told, b"")?;
        } else {
            put_byte(told, *byte)?;
        }
    }
    if begins {
        Ok(())
    } else {
        put_line(told, b"\\")
    }
}

/// Appends the lines of a file; one without bytes as a `\`, and a missing one as `none`.
pub fn put_file(told: &mut Vec<u8>, mark: &str, file: Option<&[u8]>) -> Result<(), AllocError> {
    let text = file.unwrap_or(b"none\n");
    if text.is_empty() {
        told.extend_from_slice(mark.as_bytes())?;
        return put_line(told, b"\\");
    }
    put_text(told, mark, text)
}
