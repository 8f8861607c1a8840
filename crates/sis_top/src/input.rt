//! Takes the script off the input.
//!
//! A take may return fewer bytes than were asked for, so the input is asked until it returns none.
//! At most one byte past the longest script is taken. That byte shows that the script is too long,
//! and so an input without an end is refused.

ghost use Rattle.std.specs.Prelude.{◌≤◌, IfOk, length};
ghost use Rattle.sis_outside.specs.Calls.{Follows};
ghost use Rattle.sis_session.specs.Plan.{MAX_BYTES as longest};
ghost use Rattle.sis_top.specs.Code.{HasTaken};

use sis_outside::{Source, TakeFault};
use sis_session::MAX_BYTES;
use std::alloc::Global;

/// Why the input gives no script.
#[derive(Clone, Copy, Debug, PartialEq, Eq)]
pub enum Unread {
    /// It is longer than the limit.
    TooLong,
    /// A take failed.
    Failed,
    /// Memory ran out.
    Memory,
}

/// Takes the rest of the input, but no more than one byte past the longest script.
pub fn take_script<I: Source>(alloc: Global, input: &mut I) -> Result<Vec<u8>, Unread>
    ensures taken { HasTaken (Follows I.calls input.old input.new) result }
    ensures within { IfOk result (λ text. length text.items ≤ longest) }
{
    let mut text = Vec::new(alloc);
    'pieces: while text.len() <= MAX_BYTES {
        match input.take(alloc, MAX_BYTES + 1 - text.len()) {
            Ok(piece) => {
                if piece.is_empty() {
                    return Ok(text);
                }
                if text.extend_from_slice(piece.as_slice()).is_err() {
                    return Err(Unread::Memory);
                }
            }
            Err(TakeFault::Failed) => return Err(Unread::Failed),
            Err(TakeFault::Memory) => return Err(Unread::Memory),
        }
    }
    Err(Unread::TooLong)
}
