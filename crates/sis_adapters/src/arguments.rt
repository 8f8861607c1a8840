//! The arguments of the program as the words of a command line.

ghost use Rattle.std.specs.Prelude.{◌≡◌, IfOk, drop, map, string_bytes};
ghost use Rattle.std.specs.Vec.Iter.{into_iter_items};

use sis_text::Word;
use std::alloc::{AllocError, Global};
use std::vec::IntoIter;

/// The words of the arguments that an iterator still has, unchanged and in order.
pub fn words_of(alloc: Global, arguments: IntoIter<String>) -> Result<Vec<Word>, AllocError>
    ensures { IfOk result (λ words. words.items ≡ map string_bytes (into_iter_items arguments)) }
{
    let mut words = Vec::new(alloc);
    for argument in arguments {
        words.push(Word::new(alloc, argument.as_str())?)?;
    }
    Ok(words)
}

/// The words after the first one, which is the name of the program; none if there is no first.
pub fn behind_name(words: &[Word]) -> &[Word]
    ensures { result.now ≡ drop 1 words.now }
{
    match words.split_first() {
        Some((_, rest)) => rest,
        None => words,
    }
}
