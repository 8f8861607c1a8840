//! The words of an expression: marks, and longest runs of other bytes between blanks, line ends and
//! marks (`specs/Text.antt`). Each word is a slice of the text.

ghost use Rattle.std.specs.Prelude.{◌≡◌, ◌≤◌, false, length, option_copied, IfOk};
ghost use Rattle.std.specs.List.{take_while};
ghost use Rattle.genlib_expr.specs.Text.{is_mark, is_name_byte, word_at, words_from};
ghost use Rattle.genlib_expr.specs.Texts.{texts};

use std::alloc::{AllocError, Global};

/// Whether a byte is a word of its own.
pub(crate) fn is_mark(byte: u8) -> bool
    ensures { result ≡ is_mark byte }
{
    byte == b'!'
        || byte == b'#'
        || byte == b'\''
        || byte == b'('
        || byte == b')'
        || byte == b'*'
        || byte == b'+'
        || byte == b';'
        || byte == b'='
}

/// Whether a byte may occur in names.
pub fn is_name_byte(byte: u8) -> bool
    ensures { result ≡ is_name_byte byte }
{
    !(byte == b'\t' || byte == b'\r' || byte == b' ' || byte == b'\n' || is_mark(byte))
}

/// The number of bytes of the name at the front.
fn name_len(text: &[u8]) -> usize
    ensures value { result ≡ length (take_while is_name_byte text.now) }
    ensures within { result ≤ length text.now }
{
    text.iter().take_while(|byte| is_name_byte(**byte)).count()
}

/// The name at the front.
#[tactic(auto, using(crate::proofs::WordSteps::front_taken, std::proofs::lemmas::Grind::common_steps))]
fn name_at(text: &[u8]) -> &[u8]
    ensures { result.now ≡ take_while is_name_byte text.now }
{
    &text[..name_len(text)]
}

/// The word that begins with the first byte, if one does.
#[tactic(auto, unfolding(crate::specs::Text::word_at))]
fn word_at(inside: bool, text: &[u8]) -> Option<&[u8]>
    ensures { option_copied result ≡ word_at inside text.now }
{
    match text {
        [] => None,
        [byte, ..] => {
            if is_mark(*byte) {
                Some(&text[..1])
            } else if is_name_byte(*byte) && !inside {
                Some(name_at(text))
            } else {
                None
            }
        }
    }
}

/// The words of an expression, in order.
#[tactic(auto, using(crate::proofs::WordSteps::words_more, crate::proofs::WordSteps::words_done, std::proofs::lemmas::Grind::common_steps))]
pub(crate) fn words_of<'a>(alloc: Global, text: &'a [u8]) -> Result<Vec<&'a [u8]>, AllocError>
    ensures { IfOk result (λ words. texts words.items ≡ words_from false text.now) }
{
    let mut words = Vec::new(alloc);
    let mut inside = false;
    for i in 0..text.len() {
        if let Some(word) = word_at(inside, &text[i..]) {
            words.push(word)?;
        }
        inside = is_name_byte(text[i]);
    }
    Ok(words)
}
