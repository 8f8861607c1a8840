//! The tokens of an expression, and its pins.
//!
//! Source: the genlib format of SIS (UCB/ERL M92/41). A word is a mark, one of the constants
//! `CONST0` and `CONST1`, or a name; a name becomes the index of its pin, and the pins are the
//! names, each once, in order of first mention (`specs/Text.antt`). `depth_of` is the greatest
//! number of parentheses that are open at once.

ghost use Rattle.std.specs.Prelude.{◌≡◌, ◌<◌, ◌^◌, ◌≤◌, ◌+◌, ◌∷◌, [], max, IfOk, OnOk};
ghost use Rattle.std.specs.List.{filter};
ghost use Rattle.circuit_tables.specs.Listing.{names_with};
ghost use Rattle.genlib_expr.specs.Text.{mark_token, constant_token, fixed_token, is_name, pins_in, token_of, tokens_in, level_behind, depth_from};
ghost use Rattle.genlib_expr.specs.Texts.{texts};

use crate::token::Token;
use crate::words::is_mark;
use circuit_model::Name;
use indexmap::IndexSet;
use std::alloc::{AllocError, Global};

/// Tokens, and the pins whose indices are the names in them.
#[derive(Drop)]
pub(crate) struct Tokens {
    pub tokens: Vec<Token>,
    pub pins: IndexSet<Name>,
}

/// The token of a mark.
#[tactic(auto, unfolding(crate::specs::Text::mark_token))]
fn mark_token(byte: u8) -> Option<Token>
    ensures { result ≡ mark_token byte }
{
    if byte == b'!' {
        Some(Token::Bang)
    } else if byte == b'\'' {
        Some(Token::Quote)
    } else if byte == b'*' {
        Some(Token::Star)
    } else if byte == b'+' {
        Some(Token::Plus)
    } else if byte == b'(' {
        Some(Token::Open)
    } else if byte == b')' {
        Some(Token::Close)
    } else if is_mark(byte) {
        Some(Token::Other)
    } else {
        None
    }
}

/// The token of a constant.
#[tactic(auto, unfolding(crate::specs::Text::constant_token))]
fn constant_token(word: &[u8]) -> Option<Token>
    ensures { result ≡ constant_token word.now }
{
    if word == b"CONST0".as_slice() {
        Some(Token::Constant(false))
    } else if word == b"CONST1".as_slice() {
        Some(Token::Constant(true))
    } else {
        None
    }
}

/// The token of a word that is not a name.
#[tactic(auto, unfolding(crate::specs::Text::fixed_token))]
fn fixed_token(word: &[u8]) -> Option<Token>
    ensures { result ≡ fixed_token word.now }
{
    match word {
        [byte] => mark_token(*byte),
        _ => constant_token(word),
    }
}

/// The name of a word.
fn name_of(alloc: Global, word: &[u8]) -> Result<Name, AllocError>
    ensures { IfOk result (λ name. name ≡ word.now) }
{
    Name::from_slice(alloc, word)
}

/// The token of a word; a new name is added to the pins.
#[tactic(auto, unfolding(crate::specs::Text::token_of, circuit_tables::specs::Listing::names_with))]
fn token_of(alloc: Global, pins: &mut IndexSet<Name>, word: &[u8]) -> Result<Token, AllocError>
    ensures token { IfOk result (λ token. token ≡ token_of pins.old.keys word.now) }
    ensures pins { OnOk result (pins.new.keys ≡ names_with pins.old.keys
        (filter is_name (word.now ∷ []))) }
{
    if let Some(token) = fixed_token(word) {
        return Ok(token);
    }
    let (place, _) = pins.insert_full(name_of(alloc, word)?)?;
    Ok(Token::Name(place))
}

/// The tokens of words, and the pins.
#[tactic(auto, using(crate::proofs::Placing::tokens_done))]
pub(crate) fn tokens_of(alloc: Global, words: &[&[u8]]) -> Result<Tokens, AllocError>
    ensures tokens { IfOk result (λ made. made.tokens.items ≡ tokens_in (texts words.now)) }
    ensures pins { IfOk result (λ made. made.pins.keys ≡ pins_in (texts words.now)) }
{
    let mut pins = IndexSet::new(alloc);
    let mut tokens = Vec::with_capacity(alloc, words.len())?;
    for word in words {
        tokens.push(token_of(alloc, &mut pins, word)?)?;
    }
    Ok(Tokens { tokens, pins })
}

/// How many parentheses are open after a token.
fn level_behind(level: usize, token: Token) -> usize
    requires { level + 1 < 2 ^ 64 }
    ensures value { result ≡ level_behind level token }
    ensures grows { result ≤ level + 1 }
{
    match token {
        Token::Open => level + 1,
        Token::Close => level.saturating_sub(1),
        _ => level,
    }
}

/// The larger of two numbers.
fn larger(first: usize, second: usize) -> usize
    ensures { result ≡ max first second }
{
    if first < second { second } else { first }
}

/// The greatest number of parentheses that are open at once.

pub(crate) fn depth_of(tokens: &[Token]) -> usize
    ensures { result ≡ depth_from 0 tokens.now }
{
    let mut level = 0;
    let mut deepest = 0;
    for token in tokens {
        level = level_behind(level, *token);
        deepest = larger(deepest, level);
    }
    deepest
}
