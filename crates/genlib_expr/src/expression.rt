//! The expression that tokens or a text spell: the public calls of this crate for reading.
//!
//! Source: the genlib format of SIS (UCB/ERL M92/41). `parse` and `read` return the one formula
//! that the grammar of `specs/Grammar.antt` allows, and answer `Bad` exactly if there is none.
//! `read` also returns the pins, in order of first mention, and the depth of the parentheses; it
//! limits neither.

ghost use Rattle.std.specs.Prelude.{◌≡◌, Err, IfOk};
ghost use Rattle.genlib_expr.specs.Formula.{Formula, formula_of};
ghost use Rattle.genlib_expr.specs.Grammar.{Spells};
ghost use Rattle.genlib_expr.specs.Text.{pins_of, tokens_of, depth_of};
ghost use Rattle.genlib_expr.specs.declared.expression.ExprFault.TheVariants.{Memory};

use crate::node::Expr;
use crate::reading::nodes_of;
use crate::token::Token;
use crate::tokens::{Tokens, depth_of as depth_in, tokens_of};
use crate::words::words_of;
use circuit_model::{Names, names_copied};
use std::alloc::{AllocError, Global};

/// Why no expression was read: the tokens spell none, or memory ran out.
#[derive(Clone, Copy, Debug, PartialEq, Eq, Drop)]
pub enum ExprFault {
    Bad,
    Memory,
}

impl From<AllocError> for ExprFault {
    ghost from_gives = { λ _ fault. fault ≡ Memory };

    fn from(_error: AllocError) -> ExprFault {
        ExprFault::Memory
    }
}

/// The one expression that the tokens spell; `Bad` exactly if they spell none.
#[tactic(auto, using(crate::proofs::Spelling::read_is_postfix, crate::proofs::Spelling::read_is_spelled, crate::proofs::Spelling::read_is_alone, crate::proofs::Spelling::none_is_spelled))]
pub fn parse(alloc: Global, tokens: &[Token]) -> Result<Expr, ExprFault>
    ensures spelled { IfOk result (λ expr. Spells tokens.now (formula_of expr)) }
    ensures alone { IfOk result (λ expr. (other : Formula) → Spells tokens.now other → other
        ≡ formula_of expr) }
    ensures bad { result ≡ Err ExprFault.Bad → (other : Formula) → Spells tokens.now other → ⊥ }
{
    match nodes_of(alloc, tokens)? {
        Some(nodes) => Ok(Expr::from_nodes(nodes)),
        None => Err(ExprFault::Bad),
    }
}

/// The expression of a text. Pins are indices into the names of the text, each once, in order of
/// first mention; `depth` is the greatest nesting of parentheses.
#[derive(Debug, Drop)]
pub struct Parsed {
    pub expr: Expr,
    pub pins: Names,
    pub depth: usize,
}

/// The tokens of a text, and its pins.
fn tokens_in(alloc: Global, text: &[u8]) -> Result<Tokens, AllocError>
    ensures tokens { IfOk result (λ made. made.tokens.items ≡ tokens_of text.now) }
    ensures pins { IfOk result (λ made. made.pins.keys ≡ pins_of text.now) }
{
    let words = words_of(alloc, text)?;
    tokens_of(alloc, words.as_slice())
}

/// The one expression that a text spells, with its pins and its depth; `Bad` exactly if it spells
/// none. Depth and number of pins are not limited.
pub fn read(alloc: Global, text: &[u8]) -> Result<Parsed, ExprFault>
    ensures spelled { IfOk result (λ parsed. Spells (tokens_of text.now) (formula_of parsed.expr)) }
    ensures alone { IfOk result (λ parsed. (other : Formula) → Spells (tokens_of text.now) other
        → other ≡ formula_of parsed.expr) }
    ensures pins { IfOk result (λ parsed. parsed.pins ≡ pins_of text.now) }
    ensures depth { IfOk result (λ parsed. parsed.depth ≡ depth_of text.now) }
    ensures bad { result ≡ Err ExprFault.Bad → (other : Formula) → Spells (tokens_of text.now) other
        → ⊥ }
{
    let Tokens { tokens, pins } = tokens_in(alloc, text)?;
    let expr = parse(alloc, tokens.as_slice())?;
    let pins = names_copied(alloc, pins.as_slice())?;
    let depth = depth_in(tokens.as_slice());
    Ok(Parsed { expr, pins, depth })
}
