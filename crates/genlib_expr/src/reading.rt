//! Reads an expression from the left with a stack of pending operators.
//!
//! Source: Dijkstra's shunting yard, as `specs/Machine.antt` states it for the genlib format of SIS
//! (UCB/ERL M92/41). The state is the nodes so far in postfix order, the pending operators with the
//! newest first, and whether an operand has just been read. `nodes_of` returns exactly what `run`
//! of that machine gives; proofs of this crate relate it to the grammar. There is no recursion.

ghost use Rattle.std.specs.Prelude.{◌≡◌, ◌++◌, ◌∷◌, [], Some, None, option_map, IfOk, OnOk, if◌then◌else◌};
ghost use Rattle.genlib_expr.specs.Machine.{State, waits_to_invert, waits_to_multiply, waits_to_add, waits_to_close, inverted, added, factor_ended, sum_ended, awaiting, with_operand, begin, closed, follow, step, finished, run, start};

use crate::node::Node;
use crate::token::Token;
use std::alloc::{AllocError, Global};
use std::collections::VecDeque;
use std::marker::Model;

/// A pending operator: `!` waits for its operand, a product or a sum for its right one, a
/// parenthesis for its end.
#[derive(Clone, Copy, Debug, PartialEq, Eq)]
pub enum Operator {
    Invert,
    Multiply,
    Add,
    Parenthesis,
}

/// The nodes so far, the pending operators, newest first, and whether an operand has just been
/// read.
#[derive(Drop)]
struct Reader {
    nodes: Vec<Node>,
    waiting: VecDeque<Operator>,
    ready: bool,
}

impl Model for Reader {
    ghost use Rattle.genlib_expr.specs.Machine.{State};

    ghost Value = { State };

    ghost view = { λ reader. record { nodes = reader.nodes.items; waiting = reader.waiting.items; ready = reader.ready } };
}

impl Reader {
    fn waits_to_invert(&self) -> bool
        ensures { result ≡ waits_to_invert self.now.waiting }
    {
        match self.waiting.front() {
            Some(Operator::Invert) => true,
            _ => false,
        }
    }

    fn waits_to_multiply(&self) -> bool
        ensures { result ≡ waits_to_multiply self.now.waiting }
    {
        match self.waiting.front() {
            Some(Operator::Multiply) => true,
            _ => false,
        }
    }

    fn waits_to_add(&self) -> bool
        ensures { result ≡ waits_to_add self.now.waiting }
    {
        match self.waiting.front() {
            Some(Operator::Add) => true,
            _ => false,
        }
    }

    fn waits_to_close(&self) -> bool
        ensures { result ≡ waits_to_close self.now.waiting }
    {
        match self.waiting.front() {
            Some(Operator::Parenthesis) => true,
            _ => false,
        }
    }

    /// Applies each pending `!` to the operand that has been read.
    #[tactic(auto, using(crate::proofs::Waiting::inverted_more, crate::proofs::Waiting::inverted_done, std::proofs::lemmas::Grind::common_steps))]
    fn invert(&mut self) -> Result<(), AllocError>
        ensures { OnOk result (self.new ≡ inverted self.old.nodes self.old.waiting) }
    {
        while self.waits_to_invert() {
            self.waiting.pop_front();
            self.nodes.push(Node::Not)?;
        }
        self.ready = true;
        Ok(())
    }

    /// Ends a factor.
    #[tactic(auto, using(crate::proofs::Waiting::multiplied_by, std::proofs::lemmas::Grind::common_steps))]
    fn end_factor(&mut self) -> Result<(), AllocError>
        ensures { OnOk result (self.new ≡ factor_ended self.old) }
    {
        self.ready = true;
        if self.waits_to_multiply() {
            self.waiting.pop_front();
            self.nodes.push(Node::And)?;
        }
        Ok(())
    }

    /// Ends a product.
    #[tactic(auto, using(crate::proofs::Waiting::added_by, std::proofs::lemmas::Grind::common_steps))]
    fn end_product(&mut self) -> Result<(), AllocError>
        ensures { OnOk result (self.new ≡ added self.old.nodes self.old.waiting) }
    {
        self.ready = true;
        if self.waits_to_add() {
            self.waiting.pop_front();
            self.nodes.push(Node::Or)?;
        }
        Ok(())
    }

    /// Ends a sum.
    fn end_sum(&mut self) -> Result<(), AllocError>
        ensures { OnOk result (self.new ≡ sum_ended self.old) }
    {
        self.end_factor()?;
        self.end_product()
    }

    /// Adds a pending operator.
    fn wait(&mut self, operator: Operator) -> Result<(), AllocError>
        ensures { OnOk result (self.new ≡ awaiting self.old operator) }
    {
        self.waiting.push_front(operator)?;
        self.ready = false;
        Ok(())
    }

    /// Adds an operand.
    fn put(&mut self, operand: Node) -> Result<(), AllocError>
        ensures { OnOk result (self.new ≡ with_operand self.old operand) }
    {
        self.nodes.push(operand)?;
        self.invert()
    }

    /// Reads a token where an operand is to come, and returns whether it is allowed there.
    #[tactic(auto, unfolding(crate::specs::Machine::begin))]
    fn begin(&mut self, token: Token) -> Result<bool, AllocError>
        ensures { IfOk result (λ stands. begin token self.old
            ≡ (if stands then Some self.new else None)) }
    {
        match token {
            Token::Constant(bit) => {
                self.put(Node::Constant(bit))?;
                Ok(true)
            }
            Token::Name(place) => {
                self.put(Node::Pin(place))?;
                Ok(true)
            }
            Token::Bang => {
                self.wait(Operator::Invert)?;
                Ok(true)
            }
            Token::Open => {
                self.wait(Operator::Parenthesis)?;
                Ok(true)
            }
            Token::Quote => Ok(false),
            Token::Star => Ok(false),
            Token::Plus => Ok(false),
            Token::Close => Ok(false),
            Token::Other => Ok(false),
        }
    }

    /// Closes a parenthesis, and returns whether one was open.
    #[tactic(auto, using(crate::proofs::Waiting::closed_by, std::proofs::lemmas::Grind::common_steps))]
    fn close(&mut self) -> Result<bool, AllocError>
        ensures { IfOk result (λ stands. closed self.old.nodes self.old.waiting
            ≡ (if stands then Some self.new else None)) }
    {
        if self.waits_to_close() {
            self.waiting.pop_front();
            self.invert()?;
            return Ok(true);
        }
        Ok(false)
    }

    /// Reads a token that begins a factor next to the previous one.
    fn begin_beside(&mut self, token: Token) -> Result<bool, AllocError>
        ensures { IfOk result (λ stands. begin token
            (awaiting (factor_ended self.old) Operator.Multiply)
            ≡ (if stands then Some self.new else None)) }
    {
        self.end_factor()?;
        self.wait(Operator::Multiply)?;
        self.begin(token)
    }

    /// Reads a token after an operand, and returns whether it is allowed there.
    #[tactic(auto, unfolding(crate::specs::Machine::follow))]
    fn follow(&mut self, token: Token) -> Result<bool, AllocError>
        ensures { IfOk result (λ stands. follow token self.old
            ≡ (if stands then Some self.new else None)) }
    {
        match token {
            Token::Quote => {
                self.nodes.push(Node::Not)?;
                self.ready = true;
                Ok(true)
            }
            Token::Star => {
                self.end_factor()?;
                self.wait(Operator::Multiply)?;
                Ok(true)
            }
            Token::Plus => {
                self.end_sum()?;
                self.wait(Operator::Add)?;
                Ok(true)
            }
            Token::Close => {
                self.end_sum()?;
                self.close()
            }
            Token::Constant(bit) => self.begin_beside(Token::Constant(bit)),
            Token::Name(place) => self.begin_beside(Token::Name(place)),
            Token::Bang => self.begin_beside(Token::Bang),
            Token::Open => self.begin_beside(Token::Open),
            Token::Other => Ok(false),
        }
    }

    /// Reads a token, and returns whether it is allowed there.
    #[tactic(auto, unfolding(crate::specs::Machine::step))]
    fn step(&mut self, token: Token) -> Result<bool, AllocError>
        ensures { IfOk result (λ stands. step token self.old
            ≡ (if stands then Some self.new else None)) }
    {
        if self.ready {
            self.follow(token)
        } else {
            self.begin(token)
        }
    }

    /// The nodes, if nothing is pending.
    #[tactic(auto, using(crate::proofs::Waiting::finished_by, std::proofs::lemmas::Grind::common_steps))]
    fn into_nodes(self) -> Option<Vec<Node>>
        ensures { option_map (λ made. made.items) result ≡ finished self.nodes self.waiting }
    {
        let Reader { nodes, waiting, .. } = self;
        if waiting.is_empty() {
            return Some(nodes);
        }
        None
    }

    /// The nodes at the end of the tokens; none if something is still pending.
    #[tactic(auto, unfolding(crate::specs::Machine::run))]
    fn finish(self) -> Result<Option<Vec<Node>>, AllocError>
        ensures { IfOk result (λ nodes. option_map (λ made. made.items) nodes ≡ run [] self) }
    {
        let mut reader = self;
        if !reader.ready {
            return Ok(None);
        }
        reader.end_sum()?;
        Ok(reader.into_nodes())
    }
}

/// The nodes of the formula that the tokens spell; none if they spell none.
pub(crate) fn nodes_of(alloc: Global, tokens: &[Token]) -> Result<Option<Vec<Node>>, AllocError>
    ensures { IfOk result (λ nodes. option_map (λ made. made.items) nodes ≡ run tokens.now start) }
{
    let mut reader = Reader {
        nodes: Vec::new(alloc),
        waiting: VecDeque::new(alloc),
        ready: false,
    };
    for token in tokens {
        if !reader.step(*token)? {
            return Ok(None);
        }
    }
    reader.finish()
}
