//! What a model's lines are read as.

use circuit_model::{Circuit, Name, Names};

/// What a model says of a machine outside its KISS2 part: its name, and its ports if lines list
/// them.
#[derive(Debug, Drop, PartialEq)]
pub struct Head {
    pub name: Name,
    pub inputs: Option<Names>,
    pub outputs: Option<Names>,
}

/// What a model's lines describe: a circuit, or the head of a machine.
#[derive(Debug, Drop, PartialEq)]
pub enum Content {
    Circuit(Circuit),
    Head(Head),
}
