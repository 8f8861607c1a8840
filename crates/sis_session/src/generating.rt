//! The circuit that `gen` makes.

ghost use Rattle.std.specs.Prelude.{◌≡◌, IfOk};
ghost use Rattle.sis_session.specs.Commands.{circuit_of};

use circuit_gen::generate;
use circuit_model::Circuit;
use sis_script::MOST_TABLES;
use std::alloc::{AllocError, Global};

/// The circuit of a seed and a number of tables, or of the greatest number of tables if that is
/// less.
pub fn circuit_of(alloc: Global, seed: u64, tables: u64) -> Result<Circuit, AllocError>
    ensures { IfOk result (λ circuit. circuit ≡ circuit_of seed tables) }
{
    generate(alloc, seed, tables.min(MOST_TABLES) as u16)
}
