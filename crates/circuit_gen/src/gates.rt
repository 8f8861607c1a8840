//! The gates from which circuits are drawn: AND, NAND, OR and XOR of two inputs, each with the rows
//! and the phase of its table (`specs/Generated.antt`).

ghost use Rattle.std.specs.Prelude.{◌≡◌, IfOk};
ghost use Rattle.circuit_gen.specs.Generated.{gate_of, phase_of, rows_of};

use circuit_model::{Row, Rows, Tri};
use sis_base::Sequence;
use std::alloc::{AllocError, Global};

/// A gate of two inputs.
#[derive(Clone, Copy)]
pub(crate) enum Gate {
    And,
    Nand,
    Or,
    Xor,
}

/// The gate of a drawn number.
pub(crate) fn gate_of(number: usize) -> Gate
    ensures { result ≡ gate_of number }
{
    match number {
        0 => Gate::And,
        1 => Gate::Nand,
        2 => Gate::Or,
        _ => Gate::Xor,
    }
}

impl Gate {
    /// The characters of its rows.
    fn characters(self) -> &'static [[Tri; 2]]
        ensures { result.now ≡ rows_of self }
    {
        match self {
            Gate::And | Gate::Nand => &[[Tri::One, Tri::One]],
            Gate::Or => &[[Tri::One, Tri::Free], [Tri::Free, Tri::One]],
            Gate::Xor => &[[Tri::One, Tri::Zero], [Tri::Zero, Tri::One]],
        }
    }

    /// Its rows.
    pub(crate) fn rows(self, alloc: Global) -> Result<Rows, AllocError>
        ensures { IfOk result (λ rows. rows ≡ rows_of self) }
    {
        let characters = self.characters();
        let mut rows = Vec::with_capacity(alloc, characters.len())?;
        for row in characters {
            rows.push(Row::from_slice(alloc, row.as_slice())?)?;
        }
        Ok(Sequence::from_vec(rows))
    }

    /// Its phase.
    pub(crate) fn phase(self) -> bool
        ensures { result ≡ phase_of self }
    {
        match self {
            Gate::Nand => false,
            _ => true,
        }
    }
}
