//! The two parts of a circuit: its tables, and those of its don't-care part.

ghost use Rattle.std.specs.Prelude.{◌≡◌};
ghost use Rattle.net_func.specs.Parts.{part_tables};

use circuit_model::{Circuit, Table};

/// A part of a circuit.
#[derive(Clone, Copy)]
pub(crate) enum Part {
    /// Its tables.
    Tables,
    /// The tables of its don't-care part.
    DontCare,
}

/// The tables of a part.
pub(crate) fn tables_of(circuit: &Circuit, part: Part) -> &[Table]
    ensures { result.now ≡ part_tables part circuit.now }
{
    match part {
        Part::Tables => circuit.tables.as_slice(),
        Part::DontCare => circuit.dont_care.as_slice(),
    }
}
