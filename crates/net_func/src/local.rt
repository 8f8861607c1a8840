//! Tables read literal by literal: the trait `Local`.
//!
//! `table_function` needs no more of a table than this trait gives: inputs, rows of literals, and
//! phase. It is implemented here for the tables of `circuit_model`, whose rows are characters.

ghost use Rattle.std.specs.Prelude.{◌≡◌, ◌<◌, None, [], length, map, slice_index_or};
ghost use Rattle.circuit_model.specs.Values.{literal_of};
ghost use Rattle.net_func.specs.Locals.{LocalFunction};

use circuit_model::{Name, Table, Tri};

/// A table that is read literal by literal.
pub trait Local {
    ghost local: { Self → LocalFunction };

    /// The inputs, in order.
    fn inputs(&self) -> &[Name]
        ensures { result.now ≡ (local self.now).inputs };

    /// The number of rows.
    fn row_count(&self) -> usize
        ensures { result ≡ length (local self.now).rows };

    /// The literal of a row in a column, both counted from 0: its bit, or `None` for a dash.
    fn literal(&self, row: usize, place: usize) -> Option<bool>
        requires row { row < length (local self.now).rows }
        requires place { place < length (slice_index_or (local self.now).rows row []) }
        ensures { result
            ≡ slice_index_or (slice_index_or (local self.now).rows row []) place None };

    /// The value of the table if some row matches.
    fn phase(&self) -> bool
        ensures { result ≡ (local self.now).phase };
}

/// The literal of a character.
fn literal_from(character: Tri) -> Option<bool>
    ensures { result ≡ literal_of character }
{
    match character {
        Tri::Zero => Some(false),
        Tri::One => Some(true),
        Tri::Free => None,
    }
}

/// The literal in a column of a row of characters.
#[tactic(auto, using(crate::proofs::RowParts::read_literal))]
fn literal_at(characters: &[Tri], place: usize) -> Option<bool>
    requires { place < length characters.now }
    ensures { result ≡ slice_index_or (map literal_of characters.now) place None }
{
    literal_from(characters[place])
}

impl Local for Table {
    ghost use Rattle.net_func.specs.Locals.{local_of};

    ghost local = { local_of };

    fn inputs(&self) -> &[Name] {
        self.inputs.as_slice()
    }

    fn row_count(&self) -> usize {
        self.rows.len()
    }

    fn literal(&self, row: usize, place: usize) -> Option<bool> {
        literal_at(self.rows.as_slice()[row].as_slice(), place)
    }

    fn phase(&self) -> bool {
        self.phase
    }
}
