//! The order of tables: `order`.

ghost use Rattle.std.specs.Prelude.{◌≡◌, ◌<◌, true, Some, length, slice_get, IfOk};
ghost use Rattle.circuit_model.specs.Names.{all_different};
ghost use Rattle.circuit_model.specs.Soundness.{outputs_of};
ghost use Rattle.circuit_model.specs.declared.circuit.Table.{Table};
ghost use Rattle.circuit_order.specs.Order.{order_of};

use crate::counts::{done_places, pop_least, settle};
use crate::index::{index_of, placed_inputs, readers_of};
use circuit_model::{Name, Names, Table};
use sis_base::{Copied, Sequence};
use std::alloc::{AllocError, Global};

/// The output of the table at an index.
fn output_at(alloc: Global, tables: &[Table], place: usize) -> Result<Name, AllocError>
    requires { place < length tables.now }
    ensures { IfOk result (λ name. (table : Table) → slice_get tables.now place ≡ Some table
        → name ≡ table.output) }
{
    tables[place].output.copy(alloc)
}

/// The outputs of tables in topological order. No two tables may have the same output.
pub fn order(alloc: Global, tables: &[Table]) -> Result<Names, AllocError>
    requires { all_different (outputs_of tables.now) ≡ true }
    ensures { IfOk result (λ names. names ≡ order_of tables.now) }
{
    let index = index_of(alloc, tables)?;
    let mut waiting = placed_inputs(alloc, &index, tables)?;
    let readers = readers_of(alloc, &index, tables)?;
    let mut ready = done_places(alloc, waiting.as_slice())?;
    let mut listed = Sequence::new(alloc);
    while let Some(place) = pop_least(&mut ready) {
        listed.push(output_at(alloc, tables, place)?)?;
        settle(&mut ready, &mut waiting, readers[place].as_slice())?;
    }
    Ok(listed)
}
