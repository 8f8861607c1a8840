//! What is known of the models of a file by their indices: the ports and the size of each.

ghost use Rattle.std.specs.Prelude.{◌≡◌, ◌+◌, map, option_copied, IfOk};
ghost use Rattle.blif_models.specs.Models.{model_graph};
ghost use Rattle.blif_models.specs.PortTables.{table_at};
ghost use Rattle.blif_models.specs.Sizes.{sizes_at};
ghost use Rattle.blif_models.specs.Tables.{AreTables};
ghost use Rattle.blif_models.specs.declared.limits.TheConstants.{MAX_DEPTH};
ghost use Rattle.blif_models.specs.declared.ports.Ports.{Ports};

use crate::file::File;
use crate::ports::{Ports, port_table};
use crate::sizes::sizes;
use genlib_format::Library;
use sis_base::Sequence;
use std::alloc::{AllocError, Global};

/// The ports and the sizes of models by their indices.
#[derive(Drop)]
pub struct ModelTables<'a> {
    pub ports: Vec<Ports<'a>>,
    pub sizes: Vec<usize>,
}

/// The ports and the sizes of the models of a file, by their graph.
pub fn model_tables<'a>(
    alloc: Global,
    library: Option<&Library>,
    file: &File<'a>,
    graph: &[Sequence<usize>],
) -> Result<ModelTables<'a>, AllocError>
    requires { graph.now ≡ model_graph file.now.models }
    ensures ports { IfOk result (λ tables. tables.ports.items
        ≡ table_at (option_copied library.entry) file.now.models (MAX_DEPTH + 1)) }
    ensures sizes { IfOk result (λ tables. tables.sizes.items
        ≡ sizes_at file.now.models (MAX_DEPTH + 1)) }
    ensures right { IfOk result (λ tables. AreTables (option_copied library.entry)
        file.now.models (map (λ (ports : Ports). ports.inputs) tables.ports.items)
        tables.sizes.items) }
{
    let ports = port_table(alloc, library, file)?;
    let sizes = sizes(alloc, file, graph)?;
    Ok(ModelTables { ports, sizes })
}
