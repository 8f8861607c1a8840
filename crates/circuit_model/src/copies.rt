//! Exact copies of circuits and of their parts. Each copy equals its source (`Copied`).

ghost use Rattle.std.specs.Prelude.{◌≡◌, IfOk};

use crate::circuit::{Circuit, Latch, Table, Timing, Tri};
use sis_base::{Copied, Name};
use std::alloc::{AllocError, Global};

impl Copied for Tri {
    fn copy(&self, _alloc: Global) -> Result<Tri, AllocError> {
        Ok(*self)
    }
}

impl Copied for Table {
    fn copy(&self, alloc: Global) -> Result<Table, AllocError> {
        Ok(Table {
            inputs: self.inputs.copy(alloc)?,
            output: self.output.copy(alloc)?,
            rows: self.rows.copy(alloc)?,
            phase: self.phase,
        })
    }
}

impl Copied for Latch {
    fn copy(&self, alloc: Global) -> Result<Latch, AllocError> {
        Ok(Latch {
            input: self.input.copy(alloc)?,
            output: self.output.copy(alloc)?,
            init: self.init,
        })
    }
}

// A copy of a control, if there is one.
fn control_copied(alloc: Global, control: &Option<Name>) -> Result<Option<Name>, AllocError>
    ensures { IfOk result (λ made. made ≡ control.now) }
{
    match control {
        None => Ok(None),
        Some(name) => Ok(Some(name.copy(alloc)?)),
    }
}

impl Copied for Timing {
    fn copy(&self, alloc: Global) -> Result<Timing, AllocError> {
        Ok(Timing {
            kind: self.kind,
            control: control_copied(alloc, &self.control)?,
        })
    }
}

/// A copy of a timing, if there is one.
pub fn timing_copied(alloc: Global, timing: &Option<Timing>) -> Result<Option<Timing>, AllocError>
    ensures { IfOk result (λ made. made ≡ timing.now) }
{
    match timing {
        None => Ok(None),
        Some(timing) => Ok(Some(timing.copy(alloc)?)),
    }
}

impl Copied for Circuit {
    fn copy(&self, alloc: Global) -> Result<Circuit, AllocError> {
        Ok(Circuit {
            name: self.name.copy(alloc)?,
            inputs: self.inputs.copy(alloc)?,
            outputs: self.outputs.copy(alloc)?,
            clocks: self.clocks.copy(alloc)?,
            timing: timing_copied(alloc, &self.timing)?,
            latches: self.latches.copy(alloc)?,
            tables: self.tables.copy(alloc)?,
            dont_care: self.dont_care.copy(alloc)?,
        })
    }
}
