//! Exact copies of machines and of specifications. Each copy equals its source (`Copied`).

ghost use Rattle.std.specs.Prelude.{◌≡◌, IfOk};

use crate::machine::{Machine, MachineRow, Spec};
use sis_base::Copied;
use std::alloc::{AllocError, Global};

impl Copied for MachineRow {
    fn copy(&self, alloc: Global) -> Result<MachineRow, AllocError> {
        Ok(MachineRow {
            input: self.input.copy(alloc)?,
            current: self.current,
            next: self.next,
            output: self.output.copy(alloc)?,
        })
    }
}

impl Copied for Machine {
    fn copy(&self, alloc: Global) -> Result<Machine, AllocError> {
        Ok(Machine {
            name: self.name.copy(alloc)?,
            inputs: self.inputs.copy(alloc)?,
            outputs: self.outputs.copy(alloc)?,
            states: self.states.copy(alloc)?,
            reset: self.reset,
            rows: self.rows.copy(alloc)?,
        })
    }
}

impl Copied for Spec {
    fn copy(&self, alloc: Global) -> Result<Spec, AllocError> {
        match self {
            Spec::Circuit(circuit) => Ok(Spec::Circuit(circuit.copy(alloc)?)),
            Spec::Machine(machine) => Ok(Spec::Machine(machine.copy(alloc)?)),
        }
    }
}
