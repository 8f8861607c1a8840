//! Laws of reading and writing machines, each the contract of a call that does nothing.

ghost use Rattle.std.specs.Prelude.{◌≡◌, ℕ, List, Ok};
ghost use Rattle.sis_text.specs.Entries.{Entry, entries_of};
ghost use Rattle.circuit_model.specs.declared.machine.Machine.{Machine};
ghost use Rattle.circuit_model.specs.MachineSoundness.{IsSoundMachine};
ghost use Rattle.circuit_model.specs.MachineText.{machine_text_of};
ghost use Rattle.kiss_format.specs.Reader.{read_machine_lines};
ghost use Rattle.kiss_format.specs.Trips.{IsWithinLimits, plainly_named};

/// The text of a sound machine within the limits on rows, states and names is read as that machine,
/// with made names for itself and its ports, which a table cannot say.
pub fn written_text_is_read()
    ensures { (machine : Machine) → IsSoundMachine machine → IsWithinLimits machine
        → read_machine_lines (entries_of (machine_text_of machine)) ≡ Ok (plainly_named machine) }
{}

/// The text of a machine that was read from a table is read as that machine.
pub fn read_machine_is_read_again()
    ensures { (source : List ℕ) (machine : Machine) → read_machine_lines (entries_of source) ≡ Ok machine
        → read_machine_lines (entries_of (machine_text_of machine)) ≡ Ok machine }
{}

/// A machine that is read from lines is within the limits on rows, states and names.
pub fn read_machine_is_small()
    ensures { (lines : List Entry) (machine : Machine) → read_machine_lines lines ≡ Ok machine
        → IsWithinLimits machine }
{}
