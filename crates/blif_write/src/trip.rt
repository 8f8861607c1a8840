//! Laws of reading and writing circuits and netlists, each the contract of a call that does
//! nothing.

ghost use Rattle.std.specs.Prelude.{◌≡◌, ℕ, List, Option, Some, Ok};
ghost use Rattle.sis_text.specs.Entries.{entries_of};
ghost use Rattle.circuit_model.specs.declared.circuit.Circuit.{Circuit as TheCircuit};
ghost use Rattle.circuit_model.specs.Soundness.{IsSound};
ghost use Rattle.circuit_model.specs.Counts.{IsWithinLimits};
ghost use Rattle.circuit_model.specs.Text.{text_of};
ghost use Rattle.blif_lines.specs.Limits.{HasShortNames};
ghost use Rattle.genlib_format.specs.declared.gate.Gate.{Gate};
ghost use Rattle.circuit_model.specs.declared.machine.Spec.TheVariants as spec;
ghost use Rattle.genlib_format.specs.Soundness.{IsSoundGates};
ghost use Rattle.netlist.specs.Netlists.{circuit_of, IsSoundNetlist};
ghost use Rattle.netlist.specs.Lines.{netlist_text_of};
ghost use Rattle.netlist.specs.declared.mapped.Mapped.{Mapped};
ghost use Rattle.blif_lines.specs.Libraries.{IsSoundLibrary};
ghost use Rattle.blif_read.specs.Reader.{read_lines};

/// The text of a circuit is read as that circuit, with or without a library, if the circuit is
/// sound and within the limits on tables and on names.
pub fn written_text_is_read()
    ensures { (library : Option (List Gate)) (circuit : TheCircuit) → IsSound circuit
        → IsWithinLimits circuit → HasShortNames circuit
        → read_lines library (entries_of (text_of circuit)) ≡ Ok (spec.Circuit circuit) }
{}

/// The text of a circuit that was read is read as that circuit, also with any other library.
pub fn read_circuit_is_read_again()
    ensures { (library other : Option (List Gate)) (source : List ℕ) (circuit : TheCircuit)
        → IsSoundLibrary library → read_lines library (entries_of source) ≡ Ok (spec.Circuit circuit)
        → read_lines other (entries_of (text_of circuit)) ≡ Ok (spec.Circuit circuit) }
{}

/// The text of a netlist is read, with its library, as the circuit that the netlist denotes, if
/// library and netlist are sound and the circuit is within the limits on tables and on names.
pub fn written_netlist_is_read()
    ensures { (library : List Gate) (mapped : Mapped) → IsSoundGates library
        → IsSoundNetlist library mapped → IsWithinLimits (circuit_of library mapped)
        → HasShortNames (circuit_of library mapped)
        → read_lines (Some library) (entries_of (netlist_text_of mapped))
        ≡ Ok (spec.Circuit (circuit_of library mapped)) }
{}
