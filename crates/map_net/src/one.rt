//! Laws that mapping has one answer, each the contract of a call that does nothing.

ghost use Rattle.std.specs.Prelude.{◌≡◌, ◌⊎◌, List, Result, Err};
ghost use Rattle.circuit_model.specs.Soundness.{IsSound};
ghost use Rattle.circuit_model.specs.declared.circuit.Circuit.{Circuit};
ghost use Rattle.genlib_format.specs.Soundness.{IsSoundGates};
ghost use Rattle.genlib_format.specs.declared.gate.Gate.{Gate};
ghost use Rattle.netlist.specs.declared.mapped.Mapped.{Mapped};
ghost use Rattle.map_net.specs.declared.mapping.MapFault.{MapFault as TheMapFault};
ghost use Rattle.map_net.specs.declared.mapping.MapFault.TheVariants.{Memory};
ghost use Rattle.map_net.specs.Mapping.{IsMapped, Maps};

/// The netlist of a sound circuit by a sound library is unique.
pub fn netlists_are_one()
    ensures { (circuit : Circuit) (library : List Gate) (mapped other : Mapped)
        → IsSound circuit → IsSoundGates library → IsMapped circuit library mapped
        → IsMapped circuit library other → mapped ≡ other }
{}

/// Mapping a sound circuit by a sound library has a single answer, except for want of memory: one
/// netlist, or one reason against it.
pub fn answers_are_one()
    ensures { (circuit : Circuit) (library : List Gate)
        (one other : Result Mapped TheMapFault)
        → IsSound circuit → IsSoundGates library → Maps circuit library one
        → Maps circuit library other
        → (one ≡ other) ⊎ ((one ≡ Err Memory) ⊎ (other ≡ Err Memory)) }
{}
