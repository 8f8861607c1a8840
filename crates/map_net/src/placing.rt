//! The gates of covers as placed gates of a netlist, with named signals at their pins.
//!
//! Trees are placed in the order of the roots, and the gates of each in postorder. The last gate of
//! a cover drives the root's signal; the others drive new names, taken in order. Callers rely on
//! `ArePlaced` of `specs/Mapping.antt`.

ghost use Rattle.std.specs.Prelude.{◌≡◌, ◌<◌, ◌+◌, ◌++◌, ◌∷◌, ℕ, List, [], map, length, slice_get};
ghost use Rattle.std.specs.Prelude.{Some, option_copied, unwrap_or, IfOk, OnOk};
ghost use Rattle.std.specs.List.{AllByRecursion};
ghost use Rattle.tree_cover.specs.declared.writing.CoverGate.{CoverGate};
ghost use Rattle.netlist.specs.declared.mapped.Placed.{Placed};
ghost use Rattle.map_net.specs.Naming.{AreNew, AreNewTo};
ghost use Rattle.map_net.specs.Mapping.{name_of, connected, placed_as, driven_in, ArePlacedAs};
ghost use Rattle.map_net.specs.Mapping.{IsPlacedCover, ArePlaced};
ghost use Rattle.map_net.specs.Working.{EndsAt, IsReady};

use crate::covers::TreeCover;
use crate::naming::next_names;
use circuit_model::Name;
use genlib_format::{Gate, Library};
use indexmap::IndexSet;
use netlist::{Connection, Connections, Gates, Placed};
use sis_base::{Copied, Sequence};
use std::alloc::{AllocError, Global};
use subject_tree::{Leaves, Root};
use tree_cover::{CoverGate, Signal};

// A copy of a name, if there is one; else the empty name.
fn copied_or_empty(alloc: Global, name: Option<&Name>) -> Result<Name, AllocError>
    ensures { IfOk result (λ made. made ≡ unwrap_or (option_copied name.entry) []) }
{
    match name {
        Some(name) => name.copy(alloc),
        None => Ok(Name::new(alloc)),
    }
}

// The name of a signal of a cover.
fn signal_name(
    alloc: Global,
    leaves: &Leaves,
    driven: &[Name],
    signal: Signal,
) -> Result<Name, AllocError>
    ensures { IfOk result (λ name. name ≡ name_of leaves.now driven.now signal) }
{
    match signal {
        Signal::Leaf(place) => copied_or_empty(alloc, leaves.name(place)),
        Signal::Gate(place) => copied_or_empty(alloc, driven.get(place)),
    }
}

// Appends a pin with its signal.
fn connect(
    alloc: Global,
    pins: &mut Connections,
    pin: &Name,
    signal: Name,
) -> Result<(), AllocError>
    ensures { OnOk result (pins.new ≡ pins.old ++ record { pin = pin.now; signal = signal } ∷ []) }
{
    let pin = pin.copy(alloc)?;
    pins.push(Connection { pin, signal })?;
    Ok(())
}

// The pins of a gate of the library, with the signals of a gate of a cover.
fn connections(
    alloc: Global,
    pins: &[Name],
    leaves: &Leaves,
    driven: &[Name],
    signals: &[Signal],
) -> Result<Connections, AllocError>
    ensures { IfOk result (λ made. made ≡ connected pins.now
        (map (name_of leaves.now driven.now) signals.now)) }
{
    let mut made = Sequence::new(alloc);
    for (pin, signal) in pins.iter().zip(signals) {
        let name = signal_name(alloc, leaves, driven, *signal)?;
        connect(alloc, &mut made, pin, name)?;
    }
    Ok(made)
}

// A gate of a cover as it is placed, by its gate in the library, driving a signal.
fn placed_gate(
    alloc: Global,
    gate: &Gate,
    leaves: &Leaves,
    driven: &[Name],
    signals: &[Signal],
    output: &Name,
) -> Result<Placed, AllocError>
    ensures { IfOk result (λ placed. placed ≡ placed_as gate.now
        (map (name_of leaves.now driven.now) signals.now) output.now) }
{
    let mut pins = connections(alloc, gate.pins.as_slice(), leaves, driven, signals)?;
    connect(alloc, &mut pins, &gate.output, output.copy(alloc)?)?;
    Ok(Placed {
        cell: gate.cell.copy(alloc)?,
        pins,
    })
}

// The gate at an index of a library.
fn gate_at(library: &[Gate], place: usize) -> &Gate
    requires { place < length library.now }
    ensures { slice_get library.now place ≡ Some result.now }
{
    &library[place]
}

// Appends the placed gates of a cover.
fn place_gates(
    alloc: Global,
    library: &[Gate],
    leaves: &Leaves,
    driven: &[Name],
    cover: &[CoverGate],
    gates: &mut Gates,
) -> Result<(), AllocError>
    requires places { AllByRecursion (λ (gate : CoverGate). gate.place < length library.now)
        cover.now }
    requires count { length driven.now ≡ length cover.now }
    ensures { OnOk result ((own : List Placed) × (gates.new ≡ gates.old ++ own)
        × ArePlacedAs library.now (name_of leaves.now driven.now) cover.now driven.now own) }
{
    for (gate, output) in cover.iter().zip(driven) {
        let cell = gate_at(library, gate.place);
        let signals = gate.pins.as_slice();
        gates.push(placed_gate(alloc, cell, leaves, driven, signals, output)?)?;
    }
    Ok(())
}

// What the gates of a cover drive: new names, and for the last one the root's.
fn names_driven(
    alloc: Global,
    used: &IndexSet<Name>,
    start: &mut u64,
    root: &Name,
    cover: &TreeCover,
) -> Result<Vec<Name>, AllocError>
    requires { EndsAt cover.now.root cover.now.gates }
    ensures names { IfOk result (λ driven. (inner : List (List ℕ))
        × AreNewTo used.now.keys start.old inner start.new
        × (driven.items ≡ driven_in cover.now.root inner root.now)) }
    ensures count { IfOk result (λ driven. length driven.items ≡ length cover.now.gates) }
{
    let inner = cover.gates.len().saturating_sub(1);
    let mut driven = next_names(alloc, used, start, inner)?;
    match cover.root {
        Signal::Leaf(_) => Ok(driven),
        Signal::Gate(_) => {
            driven.push(root.copy(alloc)?)?;
            Ok(driven)
        }
    }
}

// Appends the placed gates of one cover, with new names for what they drive.
fn place_cover(
    alloc: Global,
    library: &[Gate],
    leaves: &Leaves,
    used: &IndexSet<Name>,
    start: &mut u64,
    root: &Name,
    cover: &TreeCover,
    gates: &mut Gates,
) -> Result<(), AllocError>
    requires { IsReady (length library.now) cover.now }
    ensures { OnOk result ((inner : List (List ℕ)) × (own : List Placed)
        × AreNewTo used.now.keys start.old inner start.new × (gates.new ≡ gates.old ++ own)
        × IsPlacedCover library.now leaves.now root.now cover.now inner own) }
{
    let driven = names_driven(alloc, used, start, root, cover)?;
    let cover = cover.gates.as_slice();
    place_gates(alloc, library, leaves, driven.as_slice(), cover, gates)
}

/// Places the gates of all covers, tree by tree.
pub fn place_all(
    alloc: Global,
    library: &Library,
    leaves: &Leaves,
    used: &IndexSet<Name>,
    roots: &[Root],
    covers: &[TreeCover],
) -> Result<Gates, AllocError>
    requires ready { AllByRecursion (IsReady (length library.now)) covers.now }
    requires count { length roots.now ≡ length covers.now }
    ensures { IfOk result (λ gates. (fresh : List (List ℕ)) × AreNew used.now.keys fresh
        × ArePlaced library.now leaves.now roots.now covers.now fresh gates) }
{
    let cells = library.gates();
    let mut gates = Sequence::new(alloc);
    let mut start = 0;
    for (root, cover) in roots.iter().zip(covers) {
        let name = &root.name;
        place_cover(
            alloc, cells, leaves, used, &mut start, name, cover, &mut gates,
        )?;
    }
    Ok(gates)
}
