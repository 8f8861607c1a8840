//! `map`: the netlist of the network by the library, and the text that prints its areas.
//!
//! The netlist is one that `Maps` of map_net allows, or the reason against it becomes a refusal.
//! The text has a line `tree NAME area=AREA` for each tree, unless it is brief, and a line with the
//! total area and the number of gates (`map_text` of `specs/Replies.antt`). Areas are decimal
//! numbers with six digits after the point. The library must be sound.

ghost use Rattle.std.specs.Prelude.{◌≡◌, ◌++◌, ◌^◌, ◌<◌, IfOk, OnOk, codes, decimal, flat_map, sum_by};
ghost use Rattle.genlib_format.specs.Soundness.{IsSoundGates};
ghost use Rattle.netlist.specs.declared.mapped.TreeFigure.{TreeFigure};
ghost use Rattle.sis_session.specs.Methods.{IsDeclined, IsNetlisted};
ghost use Rattle.sis_text.specs.Decimals.{decimal_text};
ghost use Rattle.sis_session.specs.Replies.{map_text, total_text, tree_line};

use crate::refusal::{Refusal, StepFault};
use cube_cover::PlainRow;
use genlib_format::Library;
use map_net::{MapFault, map};
use net_core::Network;
use netlist::{Mapped, TreeFigure};
use sis_text::Decimal;
use std::alloc::{AllocError, Global};

/// A netlist, and the text of its areas.
#[derive(Drop)]
pub struct ToldNetlist {
    pub netlist: Mapped,
    pub text: Vec<u8>,
}

/// Appends an area. On an error a part of it may have been appended.
#[tactic(auto, using(std::proofs::lemmas::Grind::common_steps))]
fn put_area(out: &mut Vec<u8>, alloc: Global, area: u128) -> Result<(), AllocError>
    ensures { OnOk result (out.new.items ≡ out.old.items ++ decimal_text area) }
{
    let text = Decimal(area).print(alloc)?;
    out.extend_from_slice(text.as_slice())
}

/// Appends the line of a tree. On an error a part of it may have been appended.
#[tactic(auto, unfolding(crate::specs::Replies::tree_line), using(std::proofs::lemmas::Grind::common_steps))]
fn put_tree(out: &mut Vec<u8>, alloc: Global, tree: &TreeFigure) -> Result<(), AllocError>
    ensures { OnOk result (out.new.items ≡ out.old.items ++ tree_line tree.now) }
{
    out.extend_from_slice(b"tree ".as_slice())?;
    out.extend_from_slice(tree.name.as_slice())?;
    out.extend_from_slice(b" area=".as_slice())?;
    put_area(out, alloc, tree.figure)?;
    out.push(10)?;
    Ok(())
}

/// Appends a line for each tree. On an error a part may have been appended.
#[tactic(auto, using(std::proofs::lemmas::Grind::common_steps))]
fn put_trees(out: &mut Vec<u8>, alloc: Global, trees: &[TreeFigure]) -> Result<(), AllocError>
    ensures { OnOk result (out.new.items ≡ out.old.items ++ flat_map tree_line trees.now) }
{
    for tree in trees {
        put_tree(out, alloc, tree)?;
    }
    Ok(())
}

/// The area of all trees.
fn total_area(trees: &[TreeFigure]) -> u128
    requires { sum_by (λ (tree : TreeFigure). tree.figure) trees.now < 2 ^ 128 }
    ensures { result ≡ sum_by (λ (tree : TreeFigure). tree.figure) trees.now }
{
    let mut total = 0;
    for tree in trees {
        total += tree.figure;
    }
    total
}

/// Appends the number of gates.
#[tactic(auto, using(std::proofs::lemmas::Grind::common_steps))]
fn put_gates(out: &mut Vec<u8>, alloc: Global, gates: usize) -> Result<(), AllocError>
    ensures { OnOk result (out.new.items
        ≡ out.old.items ++ (codes " gates=" ++ (decimal gates ++ codes "\n"))) }
{
    let text = format!(in alloc; " gates={gates}\n")?;
    out.extend_from_slice(text.as_bytes())
}

/// Appends an area and the number of gates. On an error a part may have been appended.
#[tactic(auto, unfolding(crate::specs::Replies::total_text), using(std::proofs::lemmas::Grind::common_steps))]
fn put_total(out: &mut Vec<u8>, alloc: Global, area: u128, gates: usize) -> Result<(), AllocError>
    ensures { OnOk result (out.new.items ≡ out.old.items ++ total_text area gates) }
{
    out.extend_from_slice(b"total area=".as_slice())?;
    put_area(out, alloc, area)?;
    put_gates(out, alloc, gates)
}

/// The text of the areas of a netlist.
#[tactic(auto, using(std::proofs::lemmas::Grind::common_steps))]
fn map_text(alloc: Global, netlist: &Mapped, brief: bool) -> Result<Vec<u8>, AllocError>
    requires { sum_by (λ (tree : TreeFigure). tree.figure) netlist.now.trees < 2 ^ 128 }
    ensures { IfOk result (λ text. text.items ≡ map_text brief netlist.now) }
{
    let area = total_area(netlist.trees.as_slice());
    let mut text = Vec::new(alloc);
    if !brief {
        put_trees(&mut text, alloc, netlist.trees.as_slice())?;
    }
    put_total(&mut text, alloc, area, netlist.gates.len())?;
    Ok(text)
}

/// A reason against a netlist as the fault of a step.
fn declined(fault: MapFault) -> StepFault
    ensures { IsDeclined fault result }
{
    match fault {
        MapFault::NoInverter => StepFault::Refused(Refusal::NoInverter),
        MapFault::NoNand => StepFault::Refused(Refusal::NoNand),
        MapFault::TreeLimit => StepFault::Refused(Refusal::TreeLimit),
        MapFault::NodeLimit => StepFault::Refused(Refusal::NodeLimit),
        MapFault::Memory => StepFault::Memory,
    }
}

/// The netlist of a network by a library, and the text of its areas; or the first reason against
/// it.
pub fn netlisted(
    alloc: Global,
    network: &Network<PlainRow>,
    library: &Library,
    brief: bool,
) -> Result<ToldNetlist, StepFault>
    requires { IsSoundGates library.now }
    ensures { IsNetlisted brief network.now library.now result }
{
    match map(alloc, network, library) {
        Ok(netlist) => {
            let text = map_text(alloc, &netlist, brief)?;
            Ok(ToldNetlist { netlist, text })
        }
        Err(fault) => Err(declined(fault)),
    }
}
