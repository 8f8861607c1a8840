//! The addition of a table to a network under a new name.
//!
//! The names `[n]` are those of SIS's own new nodes (SIS report, UCB/ERL M92/41); that the least
//! free number is taken, and the limit `MAX_NODES` on tables and latches, are the project's own. A
//! name is free if no signal, port, clock or control has it and the don't-care part does not
//! mention it. `is_full` is exact, but counts the tables only if there are so many slots that it
//! must.

ghost use Rattle.std.specs.Prelude.{◌≡◌, ℕ, ◌+◌, ◌<◌, ◌≤◌, Bool, true, false, ◌||◌, ◌↔◌, Option, Some, None, List, [], ◌∷◌, ◌++◌, length, map, decimal, codes, IfOk, OnOk, OnErr, IsTrue};
ghost use Rattle.circuit_model.specs.Names.{has};
ghost use Rattle.circuit_model.specs.Soundness.{outputs_of, control_of, names_of, given};
ghost use Rattle.circuit_model.specs.declared.circuit.Latch.{Latch};
ghost use Rattle.net_core.specs.Places.{present};
ghost use Rattle.net_core.specs.declared.adding.AddFault.TheVariants.{Memory};
ghost use Rattle.net_core.specs.Fresh.{bracketed};

use crate::places::Entry;
use circuit_model::{Latch, Name, Table, Timing, has_name};
use cube_cover::Row;
use sis_base::limits::MAX_NODES;
use std::alloc::{AllocError, Global};

/// Why no table was added: there are `MAX_NODES` tables and latches already, the tables of the
/// don't-care part included, or there is not enough memory.
#[derive(Clone, Copy, Debug, PartialEq, Eq, Drop)]
pub enum AddFault {
    NodeLimit,
    Memory,
}

impl From<AllocError> for AddFault {
    ghost from_gives = { λ _ fault. fault ≡ Memory };

    fn from(_error: AllocError) -> AddFault {
        AddFault::Memory
    }
}

/// The name of a number: the number in brackets.
#[tactic(auto, using(std::proofs::lemmas::Grind::common_steps), unfolding(crate::specs::Fresh::bracketed))]
pub fn bracketed_name(alloc: Global, number: u64) -> Result<Name, AllocError>
    ensures { IfOk result (λ name. name ≡ bracketed number) }
{
    let text = format!(in alloc; "{number}")?;
    let mut bytes = Vec::new(alloc);
    bytes.extend_from_slice(b"[".as_slice())?;
    bytes.extend_from_slice(text.as_bytes())?;
    bytes.extend_from_slice(b"]".as_slice())?;
    Ok(Name::from_vec(bytes))
}

// Whether a latch drives a name.
pub(crate) fn drives_latch(latches: &[Latch], name: &Name) -> bool
    ensures { result ≡ has (map (λ (latch : Latch). latch.output) latches.now) name.now }
{
    for latch in latches {
        if *name == latch.output {
            return true;
        }
    }
    false
}

// Whether a name is that of the control.
pub(crate) fn is_control(timing: &Option<Timing>, name: &Name) -> bool
    ensures { result ≡ has (control_of timing.now) name.now }
{
    match timing {
        None => false,
        Some(timing) => match &timing.control {
            None => false,
            Some(control) => *name == *control,
        },
    }
}

// Whether a table drives the name or reads it.
fn mentions(table: &Table, name: &Name) -> bool
    ensures { result ≡ has (table.now.output ∷ table.now.inputs) name.now }
{
    *name == table.output || has_name(table.inputs.as_slice(), name)
}

// Whether one of the tables drives the name or reads it.
pub(crate) fn is_mentioned(tables: &[Table], name: &Name) -> bool
    ensures { result ≡ has (names_of tables.now) name.now }
{
    for table in tables {
        if mentions(table, name) {
            return true;
        }
    }
    false
}

// Whether no more table may be added.
fn is_over(tables: usize, latches: usize, dont_care: usize) -> bool
    ensures { IsTrue result ↔ (MAX_NODES ≤ tables + latches + dont_care) }
{
    MAX_NODES as u128 <= tables as u128 + latches as u128 + dont_care as u128
}

// 1 for a table, 0 for an empty slot.
#[tactic(auto, unfolding(crate::specs::Places::present))]
fn slot_count<R: Row>(slot: &Option<Entry<R>>) -> usize
    ensures count { result ≡ length (present (slot.now ∷ [])) }
    ensures bound { result ≤ 1 }
{
    match slot {
        None => 0,
        Some(_) => 1,
    }
}

// The number of tables.
pub(crate) fn table_count<R: Row>(slots: &[Option<Entry<R>>]) -> usize
    ensures { result ≡ length (present slots.now) }
{
    let mut count = 0;
    for slot in slots {
        count += slot_count(slot);
    }
    count
}

/// Whether no more table may be added to those in the slots, the latches and the tables of the
/// don't-care part. Counts the tables only if there are so many slots that it must.
#[tactic(auto, using(crate::proofs::Counting::fewer_present))]
pub fn is_full<R: Row>(slots: &[Option<Entry<R>>], latches: usize, dont_care: usize) -> bool
    ensures { IsTrue result ↔ (MAX_NODES ≤ length (present slots.now) + latches + dont_care) }
{
    if !is_over(slots.len(), latches, dont_care) {
        return false;
    }
    is_over(table_count(slots), latches, dont_care)
}
