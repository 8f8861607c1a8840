//! The faults of a whole model whose lines are right by themselves.
//!
//! Source: BLIF appendix of the SIS report (UCB/ERL M92/41): each signal has one driver, and tables
//! form no cycle. That all latches share one clock, and the order, are the project's own: ports
//! listed twice, the timing of latches, drivers, the don't-care part, cycles. Each call returns
//! exactly its part of `whole_fault` of `specs/Reader.antt`, by what a draft tells. The search for
//! cycles requires that no two tables drive one signal, which the earlier checks give.

ghost use Rattle.std.specs.Prelude.{◌≡◌, ◌++◌, true, None, map, find, option_copied, IfOk, OnOk};
ghost use Rattle.circuit_model.specs.Names.{has, all_different};
ghost use Rattle.circuit_model.specs.Soundness.{outputs_of, control_of};
ghost use Rattle.circuit_model.specs.declared.circuit.Latch.{Latch};
ghost use Rattle.circuit_checks.specs.NameChecks.{first_again, first_listed_twice};
ghost use Rattle.blif_lines.specs.Reader.{timing_fault, listed_fault, drivers_fault, tables_fault, signals_fault, head_fault};
ghost use Rattle.blif_lines.specs.Steps.{told_of, settled_told};

use crate::draft::Draft;
use crate::fault::BlifFault;
use circuit_checks::{
    first_again, first_bad_part_name, first_listed_twice, first_missing, first_on_cycle,
};
use circuit_model::{Latch, Name, Names, Table, Timing, has_name};
use sis_base::{Copied, Sequence};
use std::alloc::{AllocError, Global};

/// Appends copies of some names.
fn add_copies(alloc: Global, names: &mut Names, others: &[Name]) -> Result<(), AllocError>
    ensures { OnOk result (names.new ≡ names.old ++ others.now) }
{
    for name in others {
        names.push(name.copy(alloc)?)?;
    }
    Ok(())
}

/// Appends copies of latch outputs.
fn add_states(alloc: Global, names: &mut Names, latches: &[Latch]) -> Result<(), AllocError>
    ensures { OnOk result (names.new ≡ names.old ++ map
        (λ (latch : Latch). latch.output) latches.now) }
{
    for latch in latches {
        names.push(latch.output.copy(alloc)?)?;
    }
    Ok(())
}

/// The control, where it is among the driven signals.
fn driven_control<'a>(timing: &'a Option<Timing>, drives: &[Name]) -> Option<&'a Name>
    ensures { option_copied result ≡ find (has drives.now) (control_of timing.now) }
{
    match timing {
        None => None,
        Some(timing) => match &timing.control {
            None => None,
            Some(control) => {
                if has_name(drives, control) {
                    Some(control)
                } else {
                    None
                }
            }
        },
    }
}

/// What is wrong with the latches' timing: the line of the first whose timing differs, otherwise
/// the control if it is driven.
#[tactic(auto, unfolding(crate::specs::Reader::timing_fault, crate::specs::Lines::first_of))]
fn timing_fault(
    alloc: Global,
    mixed: Option<usize>,
    timing: &Option<Timing>,
    drives: &[Name],
) -> Result<Option<BlifFault>, AllocError>
    ensures { IfOk result (λ fault. fault ≡ timing_fault mixed timing.now drives.now) }
{
    if let Some(number) = mixed {
        return Ok(Some(BlifFault::MixedClock(number)));
    }
    if let Some(name) = driven_control(timing, drives) {
        return Ok(Some(BlifFault::GatedClock(name.copy(alloc)?)));
    }
    Ok(None)
}

/// What is wrong with a draft before ports are found: the first port that is listed twice,
/// otherwise the timing of its latches.
#[tactic(auto, unfolding(crate::specs::Reader::listed_fault, crate::specs::Lines::first_of))]
pub fn listed_fault(alloc: Global, draft: &Draft) -> Result<Option<BlifFault>, AllocError>
    ensures fault { IfOk result (λ fault. fault ≡ listed_fault (told_of draft.now)) }
    ensures once { IfOk result (λ fault. fault ≡ None
        → first_listed_twice draft.now.inputs draft.now.outputs draft.now.ports ≡ None) }
{
    let inputs = draft.inputs.as_slice();
    let outputs = draft.outputs.as_slice();
    if let Some(name) = first_listed_twice(alloc, inputs, outputs, draft.ports.as_slice())? {
        return Ok(Some(BlifFault::NameTwice(name.copy(alloc)?)));
    }
    let fault = timing_fault(alloc, draft.mixed, &draft.timing, draft.drives.as_slice())?;
    Ok(fault)
}

/// What is wrong with the drivers: the first signal that is driven twice, otherwise the first that
/// is read and not driven.
#[tactic(auto, unfolding(crate::specs::Reader::drivers_fault, crate::specs::Lines::first_of))]
fn drivers_fault(
    alloc: Global,
    inputs: &[Name],
    drives: &[Name],
    reads: &[Name],
) -> Result<Option<BlifFault>, AllocError>
    ensures fault { IfOk result (λ fault. fault ≡ drivers_fault inputs.now drives.now reads.now) }
    ensures apart { IfOk result (λ fault. fault ≡ None → first_again inputs.now drives.now ≡ None) }
{
    if let Some(name) = first_again(alloc, inputs, drives)? {
        return Ok(Some(BlifFault::TwoDrivers(name.copy(alloc)?)));
    }
    let mut given = Sequence::new(alloc);
    add_copies(alloc, &mut given, inputs)?;
    add_copies(alloc, &mut given, drives)?;
    if let Some(name) = first_missing(alloc, given.as_slice(), reads)? {
        return Ok(Some(BlifFault::Undriven(name.copy(alloc)?)));
    }
    Ok(None)
}

/// What is wrong with tables: the name that is wrong with the first wrong one of the don't-care
/// part, otherwise the first of the model that is reached from itself.
#[tactic(auto, unfolding(crate::specs::Reader::tables_fault, crate::specs::Lines::first_of))]
fn tables_fault(
    alloc: Global,
    leaves: &[Name],
    dont_care: &[Table],
    tables: &[Table],
) -> Result<Option<BlifFault>, AllocError>
    requires { all_different (outputs_of tables.now) ≡ true }
    ensures { IfOk result (λ fault. fault ≡ tables_fault leaves.now dont_care.now tables.now) }
{
    if let Some(name) = first_bad_part_name(alloc, leaves, dont_care)? {
        return Ok(Some(BlifFault::BadExdc(name)));
    }
    if let Some(name) = first_on_cycle(alloc, tables)? {
        return Ok(Some(BlifFault::Cycle(name.copy(alloc)?)));
    }
    Ok(None)
}

/// What is wrong with a draft that is settled: its drivers, otherwise its tables.
#[tactic(auto, unfolding(crate::specs::Reader::signals_fault, crate::specs::Lines::first_of))]
pub fn signals_fault(alloc: Global, draft: &Draft) -> Result<Option<BlifFault>, AllocError>
    requires { first_again draft.now.inputs draft.now.drives ≡ None → all_different
        (outputs_of draft.now.model_tables) ≡ true }
    ensures { IfOk result (λ fault. fault ≡ signals_fault (settled_told draft.now)) }
{
    let inputs = draft.inputs.as_slice();
    let drives = draft.drives.as_slice();
    if let Some(fault) = drivers_fault(alloc, inputs, drives, draft.reads.as_slice())? {
        return Ok(Some(fault));
    }
    let mut leaves = Sequence::new(alloc);
    add_copies(alloc, &mut leaves, inputs)?;
    add_states(alloc, &mut leaves, draft.latches.as_slice())?;
    let part = draft.tables.as_slice();
    let fault = tables_fault(
        alloc,
        leaves.as_slice(),
        part,
        draft.model_tables.as_slice(),
    )?;
    Ok(fault)
}

/// What is wrong with the listed ports of a machine: the first that is listed twice.
pub fn head_fault(alloc: Global, draft: &Draft) -> Result<Option<BlifFault>, AllocError>
    ensures { IfOk result (λ fault. fault ≡ head_fault (told_of draft.now)) }
{
    let ports = draft.ports.as_slice();
    let others = Names::new(alloc);
    match first_listed_twice(alloc, ports, others.as_slice(), ports)? {
        None => Ok(None),
        Some(name) => Ok(Some(BlifFault::NameTwice(name.copy(alloc)?))),
    }
}
