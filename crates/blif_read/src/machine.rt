//! The machine of a KISS2 part, under the name and the ports of its model.
//!
//! Source: BLIF appendix of the SIS report (UCB/ERL M92/41); the made names of ports that no line
//! lists, and the order of the causes, are the project's own (`specs/Reader.antt`). The table's
//! numbers of ports must be those of the lists, and no listed name may be a made name of the other
//! kind. `read_machine` returns exactly the machine or the first fault of `machine_with`.

ghost use Rattle.std.specs.Prelude.{◌≡◌, map, find, option_copied, IfOk};
ghost use Rattle.circuit_model.specs.Names.{has};
ghost use Rattle.sis_text.specs.Entries.{entry_at};
ghost use Rattle.circuit_model.specs.declared.machine.Spec.TheVariants as spec;
ghost use Rattle.kiss_format.specs.Reader.{read_machine_lines};
ghost use Rattle.blif_lines.specs.Reader.{unless};
ghost use Rattle.blif_read.specs.Reader.{count_fault, made_again, made_twice, machine_fault, named, machine_with, Reads};

use blif_lines::{BlifFault, Head, ReadFault};
use circuit_model::{Machine, Name, Names, Spec, has_name};
use kiss_format::{KissFault, inputs_line, outputs_line};
use sis_base::Copied;
use sis_text::Line;
use std::alloc::{AllocError, Global};

/// What is wrong if the table's line of a number gives another number of ports than are listed:
/// that line is a bad header.
fn count_fault(listed: &Option<Names>, made: &[Name], line: Option<usize>) -> Option<BlifFault>
    ensures { result ≡ count_fault listed.now made.now line }
{
    match listed {
        None => None,
        Some(listed) => {
            if listed.len() == made.len() {
                None
            } else {
                Some(BlifFault::BadKiss(KissFault::BadHeader(line.unwrap_or(0))))
            }
        },
    }
}

/// The first of the listed names that is one of the made names.
fn first_made<'a>(listed: &'a [Name], made: &[Name]) -> Option<&'a Name>
    ensures { option_copied result ≡ find (has made.now) listed.now }
{
    listed.iter().find(|name| has_name(made, name))
}

/// The first of the names that are listed for one kind of ports that is one of the made names of
/// the other kind.
fn made_again<'a>(
    listed: &'a Option<Names>,
    other: &Option<Names>,
    made: &[Name],
) -> Option<&'a Name>
    ensures { option_copied result ≡ made_again listed.now other.now made.now }
{
    match listed {
        None => None,
        Some(listed) => match other {
            None => first_made(listed.as_slice(), made),
            Some(_) => None,
        },
    }
}

/// The first name that is listed and made.
fn made_twice<'a>(head: &'a Head, machine: &Machine) -> Option<&'a Name>
    ensures { option_copied result ≡ made_twice head.now machine.now }
{
    match made_again(&head.inputs, &head.outputs, machine.outputs.as_slice()) {
        Some(name) => Some(name),
        None => made_again(&head.outputs, &head.inputs, machine.inputs.as_slice()),
    }
}

/// What is wrong with the table in some lines, given the head of its machine.
#[tactic(auto, unfolding(crate::specs::Reader::machine_fault, blif_lines::specs::Lines::first_of))]
fn machine_fault(
    alloc: Global,
    head: &Head,
    source: &[u8],
    part: &[Line],
    machine: &Machine,
) -> Result<Option<BlifFault>, AllocError>
    ensures { IfOk result (λ fault. fault ≡ machine_fault head.now
        (map (entry_at source.now) part.now) machine.now) }
{
    let inputs = machine.inputs.as_slice();
    if let Some(fault) = count_fault(&head.inputs, inputs, inputs_line(source, part)) {
        return Ok(Some(fault));
    }
    let outputs = machine.outputs.as_slice();
    if let Some(fault) = count_fault(&head.outputs, outputs, outputs_line(source, part)) {
        return Ok(Some(fault));
    }
    if let Some(name) = made_twice(head, machine) {
        return Ok(Some(BlifFault::NameTwice(name.copy(alloc)?)));
    }
    Ok(None)
}

/// A machine under the names of a head; ports that are not listed keep their made names.
fn named(head: Head, machine: Machine) -> Machine
    ensures { result ≡ named head machine }
{
    Machine {
        name: head.name,
        inputs: head.inputs.unwrap_or(machine.inputs),
        outputs: head.outputs.unwrap_or(machine.outputs),
        states: machine.states,
        reset: machine.reset,
        rows: machine.rows,
    }
}

/// The machine of some lines, under the names of a head. An error says what is wrong with the two
/// together, or is want of memory.
fn under_head(
    alloc: Global,
    head: Head,
    source: &[u8],
    part: &[Line],
    machine: Machine,
) -> Result<Spec, ReadFault>
    ensures { Reads result (unless (machine_fault head (map (entry_at source.now) part.now) machine)
        (spec.Machine (named head machine))) }
{
    if let Some(fault) = machine_fault(alloc, &head, source, part, &machine)? {
        return Err(ReadFault::Fault(fault));
    }
    Ok(Spec::Machine(named(head, machine)))
}

/// The machine of a head and of the table in some lines. An error is the first fault of the table,
/// otherwise what is wrong with the two together; or want of memory.
pub fn read_machine(
    alloc: Global,
    head: Head,
    source: &[u8],
    part: &[Line],
) -> Result<Spec, ReadFault>
    ensures { Reads result (machine_with head (map (entry_at source.now) part.now)
        (read_machine_lines (map (entry_at source.now) part.now))) }
{
    match kiss_format::read_lines(alloc, source, part) {
        Ok(machine) => under_head(alloc, head, source, part, machine),
        Err(kiss_format::ReadFault::Fault(fault)) => Err(ReadFault::Fault(BlifFault::BadKiss(
            fault,
        ))),
        Err(kiss_format::ReadFault::Memory) => Err(ReadFault::Memory),
    }
}
