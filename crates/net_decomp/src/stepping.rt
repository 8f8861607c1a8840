//! One step of decomposition: the parts of a table become tables, and it is rewritten over their
//! signals.
//!
//! Source: the SIS report (UCB/ERL M92/41), `decomp` and `tech_decomp`; De Micheli, "Synthesis and
//! Optimization of Digital Circuits", chapter 8 (decomposition of a vertex). New tables are added
//! last, under the least free names, and each table is brought to its normal form. Invariant: the
//! count of nodes is that of the network. Callers rely on none exactly if the table is done, on
//! `NodeLimit` only if there is no room for the parts, and on bounds to stay.

ghost use Rattle.std.specs.Prelude.{◌≡◌, ℕ, ◌≤◌, ◌<◌, ◌↔◌, Bool, true, Option, Some, None, List, [], ◌∷◌, ◌++◌, length, map, IfOk, IfErr, IfSome, OnOk, MatchOption, IsTrue};
ghost use Rattle.std.specs.List.{AllByRecursion};
ghost use Rattle.sis_base.specs.Rows.{HasWidth};
ghost use Rattle.circuit_model.specs.Names.{all_different};
ghost use Rattle.circuit_model.specs.Soundness.{IsSound};
ghost use Rattle.circuit_model.specs.declared.circuit.Table.{Table};
ghost use Rattle.net_decomp.specs.Rules.{IsDone};
ghost use Rattle.net_core.specs.Fresh.{IsNewName, node_count};
ghost use Rattle.net_core.specs.Reads.{IsBounded};
ghost use Rattle.net_core.specs.Tables.{named, characters_of, IsOverInputs};
ghost use Rattle.net_core.specs.declared.adding.AddFault.TheVariants.{NodeLimit, Memory};
ghost use Rattle.net_work.specs.Placed.{circuit_of, table_at, with_last};
ghost use Rattle.circuit_tables.specs.Tidy.{tidied};
ghost use Rattle.net_decomp.specs.Told.{told};
ghost use Rattle.net_decomp.specs.Cursor.{IsDecomposableOf, IsDecomposableAt, ArePut, IsTurned, IsPartedAt, HasRoomFor, IsOverAt};

use crate::Rule;
use crate::parting::{Parting, parting_of};
use circuit_model::{Name, Names};
use cube_cover::{Cover, Row};
use net_core::{AddFault, CoverTable, bounded, tidy};
use net_work::WorkingNetwork;
use sis_base::Copied;
use sis_base::limits::MAX_NODES;
use std::alloc::{AllocError, Global};

/// The limit on tables and latches, the tables of the don't-care part included.
const NODE_LIMIT: u128 = MAX_NODES as u128;

/// What stays of a table that is to be decomposed, and its decomposition.
#[derive(Drop)]
pub(crate) struct Due<R: Row> {
    pub(crate) inputs: Names,
    pub(crate) phase: bool,
    pub(crate) parting: Parting<R>,
}

// How a table is decomposed; none if it is done.
fn due_of<R: Row>(
    alloc: Global,
    table: &CoverTable<R>,
    rule: Rule,
) -> Result<Option<Due<R>>, AllocError>
    requires { IsOverInputs table.now }
    ensures { IfOk result (λ found. (name : List ℕ) → MatchOption found
        (IsDone rule (named name table.now)) (IsDecomposableOf rule R.literals (named name table.now))) }
{
    // by this call the rows are known to have the cover's width
    let _of_one_width = table.cover.rows();
    match parting_of(alloc, rule, &table.cover)? {
        None => Ok(None),
        Some(parting) => Ok(Some(Due {
            inputs: table.inputs.copy(alloc)?,
            phase: table.phase,
            parting,
        })),
    }
}

// How the table at an index is decomposed; none if it is done, or if there is none.
fn due_at<R: Row>(
    alloc: Global,
    work: &WorkingNetwork<R>,
    place: usize,
    rule: Rule,
) -> Result<Option<Due<R>>, AllocError>
    ensures { IfOk result (λ found. MatchOption found
        ((table : Table) → table_at work.now.slots place ≡ Some table → IsDone rule table)
        (IsDecomposableAt rule R.literals work.now.slots place)) }
{
    match work.entry(place) {
        None => Ok(None),
        Some(entry) => due_of(alloc, &entry.table, rule),
    }
}

/// The table of some rows, in normal form.
pub(crate) fn tidy_table<R: Row>(
    alloc: Global,
    inputs: Names,
    rows: Vec<R>,
    phase: bool,
) -> Result<CoverTable<R>, AllocError>
    requires { HasWidth (length inputs) (map R.literals rows.items) }
    ensures tidy { IfOk result (λ made. (name : List ℕ) → named name made ≡ tidied
        (record {
          inputs = inputs;
          output = name;
          rows = map characters_of
              (map R.literals rows.items);
          phase = phase;
        })) }
    ensures over { IfOk result IsOverInputs }
    ensures once { IfOk result (λ made. all_different made.inputs ≡ true) }
    ensures bounded { IfOk result (λ made. (name : List ℕ) → IsBounded (named name made)) }
{
    let cover = Cover::of(inputs.len(), rows);
    let table = CoverTable {
        inputs,
        cover,
        phase,
    };
    let made = tidy(alloc, &table)?;
    bounded(made)
}

// Adds a part over some inputs as a table.
fn add_part<R: Row>(
    alloc: Global,
    work: &mut WorkingNetwork<R>,
    inputs: &Names,
    part: Vec<R>,
) -> Result<Name, AddFault>
    requires { HasWidth (length inputs.now) (map R.literals part.items) }
    ensures added { IfOk result (λ name. IsNewName (circuit_of work.old) name
        × (work.new ≡ with_last work.old (tidied (record {
          inputs = inputs.now;
          output = name;
          rows = map characters_of
              (map R.literals part.items);
          phase = true;
        })))) }
    ensures bounded { IfOk result (λ name. IsBounded
        (tidied (record {
          inputs = inputs.now;
          output = name;
          rows = map characters_of
              (map R.literals part.items);
          phase = true;
        }))) }
    ensures limit { IfErr result (λ fault. fault ≡ NodeLimit → MAX_NODES ≤ node_count
        (circuit_of work.old)) }
{
    let table = tidy_table(alloc, inputs.copy(alloc)?, part, true)?;
    work.add(alloc, table)
}

/// Appends a name.
pub(crate) fn push_name(names: &mut Names, name: Name) -> Result<(), AllocError>
    ensures { OnOk result (names.new ≡ names.old ++ name ∷ []) }
{
    names.push(name)?;
    Ok(())
}

// Adds parts over some inputs as tables, one after the other; returns their names.
fn add_parts<R: Row>(
    alloc: Global,
    work: &mut WorkingNetwork<R>,
    inputs: &Names,
    parts: Vec<Vec<R>>,
) -> Result<Names, AddFault>
    requires wide { AllByRecursion (HasWidth (length inputs.now))
        (map (λ part. map R.literals part.items) parts.items) }
    requires room { HasRoomFor (node_count (circuit_of work.old)) (length parts.items) }
    ensures put { IfOk result (λ names. ArePut inputs.now
        (map (λ part. map R.literals part.items) parts.items) names work.old work.new) }
    ensures fault { IfErr result (λ fault. fault ≡ Memory) }
{
    let mut names = Names::new(alloc);
    for part in parts {
        push_name(&mut names, add_part(alloc, work, inputs, part)?)?;
    }
    Ok(names)
}

// Names, followed by others.
fn joined(names: Names, others: Names) -> Result<Names, AllocError>
    ensures { IfOk result (λ made. made ≡ names ++ others) }
{
    let mut made = names;
    for name in others.into_vec() {
        push_name(&mut made, name)?;
    }
    Ok(made)
}

// Decomposes the table at an index, for whose parts there is room. After an error the network may
// be any.
fn part_table<R: Row>(
    alloc: Global,
    work: &mut WorkingNetwork<R>,
    place: usize,
    due: Due<R>,
    rule: Rule,
) -> Result<(), AddFault>
    requires due { IsDecomposableAt rule R.literals work.old.slots place due }
    requires room { HasRoomFor (node_count (circuit_of work.old)) (length due.parting.parts.items) }
    ensures turned { OnOk result ((table : Table) → table_at work.old.slots place ≡ Some table
        → IsTurned table (told R.literals due.parting) place work.old work.new) }
    ensures fault { IfErr result (λ fault. fault ≡ Memory) }
{
    let Due {
        inputs,
        phase,
        parting: Parting { parts, rows },
    } = due;
    let names = add_parts(alloc, work, &inputs, parts)?;
    let table = tidy_table(alloc, joined(inputs, names)?, rows, phase)?;
    work.set(alloc, place, table)?;
    Ok(())
}

// Whether there is room for more tables; for none there always is.
fn has_room(nodes: u128, more: usize) -> bool
    ensures { IsTrue result ↔ HasRoomFor nodes more }
{
    more == 0 || (nodes <= NODE_LIMIT && more as u128 <= NODE_LIMIT - nodes)
}

/// Decomposes the table at an index; returns the number of nodes then, or none if it was done.
/// `NodeLimit` if there is no room for its parts. After an error the network may be any.
pub(crate) fn part_once<R: Row>(
    alloc: Global,
    work: &mut WorkingNetwork<R>,
    nodes: u128,
    place: usize,
    rule: Rule,
) -> Result<Option<u128>, AddFault>
    requires sound { IsSound (circuit_of work.old) }
    requires nodes { nodes ≡ node_count (circuit_of work.old) }
    ensures done { IfOk result (λ found. found ≡ None → (work.new ≡ work.old)
        × ((table : Table) → table_at work.old.slots place ≡ Some table → IsDone rule table)) }
    ensures nodes { IfOk result (λ found. IfSome found
        (λ now. now ≡ node_count (circuit_of work.new))) }
    ensures parted { IfOk result (λ found. IfSome found
        (λ now. IsPartedAt rule place work.old work.new)) }
    ensures over { IfErr result (λ fault. fault ≡ NodeLimit → IsOverAt rule place work.old) }
{
    match due_at(alloc, work, place, rule)? {
        None => Ok(None),
        Some(due) => {
            let more = due.parting.parts.len();
            if !has_room(nodes, more) {
                return Err(AddFault::NodeLimit);
            }
            part_table(alloc, work, place, due, rule)?;
            Ok(Some(nodes + more as u128))
        }
    }
}
