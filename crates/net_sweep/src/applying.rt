//! The rules of sweep that change tables: where one applies next, and the change it makes.
//!
//! Source: the SIS manual (UCB/ERL M92/41), `sweep`. `next_rule` takes the least index from the
//! worklist of each rule in turn, until the rule applies there; it finds exactly the next step of
//! `table_step`. `apply_rule` makes the change and returns the indices of the tables that it
//! rewrote; all other tables stay alike in what a rule depends on, so only these are added to the
//! worklists. A table of one input is collapsed by exchanging aliases if its input has no more
//! fanouts than it has, so that smaller sets of fanouts are merged into larger ones.

ghost use Rattle.std.specs.Prelude.{◌≡◌, ℕ, ◌<◌, ◌==◌, Bool, true, false, Option, Some, None, List, [], ◌∷◌, ◌++◌, length, map, find, slice_get, slice_set, bytes_eq, if◌then◌else◌, IfOk, OnOk};
ghost use Rattle.std.specs.Ordering.{nat_cmp};
ghost use Rattle.std.specs.BTreeSet.{contains};
ghost use Rattle.std.specs.List.{AllByRecursion};
ghost use Rattle.std.specs.Option.{option_map, option_map_or};
ghost use Rattle.circuit_model.specs.Names.{has};
ghost use Rattle.circuit_model.specs.Soundness.{outputs_of, table_inputs};
ghost use Rattle.circuit_model.specs.declared.circuit.Table.{Table};
ghost use Rattle.circuit_laws.specs.Edits.{with_tables};
ghost use Rattle.net_core.specs.Tables.{HasCharacters};
ghost use Rattle.net_sweep.specs.declared.queues.Rule.{Rule};
ghost use Rattle.net_sweep.specs.declared.queues.Rule.TheVariants.{TidyTable, WriteConstant, PropagateConstant, CollapseSingleInput};
ghost use Rattle.net_sweep.specs.declared.applying.Change.TheVariants.{Input};
ghost use Rattle.circuit_tables.specs.Tidy.{IsWide};
ghost use Rattle.net_wires.specs.Rules.{only_input, rewired};
ghost use Rattle.net_sweep.specs.Settled.{IsFirst};
ghost use Rattle.net_sweep.specs.Settled.{passes, rule_applied, IsNext, changed_by, is_apart, is_candidate, AreWaiting, AreCandidates, AreAlikeBut, AreSound};
ghost use Rattle.net_readers.specs.Fanouts.{is_in};
ghost use Rattle.net_wires.specs.Aliases.{inputs_at};

use crate::constants::{constant_written, unwritten_bit};
use crate::queues::{Candidates, Rule, add_candidates, pop_least, put_place};
use crate::rows::{at_bit, is_inverter, rewired};
use circuit_model::{Name, Table};
use circuit_tables::{is_tidy_table, tidied_table};
use cube_cover::Row;
use net_readers::Places;
use net_wires::{AliasedTables, written_bit};
use sis_base::{Copied, Sequence};
use std::alloc::{AllocError, Global};
use std::collections::BTreeSet;

/// What the fanouts of a signal read instead of it: a bit, or another signal, complemented or not.
#[derive(Drop)]
pub(crate) enum Change {
    Bit(bool),
    Input(Name, bool),
}

// The only input of a table, if it has exactly one.
fn only_input(alloc: Global, inputs: &[Name]) -> Result<Option<Name>, AllocError>
    ensures { IfOk result (λ name. name ≡ only_input inputs.now) }
{
    if inputs.len() != 1 {
        return Ok(None);
    }
    let name = inputs[0].copy(alloc)?;
    Ok(Some(name))
}

// Whether a rule applies to a table.
fn applies_to<R: Row>(
    alloc: Global,
    rule: Rule,
    aliased: &AliasedTables,
    table: &Table,
) -> Result<bool, AllocError>
    requires { IsWide table.now }
    ensures { IfOk result (λ answer. answer ≡ passes rule aliased.now.tables table.now) }
{
    match rule {
        Rule::TidyTable => {
            let is_tidy = is_tidy_table(alloc, table)?;
            Ok(!is_tidy)
        }
        Rule::WriteConstant => {
            let bit = unwritten_bit::<R>(alloc, table)?;
            Ok(bit.is_some())
        }
        Rule::PropagateConstant => {
            let is_written = written_bit(table).is_some();
            Ok(is_written && aliased.has_readers(&table.output))
        }
        Rule::CollapseSingleInput => {
            let is_single = table.inputs.len() == 1;
            Ok(is_single && aliased.has_readers(&table.output))
        }
    }
}

// Whether a rule evidently does not apply to the table at an index, decided without copying the
// table: to propagate a constant, the table must be written as one; to be collapsed, it must have
// one input.
fn is_ruled_out(rule: Rule, aliased: &AliasedTables, place: usize) -> bool
    ensures { result ≡ true → option_map_or (passes rule aliased.now.tables)
        (slice_get aliased.now.tables place) false ≡ false }
{
    match rule {
        Rule::TidyTable | Rule::WriteConstant => false,
        Rule::PropagateConstant => aliased.bit(place).is_none(),
        Rule::CollapseSingleInput => aliased.width(place) != 1,
    }
}

// Whether a rule applies to the table at an index, if there is one.
fn applies_at<R: Row>(
    alloc: Global,
    rule: Rule,
    aliased: &AliasedTables,
    place: usize,
) -> Result<bool, AllocError>
    requires { AllByRecursion IsWide aliased.now.tables }
    ensures { IfOk result (λ answer. answer ≡ option_map_or (passes rule aliased.now.tables)
        (slice_get aliased.now.tables place) false) }
{
    if is_ruled_out(rule, aliased, place) {
        return Ok(false);
    }
    match aliased.table(alloc, place)? {
        None => Ok(false),
        Some(table) => applies_to::<R>(alloc, rule, aliased, &table),
    }
}

// The indices of the tables to which a rule applies.
fn places_for<R: Row>(
    alloc: Global,
    rule: Rule,
    aliased: &AliasedTables,
) -> Result<BTreeSet<usize>, AllocError>
    requires { AllByRecursion IsWide aliased.now.tables }
    ensures { IfOk result (λ places. AreWaiting (passes rule aliased.now.tables)
        (contains nat_cmp places) aliased.now.tables) }
{
    let mut places = BTreeSet::new(alloc);
    for place in 0..aliased.len() {
        if applies_at::<R>(alloc, rule, aliased, place)? {
            put_place(&mut places, place)?;
        }
    }
    Ok(places)
}

// For each rule the indices of the tables to which it applies.
pub(crate) fn all_candidates<R: Row>(
    alloc: Global,
    aliased: &AliasedTables,
) -> Result<Candidates, AllocError>
    requires { AllByRecursion IsWide aliased.now.tables }
    ensures { IfOk result (λ candidates. AreCandidates (is_candidate candidates)
        aliased.now.tables) }
{
    Ok(Candidates {
        untidy: places_for::<R>(alloc, Rule::TidyTable, aliased)?,
        unwritten: places_for::<R>(alloc, Rule::WriteConstant, aliased)?,
        constants: places_for::<R>(alloc, Rule::PropagateConstant, aliased)?,
        singles: places_for::<R>(alloc, Rule::CollapseSingleInput, aliased)?,
    })
}

// The first index at which a rule applies; it stays in the worklist.
fn first_place<R: Row>(
    alloc: Global,
    rule: Rule,
    aliased: &AliasedTables,
    waiting: &mut BTreeSet<usize>,
) -> Result<Option<usize>, AllocError>
    requires sound { AreSound aliased.now.tables }
    requires candidates { AreWaiting (passes rule aliased.now.tables)
        (contains nat_cmp waiting.old) aliased.now.tables }
    ensures first { IfOk result (λ place. IsFirst (passes rule aliased.now.tables)
        aliased.now.tables place) }
    ensures candidates { OnOk result (AreWaiting (passes rule aliased.now.tables)
        (contains nat_cmp waiting.new) aliased.now.tables) }
{
    while let Some(place) = pop_least(waiting) {
        if applies_at::<R>(alloc, rule, aliased, place)? {
            put_place(waiting, place)?;
            return Ok(Some(place));
        }
    }
    Ok(None)
}

// The rule and the index of the next step, if there is one.
pub(crate) fn next_rule<R: Row>(
    alloc: Global,
    aliased: &AliasedTables,
    candidates: &mut Candidates,
) -> Result<Option<(Rule, usize)>, AllocError>
    requires sound { AreSound aliased.now.tables }
    requires candidates { AreCandidates (is_candidate candidates.old) aliased.now.tables }
    ensures next { IfOk result (λ next. IsNext aliased.now next) }
    ensures candidates { OnOk result (AreCandidates
        (is_candidate candidates.new) aliased.now.tables) }
{
    if let Some(place) = first_place::<R>(
        alloc,
        Rule::TidyTable,
        aliased,
        &mut candidates.untidy,
    )? {
        return Ok(Some((Rule::TidyTable, place)));
    }
    if let Some(place) = first_place::<R>(
        alloc,
        Rule::WriteConstant,
        aliased,
        &mut candidates.unwritten,
    )? {
        return Ok(Some((Rule::WriteConstant, place)));
    }
    if let Some(place) = first_place::<R>(
        alloc,
        Rule::PropagateConstant,
        aliased,
        &mut candidates.constants,
    )? {
        return Ok(Some((Rule::PropagateConstant, place)));
    }
    if let Some(place) = first_place::<R>(
        alloc,
        Rule::CollapseSingleInput,
        aliased,
        &mut candidates.singles,
    )? {
        return Ok(Some((Rule::CollapseSingleInput, place)));
    }
    Ok(None)
}

// The list of one index.
fn one_place(alloc: Global, place: usize) -> Result<Places, AllocError>
    ensures { IfOk result (λ places. places ≡ place ∷ []) }
{
    let mut places = Sequence::new(alloc);
    places.push(place)?;
    Ok(places)
}

// A copy of the table at an index, which must have one.
fn table_at(alloc: Global, aliased: &AliasedTables, place: usize) -> Result<Table, AllocError>
    requires { place < length aliased.now.tables }
    ensures { IfOk result (λ table. slice_get aliased.now.tables place ≡ Some table) }
{
    match aliased.table(alloc, place)? {
        Some(table) => Ok(table),
        None => unreachable!(),
    }
}

// Replaces the table at an index, and returns the list of that index.
fn put_table(
    alloc: Global,
    aliased: &mut AliasedTables,
    place: usize,
    table: Table,
) -> Result<Places, AllocError>
    requires { place < length aliased.old.tables }
    ensures put { OnOk result (aliased.new ≡ with_tables aliased.old
        (slice_set aliased.old.tables place table)) }
    ensures others { IfOk result (λ places. AreAlikeBut places aliased.old.tables
        aliased.new.tables) }
{
    let places = one_place(alloc, place)?;
    aliased.set(alloc, place, table)?;
    Ok(places)
}

// The table with a signal replaced by a bit or by another signal.
fn changed(alloc: Global, table: &Table, name: &Name, change: &Change) -> Result<Table, AllocError>
    requires { HasCharacters (length table.now.inputs) table.now.rows }
    ensures { IfOk result (λ made. made ≡ changed_by name.now change.now table.now) }
{
    match change {
        Change::Bit(bit) => at_bit(alloc, table, name, *bit),
        Change::Input(to, inverts) => rewired(alloc, table, name, to, *inverts),
    }
}

// Changes the table at an index, if there is one.
fn change_at(
    alloc: Global,
    aliased: &mut AliasedTables,
    place: usize,
    name: &Name,
    change: &Change,
) -> Result<(), AllocError>
    requires { AllByRecursion IsWide aliased.old.tables }
    ensures same { OnOk result (aliased.new ≡ with_tables aliased.old aliased.new.tables) }
    ensures changed { OnOk result ((other : ℕ) → slice_get aliased.new.tables other
        ≡ (if place == other then option_map (changed_by name.now change.now)
        (slice_get aliased.old.tables other) else slice_get aliased.old.tables other)) }
{
    match aliased.table(alloc, place)? {
        None => Ok(()),
        Some(table) => {
            let made = changed(alloc, &table, name, change)?;
            aliased.set(alloc, place, made)
        }
    }
}

// Changes the tables at some indices, which must include all that read the signal.
fn change_all(
    alloc: Global,
    aliased: &mut AliasedTables,
    places: &[usize],
    name: &Name,
    change: &Change,
) -> Result<(), AllocError>
    requires sound { AreSound aliased.old.tables }
    requires apart { is_apart name.now change.now ≡ true }
    requires all { (place : ℕ) → has (inputs_at aliased.old.tables place) name.now ≡ true
        → is_in places.now place ≡ true }
    ensures { OnOk result (aliased.new ≡ with_tables aliased.old
        (map (changed_by name.now change.now) aliased.old.tables)) }
{
    for place in places {
        change_at(alloc, aliased, *place, name, change)?;
    }
    Ok(())
}

// Changes each table that reads a signal, and returns their indices.
fn change_readers(
    alloc: Global,
    aliased: &mut AliasedTables,
    name: &Name,
    change: &Change,
) -> Result<Places, AllocError>
    requires sound { AreSound aliased.old.tables }
    requires apart { is_apart name.now change.now ≡ true }
    ensures changed { OnOk result (aliased.new ≡ with_tables aliased.old
        (map (changed_by name.now change.now) aliased.old.tables)) }
    ensures others { IfOk result (λ places. AreAlikeBut places aliased.old.tables
        aliased.new.tables) }
{
    let places = aliased.places(alloc, name)?;
    change_all(alloc, aliased, places.as_slice(), name, change)?;
    Ok(places)
}

// The tables at some indices, each rewritten to read one signal instead of another.
fn rewired_tables(
    alloc: Global,
    aliased: &AliasedTables,
    places: &[usize],
    from: &Name,
    to: &Name,
    inverts: bool,
) -> Result<Vec<Table>, AllocError>
    requires wide { AllByRecursion IsWide aliased.now.tables }
    requires within { (place : ℕ) → is_in places.now place ≡ true
        → place < length aliased.now.tables }
    ensures { IfOk result (λ made. map Some made.items ≡ map
        (λ place. option_map (rewired from.now to.now inverts)
        (slice_get aliased.now.tables place)) places.now) }
{
    let mut made = Vec::with_capacity(alloc, places.len())?;
    for place in places {
        let table = table_at(alloc, aliased, *place)?;
        made.push(rewired(alloc, &table, from, to, inverts)?)?;
    }
    Ok(made)
}

// Sets the tables at some indices.
fn set_tables(
    alloc: Global,
    aliased: &mut AliasedTables,
    places: &[usize],
    tables: &[Table],
) -> Result<(), AllocError>
    requires each { length tables.now ≡ length places.now }
    requires within { (place : ℕ) → is_in places.now place ≡ true
        → place < length aliased.old.tables }
    ensures same { OnOk result (aliased.new ≡ with_tables aliased.old aliased.new.tables) }
    ensures set { OnOk result ((place : ℕ) → is_in places.now place ≡ true → (i : ℕ)
        × (slice_get places.now i ≡ Some place) × (slice_get aliased.new.tables place
        ≡ slice_get tables.now i)) }
    ensures others { OnOk result ((place : ℕ) → is_in places.now place ≡ false
        → slice_get aliased.new.tables place ≡ slice_get aliased.old.tables place) }
{
    for (i, place) in places.iter().enumerate() {
        aliased.set(alloc, *place, tables[i].copy(alloc)?)?;
    }
    Ok(())
}

// Makes each table that reads a signal read another one instead, complemented if asked: exchanges
// the two everywhere, and then rewrites the tables that read the other one before.
fn rewire_by_exchange(
    alloc: Global,
    aliased: &mut AliasedTables,
    from: &Name,
    to: &Name,
    inverts: bool,
) -> Result<Places, AllocError>
    requires sound { AreSound aliased.old.tables }
    requires tidy { find (passes TidyTable aliased.old.tables) aliased.old.tables ≡ None }
    requires apart { bytes_eq from.now to.now ≡ false }
    ensures changed { OnOk result (aliased.new ≡ with_tables aliased.old
        (map (changed_by from.now (Input to.now inverts)) aliased.old.tables)) }
    ensures others { IfOk result (λ places. AreAlikeBut places aliased.old.tables
        aliased.new.tables) }
{
    let places = aliased.places(alloc, to)?;
    let tables = rewired_tables(alloc, aliased, places.as_slice(), from, to, inverts)?;
    aliased.exchange_aliases(alloc, from, to, inverts)?;
    set_tables(alloc, aliased, places.as_slice(), tables.as_slice())?;
    Ok(places)
}

// Makes each table that reads a signal read another one instead, complemented if asked. The fanouts
// of the signal that has fewer are rewritten, those of the second if both have as many, so that the
// smaller set of fanouts is merged into the larger one.
fn rewire(
    alloc: Global,
    aliased: &mut AliasedTables,
    from: &Name,
    to: Name,
    inverts: bool,
) -> Result<Places, AllocError>
    requires sound { AreSound aliased.old.tables }
    requires tidy { find (passes TidyTable aliased.old.tables) aliased.old.tables ≡ None }
    requires apart { bytes_eq from.now to ≡ false }
    ensures changed { OnOk result (aliased.new ≡ with_tables aliased.old
        (map (changed_by from.now (Input to inverts)) aliased.old.tables)) }
    ensures others { IfOk result (λ places. AreAlikeBut places aliased.old.tables
        aliased.new.tables) }
{
    if aliased.count(&to) <= aliased.count(from) {
        return rewire_by_exchange(alloc, aliased, from, &to, inverts);
    }
    change_readers(alloc, aliased, from, &Change::Input(to, inverts))
}

// Applies a rule at an index, and returns the indices of the tables that it rewrote.
fn apply<R: Row>(
    alloc: Global,
    rule: Rule,
    aliased: &mut AliasedTables,
    place: usize,
) -> Result<Places, AllocError>
    requires sound { AreSound aliased.old.tables }
    requires within { place < length aliased.old.tables }
    requires tidy { rule ≡ CollapseSingleInput → find
        (passes TidyTable aliased.old.tables) aliased.old.tables ≡ None }
    ensures applied { OnOk result ((table : Table) → slice_get aliased.old.tables place
        ≡ Some table → aliased.new ≡ rule_applied rule aliased.old table) }
    ensures others { IfOk result (λ places. AreAlikeBut places aliased.old.tables
        aliased.new.tables) }
{
    let table = table_at(alloc, aliased, place)?;
    match rule {
        Rule::TidyTable => {
            let tidied = tidied_table(alloc, table)?;
            put_table(alloc, aliased, place, tidied)
        }
        Rule::WriteConstant => match constant_written::<R>(alloc, table)? {
            None => Ok(Sequence::new(alloc)),
            Some(constant) => put_table(alloc, aliased, place, constant),
        },
        Rule::PropagateConstant => match written_bit(&table) {
            None => Ok(Sequence::new(alloc)),
            Some(bit) => change_readers(alloc, aliased, &table.output, &Change::Bit(bit)),
        },
        Rule::CollapseSingleInput => match only_input(alloc, table.inputs.as_slice())? {
            None => Ok(Sequence::new(alloc)),
            Some(input) => {
                let inverts = is_inverter(&table);
                rewire(alloc, aliased, &table.output, input, inverts)
            }
        },
    }
}

// Applies a rule at an index, adds the tables that it rewrote to the worklists, and returns their
// indices.
pub(crate) fn apply_rule<R: Row>(
    alloc: Global,
    rule: Rule,
    place: usize,
    aliased: &mut AliasedTables,
    candidates: &mut Candidates,
) -> Result<Places, AllocError>
    requires sound { AreSound aliased.old.tables }
    requires within { place < length aliased.old.tables }
    requires tidy { rule ≡ CollapseSingleInput → find
        (passes TidyTable aliased.old.tables) aliased.old.tables ≡ None }
    requires candidates { AreCandidates (is_candidate candidates.old) aliased.old.tables }
    ensures applied { OnOk result ((table : Table) → slice_get aliased.old.tables place
        ≡ Some table → aliased.new ≡ rule_applied rule aliased.old table) }
    ensures others { IfOk result (λ places. AreAlikeBut places aliased.old.tables
        aliased.new.tables) }
    ensures candidates { OnOk result (AreCandidates
        (is_candidate candidates.new) aliased.new.tables) }
{
    let places = apply::<R>(alloc, rule, aliased, place)?;
    add_candidates(candidates, places.as_slice())?;
    Ok(places)
}
