//! The fate of each table: it is written as it is, inlined, left out, or the root of a tree.
//!
//! Source: Keutzer, "DAGON: Technology binding and local optimization by DAG matching" (24th Design
//! Automation Conference, 1987). A constant table stays a table. Any other table is a root if its
//! output is an output, a latch input, or an input of a constant table; else the literals of its
//! output in all rows decide: none, one, or more. Callers rely on `fate_of`, one fate for each
//! table in order. Counts saturate at the greatest word, which changes no fate.

ghost use Rattle.std.specs.Prelude.{◌≡◌, ◌+◌, ℕ, Bool, ◌&&◌, ◌||◌, List, length, map, filter, bytes_eq, if◌then◌else◌, IfOk, OnOk};
ghost use Rattle.std.specs.List.{AllByRecursion, list_any};
ghost use Rattle.indexmap.specs.IndexMap.{get};
ghost use Rattle.circuit_model.specs.Names.{has};
ghost use Rattle.circuit_model.specs.Counts.{is_literal};
ghost use Rattle.circuit_model.specs.Soundness.{IsShaped, table_inputs};
ghost use Rattle.circuit_model.specs.declared.circuit.Tri.{Tri};
ghost use Rattle.circuit_model.specs.declared.circuit.Latch.{Latch};
ghost use Rattle.circuit_model.specs.declared.circuit.Table.{Table};
ghost use Rattle.subject_tree.specs.Tables.{is_blank, is_constant};
ghost use Rattle.subject_tree.specs.Forest.{uses_in_row, uses_in_rows, uses_of, is_outer, fate_by, fate_of, count_in, AreCounts};

use circuit_model::{Circuit, Latch, Name, Row, Table, Tri};
use indexmap::{IndexMap, IndexSet};
use sis_base::Copied;
use std::alloc::{AllocError, Global};

/// What becomes of a table.
#[derive(Clone, Copy, Debug, PartialEq, Eq)]
pub enum Role {
    /// It stays a table without a tree, and its signal is a leaf of the trees of its fanouts.
    Constant,
    /// A single literal uses it, and it is inlined: its tree is part of the tree of its reader.
    Put,
    /// Nothing reads it, and it has no tree.
    Unused,
    /// It is the root of a tree of its own.
    Root,
}

// Whether a character is a literal.
fn is_literal(character: &Tri) -> bool
    ensures { result ≡ is_literal character.now }
{
    match character {
        Tri::Zero => true,
        Tri::One => true,
        Tri::Free => false,
    }
}

// Whether a row has a literal.
fn has_some(row: &Row) -> bool
    ensures { result ≡ list_any is_literal row.now }
{
    row.as_slice().iter().any(|character| is_literal(character))
}

// Whether a row has no literal.
fn is_blank(row: &Row) -> bool
    ensures { result ≡ is_blank row.now }
{
    !has_some(row)
}

// Whether some row has no literal.
fn has_blank(rows: &[Row]) -> bool
    ensures { result ≡ list_any is_blank rows.now }
{
    rows.iter().any(|row| is_blank(row))
}

// Whether a table is constant: it has no row, or a row without literals.
#[tactic(auto, unfolding(crate::specs::Tables::is_constant))]
fn is_constant(table: &Table) -> bool
    ensures { result ≡ is_constant table.now }
{
    table.rows.is_empty() || has_blank(table.rows.as_slice())
}

// The count of a signal; 0 if there is none yet.
fn count_of(counts: &IndexMap<Name, u64>, signal: &Name) -> u64
    ensures { result ≡ count_in (get bytes_eq counts.now signal.now) }
{
    match counts.get(signal) {
        Some(count) => *count,
        None => 0,
    }
}

// Sets the count of a signal.
fn set_count(counts: &mut IndexMap<Name, u64>, signal: Name, count: u64) -> Result<(), AllocError>
    ensures { OnOk result ((other : List ℕ) → count_in (get bytes_eq counts.new other)
        ≡ (if bytes_eq signal other then count else count_in (get bytes_eq counts.old other))) }
{
    let _count = counts.insert(signal, count)?;
    Ok(())
}

// Adds a character of a row to the count of its input, if it is a literal.
fn count_character(
    alloc: Global,
    counts: &mut IndexMap<Name, u64>,
    input: &Name,
    character: Tri,
) -> Result<(), AllocError>
    ensures { OnOk result ((uses : List ℕ → ℕ) → AreCounts (get bytes_eq counts.old) uses
        → AreCounts (get bytes_eq counts.new) (λ signal. uses signal +
        (if is_literal character && bytes_eq input.now signal then 1 else 0))) }
{
    if !is_literal(&character) {
        return Ok(());
    }
    let count = count_of(counts, input).saturating_add(1);
    set_count(counts, input.copy(alloc)?, count)
}

// Adds the literals of a row to the counts.
fn count_row(
    alloc: Global,
    counts: &mut IndexMap<Name, u64>,
    inputs: &[Name],
    row: &[Tri],
) -> Result<(), AllocError>
    requires { length row.now ≡ length inputs.now }
    ensures { OnOk result ((uses : List ℕ → ℕ) → AreCounts (get bytes_eq counts.old) uses
        → AreCounts (get bytes_eq counts.new) (λ signal. uses signal + uses_in_row signal inputs.now
        row.now)) }
{
    let mut place = inputs.len();
    while place > 0 {
        place -= 1;
        count_character(alloc, counts, &inputs[place], row[place])?;
    }
    Ok(())
}

// Adds the literals of rows to the counts.
fn count_rows(
    alloc: Global,
    counts: &mut IndexMap<Name, u64>,
    inputs: &[Name],
    rows: &[Row],
) -> Result<(), AllocError>
    requires { AllByRecursion (λ (row : List Tri). length row ≡ length inputs.now) rows.now }
    ensures { OnOk result ((uses : List ℕ → ℕ) → AreCounts (get bytes_eq counts.old) uses
        → AreCounts (get bytes_eq counts.new) (λ signal. uses signal + uses_in_rows signal
        inputs.now rows.now)) }
{
    let mut place = rows.len();
    while place > 0 {
        place -= 1;
        count_row(alloc, counts, inputs, rows[place].as_slice())?;
    }
    Ok(())
}

// The uses of each signal, as words: its literals in all rows.
fn count_uses(alloc: Global, tables: &[Table]) -> Result<IndexMap<Name, u64>, AllocError>
    requires { AllByRecursion IsShaped tables.now }
    ensures { IfOk result (λ counts. AreCounts (get bytes_eq counts) (uses_of tables.now)) }
{
    let mut counts = IndexMap::new(alloc);
    let mut place = tables.len();
    while place > 0 {
        place -= 1;
        let table = &tables[place];
        count_rows(
            alloc,
            &mut counts,
            table.inputs.as_slice(),
            table.rows.as_slice(),
        )?;
    }
    Ok(counts)
}

// The fate of a table, by whether its output must remain a signal and by its uses.
fn judge(table: &Table, is_outer: bool, uses: u64) -> Role
    ensures { result ≡ fate_by (is_constant table.now) is_outer uses }
{
    if is_constant(table) {
        return Role::Constant;
    }
    if is_outer {
        return Role::Root;
    }
    match uses {
        0 => Role::Unused,
        1 => Role::Put,
        _ => Role::Root,
    }
}

// Adds a name to a set.
fn add_name(alloc: Global, names: &mut IndexSet<Name>, name: &Name) -> Result<(), AllocError>
    ensures { OnOk result ((signal : List ℕ) → has names.new.keys signal
        ≡ (has names.old.keys signal || bytes_eq signal name.now)) }
{
    let (_place, _new) = names.insert_full(name.copy(alloc)?)?;
    Ok(())
}

// Adds names to a set.
fn add_names(alloc: Global, names: &mut IndexSet<Name>, more: &[Name]) -> Result<(), AllocError>
    ensures { OnOk result ((signal : List ℕ) → has names.new.keys signal
        ≡ (has names.old.keys signal || has more.now signal)) }
{
    let mut place = more.len();
    while place > 0 {
        place -= 1;
        add_name(alloc, names, &more[place])?;
    }
    Ok(())
}

// Adds the latch inputs to a set.
fn add_latch_inputs(
    alloc: Global,
    names: &mut IndexSet<Name>,
    latches: &[Latch],
) -> Result<(), AllocError>
    ensures { OnOk result ((signal : List ℕ) → has names.new.keys signal
        ≡ (has names.old.keys signal || has (map (λ (latch : Latch). latch.input) latches.now)
        signal)) }
{
    let mut place = latches.len();
    while place > 0 {
        place -= 1;
        add_name(alloc, names, &latches[place].input)?;
    }
    Ok(())
}

// Adds the inputs of a table to a set, if the table is constant.
fn add_if_constant(
    alloc: Global,
    names: &mut IndexSet<Name>,
    table: &Table,
) -> Result<(), AllocError>
    ensures { OnOk result ((signal : List ℕ) → has names.new.keys signal
        ≡ (has names.old.keys signal || (is_constant table.now && has table.now.inputs
        signal))) }
{
    if is_constant(table) {
        return add_names(alloc, names, table.inputs.as_slice());
    }
    Ok(())
}

// Adds the inputs of all constant tables to a set.
fn add_constant_inputs(
    alloc: Global,
    names: &mut IndexSet<Name>,
    tables: &[Table],
) -> Result<(), AllocError>
    ensures { OnOk result ((signal : List ℕ) → has names.new.keys signal
        ≡ (has names.old.keys signal || has (table_inputs (filter is_constant tables.now))
        signal)) }
{
    let mut place = tables.len();
    while place > 0 {
        place -= 1;
        add_if_constant(alloc, names, &tables[place])?;
    }
    Ok(())
}

// The signals that must remain, whatever their uses.
fn outer_names(alloc: Global, circuit: &Circuit) -> Result<IndexSet<Name>, AllocError>
    ensures { IfOk result (λ names. (signal : List ℕ) → has names.keys signal
        ≡ is_outer circuit.now signal) }
{
    let mut names = IndexSet::new(alloc);
    add_names(alloc, &mut names, circuit.outputs.as_slice())?;
    add_latch_inputs(alloc, &mut names, circuit.latches.as_slice())?;
    add_constant_inputs(alloc, &mut names, circuit.tables.as_slice())?;
    Ok(names)
}

// Whether a name is in a set.
fn is_among(names: &IndexSet<Name>, name: &Name) -> bool
    ensures { result ≡ has names.now.keys name.now }
{
    names.contains(name)
}

// The fate of each table, by the signals that must remain and by the uses.
fn judge_all(
    alloc: Global,
    tables: &[Table],
    outer: &IndexSet<Name>,
    counts: &IndexMap<Name, u64>,
) -> Result<Vec<Role>, AllocError>
    ensures { IfOk result (λ fates. fates.items ≡ map
        (λ (table : Table). fate_by (is_constant table) (has outer.now.keys table.output)
        (count_in (get bytes_eq counts.now table.output))) tables.now) }
{
    let mut fates = Vec::with_capacity(alloc, tables.len())?;
    for table in tables {
        let is_outer = is_among(outer, &table.output);
        let uses = count_of(counts, &table.output);
        fates.push(judge(table, is_outer, uses))?;
    }
    Ok(fates)
}

/// The fate of each table, in order.
pub fn fates(alloc: Global, circuit: &Circuit) -> Result<Vec<Role>, AllocError>
    requires { AllByRecursion IsShaped circuit.now.tables }
    ensures { IfOk result (λ fates. fates.items ≡ map (fate_of circuit.now) circuit.now.tables) }
{
    let tables = circuit.tables.as_slice();
    let outer = outer_names(alloc, circuit)?;
    let counts = count_uses(alloc, tables)?;
    let fates = judge_all(alloc, tables, &outer, &counts)?;
    Ok(fates)
}
