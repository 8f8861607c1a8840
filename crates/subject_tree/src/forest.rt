//! The forest of a circuit: one tree for each root, with the tables that a single literal uses
//! inlined.
//!
//! Source: Keutzer, "DAGON: Technology binding and local optimization by DAG matching" (24th Design
//! Automation Conference, 1987). First the trees of the inlined tables are made in topological
//! order, then those of the roots in the order of their tables. Callers rely on `IsForest`: the
//! roots are exactly the tables with the fate `Root`, each with its table's tree over named leaves.
//! No tree of the arena has more than `MAX_VERTICES` vertices, and `TreeLimit` is returned only if
//! the roots' trees have more together, shared trees counted each time.

ghost use Rattle.std.specs.Prelude.{◌≡◌, ◌<◌, ◌≤◌, ◌++◌, ◌∷◌, ℕ, List, Option, Some, None, [], true, false, length, map, slice_get, slice_index_or, option_copied, sum_by, Err, bytes_eq, if◌then◌else◌, IfSome, IfOk, OnOk};
ghost use Rattle.std.specs.List.{AllByRecursion};
ghost use Rattle.std.specs.Option.{option_map_or};
ghost use Rattle.indexmap.specs.IndexMap.{get};
ghost use Rattle.circuit_model.specs.Names.{all_different};
ghost use Rattle.circuit_model.specs.Soundness.{outputs_of, IsShaped, IsAcyclic};
ghost use Rattle.circuit_model.specs.Values.{driver};
ghost use Rattle.circuit_model.specs.declared.circuit.Circuit.{Circuit};
ghost use Rattle.circuit_model.specs.declared.circuit.Table.{Table};
ghost use Rattle.circuit_order.specs.Order.{IsOrdered};
ghost use Rattle.circuit_order.specs.Places.{IsIndex};
ghost use Rattle.subject_tree.specs.Trees.{Tree, renamed, size_of};
ghost use Rattle.subject_tree.specs.Order.{name_at, KeepsNames};
ghost use Rattle.subject_tree.specs.Arenas.{tree_at, KeepsTrees};
ghost use Rattle.subject_tree.specs.Tables.{trees_of, AreTaken, is_constant};
ghost use Rattle.subject_tree.specs.Forest.{fate_of, is_put, is_put_fate, put_driver, AreTrees};
ghost use Rattle.subject_tree.specs.Sizes.{word_count};
ghost use Rattle.subject_tree.specs.declared.forest.Root.{Root as TheRoot};
ghost use Rattle.subject_tree.specs.declared.forest.ForestFault.TheVariants.{TreeLimit as TooLarge};
ghost use Rattle.subject_tree.specs.Reading.{HasTree, IsRead, AreRead, IsMade, AllTaken, IsGrown, IsReady, noted};
ghost use Rattle.subject_tree.specs.Roots.{tree_over, is_root_fate, roots_of, AreRoots, IsForest, IsTooLarge};

use crate::arena::Arena;
use crate::judging::{Role, fates};
use crate::laws::forest_trees_are_there;
use crate::leaves::Leaves;
use crate::pruning::shrink;
use crate::sizes::size_at;
use crate::tables::table_number;
use circuit_model::{Circuit, Name, Table};
use circuit_order::laws::acyclic_tables_are_ordered;
use circuit_order::order;
use indexmap::IndexMap;
use sis_base::Copied;
use sis_base::limits::MAX_VERTICES;
use std::alloc::{AllocError, Global};

/// The root of a tree: the name of its table's output, and the number of the tree.
#[derive(Debug, Drop)]
pub struct Root {
    pub name: Name,
    pub number: usize,
}

/// The trees of a circuit's roots, by their numbers in the arena; their leaves are indices into
/// `leaves`.
#[derive(Drop)]
pub struct Forest {
    pub arena: Arena,
    pub leaves: Leaves,
    pub roots: Vec<Root>,
}

/// Why there is no forest: the trees of all roots are too large together, or memory ran out.
#[derive(Debug, Drop)]
pub enum ForestFault {
    TreeLimit,
    Memory,
}

impl From<AllocError> for ForestFault {
    ghost use Rattle.std.specs.Prelude.{◌≡◌};
    ghost use Rattle.subject_tree.specs.declared.forest.ForestFault.TheVariants.{Memory};

    ghost from_gives = { λ _ fault. fault ≡ Memory };

    fn from(_error: AllocError) -> ForestFault {
        ForestFault::Memory
    }
}

// The number of a name in a map.
fn find(map: &IndexMap<Name, usize>, name: &Name) -> Option<usize>
    ensures { result ≡ get bytes_eq map.now name.now }
{
    map.get(name).copied()
}

// The number of a signal's tree as it is read: its own, or else that of its leaf.
fn read_signal(
    alloc: Global,
    arena: &mut Arena,
    leaves: &mut Leaves,
    numbers: &IndexMap<Name, usize>,
    signal: &Name,
) -> Result<usize, AllocError>
    requires { AllTaken arena.old (get bytes_eq numbers.now) }
    ensures taken { IfOk result (λ number. number < length arena.new) }
    ensures tree { IfOk result (λ number. (t : Tree (List ℕ))
        → IsRead arena.old leaves.old signal.now (get bytes_eq numbers.now signal.now) t
        → HasTree arena.new leaves.new number t) }
    ensures kept { KeepsTrees arena.old arena.new }
    ensures named { KeepsNames leaves.old leaves.new }
{
    match find(numbers, signal) {
        Some(number) => Ok(number),
        None => {
            let place = leaves.place_of(signal.copy(alloc)?)?;
            let number = arena.leaf(place)?;
            Ok(number)
        }
    }
}

// The numbers of the trees of signals as they are read.
fn read_signals(
    alloc: Global,
    arena: &mut Arena,
    leaves: &mut Leaves,
    numbers: &IndexMap<Name, usize>,
    signals: &[Name],
) -> Result<Vec<usize>, AllocError>
    requires { AllTaken arena.old (get bytes_eq numbers.now) }
    ensures taken { IfOk result (λ found. AreTaken arena.new found.items) }
    ensures count { IfOk result (λ found. length found.items ≡ length signals.now) }
    ensures trees { IfOk result (λ found. (tree : List ℕ → Tree (List ℕ))
        → AreRead arena.old leaves.old (get bytes_eq numbers.now) tree signals.now
        → (more : List (List ℕ)) → KeepsNames leaves.new more → map (renamed (name_at more))
        (trees_of arena.new found.items) ≡ map tree signals.now) }
    ensures kept { KeepsTrees arena.old arena.new }
    ensures named { KeepsNames leaves.old leaves.new }
{
    let mut found = Vec::with_capacity(alloc, signals.len())?;
    for signal in signals {
        found.push(read_signal(alloc, arena, leaves, numbers, signal)?)?;
    }
    Ok(found)
}

// The number of a table's tree over the trees of its inputs.
fn grow_table(
    alloc: Global,
    arena: &mut Arena,
    leaves: &mut Leaves,
    numbers: &IndexMap<Name, usize>,
    table: &Table,
) -> Result<Option<usize>, AllocError>
    requires taken { AllTaken arena.old (get bytes_eq numbers.now) }
    requires shaped { IsShaped table.now }
    ensures taken { IfOk result (λ made. IfSome made (λ n. n < length arena.new)) }
    ensures tree { IfOk result (λ made. (tree : List ℕ → Tree (List ℕ))
        → AreRead arena.old leaves.old (get bytes_eq numbers.now) tree table.now.inputs
        → IsMade arena.new leaves.new made (tree_over tree table.now)) }
    ensures kept { KeepsTrees arena.old arena.new }
    ensures named { KeepsNames leaves.old leaves.new }
{
    let inputs = read_signals(alloc, arena, leaves, numbers, table.inputs.as_slice())?;
    let made = table_number(arena, inputs.as_slice(), table)?;
    Ok(made)
}

// Sets the number of a name.
fn note(map: &mut IndexMap<Name, usize>, name: Name, number: usize) -> Result<(), AllocError>
    ensures { OnOk result ((other : List ℕ) → get bytes_eq map.new other
        ≡ (if bytes_eq name other then Some number else get bytes_eq map.old other)) }
{
    let _old = map.insert(name, number)?;
    Ok(())
}

// The index of each table by its output.
fn index_of(alloc: Global, tables: &[Table]) -> Result<IndexMap<Name, usize>, AllocError>
    requires { all_different (outputs_of tables.now) ≡ true }
    ensures { IfOk result (λ index. IsIndex tables.now (get bytes_eq index)) }
{
    let mut index = IndexMap::new(alloc);
    for (place, table) in tables.iter().enumerate() {
        note(&mut index, table.output.copy(alloc)?, place)?;
    }
    Ok(index)
}

// Sets the number of a signal's tree, if one was made.
fn note_made(
    alloc: Global,
    numbers: &mut IndexMap<Name, usize>,
    signal: &Name,
    made: Option<usize>,
) -> Result<(), AllocError>
    ensures { OnOk result ((other : List ℕ) → get bytes_eq numbers.new other ≡ noted
        (get bytes_eq numbers.old) signal.now made other) }
{
    match made {
        None => Ok(()),
        Some(number) => {
            note(numbers, signal.copy(alloc)?, number)?;
            Ok(())
        }
    }
}

// Makes the tree of an inlined table, and sets its number.
fn grow_put(
    alloc: Global,
    arena: &mut Arena,
    leaves: &mut Leaves,
    numbers: &mut IndexMap<Name, usize>,
    table: &Table,
) -> Result<(), AllocError>
    requires taken { AllTaken arena.old (get bytes_eq numbers.old) }
    requires shaped { IsShaped table.now }
    ensures taken { OnOk result (AllTaken arena.new (get bytes_eq numbers.new)) }
    ensures grown { OnOk result ((circuit : Circuit) (tree : List ℕ → Tree (List ℕ))
        (listed : List (List ℕ)) → AreTrees circuit tree → is_put circuit table.now.output ≡ true
        → driver circuit.tables table.now.output ≡ Some table.now
        → IsReady circuit.tables listed table.now.output → IsGrown circuit arena.old leaves.old
        (get bytes_eq numbers.old) tree listed → IsGrown circuit arena.new leaves.new
        (get bytes_eq numbers.new) tree (listed ++ table.now.output ∷ [])) }
    ensures kept { OnOk result (KeepsTrees arena.old arena.new) }
    ensures named { OnOk result (KeepsNames leaves.old leaves.new) }
{
    let made = grow_table(alloc, arena, leaves, numbers, table)?;
    note_made(alloc, numbers, &table.output, made)?;
    Ok(())
}

// Whether the table at an index is inlined.
fn is_put_at(fates: &[Role], place: usize) -> bool
    ensures { result ≡ option_map_or is_put_fate (slice_get fates.now place) false }
{
    matches!(fates.get(place), Some(Role::Put))
}

// Whether the table at an index is the root of a tree.
fn is_root_at(fates: &[Role], place: usize) -> bool
    ensures { result ≡ option_map_or is_root_fate (slice_get fates.now place) false }
{
    matches!(fates.get(place), Some(Role::Root))
}

// The table at an index, if there is one.
fn table_at(tables: &[Table], place: usize) -> Option<&Table>
    ensures { option_copied result ≡ slice_get tables.now place }
{
    tables.get(place)
}

// The table of a signal, if it is inlined.
fn put_table<'a>(
    circuit: &'a Circuit,
    fates: &[Role],
    index: &IndexMap<Name, usize>,
    signal: &Name,
) -> Option<&'a Table>
    requires different { all_different (outputs_of circuit.now.tables) ≡ true }
    requires fates { fates.now ≡ map (fate_of circuit.now) circuit.now.tables }
    requires index { IsIndex circuit.now.tables (get bytes_eq index.now) }
    ensures { option_copied result ≡ put_driver circuit.now signal.now }
{
    match find(index, signal) {
        None => None,
        Some(place) => {
            if is_put_at(fates, place) {
                table_at(circuit.tables.as_slice(), place)
            } else {
                None
            }
        }
    }
}

// Makes the tree of an inlined table, if there is one.
fn grow_found(
    alloc: Global,
    arena: &mut Arena,
    leaves: &mut Leaves,
    numbers: &mut IndexMap<Name, usize>,
    found: Option<&Table>,
) -> Result<(), AllocError>
    requires taken { AllTaken arena.old (get bytes_eq numbers.old) }
    requires shaped { IfSome (option_copied found) IsShaped }
    ensures taken { OnOk result (AllTaken arena.new (get bytes_eq numbers.new)) }
    ensures grown { OnOk result ((circuit : Circuit) (tree : List ℕ → Tree (List ℕ))
        (listed : List (List ℕ)) (name : List ℕ) → AreTrees circuit tree → option_copied found.entry
        ≡ put_driver circuit name → IsReady circuit.tables listed name
        → IsGrown circuit arena.old leaves.old (get bytes_eq numbers.old) tree listed
        → IsGrown circuit arena.new leaves.new (get bytes_eq numbers.new) tree
        (listed ++ name ∷ [])) }
{
    match found {
        None => Ok(()),
        Some(table) => {
            grow_put(alloc, arena, leaves, numbers, table)?;
            Ok(())
        }
    }
}

// The numbers of the trees of inlined tables by their outputs, given the topological order of all
// tables.
fn grow_listed(
    alloc: Global,
    arena: &mut Arena,
    leaves: &mut Leaves,
    circuit: &Circuit,
    fates: &[Role],
    index: &IndexMap<Name, usize>,
    names: &[Name],
) -> Result<IndexMap<Name, usize>, AllocError>
    requires different { all_different (outputs_of circuit.now.tables) ≡ true }
    requires shaped { AllByRecursion IsShaped circuit.now.tables }
    requires fates { fates.now ≡ map (fate_of circuit.now) circuit.now.tables }
    requires index { IsIndex circuit.now.tables (get bytes_eq index.now) }
    requires ordered { IsOrdered circuit.now.tables names.now }
    ensures taken { IfOk result (λ numbers. AllTaken arena.new (get bytes_eq numbers)) }
    ensures read { IfOk result (λ numbers. (tree : List ℕ → Tree (List ℕ))
        → AreTrees circuit.now tree → (signals : List (List ℕ)) → AreRead arena.new leaves.new
        (get bytes_eq numbers) tree signals) }
{
    let mut numbers = IndexMap::new(alloc);
    for name in names {
        let found = put_table(circuit, fates, index, name);
        grow_found(alloc, arena, leaves, &mut numbers, found)?;
    }
    Ok(numbers)
}

// The numbers of the trees of inlined tables by their outputs.
fn build_inlined(
    alloc: Global,
    arena: &mut Arena,
    leaves: &mut Leaves,
    circuit: &Circuit,
    fates: &[Role],
) -> Result<IndexMap<Name, usize>, AllocError>
    requires acyclic { IsAcyclic circuit.now.tables }
    requires different { all_different (outputs_of circuit.now.tables) ≡ true }
    requires shaped { AllByRecursion IsShaped circuit.now.tables }
    requires fates { fates.now ≡ map (fate_of circuit.now) circuit.now.tables }
    ensures taken { IfOk result (λ numbers. AllTaken arena.new (get bytes_eq numbers)) }
    ensures read { IfOk result (λ numbers. (tree : List ℕ → Tree (List ℕ))
        → AreTrees circuit.now tree → (signals : List (List ℕ)) → AreRead arena.new leaves.new
        (get bytes_eq numbers) tree signals) }
{
    acyclic_tables_are_ordered();
    let tables = circuit.tables.as_slice();
    let names = order(alloc, tables)?;
    let index = index_of(alloc, tables)?;
    let numbers = grow_listed(
        alloc,
        arena,
        leaves,
        circuit,
        fates,
        &index,
        names.as_slice(),
    )?;
    Ok(numbers)
}

// Makes the tree of a table that is a root, and appends the root.
fn add_root(
    alloc: Global,
    arena: &mut Arena,
    leaves: &mut Leaves,
    numbers: &IndexMap<Name, usize>,
    roots: &mut Vec<Root>,
    table: &Table,
) -> Result<(), AllocError>
    requires taken { AllTaken arena.old (get bytes_eq numbers.now) }
    requires shaped { IsShaped table.now }
    ensures kept { OnOk result (KeepsTrees arena.old arena.new) }
    ensures named { OnOk result (KeepsNames leaves.old leaves.new) }
    ensures added { OnOk result ((tree : List ℕ → Tree (List ℕ)) (tables : List Table)
        → AreRead arena.old leaves.old (get bytes_eq numbers.now) tree table.now.inputs
        → is_constant table.now ≡ false → AreRoots arena.old leaves.old tree tables roots.old.items
        → AreRoots arena.new leaves.new tree (tables ++ table.now ∷ []) roots.new.items) }
{
    let made = grow_table(alloc, arena, leaves, numbers, table)?;
    match made {
        None => Ok(()),
        Some(number) => {
            let name = table.output.copy(alloc)?;
            roots.push(Root { name, number })?;
            Ok(())
        }
    }
}

// Appends the root of a table, if the table is one.
fn add_if_root(
    alloc: Global,
    arena: &mut Arena,
    leaves: &mut Leaves,
    numbers: &IndexMap<Name, usize>,
    roots: &mut Vec<Root>,
    table: &Table,
    is_root: bool,
) -> Result<(), AllocError>
    requires taken { AllTaken arena.old (get bytes_eq numbers.now) }
    requires shaped { IsShaped table.now }
    ensures kept { OnOk result (KeepsTrees arena.old arena.new) }
    ensures named { OnOk result (KeepsNames leaves.old leaves.new) }
    ensures added { OnOk result ((tree : List ℕ → Tree (List ℕ)) (tables : List Table)
        → AreRead arena.old leaves.old (get bytes_eq numbers.now) tree table.now.inputs
        → (is_root ≡ true → is_constant table.now ≡ false)
        → AreRoots arena.old leaves.old tree tables roots.old.items
        → AreRoots arena.new leaves.new tree (tables ++ (if is_root then table.now ∷ [] else []))
        roots.new.items) }
{
    if is_root {
        add_root(alloc, arena, leaves, numbers, roots, table)?;
        Ok(())
    } else {
        Ok(())
    }
}

// The roots, in the order of their tables.
fn grow_roots(
    alloc: Global,
    arena: &mut Arena,
    leaves: &mut Leaves,
    numbers: &IndexMap<Name, usize>,
    tables: &[Table],
    fates: &[Role],
) -> Result<Vec<Root>, AllocError>
    requires taken { AllTaken arena.old (get bytes_eq numbers.now) }
    requires shaped { AllByRecursion IsShaped tables.now }
    ensures { IfOk result (λ roots. (circuit : Circuit) (tree : List ℕ → Tree (List ℕ))
        → tables.now ≡ circuit.tables → fates.now ≡ map (fate_of circuit) tables.now
        → ((signals : List (List ℕ)) → AreRead arena.old leaves.old
        (get bytes_eq numbers.now) tree signals) → AreRoots arena.new leaves.new tree
        (roots_of circuit) roots.items) }
{
    let mut roots = Vec::new(alloc);
    for (place, table) in tables.iter().enumerate() {
        let is_root = is_root_at(fates, place);
        add_if_root(alloc, arena, leaves, numbers, &mut roots, table, is_root)?;
    }
    Ok(roots)
}

// Makes all trees, those of the roots last.
fn plant(
    alloc: Global,
    arena: &mut Arena,
    leaves: &mut Leaves,
    circuit: &Circuit,
) -> Result<Vec<Root>, AllocError>
    requires acyclic { IsAcyclic circuit.now.tables }
    requires different { all_different (outputs_of circuit.now.tables) ≡ true }
    requires shaped { AllByRecursion IsShaped circuit.now.tables }
    ensures { IfOk result (λ roots. (tree : List ℕ → Tree (List ℕ)) → AreTrees circuit.now tree
        → AreRoots arena.new leaves.new tree (roots_of circuit.now) roots.items) }
{
    let fates = fates(alloc, circuit)?;
    let fates = fates.as_slice();
    let numbers = build_inlined(alloc, arena, leaves, circuit, fates)?;
    let tables = circuit.tables.as_slice();
    let roots = grow_roots(alloc, arena, leaves, &numbers, tables, fates)?;
    Ok(roots)
}

// The sum of the sizes of roots, as a word.
fn sum_sizes(sizes: &[u64], roots: &[Root]) -> u64
    ensures { result ≡ word_count (sum_by (λ (root : TheRoot). slice_index_or sizes.now root.number
        1) roots.now) }
{
    let mut total: u64 = 0;
    for root in roots {
        total = total.saturating_add(size_at(sizes, root.number));
    }
    total
}

// The number of vertices of the trees of roots together, as a word.
fn total_size(alloc: Global, arena: &Arena, roots: &[Root]) -> Result<u64, AllocError>
    ensures { IfOk result (λ total. total ≡ word_count
        (sum_by (λ (root : TheRoot). size_of (tree_at arena.now root.number)) roots.now)) }
{
    let sizes = arena.sizes(alloc)?;
    let total = sum_sizes(sizes.as_slice(), roots);
    Ok(total)
}

/// The forest of a circuit: its roots in the order of their tables, each with the number of its
/// tree in the arena, whose leaves are indices into `leaves`. No tree of the arena has more than
/// `MAX_VERTICES` vertices. TreeLimit if the trees of all roots have more than `MAX_VERTICES`
/// vertices together, a tree counted each time it occurs.
pub fn forest_of(alloc: Global, circuit: &Circuit) -> Result<Forest, ForestFault>
    requires acyclic { IsAcyclic circuit.now.tables }
    requires different { all_different (outputs_of circuit.now.tables) ≡ true }
    requires shaped { AllByRecursion IsShaped circuit.now.tables }
    ensures ok { IfOk result (λ forest. IsForest circuit.now forest.arena forest.leaves
        forest.roots.items) }
    ensures small { IfOk result (λ forest. (n : ℕ) → n < length forest.arena → size_of
        (tree_at forest.arena n) ≤ MAX_VERTICES) }
    ensures limit { result ≡ Err TooLarge → IsTooLarge circuit.now }
{
    forest_trees_are_there();
    let mut arena = Arena::new(alloc);
    let mut leaves = Leaves::new(alloc);
    let mut roots = plant(alloc, &mut arena, &mut leaves, circuit)?;
    let total = total_size(alloc, &arena, roots.as_slice())?;
    if total > MAX_VERTICES {
        return Err(ForestFault::TreeLimit);
    }
    let arena = shrink(alloc, arena, &mut roots)?;
    Ok(Forest {
        arena,
        leaves,
        roots,
    })
}
