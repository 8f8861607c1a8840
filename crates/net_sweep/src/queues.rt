//! The worklists of sweep: for each rule the indices of tables at which it may apply; and lists of
//! indices by name.
//!
//! A worklist may hold too many indices but never too few: every index at which a rule applies is
//! in the rule's worklist, and each is tried before it counts. A table that was rewritten is tidy,
//! so it is added for every rule but the one that tidies.

ghost use Rattle.std.specs.Prelude.{◌≡◌, ℕ, ◌+◌, ◌≤◌, ◌<◌, ◌==◌, ◌&&◌, ◌||◌, not, Bool, true, false, Option, Some, None, List, [], ◌∷◌, ◌++◌, is_some, bytes_eq, length, if◌then◌else◌, IfOk, OnOk, IfSome, IfNone};
ghost use Rattle.std.specs.Ordering.{nat_cmp};
ghost use Rattle.std.specs.BTreeSet.{contains, btree_set_len};
ghost use Rattle.indexmap.specs.IndexMap.{get};
ghost use Rattle.net_sweep.specs.declared.queues.Rule.{Rule};
ghost use Rattle.net_sweep.specs.Settled.{listed, is_candidate, may_apply_to_written};
ghost use Rattle.net_readers.specs.Fanouts.{is_in};

use circuit_model::Name;
use indexmap::IndexMap;
use net_readers::Places;
use sis_base::{Copied, Sequence};
use std::alloc::{AllocError, Global};
use std::collections::BTreeSet;

/// A rule of sweep that changes tables.
#[derive(Clone, Copy)]
pub(crate) enum Rule {
    // a table that is not tidy is tidied
    TidyTable,
    // a table that is constant is written as the constant
    WriteConstant,
    // a written constant is propagated into the tables that read it
    PropagateConstant,
    // a table of one input is collapsed into the tables that read it, which then read that input
    // instead
    CollapseSingleInput,
}

/// For each rule the indices of tables at which it may apply.
pub(crate) struct Candidates {
    // for `TidyTable`
    pub(crate) untidy: BTreeSet<usize>,
    // for `WriteConstant`
    pub(crate) unwritten: BTreeSet<usize>,
    // for `PropagateConstant`
    pub(crate) constants: BTreeSet<usize>,
    // for `CollapseSingleInput`
    pub(crate) singles: BTreeSet<usize>,
}

// By hand, so that the function that owns the candidates beside aliased tables and latches drops
// them in one call.
impl Drop for Candidates {
    fn drop(self) {
        let Candidates {
            untidy: _untidy,
            unwritten: _unwritten,
            constants: _constants,
            singles: _singles,
        } = self;
    }
}

// Removes and returns the least index.
pub(crate) fn pop_least(set: &mut BTreeSet<usize>) -> Option<usize>
    ensures none { IfNone result ((place : ℕ) → contains nat_cmp set.old place ≡ false) }
    ensures within { IfSome result (λ least. contains nat_cmp set.old least ≡ true) }
    ensures least { IfSome result (λ least. (place : ℕ) → contains nat_cmp set.old place ≡ true
        → least ≤ place) }
    ensures rest { IfSome result (λ least. (place : ℕ) → contains nat_cmp set.new place
        ≡ (not (least == place) && contains nat_cmp set.old place)) }
    ensures len { btree_set_len set.new + (if is_some result then 1 else 0)
        ≡ btree_set_len set.old }
{
    set.pop_first()
}

// Adds an index.
pub(crate) fn put_place(set: &mut BTreeSet<usize>, put: usize) -> Result<(), AllocError>
    ensures { OnOk result ((place : ℕ) → contains nat_cmp set.new place
        ≡ (put == place || contains nat_cmp set.old place)) }
{
    set.insert(put)?;
    Ok(())
}

// Adds the index of a rewritten table, which is tidy, for each rule but the one that tidies.
pub(crate) fn add_candidate(candidates: &mut Candidates, put: usize) -> Result<(), AllocError>
    ensures { OnOk result ((rule : Rule) (place : ℕ) → is_candidate candidates.new rule place
        ≡ ((may_apply_to_written rule && put == place) || is_candidate candidates.old rule place)) }
{
    put_place(&mut candidates.unwritten, put)?;
    put_place(&mut candidates.constants, put)?;
    put_place(&mut candidates.singles, put)?;
    Ok(())
}

// Adds the indices of rewritten tables, for each rule but the one that tidies.
pub(crate) fn add_candidates(
    candidates: &mut Candidates,
    places: &[usize],
) -> Result<(), AllocError>
    ensures put { OnOk result ((rule : Rule) (place : ℕ) → may_apply_to_written rule ≡ true
        → is_in places.now place ≡ true → is_candidate candidates.new rule place ≡ true) }
    ensures kept { OnOk result ((rule : Rule) (place : ℕ)
        → is_candidate candidates.old rule place ≡ true → is_candidate candidates.new rule place
        ≡ true) }
{
    for put in places {
        add_candidate(candidates, *put)?;
    }
    Ok(())
}

// The given number of indices, from 0 on.
pub(crate) fn all_places(alloc: Global, count: usize) -> Result<BTreeSet<usize>, AllocError>
    ensures { IfOk result (λ places. (place : ℕ) → place < count → contains nat_cmp places place
        ≡ true) }
{
    let mut places = BTreeSet::new(alloc);
    for place in 0..count {
        put_place(&mut places, place)?;
    }
    Ok(places)
}

// Removes and returns the list of a signal.
pub(crate) fn take_list(alloc: Global, lists: &mut IndexMap<Name, Places>, name: &Name) -> Places
    ensures list { result ≡ listed (get bytes_eq lists.old name.now) }
    ensures rest { (other : List ℕ) → get bytes_eq lists.new other
        ≡ (if bytes_eq name.now other then None else get bytes_eq lists.old other) }
{
    match lists.swap_remove(name) {
        Some(places) => places,
        None => Sequence::new(alloc),
    }
}

// Sets the list of a signal.
pub(crate) fn put_list(
    lists: &mut IndexMap<Name, Places>,
    name: Name,
    places: Places,
) -> Result<(), AllocError>
    ensures { OnOk result ((other : List ℕ) → get bytes_eq lists.new other
        ≡ (if bytes_eq name other then Some places else get bytes_eq lists.old other)) }
{
    let _list = lists.insert(name, places)?;
    Ok(())
}

// Appends an index to the list of a signal.
pub(crate) fn add_place(
    alloc: Global,
    lists: &mut IndexMap<Name, Places>,
    name: &Name,
    place: usize,
) -> Result<(), AllocError>
    ensures { OnOk result ((other : List ℕ) → listed (get bytes_eq lists.new other)
        ≡ (if bytes_eq name.now other then listed (get bytes_eq lists.old other) ++ place ∷ [] else
        listed (get bytes_eq lists.old other))) }
{
    let key = name.copy(alloc)?;
    let mut places = take_list(alloc, lists, name);
    places.push(place)?;
    put_list(lists, key, places)
}
