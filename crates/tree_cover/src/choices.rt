//! The choices at all vertices of an arena, in flat lists.
//!
//! Source: the usual form of lists of lists in one list; Gustavson, "Some basic techniques for
//! solving sparse systems of linear equations" (Sparse Matrices and Their Applications, 1972).
//! Invariant (`AreFlat`): there are as many gates and starts as costs, and no pins start past the
//! last. Contracts see the list of the choices; callers rely on `push` to append one, or to change
//! nothing after an error.

ghost use Rattle.std.specs.Prelude.{◌≡◌, ◌+◌, ◌<◌, ◌≤◌, ◌++◌, ◌∷◌, [], length, slice_index_or, vec_len, vec_capacity, IfOk, OnOk, OnErr};
ghost use Rattle.tree_cover.specs.Candidates.{choice_at, cost_at};
ghost use Rattle.tree_cover.specs.Flat.{part, start_at};

use std::alloc::{AllocError, Global};
use std::marker::Model;

/// The choice at each vertex, in the order of their numbers; contracts see the list of choices.
/// They are kept in flat lists of costs, of gates, of where the pins of each begin, and of all pins
/// one after the other: 24 bytes a vertex, and four a pin.
#[derive(Drop)]
pub struct Choices {
    costs: Vec<u128>,
    places: Vec<u32>,
    starts: Vec<u32>,
    pins: Vec<u32>,
}

impl Model for Choices {
    ghost use Rattle.std.specs.Prelude.{List};
    ghost use Rattle.tree_cover.specs.declared.choice.Choice.{Choice};
    ghost use Rattle.tree_cover.specs.Flat.{choices_in, AreFlat};

    ghost Value = { List Choice };

    ghost view = { λ c. choices_in c.costs.items c.places.items c.starts.items c.pins.items };

    ghost invariant = { λ c. AreFlat c.costs.items c.places.items c.starts.items c.pins.items };
}

/// A number as one of 32 bits; want of memory if it is too large, as no arena's is.
pub(crate) fn small(number: usize) -> Result<u32, AllocError>
    ensures { IfOk result (λ made. made ≡ number) }
{
    if number < 4_294_967_296 {
        Ok(number as u32)
    } else {
        Err(AllocError)
    }
}

// The cost at a number; 0 past the last.
fn cost_at(costs: &[u128], number: usize) -> u128
    ensures { result ≡ slice_index_or costs.now number 0 }
{
    match costs.get(number) {
        None => 0,
        Some(cost) => *cost,
    }
}

// The index of the gate at a number; 0 past the last.
fn place_at(places: &[u32], number: usize) -> usize
    ensures { result ≡ slice_index_or places.now number 0 }
{
    match places.get(number) {
        None => 0,
        Some(place) => *place as usize,
    }
}

// Where the pins of a number begin; past the last number, where the pins end.
fn start_at(starts: &[u32], pins: &[u32], number: usize) -> usize
    ensures { result ≡ start_at starts.now pins.now number }
{
    match starts.get(number) {
        None => pins.len(),
        Some(start) => *start as usize,
    }
}

// Where the pins of a number end.
fn end_at(starts: &[u32], pins: &[u32], number: usize) -> usize
    ensures { result ≡ start_at starts.now pins.now (number + 1) }
{
    if number < starts.len() {
        return start_at(starts, pins, number + 1);
    }
    pins.len()
}

// The pins from one position to another.
fn pins_between(pins: &[u32], start: usize, end: usize) -> &[u32]
    requires { end ≤ length pins.now }
    ensures { result.now ≡ part start end pins.now }
{
    match pins.get(start..end) {
        None => &[],
        Some(found) => found,
    }
}

// Appends a number, for which there is room.
fn put(numbers: &mut Vec<u32>, number: u32)
    requires { vec_len numbers.old < vec_capacity numbers.old }
    ensures { numbers.new.items ≡ numbers.old.items ++ number ∷ [] }
{
    match numbers.push(number) {
        Ok(()) => {}
        Err(_) => unreachable!(),
    }
}

// Appends a cost, for which there is room.
fn put_cost(costs: &mut Vec<u128>, cost: u128)
    requires { vec_len costs.old < vec_capacity costs.old }
    ensures { costs.new.items ≡ costs.old.items ++ cost ∷ [] }
{
    match costs.push(cost) {
        Ok(()) => {}
        Err(_) => unreachable!(),
    }
}

impl Choices {
    /// No choices.
    pub fn new(alloc: Global) -> Choices
        ensures { result ≡ [] }
    {
        Choices {
            costs: Vec::new(alloc),
            places: Vec::new(alloc),
            starts: Vec::new(alloc),
            pins: Vec::new(alloc),
        }
    }

    /// No choices, with room for so many except for their pins.
    pub fn with_capacity(alloc: Global, count: usize) -> Result<Choices, AllocError>
        ensures { IfOk result (λ choices. choices ≡ []) }
    {
        Ok(Choices {
            costs: Vec::with_capacity(alloc, count)?,
            places: Vec::with_capacity(alloc, count)?,
            starts: Vec::with_capacity(alloc, count)?,
            pins: Vec::new(alloc),
        })
    }

    /// The number of choices.
    pub fn len(&self) -> usize
        ensures { result ≡ length self.now }
    {
        self.costs.len()
    }

    /// Appends a choice, by its cost, its gate and the numbers at its pins. An error changes
    /// nothing; a gate's index, or a count of all pins, past 2^32 - 1 counts as want of memory.
    pub fn push(&mut self, cost: u128, place: usize, pins: &[u32]) -> Result<(), AllocError>
        ensures ok { OnOk result (self.new ≡ self.old ++ record
            { cost = cost; place = place; pins = pins.now } ∷ []) }
        ensures err { OnErr result (self.new ≡ self.old) }
    {
        let place = small(place)?;
        let start = small(self.pins.len())?;
        self.costs.reserve(1)?;
        self.places.reserve(1)?;
        self.starts.reserve(1)?;
        self.pins.extend_from_slice(pins)?;
        put_cost(&mut self.costs, cost);
        put(&mut self.places, place);
        put(&mut self.starts, start);
        Ok(())
    }

    /// The cost of the tree of a number; 0 past the last.
    pub fn cost(&self, number: usize) -> u128
        ensures { result ≡ cost_at self.now number }
    {
        cost_at(self.costs.as_slice(), number)
    }

    /// The index in the library of the gate at a number; 0 past the last.
    pub fn place(&self, number: usize) -> usize
        ensures { result ≡ (choice_at self.now number).place }
    {
        place_at(self.places.as_slice(), number)
    }

    /// The numbers at the pins of the gate at a number; none past the last.
    pub fn pins(&self, number: usize) -> &[u32]
        ensures { result.now ≡ (choice_at self.now number).pins }
    {
        let pins = self.pins.as_slice();
        let starts = self.starts.as_slice();
        let start = start_at(starts, pins, number);
        let end = end_at(starts, pins, number);
        pins_between(pins, start, end)
    }
}
