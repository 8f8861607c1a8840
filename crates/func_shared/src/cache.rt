//! The computed table: remembered answers of operations (K. S. Brace, R. L. Rudell and R. E.
//! Bryant, "Efficient Implementation of a BDD Package", 1990).
//!
//! Each answer has one slot, by a hash of its operation and numbers, and replaces the one in that
//! slot; a lost answer only costs time. The table doubles after as many answers were added as it
//! has slots, up to a bound, and stays as it is if memory runs out. Invariant: every remembered
//! answer is right for the table of vertices.

ghost use Rattle.std.specs.Prelude.{◌≡◌, ◌≤◌, ◌⊎◌, List, IfSome};
ghost use Rattle.func_shared.specs.declared.vertex.Vertex.{Vertex};
ghost use Rattle.func_shared.specs.Vertices.{Has};
ghost use Rattle.func_shared.specs.Answers.{made, AreNumbers, IsAnswer, AreAnswers, StayAnswers};

use func_core::Operation;
use std::alloc::Global;

/// The number of answers for which there is room at first, and at most.
const FIRST_ANSWERS: usize = 4096;

const MAX_ANSWERS: usize = 4_194_304;

/// The answer that false and false is false; it fills the empty slots.
const NOTHING: Answer = Answer {
    operation: Operation::And,
    left: 0,
    right: 0,
    number: 0,
};

/// Two numbers of a table.
#[derive(Clone, Copy, Debug, PartialEq, Eq)]
pub(crate) struct Pair {
    pub(crate) left: u32,
    pub(crate) right: u32,
}

impl Pair {
    /// The pair of two numbers.
    pub(crate) fn new(left: u32, right: u32) -> Pair
        ensures { result ≡ record { left = left; right = right } }
    {
        Pair { left, right }
    }

    /// The pair with the lower number first.
    pub(crate) fn ordered(self) -> Pair
        ensures order { result.left ≤ result.right }
        ensures same { (result ≡ self) ⊎ ((result.left ≡ self.right) × (result.right ≡ self.left)) }
    {
        if self.left <= self.right {
            return self;
        }
        Pair::new(self.right, self.left)
    }

    /// The slot for the answer of an operation on the pair, among `count` slots, a power of two.
    fn place(self, operation: Operation, count: usize) -> usize {
        let packed = (u64::from(self.left) << 32) | u64::from(self.right);
        let first = (packed ^ (operation as u64) << 62).wrapping_mul(0x9E37_79B9_7F4A_7C15);
        let mixed = (first ^ (first >> 32)).wrapping_mul(0xD6E8_FEB8_6659_FD93);
        (mixed >> 32) as usize & count.wrapping_sub(1)
    }
}

/// The result of an operation on two numbers, the lower first. Sixteen bytes.
#[derive(Clone, Copy)]
pub(crate) struct Answer {
    operation: Operation,
    left: u32,
    right: u32,
    number: u32,
}

impl Answer {
    /// The numbers of the operation.
    fn pair(self) -> Pair
        ensures left { result.left ≡ self.left }
        ensures right { result.right ≡ self.right }
    {
        Pair::new(self.left, self.right)
    }
}

/// Answers of operations on the numbers of one table, each in the one slot that its operation and
/// numbers determine: a new answer replaces an old one.
#[derive(Drop)]
pub(crate) struct Answers {
    slots: Vec<Answer>,
    /// The number of answers added since the table last grew.
    count: usize,
}

impl Answers {
    /// No answers; allocates nothing.
    pub(crate) fn new(alloc: Global) -> Answers
        ensures { (vertices : List Vertex) → AreAnswers vertices result }
    {
        Answers {
            slots: Vec::new(alloc),
            count: 0,
        }
    }

    /// Forgets all answers.
    pub(crate) fn clear(&mut self)
        ensures { (vertices : List Vertex) → AreAnswers vertices self.new }
    {
        self.slots.clear();
        self.count = 0;
    }

    /// The answer of an operation on two numbers, if it is remembered.
    pub(crate) fn get(&self, operation: Operation, pair: Pair) -> Option<u32>
        ensures { IfSome result (λ number. (vertices : List Vertex)
            → AreAnswers vertices self.now → Has vertices number (made vertices operation pair)) }
    {
        let slot = self.slots.get(pair.place(operation, self.slots.len()))?;
        if slot.operation == operation && slot.left == pair.left && slot.right == pair.right {
            return Some(slot.number);
        }
        None
    }

    /// Remembers an answer. Doubles the room first, if as many were added as there is room for.
    pub(crate) fn put(&mut self, operation: Operation, pair: Pair, number: u32)
        ensures { (vertices : List Vertex) → AreAnswers vertices self.old
            → AreNumbers vertices pair → Has vertices number (made vertices operation pair)
            → AreAnswers vertices self.new }
    {
        if self.count >= self.slots.len() {
            self.grow();
        }
        self.count += 1;
        self.keep(Answer {
            operation,
            left: pair.left,
            right: pair.right,
            number,
        });
    }

    /// Stores an answer in its slot, if there is any room.
    fn keep(&mut self, answer: Answer)
        ensures kept { (vertices : List Vertex) → AreAnswers vertices self.old
            → IsAnswer vertices answer → AreAnswers vertices self.new }
        ensures count { self.new.count ≡ self.old.count }
    {
        let place = answer.pair().place(answer.operation, self.slots.len());
        if let Some(slot) = self.slots.get_mut(place) {
            *slot = answer;
        }
    }

    /// Doubles the room, unless it is the maximum or memory runs out.
    fn grow(&mut self)
        ensures kept { StayAnswers self.old self.new }
        ensures count { self.new.count ≡ 0 }
    {
        self.count = 0;
        let old = self.slots.len();
        if old >= MAX_ANSWERS {
            return;
        }
        let room = if old == 0 { FIRST_ANSWERS } else { 2 * old };
        if self.slots.resize(room, NOTHING).is_ok() {
            self.spread(old);
        }
    }

    /// Moves the answers of the first slots to their new slots.
    fn spread(&mut self, count: usize)
        ensures kept { StayAnswers self.old self.new }
        ensures count { self.new.count ≡ self.old.count }
    {
        for place in 0..count {
            self.move_from(place);
        }
    }

    /// Moves the answer of a slot to its new slot.
    fn move_from(&mut self, place: usize)
        ensures kept { StayAnswers self.old self.new }
        ensures count { self.new.count ≡ self.old.count }
    {
        if let Some(answer) = self.slots.get(place) {
            let moved = *answer;
            self.keep(moved);
        }
    }
}
