//! Numbers for the literals of a fixed set of names.
//!
//! Source: the project's own. The number of a literal is twice the position of its name among the
//! sorted names, and one more if the literal is positive. Invariant: the names rise strictly, and
//! there are fewer than 2^31, so each number fits in 32 bits. Callers rely on exact conversion in
//! both directions, and on numbers that compare as their literals do (`code_laws`).

ghost use Rattle.std.specs.Prelude.{◌≡◌, ◌<◌, ◌≤◌, true, false, map, length, IfOk, OnErr, MatchOption};
ghost use Rattle.std.specs.List.{list_all};
ghost use Rattle.circuit_model.specs.Names.{has};
ghost use Rattle.cover_names.specs.Cubes.{is_over};
ghost use Rattle.net_gains.specs.Codes.{name_cmp, AreRising, in_order, place_of, code_of, codes_of, coded, signal_of, is_known, is_code, are_codes, are_coded};

use circuit_model::Name;
use cover_names::{Cube, Literal, NamedCover};
use sis_base::{Copied, Sequence};
use std::alloc::{AllocError, Global};
use std::cmp::Ordering;
use std::marker::Model;

// With fewer names than this each literal has a number of 32 bits.
const NAMES_LIMIT: usize = 0x8000_0000;

/// The numbers of the two literals of a signal.
#[derive(Clone, Copy, Debug, PartialEq, Eq)]
pub struct Signal {
    pub negative: u32,
    pub positive: u32,
}

/// Different names in order, each of whose two literals has a number. Contracts see the list of
/// names.
#[derive(Drop)]
pub struct Codes {
    names: Vec<Name>,
}

impl Model for Codes {
    ghost use Rattle.std.specs.Prelude.{◌<◌, ℕ, List, length};
    ghost use Rattle.net_gains.specs.Codes.{AreRising};

    ghost Value = { List (List ℕ) };

    ghost view = { λ codes. codes.names.items };

    ghost invariant = { λ codes. AreRising codes.names.items × (length codes.names.items < 2147483648) };
}

// The order of two names, byte by byte.
fn compare_names(one: &Name, other: &Name) -> Ordering
    ensures { result ≡ name_cmp one.now other.now }
{
    one.as_slice().cmp(other.as_slice())
}

impl Codes {
    /// The codes of names, which may be in any order and occur more than once. An error only if
    /// there are too many to have numbers, 2^31 different names or more.
    pub fn of(names: Vec<Name>) -> Result<Codes, AllocError>
        ensures codes { IfOk result (λ codes. codes ≡ in_order names.items) }
        ensures over { OnErr result (2147483648 ≤ length (in_order names.items)) }
    {
        let mut sorted = names;
        sorted.sort_unstable_by(compare_names);
        sorted.dedup();
        if sorted.len() < NAMES_LIMIT {
            Ok(Codes { names: sorted })
        } else {
            Err(AllocError)
        }
    }

    /// What holds of all codes: the names rise, and their literals have numbers of 32 bits.
    pub fn sound(&self)
        ensures rising { AreRising self.now }
        ensures few { length self.now < 2147483648 }
    {
        let _names = &self.names;
    }

    // The position of a name among the names, if it is one of them.
    fn place(&self, name: &Name) -> Option<usize>
        ensures { MatchOption result (has self.now name.now ≡ false)
            (λ place. (has self.now name.now ≡ true) × (place ≡ place_of self.now name.now)
            × (place < 2147483648)) }
    {
        match self
            .names
            .binary_search_by(|known| compare_names(known, name))
        {
            Ok(place) => Some(place),
            Err(_) => None,
        }
    }

    // The number of a literal, if its name is one of the names.
    fn code(&self, literal: &Literal) -> Option<u32>
        ensures { MatchOption result (has self.now literal.now.name ≡ false)
            (λ code. (has self.now literal.now.name ≡ true) × (code ≡ code_of self.now literal.now)) }
    {
        match self.place(&literal.name) {
            None => None,
            Some(place) => Some(2 * place as u32 + u32::from(literal.bit)),
        }
    }

    // The numbers of a name's literals, if it is one of the names.
    fn signal(&self, name: &Name) -> Option<Signal>
        ensures { MatchOption result (has self.now name.now ≡ false)
            (λ signal. (has self.now name.now ≡ true) × (signal ≡ signal_of self.now name.now)) }
    {
        match self.place(name) {
            None => None,
            Some(place) => {
                let negative = 2 * place as u32;
                Some(Signal {
                    negative,
                    positive: negative + 1,
                })
            }
        }
    }

    /// The numbers of names' literals, name by name, if all names are known.
    pub fn signals(&self, alloc: Global, names: &[Name]) -> Result<Option<Vec<Signal>>, AllocError>
        ensures { IfOk result (λ found. MatchOption found
            (list_all (has self.now) names.now ≡ false)
            (λ signals. (list_all (has self.now) names.now ≡ true)
            × (signals.items ≡ map (signal_of self.now) names.now))) }
    {
        let mut signals = Vec::with_capacity(alloc, names.len())?;
        for name in names {
            match self.signal(name) {
                Some(signal) => signals.push(signal)?,
                None => return Ok(None),
            }
        }
        Ok(Some(signals))
    }

    /// The numbers of a cube's literals, in their order, if all its names are known.
    pub fn cube(&self, alloc: Global, cube: &[Literal]) -> Result<Option<Vec<u32>>, AllocError>
        ensures { IfOk result (λ found. MatchOption found (is_known self.now cube.now ≡ false)
            (λ codes. (is_known self.now cube.now ≡ true)
            × (codes.items ≡ codes_of self.now cube.now))) }
    {
        let mut codes = Vec::with_capacity(alloc, cube.len())?;
        for literal in cube {
            match self.code(literal) {
                Some(code) => codes.push(code)?,
                None => return Ok(None),
            }
        }
        Ok(Some(codes))
    }

    /// The numbers of cubes' literals, cube by cube, if all their names are known.
    pub fn cubes(&self, alloc: Global, cubes: &[Cube]) -> Result<Option<Vec<Vec<u32>>>, AllocError>
        ensures { IfOk result (λ found. MatchOption found (is_over self.now cubes.now ≡ false)
            (λ codes. (is_over self.now cubes.now ≡ true)
            × (map (λ cube. cube.items) codes.items ≡ coded self.now cubes.now))) }
    {
        let mut codes = Vec::with_capacity(alloc, cubes.len())?;
        for cube in cubes {
            match self.cube(alloc, cube.as_slice())? {
                Some(numbers) => codes.push(numbers)?,
                None => return Ok(None),
            }
        }
        Ok(Some(codes))
    }

    // The literal of a number, if there is one.
    fn literal(&self, alloc: Global, number: u32) -> Result<Option<Literal>, AllocError>
        ensures { IfOk result (λ found. MatchOption found (is_code self.now number ≡ false)
            (λ literal. (is_code self.now number ≡ true) × (has self.now literal.name ≡ true)
            × (code_of self.now literal ≡ number))) }
    {
        match self.names.get(number as usize / 2) {
            Some(name) => Ok(Some(Literal {
                name: name.copy(alloc)?,
                bit: number % 2 == 1,
            })),
            None => Ok(None),
        }
    }

    // The cube of numbers, if each is that of a literal.
    fn cube_of(&self, alloc: Global, numbers: &[u32]) -> Result<Option<Cube>, AllocError>
        ensures { IfOk result (λ found. MatchOption found (are_codes self.now numbers.now ≡ false)
            (λ cube. (are_codes self.now numbers.now ≡ true) × (is_known self.now cube ≡ true)
            × (codes_of self.now cube ≡ numbers.now))) }
    {
        let mut literals = Vec::with_capacity(alloc, numbers.len())?;
        for number in numbers {
            match self.literal(alloc, *number)? {
                Some(literal) => literals.push(literal)?,
                None => return Ok(None),
            }
        }
        Ok(Some(Sequence::from_vec(literals)))
    }

    /// The cover whose literals have the numbers, cube by cube, if each number is that of a
    /// literal.
    pub fn cover(
        &self,
        alloc: Global,
        numbers: &[Vec<u32>],
    ) -> Result<Option<NamedCover>, AllocError>
        ensures { IfOk result (λ found. MatchOption found
            (are_coded self.now (map (λ cube. cube.items) numbers.now) ≡ false) (λ cover.
            (are_coded self.now (map (λ cube. cube.items) numbers.now) ≡ true) × (is_over self.now cover ≡ true) × (coded self.now cover ≡ map (λ cube. cube.items) numbers.now))) }
    {
        let mut cubes = Vec::with_capacity(alloc, numbers.len())?;
        for cube in numbers {
            match self.cube_of(alloc, cube.as_slice())? {
                Some(named) => cubes.push(named)?,
                None => return Ok(None),
            }
        }
        Ok(Some(Sequence::from_vec(cubes)))
    }
}
