//! The cubes of tables by numbers, with the gains of all divisors in them.
//!
//! Invariant (`IsCounted`): in each table the cubes rise and differ, and the total of each divisor
//! is what it gains in all tables. Both calls take the value and return it, so after an error there
//! is none.

ghost use Rattle.std.specs.Prelude.{◌≡◌, ◌<◌, ◌++◌, ◌∷◌, [], length, slice_set, IfOk};
ghost use Rattle.net_gains.specs.Numbers.{lists_in, tables_in, AreApart, IsCounted};

use crate::exchanging::{add, exchange};
use crate::totals::Totals;
use std::alloc::{AllocError, Global};

/// The cubes of tables, each cube by its rising numbers, and the totals of divisors.
#[derive(Drop)]
pub(crate) struct Counted {
    pub(crate) tables: Vec<Vec<Vec<u32>>>,
    pub(crate) totals: Totals,
}

impl Counted {
    /// No tables. Allocates nothing.
    pub(crate) fn new(alloc: Global) -> Counted
        ensures counted { IsCounted result }
        ensures none { result.tables.items ≡ [] }
    {
        Counted {
            tables: Vec::new(alloc),
            totals: Totals::new(alloc),
        }
    }

    /// The same with one more table.
    pub(crate) fn with_table(
        self,
        alloc: Global,
        cubes: Vec<Vec<u32>>,
    ) -> Result<Counted, AllocError>
        requires counted { IsCounted self }
        requires apart { AreApart (lists_in cubes.items) }
        ensures counted { IfOk result IsCounted }
        ensures tables { IfOk result (λ made. tables_in made.tables.items
            ≡ tables_in self.tables.items ++ lists_in cubes.items ∷ []) }
    {
        let Counted {
            mut tables,
            mut totals,
        } = self;
        add(&mut totals, alloc, cubes.as_slice())?;
        tables.push(cubes)?;
        Ok(Counted { tables, totals })
    }

    /// The same with the cubes at an index replaced.
    pub(crate) fn with_cubes(
        self,
        alloc: Global,
        place: usize,
        cubes: Vec<Vec<u32>>,
    ) -> Result<Counted, AllocError>
        requires place { place < length self.tables.items }
        requires counted { IsCounted self }
        requires apart { AreApart (lists_in cubes.items) }
        ensures counted { IfOk result IsCounted }
        ensures tables { IfOk result (λ made. tables_in made.tables.items ≡ slice_set
            (tables_in self.tables.items) place (lists_in cubes.items)) }
    {
        let Counted {
            mut tables,
            mut totals,
        } = self;
        exchange(
            &mut totals,
            alloc,
            tables[place].as_slice(),
            cubes.as_slice(),
        )?;
        tables[place] = cubes;
        Ok(Counted { tables, totals })
    }
}
