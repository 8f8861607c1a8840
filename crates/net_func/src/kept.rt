//! Functions of the signals of a circuit, kept from one table to the next while the tables change.
//!
//! Source: De Micheli, "Synthesis and Optimization of Digital Circuits", chapter 8 (the transitive
//! fanout of a vertex, and transformations that change one vertex). Invariant (`IsReady`,
//! `AreKept`): the circuit is sound and in order, and each number kept means the function of its
//! signal in the circuit as it is now. `replace` drops the numbers of signals in the transitive
//! fanout of a table that changes; what it keeps stays right (`KeepsSome`), how much it keeps no
//! clause says. Callers rely on `turn` for exactly the functions of the current circuit. After an
//! error of `turn` no numbers are kept.

ghost use Rattle.std.specs.Prelude.{◌≡◌, ℕ, true, ◌⊎◌, Some, List, IfOk, IfErr, OnOk, OnErr};
ghost use Rattle.circuit_model.specs.Names.{has};
ghost use Rattle.circuit_model.specs.Values.{driver};
ghost use Rattle.circuit_model.specs.Soundness.{outputs_of, IsAcyclic};
ghost use Rattle.circuit_model.specs.declared.circuit.Table.{Table};
ghost use Rattle.circuit_laws.specs.Edits.{replaced, with_replaced};
ghost use Rattle.circuit_laws.specs.Fitting.{IsFitting};
ghost use Rattle.func_core.specs.Numbers.{Means, Stays};
ghost use Rattle.net_func.specs.Signals.{own_function, is_seen, AreMeant, AreWithin};
ghost use Rattle.net_func.specs.Signals.{IsBigAt, IsBigSeen, Blames};
ghost use Rattle.net_func.specs.Held.{circuit_of, IsReady, AreKept, KeepsNone, KeepsSome};

use crate::fault::{NetFuncFault, renamed};
use crate::numbers::Numbers;
use crate::ordered::{OrderedCircuit, in_order, put_table, stands};
use crate::turn::{TurnFunctions, turn_of};
use crate::unreached::unreached_numbers;
use circuit_model::{Name, Table};
use cube_cover::Row;
use func_core::Functions;
use net_core::Network;
use sis_base::Whole;
use std::alloc::{AllocError, Global};

/// A circuit, with numbers of functions of its signals and of its don't-care part, all of one
/// object. Functions made for one table are kept for the next. If a table is replaced only the
/// numbers of signals in its transitive fanout are dropped; no clause says so.
pub struct KeptFunctions {
    ordered: OrderedCircuit,
    own: Numbers,
    free: Numbers,
}

// Written out, so that a function that owns kept functions drops them in one call.
impl Drop for KeptFunctions {
    fn drop(self) {
        let KeptFunctions {
            ordered: _ordered,
            own: _own,
            free: _free,
        } = self;
    }
}

impl KeptFunctions {
    /// The circuit of a network, and no numbers.
    pub fn new<R: Row>(alloc: Global, net: &Network<R>) -> Result<KeptFunctions, AllocError>
        ensures ready { IfOk result IsReady }
        ensures same { IfOk result (λ kept. circuit_of kept ≡ net.now) }
        ensures none { IfOk result KeepsNone }
    {
        net.sound();
        // A `Whole`, so that it is dropped in one call.
        let circuit = Whole {
            it: net.to_circuit(alloc)?,
        };
        let ordered = in_order(alloc, circuit)?;
        Ok(KeptFunctions {
            ordered,
            own: Numbers::new(alloc),
            free: Numbers::new(alloc),
        })
    }

    /// Drops all numbers, as is needed after the object was cleared; allocates nothing.
    pub fn forget(&mut self)
        ensures ready { IsReady self.old → IsReady self.new }
        ensures same { circuit_of self.new ≡ circuit_of self.old }
        ensures none { KeepsNone self.new }
    {
        self.own.clear();
        self.free.clear();
    }

    /// The functions needed to simplify a table: those of its inputs and of its output over the
    /// leaves, and that of where its output is observable, as `care` gives it. They are refused if
    /// the function of any table's signal is too big. A fault has the name that was asked for,
    /// whichever function is too big. After an error no numbers are kept; no clause says so.
    pub fn turn<F: Functions>(
        &mut self,
        alloc: Global,
        functions: &mut F,
        name: &Name,
    ) -> Result<TurnFunctions, NetFuncFault>
        requires ready { IsReady self.old }
        requires kept { AreKept F.holds F.tree F.limit functions.old self.old }
        requires driven { has (outputs_of (circuit_of self.old).tables) name.now ≡ true }
        ensures inputs { IfOk result (λ turn. (table : Table)
            → driver (circuit_of self.old).tables name.now ≡ Some table
            → AreMeant F.holds F.tree F.limit functions.new table.inputs
            (own_function (circuit_of self.old)) turn.inputs.items) }
        ensures own { IfOk result (λ turn. Means F.holds F.tree F.limit functions.new turn.own.0
            (own_function (circuit_of self.old) name.now)) }
        ensures seen { IfOk result (λ turn. Means F.holds F.tree F.limit functions.new turn.seen.0
            (is_seen (circuit_of self.old) name.now)) }
        ensures fits { OnOk result (AreWithin (F.limit functions.old) (circuit_of self.old)) }
        ensures big { IfErr result (λ fault. Blames fault (λ blamed. (blamed ≡ name.now)
            × (((part : List ℕ) × IsBigAt (F.limit functions.old) (circuit_of self.old).tables
            (own_function (circuit_of self.old)) part)
            ⊎ IsBigSeen (F.limit functions.old) (circuit_of self.old) name.now))) }
        ensures stays { Stays F.holds F.tree F.limit functions.old functions.new }
        ensures ready { IsReady self.new }
        ensures same { circuit_of self.new ≡ circuit_of self.old }
        ensures kept { AreKept F.holds F.tree F.limit functions.new self.new }
    {
        let ordered = &self.ordered;
        let (own, free) = (&mut self.own, &mut self.free);
        match turn_of(alloc, functions, ordered, own, free, name) {
            Ok(turn) => Ok(turn),
            Err(fault) => {
                self.forget();
                Err(renamed(alloc, fault, name))
            }
        }
    }

    /// Replaces the table of a signal by one whose inputs are among the old ones. Numbers of
    /// signals in its transitive fanout are dropped, unless the table is the same. After an error
    /// nothing has changed.
    pub fn replace(&mut self, alloc: Global, table: Table) -> Result<(), AllocError>
        requires ready { IsReady self.old }
        requires driven { has (outputs_of (circuit_of self.old).tables) table.output ≡ true }
        requires fitting { IsFitting (circuit_of self.old) table }
        requires acyclic { IsAcyclic (replaced (circuit_of self.old).tables table) }
        requires reads { (old : Table)
            → driver (circuit_of self.old).tables table.output ≡ Some old → (input : List ℕ)
            → has table.inputs input ≡ true → has old.inputs input ≡ true }
        ensures ready { IsReady self.new }
        ensures replaced { OnOk result
            (circuit_of self.new ≡ with_replaced (circuit_of self.old) table) }
        ensures kept { OnOk result (KeepsSome self.old self.new) }
        ensures unchanged { OnErr result (self.new ≡ self.old) }
    {
        if stands(&self.ordered, &table) {
            return Ok(());
        }
        let own = unreached_numbers(alloc, &self.own, &self.ordered, &table.output)?;
        put_table(alloc, &mut self.ordered, table);
        self.own = own;
        Ok(())
    }
}
