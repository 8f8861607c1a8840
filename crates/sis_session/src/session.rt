//! The session: what is held between two commands, and one step of the command machine.
//!
//! Only `Ok` changes what is held. What a command makes is made first and sent to the outside next;
//! it is moved in last, when nothing can fail any more. A relation of each trait of the outside
//! says what one call with its answer may do to the object. `Steps` says by cases on a command's
//! plan what it asked and how it ended; `step` adds that each object went by exactly those calls
//! (`Did`). The methods that `step` calls promise a form that computes, by cases on the plan and
//! the ending, so that no witness has to be found in them.

ghost use Rattle.std.specs.Prelude.{◌≡◌, ◌<◌, ℕ, IfOk, IfSome, OnOk, OnErr, option_map};
ghost use Rattle.sis_outside.specs.Calls.{Follows};
ghost use Rattle.sis_session.specs.Commands.{Blif, ChangedBy, Kiss, MappedBy, Plans, Replies, circuit_of, coding_of, encoded_reply, library_held, spec_held, spec_in, undo_outcome};
ghost use Rattle.sis_session.specs.Methods.{AskedNone, HasRead, Undoes};
ghost use Rattle.sis_session.specs.Plan.{Comes, Did, Does, Loads, NestsBelow, Quiet, ended, sends};
ghost use Rattle.sis_session.specs.Replies.{stats_of};
ghost use Rattle.sis_session.specs.declared.refusal.Next.TheVariants.{Go};
ghost use Rattle.sis_session.specs.State.{nothing_held, with_encoded, with_read, with_machine};
ghost use Rattle.genlib_format.specs.Reader.{library_of};
ghost use Rattle.circuit_model.specs.Counts.{IsWithinLimits};
ghost use Rattle.net_core.specs.Reads.{HasBounds};
ghost use Rattle.circuit_model.specs.Soundness.{IsSound};
ghost use Rattle.circuit_model.specs.MachineSoundness.{IsSoundMachine};

use crate::algebra::{print_factor, print_kernel};
use crate::changing::change_network;
use crate::encoding::{CodedNetwork, encoded};
use crate::generating::circuit_of;
use crate::mapping::{ToldNetlist, netlisted};
use crate::outside::{load, print_reply, put, source, write_reply};
use crate::printing::{
    echo, machine_told, netlist_told, network_text, print, print_latch, print_stats, stats_of,
};
use crate::refusal::{Next, Refusal, StepFault};
use crate::texts::Stats;
use blif_read::{ReadFault, read};
use circuit_model::{Circuit, Machine, Spec};
use cube_cover::PlainRow;
use genlib_format::Library;
use net_core::Network;
use netlist::Mapped;
use sis_base::{Copied, Whole};
use sis_outside::{Sink, Store};
use sis_script::{Change, Command, Op, Style};
use sis_text::Word;
use std::alloc::{AllocError, Global};
use std::marker::Model;
use std::mem;

/// The length of the longest file and the longest script that is read, in bytes.
pub const MAX_BYTES: usize = 67_108_864;

/// The greatest depth of nested scripts.
pub const MAX_DEPTH: u32 = 16;

/// How large a function may be: different inner nodes of its reduced decision tree.
pub const MAX_FUNCTION: usize = 1_048_575;

/// What is held between two commands: the network, and the one before its last change, which both
/// keep the bounds within which literals are counted, each with its netlist; the machine and the
/// library, which are sound.
#[derive(Drop)]
pub struct Session {
    network: Option<Network<PlainRow>>,
    previous: Option<Network<PlainRow>>,
    machine: Option<Machine>,
    library: Option<Library>,
    netlist: Option<Mapped>,
    previous_netlist: Option<Mapped>,
}

impl Model for Session {
    ghost use Rattle.std.specs.Prelude.{IfSome};
    ghost use Rattle.blif_lines.specs.Libraries.{IsSoundLibrary};
    ghost use Rattle.circuit_model.specs.MachineSoundness.{IsSoundMachine};
    ghost use Rattle.net_core.specs.Reads.{HasBounds};
    ghost use Rattle.sis_session.specs.State.{Held, parts_held};

    ghost Value = { Held };

    ghost view = { λ s. parts_held s.network s.previous s.machine s.library s.netlist
        s.previous_netlist };

    ghost invariant = { λ s. IfSome s.network HasBounds × (IfSome s.previous HasBounds
        × (IsSoundLibrary s.library × IfSome s.machine IsSoundMachine)) };
}

impl Session {
    /// The session that holds nothing; takes no memory.
    pub fn new() -> Self
        ensures { result ≡ nothing_held }
    {
        Session {
            network: None,
            previous: None,
            machine: None,
            library: None,
            netlist: None,
            previous_netlist: None,
        }
    }

    /// Drops both netlists.
    fn drop_netlists(&mut self)
        ensures { self.new ≡ record self.old { netlist = None; previous_netlist = None } }
    {
        self.netlist = None;
        self.previous_netlist = None;
    }

    /// Makes a circuit that was read the network.
    #[tactic(auto, using(net_core::proofs::Bounds::bounds_read))]
    fn hold_circuit(&mut self, alloc: Global, circuit: Circuit) -> Result<(), AllocError>
        requires sound { IsSound circuit }
        requires limits { IsWithinLimits circuit }
        ensures ok { OnOk result (self.new ≡ with_read self.old circuit) }
        ensures err { OnErr result (self.new ≡ self.old) }
    {
        // A copy, so that the tables do not lie scattered over the memory of what made them.
        let read = Whole { it: circuit };
        let copied = read.it.copy(alloc)?;
        drop(read);
        self.network = Some(Network::from_circuit(alloc, copied)?);
        self.previous = None;
        self.machine = None;
        self.drop_netlists();
        Ok(())
    }

    /// Makes the circuit of a seed and a number of tables the network, like one that was read.
    fn hold_generated(&mut self, alloc: Global, seed: u64, tables: u64) -> Result<(), AllocError>
        ensures ok { OnOk result (self.new ≡ with_read self.old (circuit_of seed tables)) }
        ensures err { OnErr result (self.new ≡ self.old) }
    {
        let circuit = circuit_of(alloc, seed, tables)?;
        self.hold_circuit(alloc, circuit)
    }

    /// Makes a machine that was read the current one.
    fn hold_machine(&mut self, machine: Machine)
        requires { IsSoundMachine machine }
        ensures { self.new ≡ with_machine self.old machine }
    {
        self.network = None;
        self.previous = None;
        self.machine = Some(machine);
        self.drop_netlists();
    }

    /// Reads bytes as the network or the machine, by the current library; after an error the
    /// session is as before.
    pub fn read(&mut self, alloc: Global, bytes: &[u8]) -> Result<(), ReadFault>
        ensures { HasRead bytes.now self.old result self.new }
    {
        match read(alloc, bytes, self.library.as_ref())? {
            Spec::Circuit(circuit) => self.hold_circuit(alloc, circuit)?,
            Spec::Machine(machine) => self.hold_machine(machine),
        }
        Ok(())
    }

    /// The size of the network, if there is one; takes no memory.
    pub fn stats(&self) -> Option<Stats>
        ensures { result ≡ option_map stats_of self.now.network }
    {
        match &self.network {
            Some(network) => Some(stats_of(network)),
            None => None,
        }
    }

    /// Undoes the last change, if there was one: the network and the previous one are exchanged,
    /// with their netlists. Takes no memory.
    pub fn undo(&mut self) -> bool
        ensures { Undoes self.old.previous self.old result self.new }
    {
        if self.previous.is_none() {
            return false;
        }
        mem::swap(&mut self.network, &mut self.previous);
        mem::swap(&mut self.netlist, &mut self.previous_netlist);
        true
    }

    /// Reads the bytes of a file as the network or the machine.
    fn take_spec(&mut self, alloc: Global, name: &Word, bytes: &[u8]) -> Result<Next, StepFault>
        ensures came { Comes (spec_held self.old (spec_in Blif self.old name.now bytes.now))
            (ended result self.new) }
        ensures err { OnErr result (self.new ≡ self.old) }
    {
        match self.read(alloc, bytes) {
            Ok(()) => Ok(Next::Go),
            Err(ReadFault::Fault(fault)) => Err(StepFault::Refused(Refusal::Blif(
                name.copy(alloc)?,
                fault,
            ))),
            Err(ReadFault::Memory) => Err(StepFault::Memory),
        }
    }

    /// Reads the bytes of a file as the machine.
    fn take_machine(&mut self, alloc: Global, name: &Word, bytes: &[u8]) -> Result<Next, StepFault>
        ensures came { Comes (spec_held self.old (spec_in Kiss self.old name.now bytes.now))
            (ended result self.new) }
        ensures err { OnErr result (self.new ≡ self.old) }
    {
        match kiss_format::read(alloc, bytes) {
            Ok(machine) => {
                self.hold_machine(machine);
                Ok(Next::Go)
            }
            Err(kiss_format::ReadFault::Fault(fault)) => Err(StepFault::Refused(Refusal::Kiss(
                name.copy(alloc)?,
                fault,
            ))),
            Err(kiss_format::ReadFault::Memory) => Err(StepFault::Memory),
        }
    }

    /// Reads the bytes of a file as the library.
    fn take_library(&mut self, alloc: Global, name: &Word, bytes: &[u8]) -> Result<Next, StepFault>
        ensures came { Comes (library_held self.old name.now (library_of bytes.now))
            (ended result self.new) }
        ensures err { OnErr result (self.new ≡ self.old) }
    {
        match genlib_format::read(alloc, bytes) {
            Ok(library) => {
                self.library = Some(library);
                self.drop_netlists();
                Ok(Next::Go)
            }
            Err(genlib_format::ReadFault::Fault(fault)) => Err(StepFault::Refused(Refusal::Lib(
                name.copy(alloc)?,
                fault,
            ))),
            Err(genlib_format::ReadFault::Memory) => Err(StepFault::Memory),
        }
    }

    /// Reads a file as the network or the machine.
    fn read_blif<S: Store>(
        &mut self,
        alloc: Global,
        name: &Word,
        store: &mut S,
    ) -> Result<Next, StepFault>
        ensures did { Did (λ plan. plan ≡ Loads name.now (λ bytes. spec_held self.old
            (spec_in Blif self.old name.now bytes)))
            (Follows S.calls store.old store.new) AskedNone (ended result self.new) }
        ensures err { OnErr result (self.new ≡ self.old) }
    {
        let bytes = load(alloc, name.text(), store)?;
        self.take_spec(alloc, name, bytes.as_slice())
    }

    /// Reads a file as the machine.
    fn read_kiss<S: Store>(
        &mut self,
        alloc: Global,
        name: &Word,
        store: &mut S,
    ) -> Result<Next, StepFault>
        ensures did { Did (λ plan. plan ≡ Loads name.now (λ bytes. spec_held self.old
            (spec_in Kiss self.old name.now bytes)))
            (Follows S.calls store.old store.new) AskedNone (ended result self.new) }
        ensures err { OnErr result (self.new ≡ self.old) }
    {
        let bytes = load(alloc, name.text(), store)?;
        self.take_machine(alloc, name, bytes.as_slice())
    }

    /// Reads a file as the library.
    fn read_library<S: Store>(
        &mut self,
        alloc: Global,
        name: &Word,
        store: &mut S,
    ) -> Result<Next, StepFault>
        ensures did { Did (λ plan. plan ≡ Loads name.now (λ bytes. library_held self.old name.now
            (library_of bytes))) (Follows S.calls store.old store.new) AskedNone
            (ended result self.new) }
        ensures err { OnErr result (self.new ≡ self.old) }
    {
        let bytes = load(alloc, name.text(), store)?;
        self.take_library(alloc, name, bytes.as_slice())
    }

    /// Makes the circuit of a seed and a number of tables the network.
    fn generate(&mut self, alloc: Global, seed: u64, tables: u64) -> Result<Next, StepFault>
        ensures did { Did (λ plan. plan ≡ Quiet (Does (with_read self.old
            (circuit_of seed tables)) Go)) AskedNone AskedNone (ended result self.new) }
        ensures err { OnErr result (self.new ≡ self.old) }
        ensures nests { (depth : ℕ) → IfOk result (NestsBelow depth) }
    {
        self.hold_generated(alloc, seed, tables)?;
        Ok(Next::Go)
    }

    /// Changes the network, and keeps the old one as the previous one.
    fn change(&mut self, alloc: Global, change: Change) -> Result<Next, StepFault>
        ensures did { Did (Replies
            (ChangedBy self.old change self.old.network)) AskedNone AskedNone
            (ended result self.new) }
        ensures err { OnErr result (self.new ≡ self.old) }
    {
        let Some(network) = &self.network else {
            return Err(StepFault::Refused(Refusal::NoNetwork));
        };
        let new = change_network(alloc, network, change)?;
        self.previous = mem::replace(&mut self.network, Some(new));
        self.previous_netlist = mem::replace(&mut self.netlist, None);
        Ok(Next::Go)
    }

    /// Makes the network of the machine current, and keeps the old one as the previous one, if
    /// there was one.
    fn hold_encoded(&mut self, network: Network<PlainRow>)
        requires { HasBounds network }
        ensures { self.new ≡ with_encoded self.old self.old.network network }
    {
        let old = mem::replace(&mut self.network, Some(network));
        let netlist = mem::replace(&mut self.netlist, None);
        if old.is_some() {
            self.previous = old;
            self.previous_netlist = netlist;
        }
    }

    /// Makes the network of the machine, prints its codes, and then makes it current.
    fn state_assign<O: Sink>(
        &mut self,
        alloc: Global,
        style: Style,
        out: &mut O,
    ) -> Result<Next, StepFault>
        ensures did { Did (λ plan. plan ≡ sends None (encoded_reply (coding_of style) self.old
            self.old.machine)) AskedNone (Follows O.calls out.old out.new) (ended result self.new) }
        ensures err { OnErr result (self.new ≡ self.old) }
        ensures nests { (depth : ℕ) → IfOk result (NestsBelow depth) }
    {
        let Some(machine) = &self.machine else {
            return Err(StepFault::Refused(Refusal::NoMachine));
        };
        let CodedNetwork { network, text } = encoded(alloc, machine, style)?;
        match put(out, text.as_slice()) {
            Ok(next) => {
                self.hold_encoded(network);
                Ok(next)
            }
            Err(fault) => Err(fault),
        }
    }

    /// Makes a netlist of the network by the library, prints its areas, and then makes it current.
    fn map<O: Sink>(&mut self, alloc: Global, brief: bool, out: &mut O) -> Result<Next, StepFault>
        ensures did { Did (Replies (MappedBy brief self.old self.old.network self.old.library))
            AskedNone (Follows O.calls out.old out.new) (ended result self.new) }
        ensures err { OnErr result (self.new ≡ self.old) }
        ensures nests { (depth : ℕ) → IfOk result (NestsBelow depth) }
    {
        let Some(network) = &self.network else {
            return Err(StepFault::Refused(Refusal::NoNetwork));
        };
        let Some(library) = &self.library else {
            return Err(StepFault::Refused(Refusal::NoLibrary));
        };
        network.sound();
        let ToldNetlist { netlist, text } = netlisted(alloc, network, library, brief)?;
        match put(out, text.as_slice()) {
            Ok(next) => {
                self.netlist = Some(netlist);
                Ok(next)
            }
            Err(fault) => Err(fault),
        }
    }

    /// Undoes the last change, or is refused if there is none.
    fn undo_or_refuse(&mut self) -> Result<Next, StepFault>
        ensures did { Did (λ plan. plan ≡ Quiet
            (undo_outcome self.old self.old.previous)) AskedNone AskedNone (ended result self.new) }
        ensures err { OnErr result (self.new ≡ self.old) }
    {
        if self.undo() {
            Ok(Next::Go)
        } else {
            Err(StepFault::Refused(Refusal::NothingToUndo))
        }
    }

    /// One step of the command machine; `depth` is the number of sourced scripts around the
    /// command. After an error the session is as before.
    pub fn step<S: Store, O: Sink>(
        &mut self,
        alloc: Global,
        command: &Command,
        depth: u32,
        store: &mut S,
        out: &mut O,
    ) -> Result<Next, StepFault>
        ensures did { Did (Plans depth self.old command.now.op)
            (Follows S.calls store.old store.new) (Follows O.calls out.old out.new)
            (ended result self.new) }
        ensures err { OnErr result (self.new ≡ self.old) }
        ensures nests { IfOk result (NestsBelow depth) }
    {
        match &command.op {
            Op::Echo(words) => print_reply(echo(alloc, words), out),
            Op::Quit => Ok(Next::Quit),
            Op::ReadBlif(name) => self.read_blif(alloc, name, store),
            Op::ReadKiss(name) => self.read_kiss(alloc, name, store),
            Op::ReadLibrary(name) => self.read_library(alloc, name, store),
            Op::Generate(seed, tables) => self.generate(alloc, *seed, *tables),
            Op::WriteBlif(file) => write_reply(
                network_text(alloc, &self.network),
                file,
                store,
                out,
            ),
            Op::WriteKiss(file) => write_reply(
                machine_told(alloc, &self.machine),
                file,
                store,
                out,
            ),
            Op::WriteNetlist(file) => {
                write_reply(netlist_told(alloc, &self.netlist), file, store, out)
            }
            Op::PrintStats => print_reply(print_stats(alloc, &self.network), out),
            Op::Print(name) => print_reply(print(alloc, &self.network, name), out),
            Op::PrintLatch => print_reply(print_latch(alloc, &self.network), out),
            Op::PrintFactor(name) => print_reply(print_factor(alloc, &self.network, name), out),
            Op::PrintKernel(name) => print_reply(print_kernel(alloc, &self.network, name), out),
            Op::Change(change) => self.change(alloc, *change),
            Op::StateAssign(style) => self.state_assign(alloc, *style, out),
            Op::Map(brief) => self.map(alloc, *brief, out),
            Op::Undo => self.undo_or_refuse(),
            Op::Source(name) => source(alloc, name, depth, store),
            Op::Bad(fault) => Err(StepFault::Refused(Refusal::Script(*fault))),
        }
    }
}
