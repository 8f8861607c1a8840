//! Cases of netlists: the text of a circuit with one gate, and the netlist that a network is mapped
//! to, or why there is none.

ghost use Rattle.genlib_format.specs.Soundness.{IsSoundGates};

use crate::puts::put_value;
use crate::reads::{circuit, library, network, parted};
use blif_write::netlist_text;
use cube_cover::PlainRow;
use genlib_format::Library;
use line_words::name_of;
use map_net::map;
use net_core::Network;
use netlist::{Connection, Mapped, Placed};
use sis_base::Sequence;
use std::alloc::{AllocError, Global};
use trial_cases::{Case, CaseFault, text_of};

/// A pin with its signal.
fn connection(alloc: Global, pin: &str, signal: &str) -> Result<Connection, AllocError> {
    Ok(Connection {
        pin: name_of(alloc, pin.as_bytes())?,
        signal: name_of(alloc, signal.as_bytes())?,
    })
}

/// The gate of one pin that a case describes: its cell, its pin with a signal, its output with
/// another.
fn placed(alloc: Global, case: &Case<'_>) -> Result<Placed, AllocError> {
    let mut pins = Sequence::new(alloc);
    pins.push(connection(alloc, case.word(2), case.word(3))?)?;
    pins.push(connection(alloc, case.word(4), case.word(5))?)?;
    Ok(Placed {
        cell: name_of(alloc, case.word(1).as_bytes())?,
        pins,
    })
}

/// The netlist of that gate and of the circuit of a text, with no trees.
fn mapped(alloc: Global, case: &Case<'_>, text: &[u8]) -> Result<Mapped, CaseFault> {
    let mut gates = Sequence::new(alloc);
    gates.push(placed(alloc, case)?)?;
    Ok(Mapped {
        base: circuit(alloc, text)?,
        gates,
        trees: Sequence::new(alloc),
    })
}

/// Appends the text of the netlist of a case.
pub fn put_netlist(
    alloc: Global,
    out: &mut Vec<u8>,
    case: &Case<'_>,
    text: &[u8],
) -> Result<(), CaseFault> {
    netlist_text(alloc, &mapped(alloc, case, text)?, out)?;
    Ok(())
}

/// Appends the netlist of the network of a case by its library, or why there is none.
pub fn put_mapped(alloc: Global, out: &mut Vec<u8>, case: &Case<'_>) -> Result<(), CaseFault> {
    let (first, rest) = parted(case.lines.as_slice());
    let library = library(alloc, text_of(alloc, first)?.as_slice())?;
    let text = text_of(alloc, rest.get(1..).unwrap_or(&[]))?;
    let network = network(alloc, text.as_slice())?;
    put_map(alloc, out, &network, &library)
}

/// Appends the netlist of a network by a library, or why there is none.
fn put_map(
    alloc: Global,
    out: &mut Vec<u8>,
    network: &Network<PlainRow>,
    library: &Library,
) -> Result<(), CaseFault>
    requires { IsSoundGates library.now }
{
    match map(alloc, network, library) {
        Ok(netlist) => {
            netlist_text(alloc, &netlist, out)?;
            Ok(())
        }
        Err(fault) => put_value(alloc, out, &fault),
    }
}
