//! Makes each call of a library that can run out of memory once, with enough memory, on small data.
//!
//! A body that only answers want of memory meets its contract; here it would print another answer.
//! Whole commands are cases of top_trials, which makes stores, sources and sinks want memory too.
//!
//! The first line of a case gives the call and its arguments; the text or the words that it is
//! about are below it, in the forms of trial_cases, and a circuit follows the text of a library and
//! a line `and`. Circuits are written in the Berkeley Logic Interchange Format. What is in `stdin`
//! and `stdout` is worked out by hand from the definitions.
//!
//! Not called by name, since cases here or commands of top_trials surely run through them:
//! - `first_cyclic`, `read_gate`, `add_signals`, `add_names`, `characters`, `end_line`: files read;
//! - `place_rows`: `compose`; `note_place`: `dangling_step`; `from_written`: `sweep`; `fates`,
//!   `table_number`, `place_of`, and an arena's other vertices: `forest`; `Choices`: `cover`;
//! - `compose_into`, `places_of`: `eliminate`; `division_of`, `divided_table`, `cover_table`:
//!   `resub`;
//! - `set`, `add` and `remove` of `WorkingNetwork` and `Links`, `UseCounts`: `eliminate` and
//!   `decomp`;
//! - `cube_over`, `row_over`, `cover_over`, and what net_candidates gives: `fx`, `gkx` and `gcx`;
//! - `DivisorGains`, `Codes`, divisors: `fx`; `CandidateQueue`, `best_saved`, `places_for`,
//!   `fits_input_limit`: `gkx` and `gcx`; a `Queue`: `eliminate`, `fx` and `gkx`;
//! - `assign`: `state_assign`; `KeptFunctions`, `table_function`: `full`;
//! - `factor_line`, `factor_lines`, `kernel_lines`, `load`, `error_text`, `refusal_text`,
//!   `put_two`, `put_three`, `read_words`, `run_sis`: `print_factor`, `print_kernel`, `read_blif`,
//!   refusals.
#![tactic(auto)]

mod circuits;
mod covers;
mod files;
mod functions;
mod needed;
mod netlists;
mod networks;
mod oracle;
mod outside;
mod puts;
mod reads;
mod row_kinds;
mod rows;
mod texts;
mod tiles;
mod trees;
mod wires;

use cube_cover::PlainRow;
use std::alloc::Global;
use std::io;
use std::io::{Read, Write};
use trial_cases::{Case, CaseFault, Trial, answers, text_of};

/// The cases of this program.
struct Calls;

impl Trial for Calls {
    /// Appends the answer to a case to a text.
    fn answer(alloc: Global, out: &mut Vec<u8>, case: &Case<'_>) -> Result<(), CaseFault> {
        match case.word(0) {
            "store" => outside::put_store(alloc, out),
            "source" => outside::put_source(alloc, out),
            "sink" => outside::put_sink(alloc, out),
            "functions" => functions::answer(alloc, out, case),
            "generate" => circuits::put_generated(alloc, out, case),
            "checks" => circuits::put_checks(alloc, out, case),
            "row_literals" | "row_product" | "row_ends" => row_kinds::answer(alloc, out, case),
            "readers" => wires::put_readers(alloc, out, case),
            "map" => netlists::put_mapped(alloc, out, case),
            "patterns" | "matches" | "forest" | "vertices" | "cover" | "totals" => {
                trees::answer(alloc, out, case)
            }
            _ => answer_of_text(alloc, out, case),
        }
    }
}

/// Appends the answer to a case whose lines are one text, or to one of rows and covers.
fn answer_of_text(alloc: Global, out: &mut Vec<u8>, case: &Case<'_>) -> Result<(), CaseFault> {
    let text = text_of(alloc, case.lines.as_slice())?;
    match case.word(0) {
        "text" => texts::answer(alloc, out, case, text.as_slice()),
        "file" => files::answer(alloc, out, case, text.as_slice()),
        "circuit" => circuits::answer(alloc, out, case, text.as_slice()),
        "table" => wires::put_tables(alloc, out, case, text.as_slice()),
        "aliases" => wires::put_aliases(alloc, out, case, text.as_slice()),
        "network" => networks::answer(alloc, out, case, text.as_slice()),
        "work" => networks::put_work(alloc, out, case, text.as_slice()),
        "full" => networks::put_full(alloc, out, case, text.as_slice()),
        "signals" => functions::put_signals(alloc, out, case, text.as_slice()),
        "netlist" => netlists::put_netlist(alloc, out, case, text.as_slice()),
        "command" => networks::put_command(alloc, out, case, text.as_slice()),
        _ => covers::answer::<PlainRow>(alloc, out, case),
    }
}

fn main(rt: HostRuntime) -> io::Result<()> {
    let mut input = String::new(rt.alloc());
    rt.stdin().read_to_string(&mut input)?;
    let out = answers::<Calls>(rt.alloc(), input.as_str())?;
    rt.stdout().write_all(out.as_slice())
}
