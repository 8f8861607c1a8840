//! How many tables, latches and gates the models of a file have with their instances put in.
//!
//! Source: BLIF appendix of the SIS report (UCB/ERL M92/41), `.subckt`; the limit is the project's
//! own. The table of sizes is made by rounds: round k has the sizes where models nest less deep
//! than k (`specs/Sizes.antt`), none of them beyond one more than `MAX_NODES`. A round is linear in
//! the graph of the models.

ghost use Rattle.std.specs.Prelude.{◌≡◌, ◌+◌, [], count_by, slice_index_or, IfOk};
ghost use Rattle.sis_text.specs.Entries.{entry_at};
ghost use Rattle.circuit_checks.specs.Graphs.{reads_of};
ghost use Rattle.blif_lines.specs.Keyword.{kind_of};
ghost use Rattle.blif_lines.specs.Lines.{is_node_kind, nodes_in};
ghost use Rattle.blif_lines.specs.Reader.{part_lines};
ghost use Rattle.blif_models.specs.Files.{lines_at};
ghost use Rattle.blif_models.specs.Models.{model_graph};
ghost use Rattle.blif_models.specs.Sizes.{sizes_at, own_size, own_sizes, size_with, next_size, next_sizes, count_fault};

use crate::file::File;
use crate::limits::MAX_DEPTH;
use crate::line_kind::is_node;
use blif_lines::{BlifFault, LimitKind};
use sis_base::Sequence;
use sis_base::limits::MAX_NODES;
use sis_text::Line;
use std::alloc::{AllocError, Global};

/// The number of lines of a table, a latch or a gate.
fn node_lines(text: &[u8], lines: &[Line]) -> usize
    ensures { result ≡ count_by (λ line. is_node_kind (kind_of (entry_at text.now line)))
        lines.now }
{
    lines.iter().filter(|line| is_node(text, line)).count()
}

/// The number of tables, latches and gates in lines.
fn node_count(text: &[u8], lines: &[Line]) -> usize
    ensures { result ≡ nodes_in (lines_at text.now lines.now) }
{
    node_lines(text, lines)
}

/// The number of tables, latches and gates of a model, without its instances.
fn own_size(file: &File<'_>, place: usize) -> usize
    ensures { result ≡ own_size file.now.models place }
{
    node_count(file.text(), file.body(place)).min(MAX_NODES + 1)
}

/// The number of tables, latches and gates of each model, without its instances.
#[tactic(auto, unfolding(crate::specs::Sizes::own_sizes))]
fn own_sizes(alloc: Global, file: &File<'_>) -> Result<Vec<usize>, AllocError>
    ensures { IfOk result (λ own. own.items ≡ own_sizes file.now.models) }
{
    let count = file.count();
    let mut own = Vec::with_capacity(alloc, count)?;
    for place in 0..count {
        own.push(own_size(file, place))?;
    }
    Ok(own)
}

/// The number at an index of a table; 0 past its end.
fn number_at(numbers: &[usize], place: usize) -> usize
    ensures { result ≡ slice_index_or numbers.now place 0 }
{
    numbers.get(place).copied().unwrap_or(0)
}

/// The models that a model leads to; none past the last.
#[tactic(auto, unfolding(circuit_checks::specs::Graphs::reads_of))]
fn places_at(graph: &[Sequence<usize>], place: usize) -> &[usize]
    ensures { result.now ≡ reads_of graph.now place }
{
    match graph.get(place) {
        None => &[],
        Some(places) => places.as_slice(),
    }
}

/// The size of a model by its own number and the sizes of the models of its instances.
fn size_with(own: usize, sizes: &[usize], places: &[usize]) -> usize
    ensures { result ≡ size_with own sizes.now places.now }
{
    let mut size = own.min(MAX_NODES + 1);
    for place in places {
        let more = number_at(sizes, *place);
        size = size.saturating_add(more).min(MAX_NODES + 1);
    }
    size
}

/// The size of a model after one more round.
fn next_size(own: &[usize], graph: &[Sequence<usize>], sizes: &[usize], place: usize) -> usize
    ensures { result ≡ next_size own.now graph.now sizes.now place }
{
    size_with(number_at(own, place), sizes, places_at(graph, place))
}

/// The sizes after one more round.
#[tactic(auto, unfolding(crate::specs::Sizes::next_sizes))]
fn next_sizes(
    alloc: Global,
    own: &[usize],
    graph: &[Sequence<usize>],
    sizes: &[usize],
) -> Result<Vec<usize>, AllocError>
    ensures { IfOk result (λ next. next.items ≡ next_sizes own.now graph.now sizes.now) }
{
    let count = graph.len();
    let mut next = Vec::with_capacity(alloc, count)?;
    for place in 0..count {
        next.push(next_size(own, graph, sizes, place))?;
    }
    Ok(next)
}

/// The sizes of all models, by the graph of the models.
pub fn sizes(
    alloc: Global,
    file: &File<'_>,
    graph: &[Sequence<usize>],
) -> Result<Vec<usize>, AllocError>
    requires { graph.now ≡ model_graph file.now.models }
    ensures { IfOk result (λ sizes. sizes.items ≡ sizes_at file.now.models (MAX_DEPTH + 1)) }
{
    let own = own_sizes(alloc, file)?;
    let none = Vec::new(alloc);
    let mut sizes = next_sizes(alloc, own.as_slice(), graph, none.as_slice())?;
    for _round in 0..MAX_DEPTH {
        sizes = next_sizes(alloc, own.as_slice(), graph, sizes.as_slice())?;
    }
    Ok(sizes)
}

/// The lines of the don't-care part of a model.
pub fn part<'a>(file: &File<'a>, place: usize) -> &'a [Line]
    ensures { lines_at file.now.text result.now
        ≡ part_lines (slice_index_or file.now.models place []) }
{
    let lines = file.lines(place);
    &lines[file.body(place).len().min(lines.len())..]
}

/// What is wrong with the number of tables, latches and gates of the first model with its instances
/// put in.
#[tactic(auto, unfolding(crate::specs::Sizes::count_fault))]
pub fn count_fault(file: &File<'_>, sizes: &[usize]) -> Option<BlifFault>
    requires { sizes.now ≡ sizes_at file.now.models (MAX_DEPTH + 1) }
    ensures { result ≡ count_fault file.now.models (slice_index_or file.now.models 0 []) }
{
    let within = node_count(file.text(), part(file, 0));
    if number_at(sizes, 0).saturating_add(within) > MAX_NODES {
        return Some(BlifFault::Limit(LimitKind::Tables, MAX_NODES + 1));
    }
    None
}
