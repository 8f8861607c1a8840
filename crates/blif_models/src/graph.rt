//! The graph of the models of a file, and what is wrong with it.
//!
//! Source: BLIF appendix of the SIS report (UCB/ERL M92/41): `.subckt` puts a model in. Each model
//! leads to those of its instances (`model_graph` of `specs/Models.antt`). A model may be missing,
//! be in itself, or nest too deep (`specs/Reader.antt`). Each call takes time linear in the lines
//! and the edges; the one for depth takes that for each of `MAX_DEPTH + 1` steps.

ghost use Rattle.std.specs.Prelude.{◌≡◌, ◌+◌, ◌==◌, ◌||◌, ◌&&◌, not, true, List, [], map, length, replicate, find, filter_map, option_copied, IfOk, if◌then◌else◌};
ghost use Rattle.std.specs.List.{filter, list_any, range_with_len};
ghost use Rattle.sis_text.specs.declared.places.Line.{Line};
ghost use Rattle.sis_text.specs.Entries.{Entry, entry_at};
ghost use Rattle.circuit_model.specs.Names.{has};
ghost use Rattle.circuit_checks.specs.Graphs.{IsGraph, first_cyclic};
ghost use Rattle.circuit_checks.specs.Searching.{is_seen};
ghost use Rattle.blif_lines.specs.Reader.{model_name};
ghost use Rattle.blif_models.specs.Files.{lines_at, edge_of};
ghost use Rattle.blif_models.specs.Models.{is_instance, model_of, index_of, model_graph, is_used, used_graph, nests};
ghost use Rattle.blif_models.specs.Reader.{unknown_model, recursion, depth_fault};
ghost use Rattle.blif_models.specs.declared.limits.TheConstants.{MAX_DEPTH};

use crate::file::File;
use crate::limits::MAX_DEPTH;
use blif_lines::{BlifFault, LimitKind};
use circuit_checks::{add_place, first_cyclic, is_seen, reached};
use line_words::name_of;
use sis_base::Sequence;
use sis_text::Line;
use std::alloc::{AllocError, Global};

/// The index of the model that a line puts in; none if it is another line, or if the model is
/// missing.
fn edge(file: &File, line: &Line) -> Option<usize>
    ensures { result ≡ edge_of file.now.models (entry_at file.now.text line.now) }
{
    if !file.is_instance(line) {
        return None;
    }
    file.find(file.model_of(line))
}

/// The indices of the models that lines put in, in file order.
fn edges(alloc: Global, file: &File, lines: &[Line]) -> Result<Sequence<usize>, AllocError>
    ensures { IfOk result (λ edges. edges
        ≡ filter_map (λ line. index_of file.now.models (model_of line))
        (filter is_instance (lines_at file.now.text lines.now))) }
{
    let mut edges = Sequence::new(alloc);
    for line in lines {
        add_place(&mut edges, edge(file, line))?;
    }
    Ok(edges)
}

/// The graph of the models of a file.
#[tactic(auto, unfolding(crate::specs::Models::model_graph))]
pub fn graph(alloc: Global, file: &File) -> Result<Vec<Sequence<usize>>, AllocError>
    ensures edges { IfOk result (λ graph. graph.items ≡ model_graph file.now.models) }
    ensures graph { IfOk result (λ graph. IsGraph graph.items) }
{
    let mut graph = Vec::with_capacity(alloc, file.count())?;
    for place in 0..file.count() {
        graph.push(edges(alloc, file, file.body(place))?)?;
    }
    Ok(graph)
}

/// Whether a model is the first or marked.
fn is_first_or_seen(seen: &[bool], place: usize) -> bool
    ensures { result ≡ (place == 0 || is_seen seen.now place) }
{
    place == 0 || is_seen(seen, place)
}

/// Whether each model is the first one or put in by it, itself or by others.
pub fn used(alloc: Global, graph: &[Sequence<usize>]) -> Result<Vec<bool>, AllocError>
    requires { IsGraph graph.now }
    ensures { IfOk result (λ used. used.items
        ≡ map (is_used graph.now) (range_with_len 0 (length graph.now))) }
{
    let seen = reached(alloc, graph, 0)?;
    let mut used = Vec::with_capacity(alloc, graph.len())?;
    for place in 0..graph.len() {
        used.push(is_first_or_seen(seen.as_slice(), place))?;
    }
    Ok(used)
}

/// Whether a line puts in a model that is missing.
fn is_unknown(file: &File, line: &Line) -> bool
    ensures { result ≡ (is_instance (entry_at file.now.text line.now)
        && not (has (map model_name file.now.models)
        (model_of (entry_at file.now.text line.now)))) }
{
    file.is_instance(line) && file.find(file.model_of(line)).is_none()
}

/// The first of some lines that puts in a model that is missing.
fn first_unknown<'a>(file: &File, lines: &'a [Line]) -> Option<&'a Line>
    ensures { option_copied result ≡ find
        (λ (line : Line). is_instance (entry_at file.now.text line)
        && not (has (map model_name file.now.models) (model_of (entry_at file.now.text line))))
        lines.now }
{
    lines.iter().find(|line| is_unknown(file, line))
}

/// The line of the first instance whose model is not in the file.
pub fn unknown_model(file: &File) -> Option<BlifFault>
    ensures { result ≡ unknown_model file.now.models }
{
    for place in 0..file.count() {
        if let Some(line) = first_unknown(file, file.body(place)) {
            return Some(BlifFault::UnknownModel(line.number));
        }
    }
    None
}

/// The edges of a model that is used; none of another.
fn used_edges(alloc: Global, reads: &[usize], is_used: bool) -> Result<Sequence<usize>, AllocError>
    ensures { IfOk result (λ edges. edges ≡ (if is_used then reads.now else [])) }
{
    if !is_used {
        return Ok(Sequence::new(alloc));
    }
    let edges = Vec::from_slice(alloc, reads)?;
    Ok(Sequence::from_vec(edges))
}

/// The graph of the models that are used: the others lead nowhere.
fn used_graph(
    alloc: Global,
    graph: &[Sequence<usize>],
    used: &[bool],
) -> Result<Vec<Sequence<usize>>, AllocError>
    requires { used.now ≡ map (is_used graph.now) (range_with_len 0 (length graph.now)) }
    ensures { IfOk result (λ made. made.items ≡ used_graph graph.now) }
{
    let mut made = Vec::with_capacity(alloc, graph.len())?;
    for (place, reads) in graph.iter().enumerate() {
        made.push(used_edges(alloc, reads.as_slice(), is_seen(used, place))?)?;
    }
    Ok(made)
}

/// The first model, among those that are used, that is in itself.
fn first_recursive(
    alloc: Global,
    graph: &[Sequence<usize>],
    used: &[bool],
) -> Result<Option<usize>, AllocError>
    requires graph { IsGraph graph.now }
    requires used { used.now ≡ map (is_used graph.now) (range_with_len 0 (length graph.now)) }
    ensures { IfOk result (λ place. place ≡ first_cyclic (used_graph graph.now)) }
{
    let graph = used_graph(alloc, graph, used)?;
    let place = first_cyclic(alloc, graph.as_slice())?;
    Ok(place)
}

/// The first model, among those that are used, that is in itself, as a fault.
pub fn recursion(
    alloc: Global,
    file: &File,
    graph: &[Sequence<usize>],
    used: &[bool],
) -> Result<Option<BlifFault>, AllocError>
    requires graph { IsGraph graph.now }
    requires models { graph.now ≡ model_graph file.now.models }
    requires used { used.now ≡ map (is_used graph.now) (range_with_len 0 (length graph.now)) }
    ensures { IfOk result (λ fault. fault ≡ recursion file.now.models) }
{
    match first_recursive(alloc, graph, used)? {
        None => Ok(None),
        Some(place) => {
            let name = name_of(alloc, file.name(place))?;
            Ok(Some(BlifFault::Recursion(name)))
        }
    }
}

/// Whether some edge of a model leads to one that is marked.
fn leads_on(row: &[bool], reads: &[usize]) -> bool
    ensures { result ≡ list_any (is_seen row.now) reads.now }
{
    reads.iter().any(|read| is_seen(row, *read))
}

/// Which models have an edge to one that is marked.
fn next_row(alloc: Global, graph: &[Sequence<usize>], row: &[bool]) -> Result<Vec<bool>, AllocError>
    ensures { IfOk result (λ next. next.items ≡ map (list_any (is_seen row.now)) graph.now) }
{
    let mut next = Vec::with_capacity(alloc, graph.len())?;
    for reads in graph {
        next.push(leads_on(row, reads.as_slice()))?;
    }
    Ok(next)
}

/// Marks of all of so many places.
fn all_marked(alloc: Global, count: usize) -> Result<Vec<bool>, AllocError>
    ensures { IfOk result (λ row. row.items ≡ replicate count true) }
{
    vec![in alloc; true; count]
}

/// Whether a walk of more than `MAX_DEPTH` steps begins at the first model.
fn nests(alloc: Global, graph: &[Sequence<usize>]) -> Result<bool, AllocError>
    requires { IsGraph graph.now }
    ensures { IfOk result (λ deep. deep ≡ nests graph.now (MAX_DEPTH + 1) 0) }
{
    let mut row = all_marked(alloc, graph.len())?;
    let mut depth = 0;
    while depth <= MAX_DEPTH {
        row = next_row(alloc, graph, row.as_slice())?;
        depth += 1;
    }
    Ok(is_seen(row.as_slice(), 0))
}

/// Models that nest deeper than `MAX_DEPTH`, as a fault.
#[tactic(auto, unfolding(crate::specs::Reader::depth_fault))]
pub fn depth_fault(
    alloc: Global,
    graph: &[Sequence<usize>],
) -> Result<Option<BlifFault>, AllocError>
    requires { IsGraph graph.now }
    ensures { IfOk result (λ fault. (models : List (List Entry)) → graph.now ≡ model_graph models
        → fault ≡ depth_fault models) }
{
    if nests(alloc, graph)? {
        return Ok(Some(BlifFault::Limit(LimitKind::Depth, MAX_DEPTH + 1)));
    }
    Ok(None)
}
