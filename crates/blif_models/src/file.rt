//! The models of a file: each as a slice of the file's lines, its body without the don't-care part,
//! and the models by name.
//!
//! Source: BLIF appendix of the SIS report (UCB/ERL M92/41): a `.model` line begins a model. `new`
//! splits the lines as `models_of` of `specs/Models.antt`; a name leads to the first model that has
//! it. All slices are of the text that is read; nothing is copied.

ghost use Rattle.std.specs.Prelude.{◌≡◌, ◌<◌, ◌≤◌, ℕ, List, Some, None, [], not, map, length, take_while, slice_index_or, bytes_eq, IfOk, OnOk, if◌then◌else◌};
ghost use Rattle.std.specs.Option.{option_or};
ghost use Rattle.sis_text.specs.declared.places.Line.{Line};
ghost use Rattle.sis_text.specs.Entries.{entry_at};
ghost use Rattle.blif_lines.specs.Keyword.{kind_of};
ghost use Rattle.blif_lines.specs.Lines.{begins_part};
ghost use Rattle.blif_lines.specs.Reader.{model_lines, model_name};
ghost use Rattle.blif_models.specs.Files.{lines_at, models_at, first_count, place_of, Parted};
ghost use Rattle.blif_models.specs.Models.{begins_model, models_of, is_instance, model_of, index_of};

use crate::line_kind;
use indexmap::IndexMap;
use sis_text::Line;
use std::alloc::{AllocError, Global};
use std::marker::Model;

/// The models of a file; contracts see the text and the lines of each model.
#[derive(Drop)]
pub struct File<'a> {
    text: &'a [u8],
    models: Vec<&'a [Line]>,
    bodies: Vec<&'a [Line]>,
    names: IndexMap<&'a [u8], usize>,
}

impl<'a> Model for File<'a> {
    ghost use Rattle.std.specs.Prelude.{◌≡◌, ℕ, List, map};
    ghost use Rattle.blif_lines.specs.Reader.{model_lines};
    ghost use Rattle.blif_models.specs.Files.{models_at, place_of, Parted};
    ghost use Rattle.blif_models.specs.Models.{index_of};

    ghost Value = { Parted };

    ghost view = { λ file. record {
      text = file.text.now;
      models = models_at file.text.now file.models.items;
    } };

    ghost invariant = { λ file.
        (models_at file.text.now file.bodies.items
        ≡ map model_lines (models_at file.text.now file.models.items))
        × ((name : List ℕ) → place_of file.names name
        ≡ index_of (models_at file.text.now file.models.items) name) };
}

/// The number of lines before the first that begins a model.
fn begin_place(text: &[u8], lines: &[Line]) -> usize
    ensures { result ≡ length (take_while (λ (line : Line). not
        (begins_model (entry_at text.now line))) lines.now) }
{
    lines
        .iter()
        .take_while(|line| !line_kind::begins_model(text, line))
        .count()
}

/// The number of lines of the first model.
fn model_len(text: &[u8], lines: &[Line]) -> usize
    requires { 0 < length lines.now }
    ensures count { result ≡ first_count (lines_at text.now lines.now) }
    ensures some { 0 < result }
    ensures within { result ≤ length lines.now }
{
    1 + begin_place(text, line_kind::behind(lines))
}

/// The models of the lines of a text.
fn models_of<'a>(
    alloc: Global,
    text: &[u8],
    lines: &'a [Line],
) -> Result<Vec<&'a [Line]>, AllocError>
    ensures { IfOk result (λ models. models_at text.now models.items
        ≡ models_of (lines_at text.now lines.now)) }
{
    let mut models = Vec::new(alloc);
    let mut rest = lines;
    while !rest.is_empty() {
        let (model, others) = rest.split_at(model_len(text, rest));
        models.push(model)?;
        rest = others;
    }
    Ok(models)
}

/// The number of lines of a model before its don't-care part.
fn part_place(text: &[u8], model: &[Line]) -> usize
    ensures { result ≡ length (take_while (λ (line : Line). not
        (begins_part (kind_of (entry_at text.now line)))) model.now) }
{
    model
        .iter()
        .take_while(|line| !line_kind::begins_part(text, line))
        .count()
}

/// The lines of a model before its don't-care part.
fn body_in<'a>(text: &[u8], model: &'a [Line]) -> &'a [Line]
    ensures { lines_at text.now result.now ≡ model_lines (lines_at text.now model.now) }
{
    &model[..part_place(text, model)]
}

/// The lines of each model before its don't-care part.
fn bodies_of<'a>(
    alloc: Global,
    text: &[u8],
    models: &[&'a [Line]],
) -> Result<Vec<&'a [Line]>, AllocError>
    ensures { IfOk result (λ bodies. models_at text.now bodies.items
        ≡ map model_lines (models_at text.now models.now)) }
{
    let mut bodies = Vec::with_capacity(alloc, models.len())?;
    for model in models {
        bodies.push(body_in(text, model))?;
    }
    Ok(bodies)
}

/// The name of a model; `top` for one without lines.
#[tactic(auto, unfolding(blif_lines::specs::Reader::model_name))]
fn name_of<'a>(text: &'a [u8], model: &[Line]) -> &'a [u8]
    ensures { result.now ≡ model_name (lines_at text.now model.now) }
{
    match model {
        [] => b"top".as_slice(),
        [line, ..] => line_kind::name_on(text, line),
    }
}

/// Gives a name an index, unless it has one.
fn note<'a>(
    names: &mut IndexMap<&'a [u8], usize>,
    name: &'a [u8],
    place: usize,
) -> Result<(), AllocError>
    ensures { OnOk result ((query : List ℕ) → place_of names.new query
        ≡ option_or (place_of names.old query)
        (if bytes_eq name.now query then Some place else None)) }
{
    if names.contains_key(name) {
        return Ok(());
    }
    let _place = names.insert(name, place)?;
    Ok(())
}

/// Maps each name to the index of the first model that has it.
fn names_of<'a>(
    alloc: Global,
    text: &'a [u8],
    models: &[&'a [Line]],
) -> Result<IndexMap<&'a [u8], usize>, AllocError>
    ensures { IfOk result (λ names. (query : List ℕ) → place_of names query
        ≡ index_of (models_at text.now models.now) query) }
{
    let mut names = IndexMap::new(alloc);
    for (place, model) in models.iter().enumerate() {
        note(&mut names, name_of(text, model), place)?;
    }
    Ok(names)
}

/// The lines of the model at an index; none past the last.
fn lines_in<'a>(models: &[&'a [Line]], place: usize) -> &'a [Line]
    ensures { (text : List ℕ) → lines_at text result.now
        ≡ slice_index_or (models_at text models.now) place [] }
{
    match models.get(place) {
        Some(lines) => lines,
        None => &[],
    }
}

impl<'a> File<'a> {
    /// The models of the lines of a text.
    pub fn new(alloc: Global, text: &'a [u8], lines: &'a [Line]) -> Result<File<'a>, AllocError>
        ensures { IfOk result (λ file. file ≡ record {
          text = text.now;
          models = models_of (lines_at text.now lines.now);
        }) }
    {
        let models = models_of(alloc, text, lines)?;
        let bodies = bodies_of(alloc, text, models.as_slice())?;
        let names = names_of(alloc, text, models.as_slice())?;
        Ok(File {
            text,
            models,
            bodies,
            names,
        })
    }

    /// The text.
    pub fn text(&self) -> &'a [u8]
        ensures { result.now ≡ self.now.text }
    {
        self.text
    }

    /// The number of models.
    pub fn count(&self) -> usize
        ensures { result ≡ length self.now.models }
    {
        self.models.len()
    }

    /// The lines of a model; none past the last.
    pub fn lines(&self, place: usize) -> &'a [Line]
        ensures { lines_at self.now.text result.now ≡ slice_index_or self.now.models place [] }
    {
        lines_in(self.models.as_slice(), place)
    }

    /// The lines of a model without its don't-care part.
    pub fn body(&self, place: usize) -> &'a [Line]
        ensures { lines_at self.now.text result.now
            ≡ model_lines (slice_index_or self.now.models place []) }
    {
        lines_in(self.bodies.as_slice(), place)
    }

    /// The name of a model.
    pub fn name(&self, place: usize) -> &'a [u8]
        ensures { result.now ≡ model_name (slice_index_or self.now.models place []) }
    {
        name_of(self.text, self.lines(place))
    }

    /// The index of the first model of a name.
    pub fn find(&self, name: &[u8]) -> Option<usize>
        ensures { result ≡ index_of self.now.models name.now }
    {
        self.names.get(name).copied()
    }

    /// Whether a line puts in an instance of a model.
    pub fn is_instance(&self, line: &Line) -> bool
        ensures { result ≡ is_instance (entry_at self.now.text line.now) }
    {
        line_kind::is_instance(self.text, line)
    }

    /// The name of the model of an instance.
    pub fn model_of(&self, line: &Line) -> &'a [u8]
        ensures { result.now ≡ model_of (entry_at self.now.text line.now) }
    {
        line_kind::model_of(self.text, line)
    }
}
