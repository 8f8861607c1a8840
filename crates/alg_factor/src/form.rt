//! The factored form and its tree.
//!
//! A `Tree` is a sum of rows, or a literal times a tree, plus a tree. `Factored` adds the number of
//! inputs; its invariant is that all rows and literals are over these inputs. `expand`, `literals`
//! and `print` are exact for the form that contracts see (`specs/Forms.antt`, `specs/Texts.antt`).

ghost use Rattle.std.specs.Prelude.{◌≡◌, ℕ, ◌^◌, ◌<◌, List, length, map, IfOk};
ghost use Rattle.alg_factor.specs.Forms.{Factors, IsOver, form_literals, expansion_of};
ghost use Rattle.alg_factor.specs.Shapes.{shape};
ghost use Rattle.alg_factor.specs.Texts.{form_text};

use crate::expansion::expand_rows;
use crate::literals::tree_literals;
use crate::text::put_tree;
use circuit_model::Name;
use cube_cover::{Cover, Row};
use std::alloc::{AllocError, Global};
use std::marker::Model;

/// A sum of rows; or a literal, by its column and its bit, times a tree, plus a tree.
pub(crate) enum Tree<R: Row> {
    Rows(Vec<R>),
    Term(usize, bool, Box<Tree<R>>, Box<Tree<R>>),
}

impl<R: Row> Drop for Tree<R> {
    fn drop(mut self) {
        loop {
            match self {
                Tree::Rows(_) => return,
                Tree::Term(_, _, _, rest) => self = Box::into_inner(rest),
            }
        }
    }
}

/// A factored form over some inputs. Contracts see it as their number and the form.
#[derive(Drop)]
pub struct Factored<R: Row> {
    width: usize,
    tree: Tree<R>,
}

impl<R: Row> Model for Factored<R> {
    ghost use Rattle.alg_factor.specs.Forms.{Factors, IsOver};
    ghost use Rattle.alg_factor.specs.Codes.{factors_code};

    ghost Value = { Factors };

    ghost coded = { factors_code };

    ghost use Rattle.alg_factor.specs.Shapes.{shape};

    ghost view = { λ factored. record { width = factored.width; form = shape R.literals factored.tree } };

    ghost invariant = { λ factored. IsOver factored.width (shape R.literals factored.tree) };
}

impl<R: Row> Factored<R> {
    // The form of a tree over `width` inputs.
    pub(crate) fn of(width: usize, tree: Tree<R>) -> Factored<R>
        requires { IsOver width (shape R.literals tree) }
        ensures { result ≡ record { width = width; form = shape R.literals tree } }
    {
        Factored { width, tree }
    }

    /// The number of inputs.
    pub fn width(&self) -> usize
        ensures { result ≡ self.now.width }
    {
        self.width
    }

    /// The form multiplied out: each row of the quotient with the literal, followed by the rows of
    /// the rest.
    pub fn expand(&self, alloc: Global) -> Result<Cover<R>, AllocError>
        ensures { IfOk result (λ made. made ≡ record
            { width = self.now.width; rows = expansion_of self.now.form }) }
    {
        let rows = expand_rows(alloc, self.width, &self.tree)?;
        Ok(Cover::of(self.width, rows))
    }

    /// The number of literals in the form, which must be below 2^64; allocates nothing.
    pub fn literals(&self) -> u64
        requires { form_literals self.now.form < 2 ^ 64 }
        ensures { result ≡ form_literals self.now.form }
    {
        tree_literals(&self.tree)
    }

    /// The text of the form, with a name for each input. A negative literal has `!` before its
    /// name, `*` separates factors and ` + ` summands; a sum as a factor is in parentheses, a row
    /// without literals is `1`, and a sum without rows `0`.
    pub fn print(&self, alloc: Global, names: &[Name]) -> Result<Vec<u8>, AllocError>
        requires { length names.now ≡ self.now.width }
        ensures { IfOk result (λ text. text.items ≡ form_text names.now self.now.form) }
    {
        let mut text = Vec::new(alloc);
        put_tree(&mut text, &self.tree, names)?;
        Ok(text)
    }
}
