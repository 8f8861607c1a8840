//! The lines of factored forms: `NAME = FORM`, with `!` before the name if the rows give the
//! off-set (`specs/Told.antt`). Each row of a table must have a character for each input.

ghost use Rattle.std.specs.Prelude.{◌≡◌, ◌++◌, ◌∷◌, [], List, length, codes, IfOk, OnOk};
ghost use Rattle.std.specs.List.{AllByRecursion};
ghost use Rattle.circuit_model.specs.Soundness.{IsShaped};
ghost use Rattle.net_core.specs.Tables.{HasCharacters};
ghost use Rattle.circuit_model.specs.declared.circuit.Table.{Table as TheTable};
ghost use Rattle.alg_factor.specs.Forms.{Form, IsFactored};
ghost use Rattle.alg_factor.specs.Texts.{form_text, literal_text};
ghost use Rattle.net_decomp.specs.Partings.{rows_of};
ghost use Rattle.sis_session.specs.Told.{IsFactorLine, AreFactorLines};

use alg_factor::factor;
use circuit_model::Table as Written;
use cube_cover::PlainRow;
use net_core::CoverTable;
use std::alloc::{AllocError, Global};

// The text of the factored form of a table's rows.
#[tactic(auto, unfolding(net_core::specs::Tables::covered))]
fn form_of(alloc: Global, written: &Written) -> Result<Vec<u8>, AllocError>
    requires { HasCharacters (length written.now.inputs) written.now.rows }
    ensures { IfOk result (λ text. (form : Form) × IsFactored (rows_of written.now) form
        × (text.items ≡ form_text written.now.inputs form)) }
{
    let table = CoverTable::<PlainRow>::from_written(alloc, written)?;
    let factored = factor(alloc, &table.cover)?;
    let text = factored.print(alloc, written.inputs.as_slice())?;
    Ok(text)
}

// A text as the line of a table's form.
fn line_of(alloc: Global, written: &Written, form: &[u8]) -> Result<Vec<u8>, AllocError>
    ensures { IfOk result (λ line. line.items
        ≡ literal_text written.now.phase written.now.output ++ (codes " = " ++ (form.now
        ++ codes "\n"))) }
{
    let mut line = Vec::new(alloc);
    if !written.phase {
        line.push(b'!')?;
    }
    line.extend_from_slice(written.output.as_slice())?;
    line.extend_from_slice(b" = ".as_slice())?;
    line.extend_from_slice(form)?;
    line.push(10)?;
    Ok(line)
}

/// The line of a table's factored form, each of whose rows has a character for each input.
#[tactic(auto, unfolding(crate::specs::Told::form_line))]
pub fn factor_line(alloc: Global, written: &Written) -> Result<Vec<u8>, AllocError>
    requires { HasCharacters (length written.now.inputs) written.now.rows }
    ensures { IfOk result (λ line. IsFactorLine written.now line.items) }
{
    let form = form_of(alloc, written)?;
    let line = line_of(alloc, written, form.as_slice())?;
    Ok(line)
}

// Appends the line of one more table to those of the tables before it.
fn put_line(alloc: Global, text: &mut Vec<u8>, table: &Written) -> Result<(), AllocError>
    requires { IsShaped table.now }
    ensures { OnOk result ((before : List TheTable) → AreFactorLines before text.old.items
        → AreFactorLines (before ++ table.now ∷ []) text.new.items) }
{
    let line = factor_line(alloc, table)?;
    text.extend_from_slice(line.as_slice())?;
    Ok(())
}

/// The lines of the factored forms of tables, in order.
pub fn factor_lines(alloc: Global, tables: &[Written]) -> Result<Vec<u8>, AllocError>
    requires { AllByRecursion IsShaped tables.now }
    ensures { IfOk result (λ text. AreFactorLines tables.now text.items) }
{
    let mut text = Vec::new(alloc);
    for table in tables {
        put_line(alloc, &mut text, table)?;
    }
    Ok(text)
}
