//! The names of new signals: a prefix and the least numbers that give a name that no port has
//! (`specs/Naming.antt`).

ghost use Rattle.std.specs.Prelude.{◌≡◌, ◌+◌, ◌^◌, ◌<◌, [], ◌∷◌, ◌++◌, length, IfOk, OnOk, if◌then◌else◌};
ghost use Rattle.circuit_model.specs.Names.{has};
ghost use Rattle.state_code.specs.Naming.{numbered, free_names};

use circuit_model::{Name, has_name};
use std::alloc::{AllocError, Global};

/// A prefix and a number.
#[tactic(auto, using(std::proofs::lemmas::Grind::common_steps), unfolding(crate::specs::Naming::numbered))]
fn numbered(alloc: Global, prefix: &[u8], number: usize) -> Result<Name, AllocError>
    ensures { IfOk result (λ name. name ≡ numbered prefix.now number) }
{
    let text = format!(in alloc; "{number}")?;
    let mut bytes = Vec::new(alloc);
    bytes.extend_from_slice(prefix)?;
    bytes.extend_from_slice(text.as_bytes())?;
    Ok(Name::from_vec(bytes))
}

/// Puts a prefix and a number behind the last, unless a port has that name.
fn push_free(
    alloc: Global,
    names: &mut Vec<Name>,
    prefix: &[u8],
    number: usize,
    inputs: &[Name],
    outputs: &[Name],
) -> Result<(), AllocError>
    ensures { OnOk result (names.new.items ≡ names.old.items
        ++ (if has (inputs.now ++ outputs.now) (numbered prefix.now number)
        then [] else numbered prefix.now number ∷ [])) }
{
    let name = numbered(alloc, prefix, number)?;
    if !has_name(inputs, &name) && !has_name(outputs, &name) {
        names.push(name)?;
    }
    Ok(())
}

/// So many names of a prefix with a number that no port has, those of the least numbers.
pub(crate) fn free_names(
    alloc: Global,
    prefix: &[u8],
    count: usize,
    inputs: &[Name],
    outputs: &[Name],
) -> Result<Vec<Name>, AllocError>
    requires { count + length inputs.now + length outputs.now < 2 ^ 64 }
    ensures { IfOk result (λ names. names.items
        ≡ free_names prefix.now (inputs.now ++ outputs.now) count) }
{
    let mut names = Vec::with_capacity(alloc, count)?;
    for number in 0..count + inputs.len() + outputs.len() {
        if names.len() == count {
            return Ok(names);
        }
        push_free(alloc, &mut names, prefix, number, inputs, outputs)?;
    }
    Ok(names)
}
