//! Bindings of the pins of a pattern to trees, by the numbers of the trees.
//!
//! Equal trees have one number, so a pin that occurs twice is bound to one tree if the two numbers
//! are equal.

ghost use Rattle.std.specs.Prelude.{◌≡◌, ◌++◌, None, replicate, slice_get, OnOk};
ghost use Rattle.tree_cover.specs.Bindings.{bind};

use sis_base::limits::MAX_PINS;
use std::alloc::AllocError;

/// The number of the tree that each of fifteen pins is bound to, if it is bound.
#[derive(Clone, Copy)]
pub struct Binding {
    pub pins: [Option<usize>; MAX_PINS],
}

/// No pin bound.
pub(crate) fn unbound() -> Binding
    ensures { result ≡ record { pins = replicate MAX_PINS None } }
{
    Binding {
        pins: [None; MAX_PINS],
    }
}

// What a pin is bound to; none if there is no such pin.
fn slot_of(binding: &Binding, pin: usize) -> Option<Option<usize>>
    ensures { result ≡ slice_get binding.now.pins pin }
{
    binding.pins.get(pin).copied()
}

/// Appends a binding with one more pin bound; none if the pin is bound to another tree, or there is
/// no such pin.
pub(crate) fn bind(
    pin: usize,
    number: usize,
    binding: &Binding,
    made: &mut Vec<Binding>,
) -> Result<(), AllocError>
    ensures { OnOk result (made.new.items ≡ made.old.items ++ bind pin number binding.now) }
{
    match slot_of(binding, pin) {
        None => Ok(()),
        Some(None) => {
            let mut more = *binding;
            more.pins[pin] = Some(number);
            made.push(more)?;
            Ok(())
        }
        Some(Some(other)) => {
            if other != number {
                return Ok(());
            }
            made.push(*binding)?;
            Ok(())
        }
    }
}
