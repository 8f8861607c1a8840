//! The two sides of a model.

ghost use Rattle.std.specs.Prelude.{◌≡◌};
ghost use Rattle.blif_models.specs.Sides.{other_side};

/// The inputs of a model and the signals that its lines read, or its outputs and the signals that
/// its lines drive.
#[derive(Clone, Copy, Debug, PartialEq, Eq)]
pub enum Side {
    Inputs,
    Outputs,
}

/// The other side.
pub fn other_side(side: Side) -> Side
    ensures { result ≡ other_side side }
{
    match side {
        Side::Inputs => Side::Outputs,
        Side::Outputs => Side::Inputs,
    }
}
