//! Operations on the literals of one column.
//!
//! Source: De Micheli, "Synthesis and Optimization of Digital Circuits", chapter 7 (operations on
//! cubes, column by column). A literal is some bit (true for the positive one), a dash is none.

ghost use Rattle.std.specs.Prelude.{◌≡◌};
ghost use Rattle.cube_cover.specs.Literals.{literal_number, literal_product, literal_without, literal_shared};

/// 1 for a literal, 0 for a dash.
pub fn literal_number_of(place: Option<bool>) -> usize
    ensures { result ≡ literal_number place }
{
    match place {
        None => 0,
        Some(_literal) => 1,
    }
}

/// The first literal, or the other if the first is a dash.
pub fn product_literal(literal: Option<bool>, other: Option<bool>) -> Option<bool>
    ensures { result ≡ literal_product literal other }
{
    match literal {
        Some(bit) => Some(bit),
        None => other,
    }
}

/// The literal, or a dash where the mask has a literal.
pub fn without_literal(literal: Option<bool>, mask: Option<bool>) -> Option<bool>
    ensures { result ≡ literal_without literal mask }
{
    match mask {
        Some(_bit) => None,
        None => literal,
    }
}

/// The literal that both are, or a dash.
pub fn shared_literal(literal: Option<bool>, other: Option<bool>) -> Option<bool>
    ensures { result ≡ literal_shared literal other }
{
    match (literal, other) {
        (Some(bit), Some(second)) if bit == second => Some(bit),
        _ => None,
    }
}
