//! The two kinds of operations whose nested operands are gathered.

ghost use Rattle.std.specs.Prelude.{◌≡◌};
ghost use Rattle.pattern_set.specs.Lists.{is_same};

/// An operation of several operands.
#[derive(Clone, Copy)]
pub enum Kind {
    Product,
    Sum,
}

/// Whether two kinds are the same.
pub fn is_same(left: Kind, right: Kind) -> bool
    ensures { result ≡ is_same left right }
{
    match (left, right) {
        (Kind::Product, Kind::Product) => true,
        (Kind::Product, Kind::Sum) => false,
        (Kind::Sum, Kind::Product) => false,
        (Kind::Sum, Kind::Sum) => true,
    }
}
