//! Laws of Boolean functions and their trees, each proved as the contract of a function that does
//! nothing.

ghost use Rattle.func_core.specs.Laws.{OneTree, TreeGoesByPoints, BigGoesByPoints, FittingIsNotBig, ComplementHasSize, NonzeroIsTrueSomewhere, NoPointIsZero, PointIsTrue, PointRises};

/// Equal functions have one tree.
pub fn equal_functions_have_one_tree()
    ensures { OneTree }
{}

/// The meaning of a number, and whether it is too big, depend on the function's bits alone: if two
/// functions agree at each valuation, a tree of one is a tree of the other, and they are too big
/// for the same limits.
pub fn functions_go_by_points()
    ensures tree { TreeGoesByPoints }
    ensures big { BigGoesByPoints }
{}

/// No function is both within a limit and too big for it.
pub fn fitting_functions_are_not_too_big()
    ensures { FittingIsNotBig }
{}

/// A complement has the size of its function.
pub fn complements_have_one_size()
    ensures { ComplementHasSize }
{}

/// A function that is not the constant false is true somewhere. The path of a tree leads to a point
/// at which the function is true, only the constant false has none, and no variable occurs on it
/// twice.
pub fn given_points_are_true()
    ensures somewhere { NonzeroIsTrueSomewhere }
    ensures none { NoPointIsZero }
    ensures one { PointIsTrue }
    ensures rises { PointRises }
{}
