//! Laws of the minimum, as in the textbook (De Micheli, chapter 7): it agrees with the function
//! wherever that is not free, is prime and irredundant, and depends on the function by its points
//! alone.

ghost use Rattle.std.specs.Prelude.{◌≡◌, ◌↔◌, Bool, true, List, Option};
ghost use Rattle.std.specs.List.{AllByRecursion};
ghost use Rattle.sis_base.specs.Rows.{IsPoint, HasWidth};
ghost use Rattle.cover_min.specs.Points.{has_point, PointOf};
ghost use Rattle.cover_min.specs.Minimum.{Meaning, minimum_rows};
ghost use Rattle.cover_min.specs.Primes.{Agrees, IsPrime, IsIrredundant};

/// A test holds at some point of a row exactly if there is such a point.
pub fn points_are_found()
    ensures found { (test : List Bool → Bool) (row : List (Option Bool)) → has_point test row ≡ true
        ↔ PointOf test row }
{}

/// The minimum's rows have the width of the rows.
pub fn minimum_has_the_width()
    ensures { (meaning : Meaning) (rows : List (List (Option Bool))) → HasWidth meaning.width rows
        → HasWidth meaning.width (minimum_rows meaning rows) }
{}

/// If the rows agree with the function wherever it is not free, the minimum does too.
pub fn minimum_agrees()
    ensures { (meaning : Meaning) (rows : List (List (Option Bool))) → HasWidth meaning.width rows
        → Agrees meaning rows → Agrees meaning (minimum_rows meaning rows) }
{}

/// If the rows agree with the function wherever it is not free, each row of the minimum is a prime
/// implicant.
pub fn minimum_is_prime()
    ensures { (meaning : Meaning) (rows : List (List (Option Bool))) → HasWidth meaning.width rows
        → Agrees meaning rows → AllByRecursion (IsPrime meaning) (minimum_rows meaning rows) }
{}

/// Each row of the minimum has a point at which the function must be 1 and that no other row of it
/// has, so that none can be removed.
pub fn minimum_is_irredundant()
    ensures { (meaning : Meaning) (rows : List (List (Option Bool))) → IsIrredundant meaning
        (minimum_rows meaning rows) }
{}

/// Two functions that must be 1 and must be 0 at the same points of the width have the same
/// minimum.
pub fn minimum_is_by_points()
    ensures { (meaning other : Meaning) (rows : List (List (Option Bool)))
        → HasWidth meaning.width rows
        → ((point : List Bool) → IsPoint meaning.width point → meaning.on point ≡ other.on point)
        → ((point : List Bool) → IsPoint meaning.width point → meaning.off point ≡ other.off point)
        → minimum_rows meaning rows ≡ minimum_rows other rows }
{}
