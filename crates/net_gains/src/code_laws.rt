//! Laws of numbers for literals, each the contract of a call that does nothing.
//!
//! What holds of literals, cubes and covers holds of their numbers: order, sorting, common and
//! remaining literals, and gains. Names must rise and be known.

ghost use Rattle.std.specs.Prelude.{◌≡◌, ◌<◌, ℕ, true, List};
ghost use Rattle.std.specs.List.Sorted.{IsStrictlySortedBy};
ghost use Rattle.std.specs.Ordering.{nat_cmp};
ghost use Rattle.circuit_model.specs.Names.{has};
ghost use Rattle.net_gains.specs.CodedGains.{numbers_cmp, lists_cmp, shared as shared_numbers, own as own_numbers, sum_of_two as sum_of_lists, gains as gains_of};
ghost use Rattle.net_candidates.specs.Candidates.{shared, own, literals_in};
ghost use Rattle.cover_names.specs.Cubes.{is_over};
ghost use Rattle.cover_names.specs.Literals.{Cube, NamedCover, literal_cmp, cube_cmp, cover_cmp, sorted};
ghost use Rattle.cover_names.specs.declared.literal.Literal.{Literal};
ghost use Rattle.net_gains.specs.Gains.{sum_of_two, gains};
ghost use Rattle.net_gains.specs.Codes.{AreRising, code_of, codes_of, coded, is_known, is_code, are_coded};

/// Numbers have the order of their literals, and lists of numbers that of cubes and covers.
pub fn numbers_keep_orders()
    ensures literals { (names : List (List ℕ)) (one other : Literal) → AreRising names
        → has names one.name ≡ true → has names other.name ≡ true
        → nat_cmp (code_of names one) (code_of names other) ≡ literal_cmp one other }
    ensures cubes { (names : List (List ℕ)) (one other : Cube) → AreRising names
        → is_known names one ≡ true → is_known names other ≡ true
        → numbers_cmp (codes_of names one) (codes_of names other) ≡ cube_cmp one other }
    ensures covers { (names : List (List ℕ)) (one other : NamedCover) → AreRising names
        → is_over names one ≡ true → is_over names other ≡ true
        → lists_cmp (coded names one) (coded names other) ≡ cover_cmp one other }
{}

/// The numbers of a rising cube rise, and so do those of a rising cover; the number of a known
/// literal is less than twice the number of names.
pub fn numbers_rise()
    ensures within { (names : List (List ℕ)) (literal : Literal) → has names literal.name ≡ true
        → is_code names (code_of names literal) ≡ true }
    ensures cube { (names : List (List ℕ)) (cube : Cube) → AreRising names → is_known names cube
        ≡ true → IsStrictlySortedBy literal_cmp cube
        → IsStrictlySortedBy nat_cmp (codes_of names cube) }
    ensures cover { (names : List (List ℕ)) (cover : NamedCover) → AreRising names
        → is_over names cover ≡ true → IsStrictlySortedBy cube_cmp cover
        → IsStrictlySortedBy numbers_cmp (coded names cover) }
{}

/// Known cubes of the same numbers are the same, and so are known covers.
pub fn numbers_tell_apart()
    ensures cubes { (names : List (List ℕ)) (one other : Cube) → AreRising names
        → is_known names one ≡ true → is_known names other ≡ true
        → codes_of names one ≡ codes_of names other → one ≡ other }
    ensures covers { (names : List (List ℕ)) (one other : NamedCover) → AreRising names
        → is_over names one ≡ true → is_over names other ≡ true
        → coded names one ≡ coded names other → one ≡ other }
{}

/// Sorting, what two cubes share, what one has besides the other, and the sum of the two give the
/// same on numbers as on literals.
pub fn numbers_keep_parts()
    ensures sorted_cubes { (names : List (List ℕ)) (cube : Cube) → AreRising names
        → is_known names cube ≡ true → codes_of names (sorted literal_cmp cube) ≡ sorted nat_cmp
        (codes_of names cube) }
    ensures sorted_covers { (names : List (List ℕ)) (cover : NamedCover) → AreRising names
        → is_over names cover ≡ true → coded names (sorted cube_cmp cover) ≡ sorted numbers_cmp
        (coded names cover) }
    ensures shared { (names : List (List ℕ)) (one other : Cube) → AreRising names
        → is_known names one ≡ true → is_known names other ≡ true
        → codes_of names (shared one other) ≡ shared_numbers (codes_of names one) (codes_of names other) }
    ensures own { (names : List (List ℕ)) (one other : Cube) → AreRising names → is_known names one
        ≡ true → is_known names other ≡ true
        → codes_of names (own one other) ≡ own_numbers (codes_of names one) (codes_of names other) }
    ensures sum { (names : List (List ℕ)) (one other : Cube) → AreRising names → is_known names one
        ≡ true → is_known names other ≡ true
        → coded names (sum_of_two one other) ≡ sum_of_lists (codes_of names one) (codes_of names other) }
{}

/// Known rows save as much by numbers as by names, a cover has as many numbers as literals, and
/// what saves in the numbers of known rows has only numbers of literals of the names.
pub fn numbers_keep_gains()
    ensures gains { (names : List (List ℕ)) (cover : NamedCover) (cubes : List Cube)
        → AreRising names → is_over names cover ≡ true → is_over names cubes ≡ true
        → gains_of (coded names cover) (coded names cubes) ≡ gains cover cubes }
    ensures literals { (names : List (List ℕ)) (cover : NamedCover)
        → literals_in (coded names cover) ≡ literals_in cover }
    ensures covers { (names : List (List ℕ)) (numbers : List (List ℕ)) (cubes : List Cube)
        → AreRising names → is_over names cubes ≡ true
        → 0 < gains_of numbers (coded names cubes) → are_coded names numbers ≡ true }
{}
