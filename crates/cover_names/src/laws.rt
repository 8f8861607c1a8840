//! Laws of sorted lists, and of rows and their cubes, each the contract of a call that does
//! nothing: sorting keeps items and values, a row and its cube have the same value, and rows are
//! recovered from their cubes.

ghost use Rattle.std.specs.Prelude.{◌≡◌, ◌↔◌, ◌∷◌, [], ℕ, Bool, true, List, Option, map, length};
ghost use Rattle.std.specs.Cmp.{IsTotalOrder};
ghost use Rattle.std.specs.declared.cmp.Ordering.TheVariants.{Equal};
ghost use Rattle.std.specs.List.{Contains, list_all};
ghost use Rattle.std.specs.List.Sorted.{IsStrictlySortedBy};
ghost use Rattle.sis_base.specs.Rows.{HasWidth, matches, some_matches};
ghost use Rattle.circuit_model.specs.Names.{all_different};
ghost use Rattle.cover_names.specs.Literals.{Cube, NamedCover, literal_cmp, cube_cmp, cover_cmp, sorted, sorted_cube};
ghost use Rattle.cover_names.specs.declared.literal.Literal.{Literal};
ghost use Rattle.cover_names.specs.Cubes.{cube_over, row_over, cover_over, is_over, names_in, cube_value, cover_value};

/// A row has the value of its cube over the same names. A cube over names, in which no name occurs
/// twice, has the value of its row.
pub fn rows_are_worth_their_cubes()
    ensures cubes { (names : List (List ℕ)) (row : List (Option Bool)) (value : List ℕ → Bool)
        → matches row (map value names) ≡ cube_value value (cube_over names row) }
    ensures rows { (names : List (List ℕ)) (cube : Cube) (value : List ℕ → Bool) → all_different
        (names_in (cube ∷ [])) ≡ true → is_over names (cube ∷ []) ≡ true
        → matches (row_over names cube) (map value names) ≡ cube_value value cube }
{}

/// Sorting changes the value of neither a cube nor a cover.
pub fn sorting_keeps_values()
    ensures cube { (cube : Cube) (value : List ℕ → Bool) → cube_value value (sorted_cube cube)
        ≡ cube_value value cube }
    ensures cover { (cover : NamedCover) (value : List ℕ → Bool) → cover_value value
        (sorted cube_cmp cover) ≡ cover_value value cover }
{}

/// The sorted cover of rows over names has the value of the rows. A cover over names, in whose
/// cubes no name occurs twice, has the value of its rows.
pub fn covers_are_worth_their_rows()
    ensures rows { (names : List (List ℕ)) (rows : List (List (Option Bool)))
        (value : List ℕ → Bool) → cover_value value (cover_over names rows) ≡ some_matches rows
        (map value names) }
    ensures covers { (names : List (List ℕ)) (cover : NamedCover) (value : List ℕ → Bool) → list_all
        (λ (cube : Cube). all_different (names_in (cube ∷ []))) cover ≡ true
        → is_over names cover ≡ true → some_matches (map (row_over names) cover) (map value names) ≡ cover_value value cover }
{}

/// The sorted cover of rows over names has literals of these names only. If the names are
/// different, no name occurs twice in a cube of it.
pub fn covers_keep_to_their_names()
    ensures over { (names : List (List ℕ)) (rows : List (List (Option Bool))) → is_over names
        (cover_over names rows) ≡ true }
    ensures apart { (names : List (List ℕ)) (rows : List (List (Option Bool))) → all_different names
        ≡ true
        → list_all (λ (cube : Cube). all_different (names_in (cube ∷ []))) (cover_over names rows) ≡ true }
{}

/// Over different names, the row of a row's cube is that row, whether or not the cube is sorted;
/// and the rows of the sorted cover of rows are those rows.
pub fn rows_come_back()
    ensures row { (names : List (List ℕ)) (row : List (Option Bool)) → all_different names ≡ true
        → length row ≡ length names → row_over names (cube_over names row) ≡ row }
    ensures sorted { (names : List (List ℕ)) (row : List (Option Bool)) → all_different names ≡ true
        → length row ≡ length names → row_over names (sorted_cube (cube_over names row)) ≡ row }
    ensures rows { (names : List (List ℕ)) (rows : List (List (Option Bool)))
        (row : List (Option Bool)) → all_different names ≡ true → HasWidth (length names) rows
        → Contains (map (row_over names) (cover_over names rows)) row ↔ Contains rows row }
{}

/// A sorted list is strictly increasing: each item is less than all later ones, and so occurs once.
pub fn sorted_lists_rise()
    ensures cube { (cube : Cube) → IsStrictlySortedBy literal_cmp (sorted_cube cube) }
    ensures cover { (cover : NamedCover) → IsStrictlySortedBy cube_cmp (sorted cube_cmp cover) }
    ensures covers { (covers : List NamedCover) → IsStrictlySortedBy cover_cmp
        (sorted cover_cmp covers) }
{}

/// A sorted list has the items that were sorted, and no others.
pub fn sorting_keeps_items()
    ensures cube { (cube : Cube) (literal : Literal) → Contains (sorted_cube cube) literal
        ↔ Contains cube literal }
    ensures cover { (cover : NamedCover) (cube : Cube) → Contains (sorted cube_cmp cover) cube
        ↔ Contains cover cube }
    ensures covers { (covers : List NamedCover) (cover : NamedCover) → Contains
        (sorted cover_cmp covers) cover ↔ Contains covers cover }
{}

/// Lists with the same items are equal when sorted.
pub fn sorted_lists_are_told_by_their_items()
    ensures cubes { (one other : Cube) → ((literal : Literal) → Contains one literal
        ↔ Contains other literal) → sorted_cube one ≡ sorted_cube other }
    ensures covers { (one other : NamedCover) → ((cube : Cube) → Contains one cube
        ↔ Contains other cube) → sorted cube_cmp one ≡ sorted cube_cmp other }
{}

/// The orders are total, and distinguish any two cubes and any two covers.
pub fn orders_tell_apart()
    ensures cubes { IsTotalOrder cube_cmp }
    ensures same_cubes { (one other : Cube) → cube_cmp one other ≡ Equal → one ≡ other }
    ensures covers { IsTotalOrder cover_cmp }
    ensures same_covers { (one other : NamedCover) → cover_cmp one other ≡ Equal → one ≡ other }
{}
