//! Laws of the checks, each the contract of a call that does nothing.

ghost use Rattle.circuit_checks.specs.Laws.{AgainLaw, MissingLaw, ListedTwiceLaw, OnCycleLaw, AcyclicLaw, PartLaw};

/// If the known names are all different: no name is repeated exactly if all names are different.
pub fn none_again_is_all_different()
    ensures { AgainLaw }
{}

/// No name is missing exactly if each is known.
pub fn none_missing_is_all_known()
    ensures { MissingLaw }
{}

/// No name is listed twice exactly if the names of each list are different.
pub fn none_listed_twice_is_different()
    ensures { ListedTwiceLaw }
{}

/// A signal is on a cycle exactly if it leads to itself.
pub fn on_cycle_is_led_to()
    ensures { OnCycleLaw }
{}

/// No table is on a cycle exactly if tables are acyclic.
pub fn none_on_cycle_is_acyclic()
    ensures { AcyclicLaw }
{}

/// Nothing is wrong with a don't-care part exactly if it meets its rules.
pub fn none_bad_is_sound_part()
    ensures { PartLaw }
{}
