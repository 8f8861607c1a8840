//! Laws of the counts of the outside.

ghost use Rattle.std.specs.Prelude.{ℕ, ◌≤◌};
ghost use Rattle.sis_outside.specs.Counts.{Rose};

/// A count that rose in one call has risen over any run of calls that contains it, since no count
/// falls.
pub fn risen_counts_stay()
    ensures later { (before middle now : ℕ) → Rose before middle → middle ≤ now → Rose before now }
    ensures earlier { (before middle now : ℕ) → before ≤ middle → Rose middle now
        → Rose before now }
    ensures both { (before middle now : ℕ) → Rose before middle → Rose middle now
        → Rose before now }
    ensures not_fallen { (before now : ℕ) → Rose before now → before ≤ now }
{}
