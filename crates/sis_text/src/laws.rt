//! Laws, each the contract of a call that does nothing: what the words of logical lines and pieces
//! are, and that lines of words, once written, are read back.

ghost use Rattle.std.specs.Prelude.{◌≡◌, ℕ, List};
ghost use Rattle.std.specs.List.{All};
ghost use Rattle.sis_base.specs.Written.{Written, lines_text};
ghost use Rattle.sis_text.specs.Entries.{entries_of, script_entries_of};
ghost use Rattle.sis_text.specs.Order.{IsProper, is_plain, is_script_plain};
ghost use Rattle.sis_text.specs.Written.{IsLineOfWords, numbered};

/// Each logical line has words, none of them empty or with a blank, a line end or a `#`. Each piece
/// of a script has words, none with a `;` either.
pub fn entries_are_proper()
    ensures lines { (source : List ℕ) → All (IsProper is_plain) (entries_of source) }
    ensures pieces { (source : List ℕ) → All (IsProper is_script_plain) (script_entries_of source) }
{}

/// If each line has words, none of them with a blank, a line end or a `#`, then the logical lines
/// of the text that is written of them are these lines, numbered 1, 2 and so on.
pub fn written_lines_are_read()
    ensures { (lines : List Written) → All IsLineOfWords lines → entries_of (lines_text lines)
        ≡ numbered 1 lines }
{}
