//! Laws of what is read, each the contract of a call that does nothing.

ghost use Rattle.std.specs.Prelude.{◌≡◌, List, Option, Ok, true};
ghost use Rattle.std.specs.List.{AllByRecursion};
ghost use Rattle.sis_base.specs.Written.{is_word};
ghost use Rattle.sis_text.specs.Entries.{Entry};
ghost use Rattle.genlib_format.specs.declared.gate.Gate.{Gate};
ghost use Rattle.circuit_model.specs.declared.machine.Spec.{Spec};
ghost use Rattle.blif_lines.specs.Libraries.{IsSoundLibrary};
ghost use Rattle.blif_read.specs.Limits.{IsSoundSpec, IsSmallSpec, HasShortSpec};
ghost use Rattle.blif_read.specs.Reader.{read_lines};

/// What is read from lines of words is sound.
pub fn what_is_read_is_sound()
    ensures { (library : Option (List Gate)) (lines : List Entry) (read : Spec)
        → AllByRecursion (λ line. AllByRecursion (λ word. is_word word ≡ true) line.words) lines
        → read_lines library lines ≡ Ok read → IsSoundSpec read }
{}

/// What is read from lines is within the limits, with a sound library or without one; names are
/// short.
pub fn what_is_read_is_small()
    ensures limits { (library : Option (List Gate)) (lines : List Entry) (read : Spec)
        → IsSoundLibrary library → read_lines library lines ≡ Ok read → IsSmallSpec read }
    ensures short { (library : Option (List Gate)) (lines : List Entry) (read : Spec)
        → read_lines library lines ≡ Ok read → HasShortSpec read }
{}
