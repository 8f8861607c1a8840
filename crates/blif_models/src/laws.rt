//! Laws of what is read, each the contract of a call that does nothing.

ghost use Rattle.std.specs.Prelude.{◌≡◌, List, Option, Ok, true, false, drop};
ghost use Rattle.std.specs.List.{AllByRecursion, list_any};
ghost use Rattle.sis_base.specs.Written.{is_word};
ghost use Rattle.circuit_model.specs.Counts.{IsWithinLimits};
ghost use Rattle.circuit_model.specs.Soundness.{IsSound};
ghost use Rattle.circuit_model.specs.declared.circuit.Circuit.{Circuit as TheCircuit};
ghost use Rattle.sis_text.specs.Entries.{Entry};
ghost use Rattle.genlib_format.specs.declared.gate.Gate.{Gate};
ghost use Rattle.blif_lines.specs.declared.content.Content.TheVariants as content;
ghost use Rattle.blif_lines.specs.declared.content.Head.{Head as TheHead};
ghost use Rattle.blif_lines.specs.Heads.{IsSoundHead, HasShortHead};
ghost use Rattle.blif_lines.specs.Libraries.{IsSoundLibrary};
ghost use Rattle.blif_lines.specs.Limits.{HasShortNames};
ghost use Rattle.blif_lines.specs.Reader.{has_instances, read_lines};
ghost use Rattle.blif_models.specs.Models.{begins_model};
ghost use Rattle.blif_models.specs.Reader.{read_models};

/// A file of one model without an instance is read as by the reader of one model.
pub fn one_model_is_read_by_itself()
    ensures { (library : Option (List Gate)) (lines : List Entry)
        → list_any begins_model (drop 1 lines) ≡ false → has_instances lines ≡ false
        → read_models library lines ≡ read_lines library lines }
{}

/// Lines of words are read as a sound circuit, or a sound head of a machine.
pub fn what_is_read_is_sound()
    ensures circuit { (library : Option (List Gate)) (lines : List Entry) (circuit : TheCircuit)
        → AllByRecursion (λ line. AllByRecursion (λ word. is_word word ≡ true) line.words) lines
        → read_models library lines ≡ Ok (content.Circuit circuit) → IsSound circuit }
    ensures head { (library : Option (List Gate)) (lines : List Entry) (head : TheHead)
        → AllByRecursion (λ line. AllByRecursion (λ word. is_word word ≡ true) line.words) lines
        → read_models library lines ≡ Ok (content.Head head) → IsSoundHead head }
{}

/// A circuit that is read from lines, with a sound library or without one, is within the limits;
/// names are short.
pub fn what_is_read_is_small()
    ensures limits { (library : Option (List Gate)) (lines : List Entry) (circuit : TheCircuit)
        → IsSoundLibrary library → read_models library lines ≡ Ok (content.Circuit circuit)
        → IsWithinLimits circuit }
    ensures short { (library : Option (List Gate)) (lines : List Entry) (circuit : TheCircuit)
        → read_models library lines ≡ Ok (content.Circuit circuit) → HasShortNames circuit }
    ensures head { (library : Option (List Gate)) (lines : List Entry) (head : TheHead)
        → read_models library lines ≡ Ok (content.Head head) → HasShortHead head }
{}
