//! Laws of what is read, each the contract of a call that does nothing.

ghost use Rattle.std.specs.Prelude.{◌≡◌, List, Option, Ok, true, reverse};
ghost use Rattle.std.specs.List.{AllByRecursion};
ghost use Rattle.std.specs.Result.{result_err};
ghost use Rattle.sis_base.specs.Written.{is_word};
ghost use Rattle.circuit_model.specs.Counts.{IsWithinLimits};
ghost use Rattle.circuit_model.specs.Soundness.{IsSound};
ghost use Rattle.circuit_model.specs.declared.circuit.Circuit.{Circuit as TheCircuit};
ghost use Rattle.sis_text.specs.Entries.{Entry};
ghost use Rattle.genlib_format.specs.declared.gate.Gate.{Gate};
ghost use Rattle.blif_lines.specs.declared.content.Content.TheVariants as content;
ghost use Rattle.blif_lines.specs.declared.content.Head.{Head as TheHead};
ghost use Rattle.blif_lines.specs.Heads.{IsSoundHead, HasShortHead};
ghost use Rattle.blif_lines.specs.Libraries.{IsSoundLibrary};
ghost use Rattle.blif_lines.specs.Limits.{HasShortNames};
ghost use Rattle.blif_lines.specs.Lines.{line_fault};
ghost use Rattle.blif_lines.specs.Reader.{read_lines, has_instances, model_lines};
ghost use Rattle.blif_lines.specs.Steps.{take_entry, take_entries, no_lines, told_of, finish, HasApartTables};
ghost use Rattle.blif_lines.specs.declared.draft.Draft.{Draft as TheDraft};

/// Lines of words are read as a sound circuit, or a sound head of a machine.
pub fn what_is_read_is_sound()
    ensures circuit { (library : Option (List Gate)) (lines : List Entry) (circuit : TheCircuit)
        → AllByRecursion (λ line. AllByRecursion (λ word. is_word word ≡ true) line.words) lines
        → read_lines library lines ≡ Ok (content.Circuit circuit) → IsSound circuit }
    ensures head { (library : Option (List Gate)) (lines : List Entry) (head : TheHead)
        → AllByRecursion (λ line. AllByRecursion (λ word. is_word word ≡ true) line.words) lines
        → read_lines library lines ≡ Ok (content.Head head) → IsSoundHead head }
{}

/// A circuit that is read from lines, with a sound library or without one, is within the limits;
/// names are short.
pub fn what_is_read_is_small()
    ensures limits { (library : Option (List Gate)) (lines : List Entry) (circuit : TheCircuit)
        → IsSoundLibrary library → read_lines library lines ≡ Ok (content.Circuit circuit)
        → IsWithinLimits circuit }
    ensures short { (library : Option (List Gate)) (lines : List Entry) (circuit : TheCircuit)
        → read_lines library lines ≡ Ok (content.Circuit circuit) → HasShortNames circuit }
    ensures head { (library : Option (List Gate)) (lines : List Entry) (head : TheHead)
        → read_lines library lines ≡ Ok (content.Head head) → HasShortHead head }
{}

/// Taking lines into a draft, and then ending it, reads them. After lines without a fault the draft
/// may be ended; it has an instance exactly if the model itself has one; and it has the fault of the
/// next line.
pub fn a_draft_reads_its_lines()
    ensures whole { (library : Option (List Gate)) (lines : List Entry)
        → finish (take_entries library no_lines lines) ≡ read_lines library lines }
    ensures apart { (library : Option (List Gate)) (lines : List Entry) (draft : TheDraft)
        → take_entries library no_lines lines ≡ Ok draft → HasApartTables (told_of draft) }
    ensures instances { (library : Option (List Gate)) (lines : List Entry) (draft : TheDraft)
        → take_entries library no_lines lines ≡ Ok draft
        → draft.has_instances ≡ has_instances (model_lines lines) }
    ensures fault { (library : Option (List Gate)) (lines : List Entry) (draft : TheDraft)
        (line : Entry) → take_entries library no_lines lines ≡ Ok draft
        → result_err (take_entry library draft line) ≡ line_fault library (reverse lines) line }
{}
