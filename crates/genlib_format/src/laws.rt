//! Laws of the definitions: texts spell at most one formula, and entries use up all words.

ghost use Rattle.std.specs.Prelude.{◌≡◌, ℕ, List, [], Option, Some, ◌↔◌, length};
ghost use Rattle.genlib_expr.specs.declared.node.Node.{Node};
ghost use Rattle.genlib_expr.specs.Formula.{Formula, postfix};
ghost use Rattle.genlib_expr.specs.Grammar.{Spells};
ghost use Rattle.genlib_expr.specs.Text.{tokens_of};
ghost use Rattle.genlib_format.specs.declared.words.Lined.{Lined};
ghost use Rattle.genlib_format.specs.Spelling.{IsSpelled, formula_in, nodes_in};
ghost use Rattle.genlib_format.specs.Taken.{words_left};

/// The formula of a text is the one that it spells by the grammar, and its nodes are those of the
/// formula. So the grammar gives each text one answer.
pub fn expressions_are_spelled()
    ensures alone { (text : List ℕ) (o : Option Formula) → IsSpelled text o
        → o ≡ formula_in text }
    ensures formula { (text : List ℕ) (e : Formula) → Spells (tokens_of text) e
        ↔ (formula_in text ≡ Some e) }
    ensures nodes { (text : List ℕ) (e : Formula) → Spells (tokens_of text) e
        ↔ (nodes_in text ≡ Some (postfix e)) }
{}

/// As many entries as there are words leave no word.
pub fn entries_take_all_words()
    ensures { (words : List Lined) → words_left (length words) words ≡ [] }
{}
