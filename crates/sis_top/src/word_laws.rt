//! Laws about what words ask for.

ghost use Rattle.sis_top.specs.Usual.{AreAskedFor, AreRefused};

/// The words that write options down, each value joined to its letter or in the next word, are
/// accepted and ask for exactly those.
pub fn options_are_asked_for()
    ensures { AreAskedFor }
{}

/// A file together with a text, a flag twice, a long option and a stray word are refused.
pub fn other_words_are_refused()
    ensures { AreRefused }
{}
