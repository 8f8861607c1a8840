//! Laws of the grammar of commands.

ghost use Rattle.sis_script.specs.Laws.{BadStaysBad, OptionsComeOnce, WordsFitSlots};

/// The result of parsing has each option at most once.
pub fn options_come_once()
    ensures { OptionsComeOnce }
{}

/// The words that are not options fill the slots of their command, each with a value of its slot's
/// kind.
pub fn words_fit_slots()
    ensures { WordsFitSlots }
{}

/// Words with a bad option keep that fault, whatever follows them.
pub fn bad_stays_bad()
    ensures { BadStaysBad }
{}
