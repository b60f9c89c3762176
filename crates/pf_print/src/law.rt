//! Laws of canonical texts.

ghost use Rattle.pf_print.specs.OwnTexts.{HaveOwnTexts, KeepTexts};

/// Does nothing. Its contract is a law: different queries have different canonical texts.
pub fn have_own_texts()
    ensures { HaveOwnTexts }
{}

/// Does nothing. Its contract is a law: a query that a text derives is one still once its range is put in.
pub fn keep_texts()
    ensures { KeepTexts }
{}
