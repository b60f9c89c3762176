//! A law of canonical texts.

ghost use Rattle.pf_model.specs.Canonical.{canonical};
ghost use Rattle.pf_lex.specs.CanonicalTokens.{CanBePrinted, IsCut};
ghost use Rattle.pf_lex.specs.CanonicalWritten.{AreFit};

/// Does nothing. Its contract is a law: the canonical text of a tree that can be printed is cut into the tokens that the tree
/// lists, these are the tokens that the grammar wants of it, and each tree that a text derives can be printed.
pub fn canonical_texts_are_cut()
    ensures cut { IsCut canonical }
    ensures fit { AreFit }
    ensures printable { CanBePrinted }
{}
