//! A law of what is kept.

ghost use Rattle.pf_results.specs.Truth.{StayTrue};

/// Does nothing. Its contract is a law: what is kept stays true while logs grow.
pub fn stay_true()
    ensures { StayTrue }
{}
