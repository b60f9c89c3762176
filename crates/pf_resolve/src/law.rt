//! A law of the times that a query reads.

ghost use Rattle.pf_resolve.specs.Reading.{ReadsNoOthers};

/// Does nothing. Its contract is a law: over two lists of samples that agree from `lowest` to `reach`, a query has the same value,
/// errors included.
#[tactic(auto, using(crate::proofs::Readings::reads_no_others))]
pub fn reads_no_others()
    ensures { ReadsNoOthers }
{}
