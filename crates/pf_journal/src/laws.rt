//! Laws of frozen steps, and of clients that share a journal.

ghost use Rattle.pf_journal.specs.Clients.{SharedWeave};
ghost use Rattle.pf_journal.specs.Frozen.{FrozenSteps, KeptCells, KeptSteps};

/// Does nothing. Its contract is a law: a step that is frozen at a log's floor has the same value over each longer log of the
/// same generation.
#[tactic(auto, using(crate::proofs::FrozenSteps::frozen_steps))]
pub fn frozen_steps()
    ensures { FrozenSteps }
{}

/// Does nothing. Its contract is a law: a cell that was kept frozen is, for whoever may use it, the value over the asker's samples.
#[tactic(auto, using(crate::proofs::FrozenSteps::kept_cells))]
pub fn kept_cells()
    ensures { KeptCells }
{}

/// Does nothing. Its contract is a law: the step of a cell that was kept frozen is, for whoever may use it, frozen at the asker's
/// floor.
#[tactic(auto, using(crate::proofs::FrozenSteps::kept_steps))]
pub fn kept_steps()
    ensures { KeptSteps }
{}

/// Does nothing. Its contract is a law: clients that share a history, each woven by its own places and by what it saw, are woven
/// into its journal.
#[tactic(auto, using(crate::proofs::Whole::shared_weave))]
pub fn shared_weave()
    ensures { SharedWeave }
{}
