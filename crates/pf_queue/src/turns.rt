//! A law of turns.

ghost use Rattle.pf_queue.specs.Turns.{ServesInTurn};

/// Does nothing. Its contract is a law: over whatever calls of a ring in which a tenant waits and isn't taken, no other tenant is
/// taken twice.
#[tactic(auto, using(crate::proofs::Ahead::in_turn))]
pub fn serves_in_turn()
    ensures { ServesInTurn }
{}
