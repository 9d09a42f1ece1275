//! What the list of moves leaves out. Each law is the contract of a function that does nothing.
ghost use Rattle.legal_moves.specs.Laws.{IsAlwaysLegal, IsEveryStep, AreBottlesAlone};

/// A look at an edge of one's own and a glance at another job are legal in every state.
#[tactic(auto, using(crate::proofs::LawProofs::always_legal))]
pub fn always_legal()
    ensures { IsAlwaysLegal }
{}

/// A step with bottles is legal exactly if the step with each one of them is.
pub fn bottles_alone()
    ensures { AreBottlesAlone }
{}

/// Each other step that is legal in some state is a move.
#[tactic(auto, using(crate::proofs::LawProofs::every_step))]
pub fn every_step()
    ensures { IsEveryStep }
{}
