//! What holds of orders by colour. Each law is the contract of a function that does nothing.
ghost use Rattle.arranging.specs.Colours.{OrdersKeepJobs, OrdersClimb};
ghost use Rattle.arranging.specs.Chains.{ChainsAreShort};
ghost use Rattle.arranging.specs.Reordered.{ArrangedChainsAreShort};

/// The order by colour has each job exactly once.
#[tactic(auto, using(crate::proofs::Orders::orders_keep_jobs))]
pub fn order_keeps_jobs()
    ensures { OrdersKeepJobs }
{}

/// Colours climb along the order.
#[tactic(auto, using(crate::proofs::Orders::orders_climb))]
pub fn order_climbs()
    ensures { OrdersClimb }
{}

/// If jobs stand in the order of their colours, a chain of precedence in the initial state has at most one job of each colour: every
/// fork is at the job with the lower number and dirty, so on each edge the job of the higher colour precedes.
pub fn chains_are_short()
    ensures { ChainsAreShort }
{}

/// If a plan has the jobs of another in the order of their colours, a chain of precedence at its opening has at most one job of
/// each colour.
pub fn arranged_chains_are_short()
    ensures { ArrangedChainsAreShort }
{}
