//! What holds of counts. Each law is the contract of a function that does nothing.
ghost use Rattle.blocking.specs.Laws.{SessionsAddUp};

/// What is counted of the sessions of a job at one of its places is, all together, what is counted there of the whole run.
pub fn sessions_add_up()
    ensures { SessionsAddUp }
{}
