//! What a bench begins with.
use lab_plan::Plan;
use legal_steps::Past;
use std::alloc::Allocator;
use std::snapshot::Snapshot;

/// What the rule of a table is told when the table is made: the plan, and the events that came before. It takes no bytes.
#[derive(Drop)]
pub struct Start<A: Allocator> {
    pub plan: Snapshot<Plan<A>>,
    pub past: Past,
}
