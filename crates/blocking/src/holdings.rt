//! What each job held before a round, and what it holds after it.
ghost use Rattle.std.specs.Prelude.{◌≡◌, length, replicate, IfOk};
ghost use Rattle.rounds.specs.Company.{first_front};
ghost use Rattle.waiting.specs.Watching.{KnowAll};
ghost use Rattle.blocking.specs.Watching.{AreHeld};

use edge_rule::Desk;
use lab_plan::Plan;
use std::alloc::{AllocError, Allocator, Global};
use std::mem::swap;
use waiting::held_by;

/// For each job a set of instruments.
#[derive(Drop)]
pub(crate) struct Holdings<A: Allocator = Global> {
    before: Vec<u64, A>,
    after: Vec<u64, A>,
}

/// A set of no instruments for each of this many jobs.
fn no_sets<A: Allocator>(alloc: A, jobs: usize) -> Result<Vec<u64, A>, AllocError>
    ensures { IfOk result (λ sets. sets.items ≡ replicate jobs 0) }
{
    let mut sets = Vec::new(alloc);
    for _job in 0..jobs {
        sets.push(0)?;
    }
    Ok(sets)
}

/// Notes what each job holds.
fn note_held<A: Allocator>(plan: &Plan<A>, desks: &[Desk<A>], sets: &mut [u64])
    requires desks { KnowAll plan.now (first_front desks.now) desks.now }
    requires many { length sets.old ≡ length desks.now }
    ensures { AreHeld plan.now (first_front desks.now) sets.new }
{
    for place in 0..desks.len() {
        sets[place] = held_by(plan, &desks[place]);
    }
}

impl<A: Allocator> Holdings<A> {
    /// Before the first round no job holds any.
    pub(crate) fn new(alloc: A, jobs: usize) -> Result<Holdings<A>, AllocError>
    where
        A: Copy,
        ensures before { IfOk result (λ held. held.before.items ≡ replicate jobs 0) }
        ensures after { IfOk result (λ held. held.after.items ≡ replicate jobs 0) }
    {
        let before = no_sets(alloc, jobs)?;
        let after = no_sets(alloc, jobs)?;
        Ok(Holdings { before, after })
    }

    /// What they held before the last round.
    pub(crate) fn held_before(&self) -> &[u64]
        ensures { result.now ≡ self.now.before.items }
    {
        &self.before
    }

    /// What they hold after it.
    pub(crate) fn held_after(&self) -> &[u64]
        ensures { result.now ≡ self.now.after.items }
    {
        &self.after
    }

    /// Looks at the desks after one more round.
    pub(crate) fn look(&mut self, plan: &Plan<A>, desks: &[Desk<A>])
        requires desks { KnowAll plan.now (first_front desks.now) desks.now }
        requires many { length self.old.before.items ≡ length desks.now }
        ensures before { self.new.before.items ≡ self.old.after.items }
        ensures after { AreHeld plan.now (first_front desks.now) self.new.after.items }
    {
        swap(&mut self.before, &mut self.after);
        note_held(plan, desks, self.after.as_mut_slice());
    }
}
