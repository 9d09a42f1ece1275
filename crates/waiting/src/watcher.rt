//! A bench that is driven one round at a time, and what is noted after each round.
ghost use Rattle.std.specs.Prelude.{◌≡◌, List, [], IfOk, OnOk};
ghost use Rattle.lab_plan.specs.LabPlan.{LabPlan};
ghost use Rattle.legal_steps.specs.declared.event.Event.{Event};
ghost use Rattle.rounds.specs.FromOpening.{opened};
ghost use Rattle.waiting.specs.Watching.{MayNote, Notes, Watched, is_all_retired};

use edge_rule::{Bench, Desk};
use lab_plan::Plan;
use rounds::{Ended, rounds};
use std::alloc::{AllocError, Allocator};

/// What is noted of a run by rounds, after each of them.
pub trait Watcher<A: Allocator> {
    /// That this is so of the rounds that were done.
    ghost tells: { LabPlan → Self → List (List Event) → Type 0 };

    /// Notes the round with this number, after which the desks are as they are now.
    fn note(&mut self, plan: &Plan<A>, desks: &[Desk<A>], round: u32) -> Result<(), AllocError>
        requires { MayNote plan.now desks.now round (tells plan.now self.old) }
        ensures { OnOk result (Notes plan.now desks.now round (tells plan.now self.old) (tells plan.now self.new)) };
}

/// Whether turns ended because all jobs were retired.
fn is_all_retired(ended: Ended) -> bool
    ensures { result ≡ is_all_retired ended }
{
    matches!(ended, Ended::AllRetired)
}

/// Drives the desks by at most this many rounds, and has each noted. Answers how many were done, and whether all jobs are
/// retired then.
fn drive<A: Allocator, W: Watcher<A>>(
    bench: &Bench<A>,
    desks: &mut [Desk<A>],
    watcher: &mut W,
    limit: u32,
) -> Result<(u32, bool), AllocError>
    requires opened { desks.old ≡ opened bench.now }
    requires fresh { W.tells bench.now.plan watcher.old [] }
    ensures { IfOk result (λ done. Watched bench.now.plan limit done.0 done.1 (W.tells bench.now.plan watcher.new)) }
{
    for number in 0..limit {
        let (_, done) = rounds(bench, desks, 1);
        if done == 0 {
            return Ok((number, true));
        }
        watcher.note(bench.plan(), desks, number + 1)?;
    }
    let (ended, _) = rounds(bench, desks, 0);
    Ok((limit, is_all_retired(ended)))
}

/// Opens a bench for the plan, drives it by at most this many rounds, and has each noted. Answers how many were done, and whether
/// all jobs are retired then.
pub fn watch<A: Allocator + Copy, W: Watcher<A>>(
    alloc: A,
    plan: &Plan<A>,
    watcher: &mut W,
    limit: u32,
) -> Result<(u32, bool), AllocError>
    requires { W.tells plan.now watcher.old [] }
    ensures { IfOk result (λ done. Watched plan.now limit done.0 done.1 (W.tells plan.now watcher.new)) }
{
    let Ok((bench, mut desks)) = Bench::open(alloc, plan) else {
        return Err(AllocError);
    };
    drive(&bench, desks.as_mut_slice(), watcher, limit)
}
