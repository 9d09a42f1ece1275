//! Who keeps each session waiting in a run by rounds, counted after each round.
ghost use Rattle.std.specs.Prelude.{◌≡◌, length, map, [], IfOk, OnOk};
ghost use Rattle.std.specs.List.{All, range_with_len};
ghost use Rattle.rounds.specs.Company.{first_front};
ghost use Rattle.blocking.specs.Keepers.{IsKeptRun};
ghost use Rattle.waiting.specs.Watching.{KnowAll};
ghost use Rattle.blocking.specs.Tallying.{fresh_tally, FitsTally, EachThen, NotedThen, IsPutAway, SessionsTell};

use crate::holdings::Holdings;
use crate::kept::KeptRun;
use crate::tally::Tally;
use edge_rule::Desk;
use lab_plan::{JobNo, Plan};
use std::alloc::{AllocError, Allocator, Global};
use waiting::{JobLog, RoundsRun, Watcher, fresh_logs, watch};

/// The tallies of all jobs before the first round.
fn fresh_tallies<A: Allocator + Copy>(
    alloc: A,
    plan: &Plan<A>,
) -> Result<Vec<Tally<A>, A>, AllocError>
    ensures { IfOk result (λ all. all.items ≡ map (fresh_tally plan.now) (range_with_len 0 (length plan.now.jobs))) }
{
    let mut all = Vec::new(alloc);
    for job in 0..plan.jobs() {
        all.push(Tally::new(alloc, plan, JobNo(job as u8))?)?;
    }
    Ok(all)
}

/// Counts a round for each job.
fn note_tallies<A: Allocator + Copy>(
    alloc: A,
    plan: &Plan<A>,
    desks: &[Desk<A>],
    before: &[u64],
    after: &[u64],
    tallies: &mut [Tally<A>],
) -> Result<(), AllocError>
    requires desks { KnowAll plan.now (first_front desks.now) desks.now }
    requires before { length before.now ≡ length plan.now.jobs }
    requires after { length after.now ≡ length plan.now.jobs }
    requires many { length tallies.old ≡ length plan.now.jobs }
    requires fit { All (FitsTally plan.now) tallies.old }
    ensures { OnOk result (EachThen (NotedThen plan.now (first_front desks.now) before.now after.now) tallies.old tallies.new) }
{
    for place in 0..tallies.len() {
        let session = desks[place].phase().session;
        tallies[place].note(alloc, plan, desks, before, after, session)?;
    }
    Ok(())
}

/// Puts away who kept the present session of each job.
fn put_all_away<A: Allocator + Copy>(
    alloc: A,
    plan: &Plan<A>,
    tallies: &mut [Tally<A>],
) -> Result<(), AllocError>
    requires { All (FitsTally plan.now) tallies.old }
    ensures { OnOk result (EachThen (IsPutAway plan.now) tallies.old tallies.new) }
{
    for place in 0..tallies.len() {
        tallies[place].put_away(alloc, plan)?;
    }
    Ok(())
}

/// What is noted of all jobs, and counted of their present sessions.
#[derive(Drop)]
struct SessionCounts<A: Allocator + Copy = Global> {
    alloc: A,
    held: Holdings<A>,
    logs: Vec<JobLog<A>, A>,
    tallies: Vec<Tally<A>, A>,
}

impl<A: Allocator + Copy> SessionCounts<A> {
    /// Before the first round.
    fn new(alloc: A, plan: &Plan<A>) -> Result<SessionCounts<A>, AllocError>
        ensures { IfOk result (λ x. SessionsTell plan.now x.held.before.items x.held.after.items x.logs.items x.tallies.items []) }
    {
        let jobs = plan.jobs();
        let held = Holdings::new(alloc, jobs)?;
        let logs = fresh_logs(alloc, jobs)?;
        let tallies = fresh_tallies(alloc, plan)?;
        Ok(SessionCounts {
            alloc,
            held,
            logs,
            tallies,
        })
    }
}

impl<A: Allocator + Copy> Watcher<A> for SessionCounts<A> {
    ghost tells = { λ plan x rounds. SessionsTell plan x.held.before.items x.held.after.items x.logs.items x.tallies.items rounds };

    fn note(&mut self, plan: &Plan<A>, desks: &[Desk<A>], round: u32) -> Result<(), AllocError> {
        self.held.look(plan, desks);
        self.logs.note(plan, desks, round)?;
        note_tallies(
            self.alloc,
            plan,
            desks,
            self.held.held_before(),
            self.held.held_after(),
            self.tallies.as_mut_slice(),
        )?;
        Ok(())
    }
}

/// The run of a plan by at most this many rounds, by the rounds of its sessions and meals, and with who kept each session waiting.
///
/// Memory is taken for a bench, for each job's end of an edge, for each bottle there (27776 at most), for each session of
/// the plan, and for each session and meal that is begun.
pub fn keepers_by_rounds<A: Allocator + Copy>(
    alloc: A,
    plan: &Plan<A>,
    limit: u32,
) -> Result<KeptRun<A>, AllocError>
    ensures { IfOk result (IsKeptRun plan.now limit) }
{
    let mut counts = SessionCounts::new(alloc, plan)?;
    let (number, retired) = watch(alloc, plan, &mut counts, limit)?;
    let SessionCounts {
        alloc: _,
        held: _,
        logs,
        mut tallies,
    } = counts;
    put_all_away(alloc, plan, tallies.as_mut_slice())?;
    let run = RoundsRun::new(number, retired, logs);
    Ok(KeptRun { run, tallies })
}
