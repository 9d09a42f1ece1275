//! The logs of all jobs, noted after each round.
ghost use Rattle.std.specs.Prelude.{◌≡◌, length, replicate, IfOk, OnOk};
ghost use Rattle.waiting.specs.Noting.{fresh_log};
ghost use Rattle.waiting.specs.Waits.{IsRunOf};
ghost use Rattle.waiting.specs.Watching.{LogsTell, logs_then};

use crate::job_log::JobLog;
use crate::run::RoundsRun;
use crate::watcher::{Watcher, watch};
use edge_rule::Desk;
use lab_plan::Plan;
use std::alloc::{AllocError, Allocator};

/// The logs of this many jobs before the first round.
pub fn fresh_logs<A: Allocator + Copy>(
    alloc: A,
    jobs: usize,
) -> Result<Vec<JobLog<A>, A>, AllocError>
    ensures { IfOk result (λ logs. logs.items ≡ replicate jobs fresh_log) }
{
    let mut logs = Vec::new(alloc);
    for _job in 0..jobs {
        logs.push(JobLog::new(alloc))?;
    }
    Ok(logs)
}

/// Notes how far each job is after a round.
fn note_all<A: Allocator>(
    desks: &[Desk<A>],
    logs: &mut [JobLog<A>],
    round: u32,
) -> Result<(), AllocError>
    requires { length logs.old ≡ length desks.now }
    ensures { OnOk result (logs.new ≡ logs_then round desks.now logs.old) }
{
    for place in 0..desks.len() {
        let phase = desks[place].phase();
        logs[place].note(round, phase)?;
    }
    Ok(())
}

impl<A: Allocator> Watcher<A> for Vec<JobLog<A>, A> {
    ghost tells = { λ plan logs rounds. LogsTell plan logs.items rounds };

    fn note(&mut self, _plan: &Plan<A>, desks: &[Desk<A>], round: u32) -> Result<(), AllocError> {
        note_all(desks, self.as_mut_slice(), round)?;
        Ok(())
    }
}

/// The run of a plan by at most this many rounds, by the rounds of its sessions and meals.
///
/// Memory is taken for a bench, and for each session and meal that is begun.
pub fn run_by_rounds<A: Allocator + Copy>(
    alloc: A,
    plan: &Plan<A>,
    limit: u32,
) -> Result<RoundsRun<A>, AllocError>
    ensures { IfOk result (IsRunOf plan.now limit) }
{
    let mut logs = fresh_logs(alloc, plan.jobs())?;
    let (number, retired) = watch(alloc, plan, &mut logs, limit)?;
    Ok(RoundsRun {
        number,
        retired,
        logs,
    })
}
