//! First sessions that are begun and given up.
ghost use Rattle.std.specs.Prelude.{◌≡◌, length};
ghost use Rattle.bench_calls.specs.Openings.{GiveUpNext, GivesUpNext};

use live_lab::Lab;

/// The job takes one turn, by which it begins its next session, and gives it up.
fn give_up_next(lab: &mut Lab, job: usize)
    ensures { GivesUpNext job lab.old lab.new }
{
    let _ = lab.turn(job);
    let _ = lab.withdraw(job);
}

/// Each of these jobs begins its next session, and gives it up. Nobody waits for it, whatever others do.
pub(crate) fn give_up_first(lab: &mut Lab, jobs: &[usize])
    ensures { GiveUpNext jobs.now (length jobs.now) lab.old lab.new }
{
    for job in jobs {
        give_up_next(lab, *job);
    }
}
