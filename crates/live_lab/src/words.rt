//! Words of owners: sessions that begin, and sessions that are given up.
ghost use Rattle.std.specs.Prelude.{◌≡◌, ◌≤◌, ℕ, length};
ghost use Rattle.std.specs.List.{count_by};
ghost use Rattle.lab_plan.specs.LabPlan.{LabPlan};
ghost use Rattle.legal_steps.specs.State.{Has};
ghost use Rattle.legal_steps.specs.Legal.{IsJob, May};
ghost use Rattle.interleaving.specs.World.{LeadsTo};
ghost use Rattle.reasons.specs.Deeds.{is_deed};
ghost use Rattle.settling.specs.Left.{AreMarked};
ghost use Rattle.live_lab.specs.Sets.{events_of_jobs};
ghost use Rattle.live_lab.specs.Doing.{said};

use crate::steps::step;
use interleaving::World;
use lab_plan::JobNo;
use late_thirst::has;
use legal_steps::Event;
use settling::{Due, wake_self};
use std::alloc::Allocator;

/// What an owner says.
#[derive(Clone, Copy, PartialEq, Eq, Debug)]
pub(crate) enum Word {
    /// The job begins its next session.
    Begins,
    /// It gives its session up.
    GivesUp,
}

fn said(word: Word, job: JobNo) -> Event
    ensures { result ≡ said word job }
{
    match word {
        Word::Begins => Event::Thirst(job),
        Word::GivesUp => Event::Withdraw(job),
    }
}

/// Does so for each job of the set, the lowest first. Answers how many there are.
pub(crate) fn say_each<A: Allocator>(
    world: &mut World<A>,
    due: &mut Due<A>,
    set: u32,
    word: Word,
) -> u32
    requires may { (j : ℕ) → IsJob world.old.plan j → Has set j → May world.old.plan world.old.state (said word j) }
    requires marked { AreMarked world.old.plan world.old.state due.old }
    ensures leads { LeadsTo world.old (events_of_jobs (said word) world.old.plan set) world.new }
    ensures marked { AreMarked world.new.plan world.new.state due.new }
    ensures deeds { result ≡ count_by is_deed (events_of_jobs (said word) world.old.plan set) }
    ensures few { result ≤ 32 }
{
    let mut many = 0;
    for job in 0..world.plan().jobs() {
        let number = JobNo(job as u8);
        if has(set, job) {
            step(world, said(word, number));
            wake_self(world.plan(), due, number);
            many += 1;
        }
    }
    many
}
