//! Letting in those who wait outside and are due.
ghost use Rattle.std.specs.Prelude.{◌≡◌, ◌≢◌, ℕ, ◌≤◌, ◌<◌, ◌↔◌, true, length};
ghost use Rattle.std.specs.List.{count_by};
ghost use Rattle.lab_plan.specs.InstrumentSets.{holds};
ghost use Rattle.legal_steps.specs.State.{Has};
ghost use Rattle.legal_steps.specs.Legal.{IsJob, Needs, May};
ghost use Rattle.reasons.specs.Deeds.{is_deed};
ghost use Rattle.settling.specs.Left.{AreMarked};
ghost use Rattle.live_lab.specs.Labs.{IsLineOf};
ghost use Rattle.live_lab.specs.declared.words.Word.TheVariants.{GivesUp};
ghost use Rattle.live_lab.specs.Rests.{IsAtRest};
ghost use Rattle.live_lab.specs.Doing.{said, DoesAndRests, AdmitsIn, GivesUpIn};
ghost use Rattle.live_lab.specs.Admitting.{AreInUse, AreAskers, LetsInNext};

use crate::clock::Clock;
use crate::kinds::{Kind, jobs_of};
use crate::rest::come_to_rest;
use crate::words::{Word, say_each};
use interleaving::World;
use lab_plan::JobNo;
use late_thirst::Line;
use settling::Due;
use std::alloc::Allocator;

/// The instruments that the job needs in its session; none if it is in none.
fn needs_now<A: Allocator>(world: &World<A>, job: JobNo) -> u64
    requires { IsJob world.now.plan job }
    ensures { (i : ℕ) → (holds result i ≡ true) ↔ Needs world.now.plan world.now.state job i }
{
    let phase = world.job(job);
    if !phase.is_in_session() {
        return 0;
    }
    world.plan().needs(job, phase.session)
}

/// The instruments that jobs in a session need.
fn in_use<A: Allocator>(world: &World<A>) -> u64
    ensures { AreInUse world.now result }
{
    let mut used = 0u64;
    for job in 0..world.plan().jobs() {
        used |= needs_now(world, JobNo(job as u8));
    }
    used
}

/// The line lets in some of those that are waited for and may begin. Answers who.
fn next_in<A: Allocator>(world: &World<A>, line: &mut Line, clocks: &[Clock], waiting: u32) -> u32
    requires { length clocks.now ≡ length world.now.plan.jobs }
    ensures { LetsInNext waiting world.now line.old result line.new }
{
    // A plan has 56 instruments at most.
    let _ = world.plan().jobs();
    let ready = jobs_of(world, clocks, waiting, Kind::Begins);
    let those = ready & line.outside();
    if those == 0 {
        return 0;
    }
    line.let_in(ready, in_use(world))
}

/// Each job of the set does so, and then all is done that this makes due. Answers how many deeds that took.
pub(crate) fn say_and_rest<A: Allocator>(
    world: &mut World<A>,
    due: &mut Due<A>,
    set: u32,
    word: Word,
) -> u32
    requires may { (j : ℕ) → IsJob world.old.plan j → Has set j → May world.old.plan world.old.state (said word j) }
    requires marked { AreMarked world.old.plan world.old.state due.old }
    ensures does { DoesAndRests word set world.old result world.new }
    ensures marked { AreMarked world.new.plan world.new.state due.new }
    ensures few { result ≤ 129616 }
{
    // Each job has a seat, since the world is reached.
    let _ = world.plan();
    let said = say_each(world, due, set, word);
    said + come_to_rest(world, due)
}

/// Lets in those who are due, until nobody is any more. Answers how many deeds that took.
pub(crate) fn admit<A: Allocator>(
    world: &mut World<A>,
    due: &mut Due<A>,
    line: &mut Line,
    clocks: &[Clock],
    waiting: u32,
) -> u32
    requires clocks { length clocks.now ≡ length world.old.plan.jobs }
    requires line { IsLineOf world.old line.old }
    requires askers { AreAskers world.old line.old }
    requires marked { AreMarked world.old.plan world.old.state due.old }
    ensures admits { AdmitsIn waiting world.old line.old result world.new line.new }
    ensures marked { AreMarked world.new.plan world.new.state due.new }
    ensures few { result ≤ 4147712 }
{
    // The plan is within every limit.
    let _ = world.plan().jobs();
    let mut deeds = 0u32;
    'rounds: loop {
        let set = next_in(world, line, clocks, waiting);
        if set == 0 {
            break 'rounds;
        }
        deeds += say_and_rest(world, due, set, Word::Begins);
    }
    deeds
}

/// The jobs of the set give their sessions up, and then those are let in who are due by that. If nobody does, nobody is due. Answers how many deeds that
/// took.
pub(crate) fn give_up<A: Allocator>(
    world: &mut World<A>,
    due: &mut Due<A>,
    line: &mut Line,
    clocks: &[Clock],
    waiting: u32,
    set: u32,
) -> u32
    requires may { (j : ℕ) → IsJob world.old.plan j → Has set j → May world.old.plan world.old.state (said GivesUp j) }
    requires clocks { length clocks.now ≡ length world.old.plan.jobs }
    requires line { IsLineOf world.old line.old }
    requires askers { AreAskers world.old line.old }
    requires over { LetsInNext waiting world.old line.old 0 line.old }
    requires at_rest { IsAtRest world.old }
    requires marked { AreMarked world.old.plan world.old.state due.old }
    ensures gives { GivesUpIn waiting set world.old line.old result world.new line.new }
    ensures marked { AreMarked world.new.plan world.new.state due.new }
    ensures few { result ≤ 4277328 }
{
    // Each job has a seat, since the world is reached.
    let _ = world.plan();
    if set == 0 {
        return 0;
    }
    let said = say_and_rest(world, due, set, Word::GivesUp);
    said + admit(world, due, line, clocks, waiting)
}
