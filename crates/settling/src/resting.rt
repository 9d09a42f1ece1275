//! Doing all that is left to do of itself.
ghost use Rattle.std.specs.Prelude.{◌≡◌, ◌+◌, ◌≤◌, true, IfSome};
ghost use Rattle.legal_steps.specs.State.{IsOwn};
ghost use Rattle.legal_steps.specs.Legal.{IsJob};
ghost use Rattle.settling.specs.Left.{AreMarked, IsDueOf, NobodyIsDue, is_due as is_due_now, only_at as only_at_of};
ghost use Rattle.settling.specs.Resting.{Rests};
ghost use Rattle.settling.specs.Attending.{AttendsEdge, AttendsEdges, Attends};
ghost use Rattle.settling.specs.Visiting.{are_unfelt as are_unfelt_ones};

use crate::due::{Due, clear, is_noted, next_due, note, only_at, wake_at, wake_self};
use crate::edge_visits::{moved_at, number_of};
use crate::own_acts::{act_alone, drink_alone, is_own};
use edge_word::EdgeMoves;
use interleaving::World;
use lab_plan::{EdgeNo, JobNo};
use legal_steps::End;
use std::alloc::Allocator;

/// Whether the moves are none, or the fork is soiled: nothing that the neighbour could wait for.
fn are_unfelt(moves: EdgeMoves) -> bool
    ensures { result ≡ are_unfelt_ones moves }
{
    !moves.give_fork && moves.give_bottles == 0 && !moves.ask_fork && moves.ask_bottles == 0
}

/// Visits the edge, unless it is noted that the job has nothing to do there; once it was visited, that is noted. Answers how many moves
/// were done.
fn attend_edge<A: Allocator>(
    world: &mut World<A>,
    due: &mut Due<A>,
    job: JobNo,
    edge: EdgeNo,
) -> u32
    requires own { IsOwn world.old.plan job edge }
    requires marked { AreMarked world.old.plan world.old.state due.old }
    requires due { is_due_now due.old job ≡ true }
    ensures attends { AttendsEdge world.old due.old job edge result world.new due.new }
    ensures few { result ≤ 5 }
{
    let here = End::of(world.plan(), job, edge);
    if is_noted(due, here, edge) {
        return 0;
    }
    let moves = moved_at(world, job, edge);
    if are_unfelt(moves) {
        note(due, here, edge);
        return number_of(moves);
    }
    wake_at(world.plan(), due, edge);
    note(due, here, edge);
    number_of(moves)
}

/// The edge at which alone the job may have something to do, if it is known.
fn only_edge<A: Allocator>(world: &World<A>, due: &Due<A>, job: JobNo) -> Option<EdgeNo>
    requires job { IsJob world.now.plan job }
    requires fits { IsDueOf world.now.plan due.now }
    ensures own { IfSome result (λ edge. IsOwn world.now.plan job edge) }
    ensures only { IfSome result (λ edge. only_at_of due.now job ≡ edge + 1) }
{
    let place = only_at(due, job);
    if place == 0 || place > world.plan().edges() as u32 {
        return None;
    }
    let edge = EdgeNo((place - 1) as u16);
    if is_own(world.plan(), job, edge) {
        Some(edge)
    } else {
        None
    }
}

/// Attends to each edge of the job. Answers how many moves there were.
fn attend_all<A: Allocator>(world: &mut World<A>, due: &mut Due<A>, job: JobNo) -> u32
    requires job { IsJob world.old.plan job }
    requires marked { AreMarked world.old.plan world.old.state due.old }
    requires due { is_due_now due.old job ≡ true }
    ensures attends { AttendsEdges world.old due.old job result world.new due.new }
    ensures few { result ≤ 2480 }
{
    let _ = world.plan().edges();
    let mut done = 0u32;
    for index in 0..world.plan().edges_of(job).len() {
        let edge = world.plan().edges_of(job)[index];
        done += attend_edge(world, due, job, edge);
    }
    done
}

/// Attends to the edges at which the job may have something to do. Answers how many moves there were.
fn attend_edges<A: Allocator>(world: &mut World<A>, due: &mut Due<A>, job: JobNo) -> u32
    requires job { IsJob world.old.plan job }
    requires marked { AreMarked world.old.plan world.old.state due.old }
    requires due { is_due_now due.old job ≡ true }
    ensures attends { AttendsEdges world.old due.old job result world.new due.new }
    ensures few { result ≤ 2480 }
{
    match only_edge(world, due, job) {
        Some(edge) => attend_edge(world, due, job, edge),
        None => attend_all(world, due, job),
    }
}

/// Attends to the edges of the job, and does its own act. If there is none, nothing is left, and the job isn't due any more. Answers how
/// many moves and acts there were.
fn attend<A: Allocator>(world: &mut World<A>, due: &mut Due<A>, job: JobNo) -> u32
    requires job { IsJob world.old.plan job }
    requires marked { AreMarked world.old.plan world.old.state due.old }
    requires due { is_due_now due.old job ≡ true }
    ensures attends { Attends (λ k. k ≡ job) world.old due.old result world.new due.new }
    ensures few { result ≤ 2481 }
{
    let done = attend_edges(world, due, job);
    if drink_alone(world, due, job) {
        return done + 1;
    }
    if act_alone(world, due, job) {
        wake_self(world.plan(), due, job);
        return done + 1;
    }
    clear(due, job);
    done
}

/// Attends to each job that is due, the lowest first. Answers how many moves and acts there were.
fn round<A: Allocator>(world: &mut World<A>, due: &mut Due<A>) -> u32
    requires { AreMarked world.old.plan world.old.state due.old }
    ensures attends { Attends (IsJob world.old.plan) world.old due.old result world.new due.new }
    ensures few { result ≤ 79392 }
{
    let jobs = world.plan().jobs();
    let mut done = 0u32;
    let mut job = next_due(due, 0, jobs);
    while job < jobs {
        done += attend(world, due, JobNo(job as u8));
        job = next_due(due, job + 1, jobs);
    }
    done
}

/// Does all that can be done without a word from an owner, until no job has anything to do of itself. Answers how many moves and acts
/// there were.
pub fn rest<A: Allocator>(world: &mut World<A>, due: &mut Due<A>) -> u32
    requires { AreMarked world.old.plan world.old.state due.old }
    ensures rests { Rests world.old result world.new }
    ensures marked { AreMarked world.new.plan world.new.state due.new }
    ensures nobody { NobodyIsDue world.new.plan due.new }
    ensures few { result ≤ 129584 }
{
    let _ = world.plan().edges();
    let mut done = 0u32;
    // Without a word from an owner no more than 129584 things can be done, and each of these rounds but the last does one.
    for _number in 0..129585u32 {
        let more = round(world, due);
        if more == 0 {
            return done;
        }
        done += more;
    }
    unreachable!()
}
