//! Rounds one after another, until all jobs are retired, or the limit is there.
ghost use Rattle.std.specs.Prelude.{◌≡◌, ◌<◌, ◌↔◌, ℕ, IsTrue, IfOk, length};
ghost use Rattle.legal_steps.specs.declared.phase.Drinking.TheVariants.{Retired};
ghost use Rattle.legal_steps.specs.Opening.{the_opening};
ghost use Rattle.legal_steps.specs.State.{drinking};
ghost use Rattle.interleaving.specs.Start.{at_start};
ghost use Rattle.rounds.specs.FromOpening.{fresh_players};
ghost use Rattle.rounds.specs.QuietEnd.{NoneReaches};
ghost use Rattle.round_trace.specs.Players.{players_of, StandsAt};
ghost use Rattle.round_trace.specs.Traces.{Plays, IsRunByRounds};

use crate::player::{Player, fresh};
use crate::round::round;
use interleaving::World;
use lab_plan::{JobNo, Plan};
use legal_steps::{Drinking, Event};
use std::alloc::{AllocError, Allocator};

/// Whether all jobs are retired.
fn all_retired<A: Allocator>(world: &World<A>) -> bool
    ensures { IsTrue result ↔ ((j : ℕ) → j < length world.now.plan.jobs → drinking world.now.state j ≡ Retired) }
{
    for job in 0..world.plan().jobs() {
        if world.job(JobNo(job as u8)).drinking != Drinking::Retired {
            return false;
        }
    }
    true
}

/// The players of all jobs, in their order.
pub(crate) fn all_players<A: Allocator, B: Allocator>(
    alloc: A,
    plan: &Plan<B>,
) -> Result<Vec<Player, A>, AllocError>
    ensures { IfOk result (λ players. players_of players.items ≡ fresh_players (length plan.now.jobs)) }
{
    let mut players = Vec::new(alloc);
    for job in 0..plan.jobs() {
        players.push(fresh(JobNo(job as u8)))?;
    }
    Ok(players)
}

/// Rounds, at most this many, behind what was done before. Answers whether all jobs are retired then.
pub(crate) fn play<A: Allocator>(
    world: &mut World<A>,
    events: &mut Vec<Event, A>,
    players: &mut [Player],
    limit: u32,
) -> Result<bool, AllocError>
    requires fresh { players_of players.old ≡ fresh_players (length world.old.plan.jobs) }
    requires stands { StandsAt world.old events.old.items }
    requires rests { NoneReaches world.old.plan events.old.items }
    ensures { IfOk result (λ retired. Plays world.old.plan limit retired events.old.items events.new.items) }
{
    for _number in 0..limit {
        if all_retired(world) {
            return Ok(true);
        }
        round(world, events, players)?;
    }
    Ok(all_retired(world))
}

/// The events of rounds, at most this many, in a world that has none yet.
fn traced<A: Allocator + Copy>(
    alloc: A,
    plan: &Plan<A>,
    world: &mut World<A>,
    limit: u32,
) -> Result<Vec<Event, A>, AllocError>
    requires { world.old ≡ at_start plan.now (the_opening plan.now) }
    ensures { IfOk result (λ events. IsRunByRounds plan.now limit events.items) }
{
    let mut events = Vec::new(alloc);
    let mut players = all_players(alloc, plan)?;
    let _retired = play(world, &mut events, &mut players, limit)?;
    Ok(events)
}

/// The events of the plan's run by rounds: in each round one turn of each job, in their order, until all are retired, or
/// this many rounds were done. Each look is among them, so a round has as many as there are ends of edges, at least.
///
/// Memory is taken for the world, and in proportion to the events.
pub fn trace<A: Allocator + Copy>(
    alloc: A,
    plan: &Plan<A>,
    limit: u32,
) -> Result<Vec<Event, A>, AllocError>
    ensures { IfOk result (λ events. IsRunByRounds plan.now limit events.items) }
{
    let Ok(mut world) = World::opening(alloc, plan) else {
        return Err(AllocError);
    };
    traced(alloc, plan, &mut world, limit)
}
