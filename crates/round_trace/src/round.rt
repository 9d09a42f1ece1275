//! One turn of each job.
ghost use Rattle.std.specs.Prelude.{◌≡◌, ◌<◌, Bool, IfOk, OnOk, length};
ghost use Rattle.legal_steps.specs.Legal.{IsJob};
ghost use Rattle.rounds.specs.Rounds.{Plays, Round};
ghost use Rattle.session_layer.specs.declared.turning.Turned.{Turned};
ghost use Rattle.round_trace.specs.Players.{player_of, players_of, StandsAt, AreJobs};

use crate::acts::act;
use crate::edges::visit_all;
use crate::player::{Player, note, waited_in};
use interleaving::World;
use legal_steps::Event;
use std::alloc::{AllocError, Allocator};

/// One turn of the player.
fn turn<A: Allocator>(
    world: &mut World<A>,
    events: &mut Vec<Event, A>,
    player: &mut Player,
) -> Result<(), AllocError>
    requires job { IsJob world.old.plan player.old.job }
    requires stands { StandsAt world.old events.old.items }
    ensures plays { OnOk result ((r : Turned) × Plays world.old.plan (player_of player.old) events.old.items r events.new.items (player_of player.new)) }
    ensures stands { OnOk result (StandsAt world.new events.new.items) }
    ensures plan { OnOk result (world.new.plan ≡ world.old.plan) }
{
    let job = player.job;
    let before = world.job(job);
    let waited = waited_in(player, before.session);
    visit_all(world, events, job)?;
    act(world, events, job, waited)?;
    note(player, before, world.job(job));
    Ok(())
}

/// One turn of each player, in the order of the slice.
pub(crate) fn round<A: Allocator>(
    world: &mut World<A>,
    events: &mut Vec<Event, A>,
    players: &mut [Player],
) -> Result<(), AllocError>
    requires jobs { AreJobs world.old.plan (players_of players.old) }
    requires stands { StandsAt world.old events.old.items }
    ensures plays { OnOk result
        ((idle : Bool) × Round world.old.plan (players_of players.old) idle events.old.items events.new.items (players_of players.new)) }
    ensures stands { OnOk result (StandsAt world.new events.new.items) }
    ensures plan { OnOk result (world.new.plan ≡ world.old.plan) }
{
    for place in 0..players.len() {
        turn(world, events, &mut players[place])?;
    }
    Ok(())
}
