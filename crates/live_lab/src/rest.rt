//! Doing all that can be done without a word from an owner.
ghost use Rattle.std.specs.Prelude.{◌≤◌};
ghost use Rattle.settling.specs.Left.{AreMarked};
ghost use Rattle.live_lab.specs.Doing.{RestsIn};

use interleaving::World;
use settling::{Due, rest};
use std::alloc::Allocator;

/// Does all that can be done without a word from an owner, until no job has anything to do of itself. Answers how many deeds that took.
pub(crate) fn come_to_rest<A: Allocator>(world: &mut World<A>, due: &mut Due<A>) -> u32
    requires { AreMarked world.old.plan world.old.state due.old }
    ensures rests { RestsIn world.old result world.new }
    ensures marked { AreMarked world.new.plan world.new.state due.new }
    ensures few { result ≤ 129584 }
{
    rest(world, due)
}
