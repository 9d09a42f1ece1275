//! What an owner waits for.
ghost use Rattle.std.specs.Prelude.{◌↔◌, IsTrue};
ghost use Rattle.edge_rule.specs.DeskView.{Owns};
ghost use Rattle.desk_user.specs.Use.{IsAt};

use edge_rule::{Bench, Desk};
use session_layer::may_quit;
use std::alloc::Allocator;

/// How far a job has to come.
#[derive(Clone, Copy, PartialEq, Eq, Debug)]
pub enum Until {
    /// It holds all instruments of a session.
    Holds,
    /// It holds them, and has done all commands of the session: its next turn ends the session.
    CommandsDone,
    /// It is in no session.
    IsOut,
    /// It is retired, for good.
    Retired,
}

/// Whether the job has come so far. It reads the desk alone: nobody else changes that.
pub fn is_at<A: Allocator>(bench: &Bench<A>, desk: &Desk<A>, until: Until) -> bool
    requires own { Owns bench.now desk.now }
    ensures { IsTrue result ↔ IsAt until desk.now }
{
    match until {
        Until::Holds => desk.phase().is_drinking(),
        Until::CommandsDone => may_quit(bench, desk),
        Until::IsOut => !desk.phase().is_in_session(),
        Until::Retired => desk.retired(),
    }
}
