//! How an owner's thread waits for what another has to do.
ghost use Rattle.std.specs.Prelude.{◌≡◌, IsNone};
ghost use Rattle.bell.specs.Listening.{Acted, Left};
ghost use Rattle.desk_user.specs.Waits.{Heeds};

use bell::{Bell, Listener};
use session_layer::Turned;
use std::hint::spin_loop;
use std::sync::Wait;
use std::thread::yield_now;

/// What a thread does after an idle turn, before it looks again.
#[derive(Clone, Copy, PartialEq, Eq, Debug)]
pub enum How {
    /// Nothing: it keeps its core. For waits of a microsecond, if each thread has a core of its own.
    Spin,
    /// It lets another thread run. It keeps a core busy only while nobody else wants it.
    Yield,
    /// After many idle turns in a row it sleeps, until the bell rings or for some milliseconds. For all longer waits.
    Sleep,
}

/// How a thread waits, and the bell by which others wait for it: whoever does something rings, however it waits itself. So let all owners
/// of one bench have the same bell.
#[derive(Drop)]
pub struct Pause<'w, R: Wait> {
    how: How,
    rt: &'w R,
    listener: Listener<'w>,
}

impl<'w, R: Wait> Pause<'w, R> {
    /// A thread that waits so, by this bell.
    pub fn new(how: How, rt: &'w R, bell: &'w Bell) -> Pause<'w, R>
        ensures how { result.how ≡ how }
        ensures count { result.listener.idle ≡ 0 }
        ensures awake { IsNone result.listener.heard }
    {
        Pause {
            how,
            rt,
            listener: Listener::new(bell),
        }
    }

    /// Wakes others after a turn that did something, and waits after one that was idle.
    pub fn after(&mut self, turned: Turned)
        ensures how { self.new.how ≡ self.old.how }
        ensures heeds { Heeds self.old.how turned self.old.listener self.new.listener }
    {
        match (turned, self.how) {
            (Turned::Acted(_), _) => self.listener.acted(),
            // Another was faster: there may be something to do.
            (Turned::Moved, _) => {}
            (Turned::Idle, How::Spin) => spin_loop(),
            (Turned::Idle, How::Yield) => yield_now(),
            (Turned::Idle, How::Sleep) => self.listener.idled(self.rt),
        }
    }

    /// From now on the thread waits so.
    pub fn change(&mut self, how: How)
        ensures how { self.new.how ≡ how }
        ensures awake { Left self.old.listener self.new.listener }
    {
        self.leave();
        self.how = how;
    }

    /// Wakes others after something for which they may wait, and which no call for the desk did.
    pub fn ring(&mut self)
        ensures how { self.new.how ≡ self.old.how }
        ensures awake { Acted self.old.listener self.new.listener }
    {
        self.listener.acted();
    }

    /// The thread goes on to something else than waiting.
    pub fn leave(&mut self)
        ensures how { self.new.how ≡ self.old.how }
        ensures awake { Left self.old.listener self.new.listener }
    {
        self.listener.leave();
    }
}
