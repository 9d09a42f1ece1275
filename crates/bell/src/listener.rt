//! How one thread waits: it looks again for a while, and then sleeps by a bell.
ghost use Rattle.std.specs.Prelude.{◌≡◌, IsNone, IsSome, false, true};
ghost use Rattle.bell.specs.Listening.{Acted, Idled, Left};

use crate::bell::Bell;
use std::sync::Wait;
use std::thread::yield_now;

/// How many idle rounds a thread only yields after. What it waits for often comes within microseconds, and a sleep costs more.
const YIELDS: u32 = 200;

/// A thread that waits by a bell. It is told what came of each round, and sleeps after many idle ones in a row. If it is dropped, it leaves first.
pub struct Listener<'b> {
    bell: &'b Bell,
    /// Idle rounds in a row, up to the limit.
    idle: u32,
    /// How often the bell was rung, once the thread has said that it may sleep.
    heard: Option<u64>,
}

impl<'b> Listener<'b> {
    /// Of this bell.
    pub fn new(bell: &'b Bell) -> Listener<'b>
        ensures idle { result.idle ≡ 0 }
        ensures heard { IsNone result.heard }
    {
        Listener {
            bell,
            idle: 0,
            heard: None,
        }
    }

    /// Something was done: whoever may wait for it is woken.
    pub fn acted(&mut self)
        ensures { Acted self.old self.new }
    {
        self.idle = 0;
        self.leave();
        self.bell.ring();
    }

    /// A round was idle: yields; or says that the thread may sleep, after which it has to look once more; or sleeps, if that
    /// look was idle too.
    pub fn idled<R: Wait>(&mut self, rt: &R)
        ensures { Idled self.old self.new }
    {
        if self.idle < YIELDS {
            self.idle += 1;
            yield_now();
            return;
        }
        match self.heard {
            None => self.heard = Some(self.bell.listen()),
            Some(heard) => {
                if self.bell.sleep(rt, heard) {
                    // More may come soon.
                    self.idle = 0;
                }
                self.leave();
            }
        }
    }

    /// A round was idle, and so would be any other before the bell rings: as `idled`, but it never yields, and sleeps until the bell
    /// rings, at most this many times. Answers no if the bell wasn't rung in all that time.
    pub fn outlasts<R: Wait>(&mut self, rt: &R, sleeps: u32) -> bool
        ensures idle { self.new.idle ≡ self.old.idle }
        ensures listens { IsNone self.old.heard → (result ≡ true) × IsSome self.new.heard }
        ensures sleeps { IsSome self.old.heard → IsNone self.new.heard }
        ensures none { IsSome self.old.heard → sleeps ≡ 0 → result ≡ false }
    {
        let Some(heard) = self.heard else {
            self.heard = Some(self.bell.listen());
            return true;
        };
        let mut rung = false;
        for _ in 0..sleeps {
            rung = self.bell.sleep(rt, heard);
            if rung {
                break;
            }
        }
        self.leave();
        rung
    }

    /// The thread doesn't sleep now, so nobody rings for it.
    pub fn leave(&mut self)
        ensures { Left self.old self.new }
    {
        if self.heard.is_some() {
            self.heard = None;
            self.bell.leave();
        }
    }
}

impl Drop for Listener<'_> {
    fn drop(self) {
        let Listener {
            bell,
            idle: _,
            heard,
        } = self;
        if heard.is_some() {
            bell.leave();
        }
    }
}
