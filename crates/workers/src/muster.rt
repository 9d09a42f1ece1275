//! Which teams have begun, and which have stopped. A team that is idle waits for the others, and sleeps meanwhile, by a bell.
ghost use Rattle.std.specs.Prelude.{◌≡◌, true};

use bell::{Bell, Listener};
use std::hint::spin_loop;
use std::sync::Wait;
use std::sync::atomic::{AtomicBool, AtomicU32, Ordering};
use std::thread::yield_now;

/// How many sleeps in a row, none of them ended by a ring, a team waits for teams that don't begin: about a second.
pub(crate) const PATIENCE: u32 = 200;

/// How often a team only yields while others are being started. Most begin within microseconds.
const YIELDS: u32 = 200;

/// How many more rounds of a team may be idle than not before it counts as waiting in vain, if nobody is held up at a gate. A neighbour that
/// runs answers within some tens of rounds.
const VAIN: u32 = 200;

/// The teams of one call, how far they are, and the bell by which idle ones sleep. All of it is a hint: a team that stops too early costs
/// nothing but work in parallel, since its turns are taken later.
#[derive(Drop)]
pub struct Muster {
    teams: u32,
    patience: u32,
    /// The gate holds nobody up. Then a neighbour that keeps a team waiting has no processor, or waits as well, and the calling thread
    /// alone is faster.
    hurries: bool,
    begun: AtomicU32,
    /// A team stopped because others don't begin, or because it waited in vain. It does nothing for its neighbours any more, so no team
    /// waits for it.
    stopped: AtomicBool,
    /// A team has taken all its turns. So what others wait for may never come, and they don't sleep: their own turns are to pass quickly.
    over: AtomicBool,
    bell: Bell,
}

impl Muster {
    /// Of this many teams, none of which has begun. A team that is idle waits this many sleeps for those that don't begin.
    pub fn new(teams: u32, patience: u32) -> Muster
        ensures teams { result.teams ≡ teams }
        ensures patience { result.patience ≡ patience }
    {
        Muster::with_bell(teams, patience, Bell::new())
    }

    /// Of this many teams, none of which has begun, whose gate holds nobody up. No team yields or sleeps, since beside busy processes each
    /// time may cost it milliseconds: all stop once one has waited in vain.
    pub fn hurried(teams: u32) -> Muster
        ensures teams { result.teams ≡ teams }
        ensures hurries { result.hurries ≡ true }
    {
        Muster {
            teams,
            patience: 0,
            hurries: true,
            begun: AtomicU32::new(0),
            stopped: AtomicBool::new(false),
            over: AtomicBool::new(false),
            bell: Bell::new(),
        }
    }

    /// The same as `new` with this bell, to which nobody listens.
    pub fn with_bell(teams: u32, patience: u32, bell: Bell) -> Muster
        ensures teams { result.teams ≡ teams }
        ensures patience { result.patience ≡ patience }
        ensures bell { result.bell.longest ≡ bell.longest }
    {
        Muster {
            teams,
            patience,
            hurries: false,
            begun: AtomicU32::new(0),
            stopped: AtomicBool::new(false),
            over: AtomicBool::new(false),
            bell,
        }
    }

    /// The bell, which is rung after whatever another team may wait for.
    pub(crate) fn bell(&self) -> &Bell {
        &self.bell
    }

    /// One more team begins.
    pub(crate) fn begin(&self) {
        self.begun.fetch_add(1, Ordering::SeqCst);
        self.bell.ring();
    }

    /// A team has taken all its turns.
    pub(crate) fn end(&self) {
        self.over.store(true, Ordering::SeqCst);
        self.bell.ring();
    }

    fn is_complete(&self) -> bool {
        self.begun.load(Ordering::SeqCst) >= self.teams
    }

    /// Whether all teams have begun; yields a while for those that haven't.
    fn fills(&self) -> bool {
        for _ in 0..YIELDS {
            if self.is_complete() {
                return true;
            }
            yield_now();
        }
        self.is_complete()
    }

    /// How many more rounds of a team were idle than not, after one more.
    pub(crate) fn vain_after(vain: u32, idle: bool) -> u32 {
        if idle {
            vain.saturating_add(1)
        } else {
            vain.saturating_sub(1)
        }
    }

    /// What an idle team does before its next round if nobody is held up at a gate. A team whose jobs are retired leaves the others at work.
    fn hurries_on(&self, vain: u32, is_done: bool) -> bool {
        if is_done || self.over.load(Ordering::SeqCst) {
            return false;
        }
        if vain < VAIN {
            spin_loop();
            return true;
        }
        self.stopped.store(true, Ordering::SeqCst);
        false
    }

    /// What an idle team does before its next round: it yields or sleeps. Answers no if it is to stop instead. It is told how many more of
    /// its rounds were idle than not, and whether its own jobs are retired.
    ///
    /// While a team hasn't begun, what this one waits for can't come from there, so it looks once more, and then takes no turn before the
    /// bell rings. A team that never begins has no thread of its own: it runs on the thread of another, once that has stopped. A thread that starts late looks
    /// the same, so the wait is long, as the time of threads goes. It counts only while all others wait as well, because any team that
    /// does something rings.
    pub(crate) fn goes_on<R: Wait>(
        &self,
        rt: &R,
        listener: &mut Listener<'_>,
        vain: u32,
        is_done: bool,
    ) -> bool {
        if self.stopped.load(Ordering::SeqCst) {
            listener.leave();
            return false;
        }
        if self.hurries {
            return self.hurries_on(vain, is_done);
        }
        if self.over.load(Ordering::SeqCst) {
            listener.leave();
            yield_now();
            return true;
        }
        if self.fills() {
            listener.idled(rt);
            return true;
        }
        if listener.outlasts(rt, self.patience) || self.is_complete() {
            return true;
        }
        self.stopped.store(true, Ordering::SeqCst);
        self.bell.ring();
        false
    }
}
