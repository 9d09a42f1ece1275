//! The line outside.
ghost use Rattle.std.specs.Prelude.{◌≡◌, ◌<◌, ◌≤◌, ◌+◌, min, length, IfOk};
ghost use Rattle.late_thirst.specs.Outside.{nobody, place, AreOutside};
ghost use Rattle.late_thirst.specs.Lines.{with_most, counted, with_place, asking, LineLetsIn};

use crate::asker::Asker;
use crate::entries::let_in;
use std::alloc::{AllocError, Global};
use std::marker::Model;

/// Who waits outside.
#[derive(Drop)]
pub struct Line {
    places: Vec<Option<Asker>, Global>,
    calls: u64,
    most: u32,
    /// The jobs that have a place.
    outside: u32,
}

impl Model for Line {
    ghost use Rattle.std.specs.Prelude.{◌≤◌, length};
    ghost use Rattle.late_thirst.specs.Outside.{LineView, AreOutside};

    ghost Value = { LineView };

    ghost view = { λ x. record { places = x.places.items; calls = x.calls; most = x.most } };

    ghost invariant = { λ x. (length x.places.items ≤ 32) × AreOutside x.places.items x.outside };
}

impl Line {
    /// Nobody is outside, and nobody ever has to be.
    pub fn nobody(alloc: Global, jobs: usize) -> Result<Line, AllocError>
        requires { jobs ≤ 32 }
        ensures { IfOk result (λ line. line ≡ nobody jobs) }
    {
        Ok(Line {
            places: Vec::from_elem(alloc, None, jobs)?,
            calls: 0,
            most: 0,
            outside: 0,
        })
    }

    /// From now on a job is let in after so many sessions that pass it by.
    pub fn set_most(&mut self, most: u32)
        ensures { self.new ≡ with_most self.old most }
    {
        self.most = most;
    }

    /// The next call in which jobs may ask.
    pub fn count_call(&mut self)
        ensures { self.new ≡ counted self.old }
    {
        self.calls = self.calls.saturating_add(1);
    }

    /// A job's place outside, if it has one.
    pub fn place(&self, job: usize) -> Option<Asker>
        requires { job < length self.now.places }
        ensures { result ≡ place self.now.places job }
    {
        self.places[job]
    }

    /// The job isn't outside any more.
    pub fn leave(&mut self, job: usize)
        requires { job < length self.old.places }
        ensures { self.new ≡ with_place self.old job None }
    {
        self.places[job] = None;
        self.outside &= !(1 << job);
    }

    /// The job asks, for a session with these needs.
    pub fn ask(&mut self, job: usize, needs: u64)
        requires { job < length self.old.places }
        ensures { self.new ≡ with_place self.old job (asking self.old needs) }
    {
        self.places[job] = Some(Asker {
            since: self.calls,
            needs,
            passed: 0,
        });
        self.outside |= 1 << job;
    }

    /// The jobs that are outside.
    pub fn outside(&self) -> u32
        ensures { AreOutside self.now.places result }
    {
        self.outside
    }

    /// Lets in those of `ready` that were passed by often enough; or, if there is none, one that needs no instrument in use. Answers who. Call it
    /// until it answers 0.
    pub fn let_in(&mut self, ready: u32, used: u64) -> u32
        ensures { LineLetsIn ready used self.old result self.new }
    {
        let those = ready & self.outside;
        if those == 0 {
            return 0;
        }
        let set = let_in(&mut self.places, self.most, those, used);
        self.outside ^= set;
        set
    }
}
