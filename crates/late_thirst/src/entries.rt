//! Those that go in.
ghost use Rattle.std.specs.Prelude.{◌≡◌, ◌<◌, ◌≤◌, length};
ghost use Rattle.late_thirst.specs.LettingIn.{GoesIn, PassedGoIn, LetsIn};

use crate::asker::{Asker, Reason, needs_of, passed_at};
use crate::first_due::first_due;
use crate::sets::next_of;

/// The job goes in. Those of `ready` that stay and need one of its instruments are passed by once more.
fn go_in(places: &mut [Option<Asker>], most: u32, ready: u32, job: usize)
    requires few { length places.old ≤ 32 }
    requires inside { job < length places.old }
    ensures { GoesIn most ready job places.old places.new }
{
    let needs = needs_of(places[job]);
    places[job] = None;
    let end = places.len();
    let mut other = next_of(ready, 0, end);
    while other < end {
        places[other] = passed_at(places[other], most, ready, needs, other);
        other = next_of(ready, other + 1, end);
    }
}

/// All that were passed by often enough go in. Answers who.
fn passed_go_in(places: &mut [Option<Asker>], most: u32, ready: u32) -> u32
    requires { length places.old ≤ 32 }
    ensures { PassedGoIn most ready places.old result places.new }
{
    let mut set = 0u32;
    while let Some(job) = first_due(places, ready, Reason::Passed(most)) {
        go_in(places, most, ready, job);
        set |= 1 << job;
    }
    set
}

/// Lets in. Answers who went in.
pub(crate) fn let_in(places: &mut [Option<Asker>], most: u32, ready: u32, used: u64) -> u32
    requires { length places.old ≤ 32 }
    ensures { LetsIn most ready used places.old result places.new }
{
    let passed = passed_go_in(places, most, ready);
    if passed != 0 {
        return passed;
    }
    let Some(job) = first_due(places, ready, Reason::Free(used)) else {
        return 0;
    };
    go_in(places, most, ready, job);
    1 << job
}
