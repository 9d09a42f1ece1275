//! One that waits outside.
ghost use Rattle.std.specs.Prelude.{◌≡◌, ◌<◌, ◌↔◌, IsTrue};
ghost use Rattle.late_thirst.specs.Outside.{IsDue, passed_by, passed_at, since_of, needs_of};

use crate::sets::has;

/// A job that has asked for its next session, and isn't let in yet.
#[derive(Clone, Copy, PartialEq, Eq, Debug)]
pub struct Asker {
    /// In which call it asked; calls are counted. Of two that asked in the same one, that with the lower number asked first.
    pub since: u64,
    /// The instruments of its session: bit i for instrument i.
    pub needs: u64,
    /// How often it has been passed by.
    pub passed: u32,
}

/// Why one may be let in.
#[derive(Clone, Copy, PartialEq, Eq, Debug)]
pub enum Reason {
    /// It was passed by this often.
    Passed(u32),
    /// It needs none of these instruments.
    Free(u64),
}

/// Whether one may be let in for this reason.
pub(crate) fn is_due(place: Option<Asker>, reason: Reason) -> bool
    ensures { IsTrue result ↔ IsDue reason place }
{
    match place {
        None => false,
        Some(asker) => match reason {
            Reason::Passed(most) => most <= asker.passed,
            Reason::Free(used) => asker.needs & used == 0,
        },
    }
}

/// When one asked.
pub(crate) fn since_of(place: Option<Asker>) -> u64
    ensures { result ≡ since_of place }
{
    match place {
        None => 0,
        Some(asker) => asker.since,
    }
}

/// What one needs.
pub(crate) fn needs_of(place: Option<Asker>) -> u64
    ensures { result ≡ needs_of place }
{
    match place {
        None => 0,
        Some(asker) => asker.needs,
    }
}

/// A session with these needs is let in. Who was passed by often enough isn't counted any further: it is let in at once.
fn passed_by(place: Option<Asker>, most: u32, needs: u64) -> Option<Asker>
    ensures { result ≡ passed_by most needs place }
{
    match place {
        None => None,
        Some(asker) => {
            if asker.needs & needs == 0 || most <= asker.passed {
                place
            } else {
                Some(Asker {
                    since: asker.since,
                    needs: asker.needs,
                    passed: asker.passed + 1,
                })
            }
        }
    }
}

/// The same of the job with this number, if it is one of `ready`.
pub(crate) fn passed_at(
    place: Option<Asker>,
    most: u32,
    ready: u32,
    needs: u64,
    job: usize,
) -> Option<Asker>
    requires { job < 32 }
    ensures { result ≡ passed_at most ready needs job place }
{
    if has(ready, job) {
        passed_by(place, most, needs)
    } else {
        place
    }
}
