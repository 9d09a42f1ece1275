//! How long sessions waited, and the longest of their waits.
ghost use Rattle.std.specs.Prelude.{◌≡◌, ◌≢◌, ℕ, ◌+◌, ◌*◌, ◌<◌, ◌≤◌, length};
ghost use Rattle.std.specs.List.{sum_by};
ghost use Rattle.waiting.specs.LongestWait.{waited, waits_until, longest_of, longer, longest_after};

use crate::session::Session;
use lab_plan::JobNo;

/// A session that waited, and how long.
#[derive(Clone, Copy, PartialEq, Eq, Debug)]
pub struct Longest {
    pub wait: u32,
    pub job: JobNo,
    pub session: usize,
}

/// The round up to which a session waited.
fn waits_until(last: u32, session: &Session) -> u32
    ensures { result ≡ waits_until last session.now.drinks session.now.given_up }
{
    match (session.drinks, session.given_up) {
        (Some(drinks), _) => drinks,
        (None, Some(given_up)) => given_up,
        (None, None) => last,
    }
}

/// How many rounds a session waited, in a run whose last round this is.
#[tactic(auto, unfolding(crate::specs::LongestWait::waited))]
fn waited(last: u32, session: &Session) -> u32
    ensures { result ≡ waited last session.now }
{
    waits_until(last, session).saturating_sub(session.thirsty)
}

/// How many rounds some sessions waited, all together.
pub fn total_wait(last: u32, sessions: &[Session]) -> u128
    ensures total { result ≡ sum_by (waited last) sessions.now }
    ensures most { result ≤ length sessions.now * 4294967295 }
{
    match sessions {
        [] => 0,
        [session, later @ ..] => u128::from(waited(last, session)) + total_wait(last, later),
    }
}

/// The longest wait of some sessions.
pub(crate) fn longest_of(last: u32, sessions: &[Session]) -> u32
    ensures { result ≡ longest_of last sessions.now }
{
    match sessions {
        [] => 0,
        [session, later @ ..] => waited(last, session).max(longest_of(last, later)),
    }
}

fn longer(best: Longest, other: Longest) -> Longest
    ensures longer { result ≡ longer best other }
    ensures job { (n : ℕ) → (best.wait ≢ 0 → best.job < n) → other.job < n → result.wait ≢ 0 → result.job < n }
{
    if best.wait < other.wait { other } else { best }
}

/// The first of the longest, of one and then of a job's sessions, of which the first has this number.
pub(crate) fn longest_after(
    last: u32,
    job: JobNo,
    best: Longest,
    number: usize,
    sessions: &[Session],
) -> Longest
    requires { number + length sessions.now < 18446744073709551616 }
    ensures longest { result ≡ longest_after last job best number sessions.now }
    ensures job { (n : ℕ) → (best.wait ≢ 0 → best.job < n) → job < n → result.wait ≢ 0 → result.job < n }
{
    match sessions {
        [] => best,
        [session, later @ ..] => {
            let here = Longest {
                wait: waited(last, session),
                job,
                session: number,
            };
            longest_after(last, job, longer(best, here), number + 1, later)
        }
    }
}
