//! What those in line want, all together.
ghost use Rattle.std.specs.Prelude.{◌≡◌, length};
ghost use Rattle.std.specs.List.{list_any};
ghost use Rattle.bay_line.specs.InLine.{SaysInLine};
ghost use Rattle.bay_line.specs.Wanted.{AreWanted, AreClasses, IsFirstDeadline, leaves, sooner};

use crate::wish::Wish;

/// The instruments that somebody wants.
pub(crate) fn wanted(wishes: &[Wish]) -> u64
    ensures { AreWanted wishes.now result }
{
    let mut all: u64 = 0;
    for place in 0..wishes.len() {
        all |= wishes[place].needs;
    }
    all
}

/// The classes of places that somebody may take.
pub(crate) fn classes(wishes: &[Wish]) -> u32
    ensures { AreClasses wishes.now result }
{
    let mut all: u32 = 0;
    for place in 0..wishes.len() {
        all |= wishes[place].classes;
    }
    all
}

/// Whether a wish of this ask is in line.
pub(crate) fn waits(wishes: &[Wish], ask: u64) -> bool
    ensures { SaysInLine wishes.now ask result }
{
    for place in 0..wishes.len() {
        if wishes[place].ask == ask {
            return true;
        }
    }
    false
}

/// Whether a wish of this ask has more than these instruments.
pub(crate) fn leaves(wishes: &[Wish], ask: u64, uses: u64) -> bool
    ensures { result ≡ list_any (leaves ask uses) wishes.now }
{
    wishes
        .iter()
        .any(|wish| wish.ask == ask && wish.needs & uses != wish.needs)
}

/// The one that is earlier, if there is one.
fn sooner(a: Option<u64>, b: Option<u64>) -> Option<u64>
    ensures { result ≡ sooner a b }
{
    match (a, b) {
        (None, _) => b,
        (Some(_), None) => a,
        (Some(x), Some(y)) => Some(if x <= y { x } else { y }),
    }
}

/// The earliest deadline.
pub(crate) fn first_deadline(wishes: &[Wish]) -> Option<u64>
    ensures { IsFirstDeadline wishes.now (length wishes.now) result }
{
    let mut first = None;
    for place in 0..wishes.len() {
        first = sooner(first, wishes[place].deadline);
    }
    first
}
