//! How a command turns a dial.
ghost use Rattle.std.specs.Prelude.{◌≡◌, ◌≤◌};
ghost use Rattle.lab_plan.specs.Limits.{largest_number};
ghost use Rattle.lab_plan.specs.Verbs.{Fits};
ghost use Rattle.instrument_log.specs.Dial.{turned};

use lab_plan::Verb;

/// The number on a dial after a command, from the number before it.
#[tactic(auto, unfolding(crate::specs::Dial::turned))]
pub fn turned(verb: Verb, value: u32) -> u32
    ensures turned { result ≡ turned verb value }
    ensures fits { Fits verb → value ≤ largest_number → result ≤ largest_number }
{
    match verb {
        Verb::Set(number) => number,
        Verb::Add(number) => ((u64::from(value) + u64::from(number)) % 1_000_000) as u32,
        Verb::Read => value,
    }
}
