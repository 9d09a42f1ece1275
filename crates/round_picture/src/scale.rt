//! Where rounds stand in the picture, and its numbers.
ghost use Rattle.std.specs.Prelude.{◌≡◌, ◌≤◌, ◌<◌, ◌^◌, ◌++◌, decimal, OnOk};
ghost use Rattle.round_picture.specs.Scale.{round_width, place, width, step_in, step_of};

use itoa::Buffer;
use std::alloc::{AllocError, Allocator};

/// The powers of ten below the most rounds.
const POWERS: [u32; 9] = [
    1,
    10,
    100,
    1_000,
    10_000,
    100_000,
    1_000_000,
    10_000_000,
    100_000_000,
];

/// How wide a round is, in units.
fn round_width(last: u32) -> u64
    ensures value { result ≡ round_width last }
    ensures small { result ≤ 24 }
{
    let rounds = u64::from(last.max(1));
    (1200 / rounds).min(24).max(1)
}

/// Where a round stands, in units.
#[tactic(auto, using(crate::proofs::Within::narrow_within, crate::proofs::Within::wide_within), unfolding(crate::specs::Scale::place))]
pub(crate) fn place(last: u32, round: u32) -> u64
    ensures value { result ≡ place last round }
    ensures small { result < 2 ^ 45 }
{
    let round = u64::from(round);
    if last <= 4000 {
        round_width(last) * round
    } else {
        4000 * round / u64::from(last)
    }
}

/// How wide is what goes on from one round to another.
pub(crate) fn width(last: u32, from: u32, to: u32) -> u64
    ensures { result ≡ width last from to }
{
    place(last, to).saturating_sub(place(last, from)).max(1)
}

/// The rounds from one number of the scale to the next, by some powers of ten.
fn step_in(powers: &[u32], last: u32) -> u64
    ensures value { result ≡ step_in powers.now last }
    ensures small { result < 2 ^ 35 }
{
    match powers {
        [] => 1_000_000_000,
        [power, larger @ ..] => {
            let power = u64::from(*power);
            let last_round = u64::from(last);
            if last_round <= 20 * power {
                power
            } else if last_round <= 40 * power {
                2 * power
            } else if last_round <= 100 * power {
                5 * power
            } else {
                step_in(larger, last)
            }
        }
    }
}

/// The rounds from one number of the scale to the next.
#[tactic(auto, unfolding(crate::specs::Scale::step_of))]
pub(crate) fn step_of(last: u32) -> u64
    ensures value { result ≡ step_of last }
    ensures small { result < 2 ^ 35 }
{
    step_in(&POWERS, last)
}

/// Adds some text.
pub(crate) fn add_text<A: Allocator>(out: &mut Vec<u8, A>, text: &[u8]) -> Result<(), AllocError>
    ensures { OnOk result (out.new.items ≡ out.old.items ++ text.now) }
{
    out.extend_from_slice(text)
}

/// Adds some text and a number.
pub(crate) fn add_place<A: Allocator>(
    out: &mut Vec<u8, A>,
    text: &[u8],
    number: u64,
) -> Result<(), AllocError>
    ensures { OnOk result (out.new.items ≡ out.old.items ++ text.now ++ decimal number) }
{
    out.extend_from_slice(text)?;
    out.extend_from_slice(Buffer::new().format(number).as_bytes())
}
