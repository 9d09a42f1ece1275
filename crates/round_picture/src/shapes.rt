//! What is drawn of a session.
ghost use Rattle.std.specs.Prelude.{◌≡◌, ◌++◌, OnOk};
ghost use Rattle.round_picture.specs.Shapes.{until, box_of, thirsty_box, holding_box, room_for, number_text, cross, shapes};

use crate::scale::{add_place, add_text, place, width};
use itoa::Buffer;
use std::alloc::{AllocError, Allocator};
use waiting::Session;

/// The round of what ends something, or the last.
pub(crate) fn until(last: u32, end: Option<u32>) -> u32
    ensures { result ≡ until last end }
{
    match end {
        Some(round) => round,
        None => last,
    }
}

/// Adds a box from one round to another, without its look.
#[tactic(auto, unfolding(crate::specs::Shapes::box_of))]
fn add_box<A: Allocator>(
    out: &mut Vec<u8, A>,
    last: u32,
    from: u32,
    to: u32,
) -> Result<(), AllocError>
    ensures { OnOk result (out.new.items ≡ out.old.items ++ box_of last from to) }
{
    add_place(out, b"<rect x=\"", place(last, from))?;
    add_place(out, b"\" y=\"4\" width=\"", width(last, from, to))?;
    add_text(out, b"\" height=\"16\"")
}

/// Adds the box of a session while it is thirsty.
#[tactic(auto, unfolding(crate::specs::Shapes::thirsty_box))]
fn add_thirsty<A: Allocator>(
    out: &mut Vec<u8, A>,
    last: u32,
    from: u32,
    to: u32,
) -> Result<(), AllocError>
    ensures { OnOk result (out.new.items ≡ out.old.items ++ thirsty_box last from to) }
{
    add_box(out, last, from, to)?;
    out.extend_from_slice(b" fill=\"#fff4d9\" stroke=\"#c77f00\" stroke-dasharray=\"3 2\"/>")
}

/// Adds the box of a session while it holds its instruments.
#[tactic(auto, unfolding(crate::specs::Shapes::holding_box))]
fn add_holding<A: Allocator>(
    out: &mut Vec<u8, A>,
    last: u32,
    from: u32,
    to: u32,
) -> Result<(), AllocError>
    ensures { OnOk result (out.new.items ≡ out.old.items ++ holding_box last from to) }
{
    add_box(out, last, from, to)?;
    out.extend_from_slice(b" fill=\"#56b4e9\" stroke=\"#222\"/>")
}

/// How wide a box must be for its number.
fn room_for(number: usize) -> u64
    ensures { result ≡ room_for number }
{
    6 + 6 * Buffer::new().format(number as u64).as_bytes().len() as u64
}

/// Adds the number of a session, if its box has room.
#[tactic(auto, unfolding(crate::specs::Shapes::number_text))]
fn add_number_of<A: Allocator>(
    out: &mut Vec<u8, A>,
    last: u32,
    number: usize,
    from: u32,
    to: u32,
) -> Result<(), AllocError>
    ensures { OnOk result (out.new.items ≡ out.old.items ++ number_text last number from to) }
{
    if room_for(number) > width(last, from, to) {
        return Ok(());
    }
    add_place(out, b"<text x=\"", place(last, from) + 3)?;
    add_place(out, b"\" y=\"16\">", number as u64)?;
    out.extend_from_slice(b"</text>")
}

/// Adds the cross of a session that was given up.
#[tactic(auto, unfolding(crate::specs::Shapes::cross))]
fn add_cross<A: Allocator>(out: &mut Vec<u8, A>, last: u32, round: u32) -> Result<(), AllocError>
    ensures { OnOk result (out.new.items ≡ out.old.items ++ cross last round) }
{
    add_place(out, b"<path d=\"M", place(last, round))?;
    add_text(
        out,
        b" 12m-5-5l10 10m0-10l-10 10\" fill=\"none\" stroke=\"#d00000\" stroke-width=\"2\"/>",
    )
}

/// Adds what is drawn of a session.
pub(crate) fn add_shapes<A: Allocator>(
    out: &mut Vec<u8, A>,
    last: u32,
    number: usize,
    session: &Session,
) -> Result<(), AllocError>
    ensures { OnOk result (out.new.items ≡ out.old.items ++ shapes last number session.now.thirsty session.now.drinks session.now.done session.now.given_up) }
{
    match (session.drinks, session.given_up) {
        (Some(drinks), _) => {
            let end = until(last, session.done);
            add_thirsty(out, last, session.thirsty, drinks)?;
            add_holding(out, last, drinks, end)?;
            add_number_of(out, last, number, drinks, end)
        }
        (None, Some(given_up)) => {
            add_thirsty(out, last, session.thirsty, given_up)?;
            add_number_of(out, last, number, session.thirsty, given_up)?;
            add_cross(out, last, given_up)
        }
        (None, None) => {
            add_thirsty(out, last, session.thirsty, last)?;
            add_number_of(out, last, number, session.thirsty, last)
        }
    }
}
