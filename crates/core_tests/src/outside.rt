//! Sets of jobs, and who waits outside: by hand.
ghost use Rattle.std.specs.Prelude.{◌≡◌, length};

use crate::rows::check;
use late_thirst::{Line, has, next_of};
use std::alloc::Global;
use std::process::Abort;
use std::rt::HostRuntime;

/// A line outside for three jobs.
fn line(rt: &impl Abort, alloc: Global) -> Line
    ensures { length result.places ≡ 3 }
{
    match Line::nobody(alloc, 3) {
        Ok(line) => line,
        Err(_) => panic!(rt; "no memory"),
    }
}

/// The first of 1 and 3 from each place on, of four jobs.
#[test]
fn members(rt: HostRuntime) {
    check(&rt, 0, next_of(0b1010, 0, 4), 1);
    check(&rt, 1, next_of(0b1010, 1, 4), 1);
    check(&rt, 2, next_of(0b1010, 2, 4), 3);
    check(&rt, "none in front of the end", next_of(0b1010, 2, 3), 3);
    check(&rt, "at the end", next_of(0b1010, 4, 4), 4);
    check(&rt, "none at all", next_of(0, 0, 32), 32);
    check(&rt, "the last", next_of(1 << 31, 0, 32), 31);
    check(&rt, "a member", has(0b1010, 3), true);
    check(&rt, "no member", has(0b1010, 2), false);
}

/// Whoever asks is outside until it leaves, or is let in.
#[test]
fn places(rt: HostRuntime) {
    let mut line = line(&rt, rt.alloc());
    check(&rt, "nobody", line.outside(), 0);
    line.ask(0, 1);
    line.ask(2, 2);
    check(&rt, "two", line.outside(), 0b101);
    line.leave(0);
    check(&rt, "one left", line.outside(), 0b100);
    check(&rt, "let in", line.let_in(0b111, 1), 0b100);
    check(&rt, "nobody again", line.outside(), 0);
}
