//! The line.
ghost use Rattle.std.specs.Prelude.{◌+◌};
ghost use Rattle.bay_line.specs.Lines.{Below};

use crate::rows::check;
use bay_line::{Line, NotInLine, Seated};
use std::process::Abort;
use std::rt::HostRuntime;

/// Somebody asks, and there is room.
fn comes(
    rt: &impl Abort,
    line: &mut Line,
    ask: u64,
    sets: &[u64],
    classes: u32,
    deadline: Option<u64>,
)
    requires { Below ask line.old.wishes }
    ensures { Below (ask + 1) line.new.wishes }
{
    match line.ask(ask, sets, classes, deadline) {
        Ok(()) => {}
        Err(_) => panic!(rt; "it isn't in line"),
    }
}

/// Three asks: one for instrument 0; one for 0 and 1, until 9; one for either 2 or 1, until 7, of another class. There is room for one set more.
fn ask(rt: &impl Abort, line: &mut Line)
    requires { Below 1 line.old.wishes }
{
    comes(rt, line, 1, &[1], 1, None);
    comes(rt, line, 2, &[3], 1, Some(9));
    comes(rt, line, 3, &[4, 2], 2, Some(7));
    check(
        rt,
        "too many",
        line.ask(4, &[1, 2], 1, None),
        Err(NotInLine::Full),
    );
}

/// What those three want.
fn want(rt: &impl Abort, line: &Line) {
    check(rt, "sets", line.len(), 4);
    check(rt, "in line", line.waits(2), true);
    check(rt, "not in line", line.waits(4), false);
    check(rt, "wanted", line.wanted(), 7);
    check(rt, "classes", line.classes(), 3);
    check(rt, "deadline", line.first_deadline(), Some(7));
}

/// Its number, its instruments, its class and its deadline.
fn parts(seated: Seated) -> (u64, u64, u32, Option<u64>) {
    (seated.ask, seated.needs, seated.class, seated.deadline)
}

/// While 0 is in use the third is let in, and then the first, which passes the second.
fn go_in(rt: &impl Abort, line: &mut Line) {
    match line.next(1, 3) {
        Some((place, seated)) => {
            check(rt, "place", place, 2);
            check(rt, "third is next", parts(seated), (3, 4, 1, Some(7)));
            line.go(seated, 3);
        }
        None => panic!(rt; "nobody is next"),
    }
    check(rt, "two are left", line.len(), 2);
    check(
        rt,
        "first goes in",
        line.let_in(0, 3).map(parts),
        Some((1, 1, 0, None)),
    );
}

/// The second was passed once, which is as often as may be. So what it wants is kept for it, as long as a place is free for it.
fn keep(rt: &impl Abort, line: &Line) {
    check(rt, "from one behind", line.keeper(5, 1, 1), Some(2));
    check(rt, "no place", line.keeper(5, 1, 2), None);
    check(rt, "from one before", line.keeper(1, 1, 1), None);
    check(
        rt,
        "its set",
        line.wish_for(2, 0).map(|wish| (wish.needs, wish.passed)),
        Some((3, 1)),
    );
    check(rt, "no second set", line.wish_for(2, 1).is_none(), true);
}

/// It is late at 9.
fn lapse(rt: &impl Abort, line: &mut Line) {
    check(rt, "in time", line.take_late(8), None);
    check(rt, "late", line.take_late(9), Some(2));
    check(rt, "nobody", line.len(), 0);
}

#[test]
fn lines(rt: HostRuntime) {
    let mut line = Line::nobody(rt.alloc(), 5, 1);
    ask(&rt, &mut line);
    want(&rt, &line);
    go_in(&rt, &mut line);
    keep(&rt, &line);
    lapse(&rt, &mut line);
}

/// One that wants 0 and 1, or 0 and 2, is passed at its first set while 0 is in use. When 0 is free and 1 isn't, it gets its second set.
#[test]
fn own_sets(rt: HostRuntime) {
    let mut line = Line::nobody(rt.alloc(), 3, 1);
    comes(&rt, &mut line, 1, &[3, 5], 1, None);
    comes(&rt, &mut line, 2, &[2], 1, None);
    check(
        &rt,
        "passes it",
        line.let_in(1, 1).map(parts),
        Some((2, 2, 0, None)),
    );
    check(
        &rt,
        "second set",
        line.let_in(2, 1).map(parts),
        Some((1, 5, 0, None)),
    );
}

/// Another asked before it for its second set, and 0 is kept from that one. So both wait, and once 1 is free it gets its first set.
#[test]
fn first_come(rt: HostRuntime) {
    let mut line = Line::nobody(rt.alloc(), 4, 1);
    comes(&rt, &mut line, 1, &[5], 1, None);
    comes(&rt, &mut line, 2, &[3, 5], 1, None);
    comes(&rt, &mut line, 3, &[2], 1, None);
    check(
        &rt,
        "passes it",
        line.let_in(1, 1).map(parts),
        Some((3, 2, 0, None)),
    );
    check(&rt, "both wait", line.let_in(2, 1).map(parts), None);
    check(
        &rt,
        "first set",
        line.let_in(0, 1).map(parts),
        Some((2, 3, 0, None)),
    );
}

#[test]
fn leave(rt: HostRuntime) {
    let mut line = Line::nobody(rt.alloc(), 5, 1);
    comes(&rt, &mut line, 0, &[1], 1, None);
    line.leave(0);
    check(&rt, "nobody", line.len(), 0);
}

/// The first wants 0 and 1, the second 1 alone, the third 0 alone. From the moment at which the order is kept, the third doesn't go before the first, though 0
/// is free.
#[test]
fn kept_order(rt: HostRuntime) {
    let mut line = Line::nobody(rt.alloc(), 3, 64);
    comes(&rt, &mut line, 1, &[3], 1, None);
    comes(&rt, &mut line, 2, &[2], 1, None);
    comes(&rt, &mut line, 3, &[1], 1, None);
    line.keep_order();
    check(
        &rt,
        "as often as may be",
        line.wish_for(3, 0).map(|wish| (wish.needs, wish.passed)),
        Some((1, 64)),
    );
    check(&rt, "0 is free", line.let_in(2, 1).map(parts), None);
    check(
        &rt,
        "all is free",
        line.let_in(0, 1).map(parts),
        Some((1, 3, 0, None)),
    );
}
