//! A bay that goes on in a new file, and with other classes.
use crate::logs::BAY;
use crate::rows::check;
use bay::{Bay, Class, NotTurned, Request, Terms, Urgency};
use bay_book::{Outcome, Stage};
use std::alloc::Global;
use std::process::Abort;
use std::rt::HostRuntime;

/// The new file behind one of 303 bytes: all numbers below 7 and the first token were given, and 5 holds 0 and 1 for owner 9, since 4. (The sums
/// are those of another SHA-256.)
const TEXT: &[u8] =
    b"90d62ff7b52e8fee bay 000102030405060708090a0b0c0d0e0f101112131415161718191a1b1c1d1e1f 000000000000012f 0000000000000007 0000000000000001\nb91889e7dc16abde hold 0000000000000005 00000000 0000000000000003 00000000000000000000000000000009 0000000000000004 ---------------- 0000000000000004 0000000000000001\n";

/// Whether it keeps a journal.
fn terms(keeps: bool) -> Terms {
    Terms {
        grace: Some(10),
        disk: None,
        keeps,
    }
}

fn request(number: u64, owner: u128) -> Request {
    Request {
        number,
        class: 0,
        owner,
        deadline: None,
        limit: None,
        urgency: Urgency::Usual,
    }
}

/// So many classes, all of them alike.
fn classes(
    rt: &impl Abort,
    alloc: Global,
    many: usize,
    uses: u64,
    places: u32,
) -> Vec<Class, Global> {
    let mut made = Vec::new(alloc);
    for _ in 0..many {
        if made.push(Class { uses, places }).is_err() {
            panic!(rt; "no memory");
        }
    }
    made
}

fn opened(rt: &impl Abort, alloc: Global, keeps: bool, places: u32) -> Bay {
    match Bay::open(
        alloc,
        classes(rt, alloc, 1, 7, places),
        terms(keeps),
        4,
        1,
        BAY,
    ) {
        Ok(bay) => bay,
        Err(_) => panic!(rt; "no bay"),
    }
}

/// What is told, once the last is done.
fn tell(rt: &impl Abort, bay: &mut Bay, done: u64, wanted: Option<(u64, u64, Outcome, u64)>) {
    let came = bay.tell(done).map(|told| (told.serial, told.number, told.outcome, told.needs));
    check(rt, done, came, wanted);
}

/// It doesn't turn, by so many such classes and with so much room.
fn refuse(
    rt: &impl Abort,
    alloc: Global,
    bay: &mut Bay,
    class: (usize, u64, u32),
    room: usize,
    wanted: NotTurned,
) {
    let made = classes(rt, alloc, class.0, class.1, class.2);
    let came = bay.turn(alloc, made, 6, room).map(|_| ());
    check(rt, class, came, Err(wanted));
}

/// All that is owed is written, and durable up to there.
fn write(rt: &impl Abort, bay: &mut Bay, position: u64) {
    check(rt, "written", bay.journal().is_ok(), true);
    check(rt, "position", bay.position(), position);
    bay.sent();
    bay.durable(position);
}

/// 5 holds 0 and 1, and 6 waits for 1 and 2. Nothing turns while the line of 5 is owed, or isn't durable.
fn ask(rt: &impl Abort, alloc: Global, bay: &mut Bay) {
    check(rt, "first", bay.ask(&[3], request(5, 9), 4), Ok(()));
    refuse(rt, alloc, bay, (1, 7, 2), 500, NotTurned::NotYet);
    check(rt, "written", bay.journal().is_ok(), true);
    refuse(rt, alloc, bay, (1, 7, 2), 500, NotTurned::NotYet);
    bay.sent();
    refuse(rt, alloc, bay, (1, 7, 2), 500, NotTurned::NotYet);
    bay.durable(303);
    tell(rt, bay, 0, Some((1, 5, Outcome::Holds, 3)));
    check(rt, "second", bay.ask(&[6], request(6, 8), 5), Ok(()));
}

/// By these classes 5 may not hold, or 6 may not wait; or there are too many; or the text is too long.
fn refuse_all(rt: &impl Abort, alloc: Global, bay: &mut Bay) {
    refuse(rt, alloc, bay, (1, 6, 2), 500, NotTurned::MayNot(5));
    refuse(rt, alloc, bay, (1, 7, 0), 500, NotTurned::MayNot(5));
    refuse(rt, alloc, bay, (0, 7, 2), 500, NotTurned::MayNot(5));
    refuse(rt, alloc, bay, (1, 3, 2), 500, NotTurned::MayNot(6));
    refuse(rt, alloc, bay, (33, 7, 2), 500, NotTurned::Classes);
    refuse(rt, alloc, bay, (1, 7, 2), 302, NotTurned::NoRoom(303));
}

/// The bay goes on: 5 holds, and is told nothing new; 6 waits.
fn turn(rt: &impl Abort, alloc: Global, bay: &mut Bay) -> Vec<u8, Global> {
    match bay.turn(alloc, classes(rt, alloc, 1, 7, 2), 6, 303) {
        Ok(text) => {
            check(rt, "text", text.as_slice(), TEXT);
            check(rt, "position", bay.position(), 606);
            check(rt, "nothing more", bay.unsent().len(), 0);
            tell(rt, bay, 1, None);
            check(
                rt,
                "waits",
                bay.wish_for(6, 0).map(|wish| (wish.needs, wish.passed)),
                Some((6, 0)),
            );
            text
        }
        Err(_) => panic!(rt; "it doesn't turn"),
    }
}

/// 5 lets go, so 6 holds: the end has 62 bytes, and the hold 166. From the new file that goes on so, 6 comes back.
fn go_on(rt: &impl Abort, alloc: Global, bay: &mut Bay, text: Vec<u8, Global>) {
    let mut file = text;
    check(rt, "lets go", bay.let_go(5, 8), Ok(()));
    check(rt, "written", bay.journal().is_ok(), true);
    check(rt, "position", bay.position(), 834);
    if file.extend_from_slice(bay.unsent()).is_err() {
        panic!(rt; "no memory");
    }
    match Bay::resume(
        alloc,
        classes(rt, alloc, 1, 7, 2),
        terms(true),
        4,
        1,
        BAY,
        &file,
        50,
    ) {
        Ok((back, used)) => {
            check(rt, "used", used, 531);
            check(rt, "one", back.len(), 1);
            assert!(rt; 0 < back.len());
            let ask = back.ask_at(0);
            check(
                rt,
                "6",
                (ask.number, ask.stage, ask.needs, ask.token),
                (6, Stage::Holds, 6, 2),
            );
            check(rt, "next", back.next_number(), 7);
        }
        Err(_) => panic!(rt; "it doesn't come back"),
    }
}

#[test]
fn turns(rt: HostRuntime) {
    let mut bay = opened(&rt, rt.alloc(), true, 2);
    ask(&rt, rt.alloc(), &mut bay);
    refuse_all(&rt, rt.alloc(), &mut bay);
    let text = turn(&rt, rt.alloc(), &mut bay);
    go_on(&rt, rt.alloc(), &mut bay, text);
}

/// There is one place, which 5 has. By wider classes 6 is let in.
fn widen(rt: &impl Abort, alloc: Global, bay: &mut Bay) -> usize {
    match bay.turn(alloc, classes(rt, alloc, 1, 7, 2), 6, 500) {
        Ok(text) => text.len(),
        Err(_) => panic!(rt; "it doesn't turn"),
    }
}

#[test]
fn widens(rt: HostRuntime) {
    let mut bay = opened(&rt, rt.alloc(), true, 1);
    check(&rt, "first", bay.ask(&[1], request(5, 9), 4), Ok(()));
    check(&rt, "second", bay.ask(&[2], request(6, 8), 5), Ok(()));
    write(&rt, &mut bay, 303);
    tell(&rt, &mut bay, 0, Some((1, 5, Outcome::Holds, 1)));
    tell(&rt, &mut bay, 1, None);
    check(&rt, "text", widen(&rt, rt.alloc(), &mut bay), 303);
    write(&rt, &mut bay, 772);
    tell(&rt, &mut bay, 1, Some((2, 6, Outcome::Holds, 2)));
}

/// A bay without a journal only changes its classes.
#[test]
fn widens_without_a_journal(rt: HostRuntime) {
    let mut bay = opened(&rt, rt.alloc(), false, 1);
    check(&rt, "first", bay.ask(&[1], request(5, 9), 4), Ok(()));
    check(&rt, "second", bay.ask(&[2], request(6, 8), 5), Ok(()));
    check(&rt, "text", widen(&rt, rt.alloc(), &mut bay), 0);
    tell(&rt, &mut bay, 0, Some((1, 5, Outcome::Holds, 1)));
    tell(&rt, &mut bay, 1, Some((2, 6, Outcome::Holds, 2)));
}
