//! The bay.
use crate::logs::{BAY, FILE, OWNER};
use crate::rows::check;
use bay::{Bay, Class, NotAsked, NotHeld, NotNoted, Request, Terms, Urgency};
use bay_book::{End, Outcome, Stage};
use std::alloc::Global;
use std::process::Abort;
use std::rt::HostRuntime;

/// It keeps a journal; a hold is kept for 10 once its client is gone.
const TERMS: Terms = Terms {
    grace: Some(10),
    disk: None,
    keeps: true,
};

/// Somebody who wants a place of the only class.
fn request(number: u64, owner: u128, deadline: Option<u64>) -> Request {
    Request {
        number,
        class: 0,
        owner,
        deadline,
        limit: None,
        urgency: Urgency::Usual,
    }
}

/// The only class: two places, for the instruments 0 to 2.
fn classes(rt: &impl Abort, alloc: Global) -> Vec<Class, Global> {
    match vec![in alloc; Class { uses: 7, places: 2 }] {
        Ok(classes) => classes,
        Err(_) => panic!(rt; "no memory"),
    }
}

/// 5 holds 0 and 1; 6 waits for 1, until 20.
fn ask(rt: &impl Abort, bay: &mut Bay) {
    check(rt, "no number was given", bay.next_number(), 0);
    check(rt, "nothing is due", bay.next_moment(), None);
    check(rt, "first", bay.ask(&[3], request(5, 9, None), 4), Ok(()));
    check(
        rt,
        "its number",
        bay.ask(&[4], request(5, 0, None), 4),
        Err(NotAsked::Number),
    );
    check(
        rt,
        "second",
        bay.ask(&[2], request(6, 0, Some(20)), 5),
        Ok(()),
    );
    check(rt, "next", bay.next_number(), 7);
    check(rt, "lapses", bay.next_moment(), Some(20));
    check(rt, "nothing is durable", bay.tell(0).is_none(), true);
}

/// 6 waits for 5.
fn look(rt: &impl Abort, bay: &Bay) {
    bay.look();
    check(rt, "both", bay.len(), 2);
    assert!(rt; 1 < bay.len());
    check(rt, "waits", bay.ask_at(1).stage, Stage::Waits);
    check(
        rt,
        "who has 1",
        bay.keeper(6, 1).map(|ask| ask.number),
        Some(5),
    );
    check(rt, "who has 2", bay.keeper(6, 2).is_none(), true);
    check(
        rt,
        "its set",
        bay.wish_for(6, 0).map(|wish| (wish.needs, wish.passed)),
        Some((2, 0)),
    );
    check(rt, "no more", bay.wish_for(6, 1).is_none(), true);
}

/// What is told, once the last is done.
fn tell(rt: &impl Abort, bay: &mut Bay, done: u64, wanted: Option<(u64, u64, Outcome, u64, u64)>) {
    let came = bay.tell(done).map(|told| (
        told.serial,
        told.number,
        told.outcome,
        told.needs,
        told.token,
    ));
    check(rt, done, came, wanted);
}

/// The head has 137 bytes, and the hold of 5 has 166.
fn write(rt: &impl Abort, bay: &mut Bay) {
    check(rt, "written", bay.journal().is_ok(), true);
    check(rt, "position", bay.position(), 303);
    bay.sent();
    check(rt, "all was handed out", bay.unsent().len(), 0);
    bay.failed();
    check(rt, "again", bay.unsent().len(), 303);
    bay.sent();
    bay.durable(303);
    tell(rt, bay, 0, Some((1, 5, Outcome::Holds, 3, 1)));
    tell(rt, bay, 1, None);
}

/// A note of seven bytes is a line of 47.
fn note(rt: &impl Abort, alloc: Global, bay: &mut Bay) {
    check(
        rt,
        "it waits",
        bay.note(alloc, 6, b"volts 3"),
        Err(NotNoted::NotHeld),
    );
    check(
        rt,
        "two lines",
        bay.note(alloc, 5, b"a\nb"),
        Err(NotNoted::NoText),
    );
    check(rt, "noted", bay.note(alloc, 5, b"volts 3"), Ok(350));
}

/// The client of 5 is gone since 6, so its grace is over at 16, until its owner is there again.
fn go(rt: &impl Abort, bay: &mut Bay) {
    bay.gone(5, 6);
    check(rt, "grace", bay.next_moment(), Some(16));
    check(rt, "another", bay.back(5, 8, 7), None);
    check(rt, "back", bay.back(5, 9, 7), Some(3));
    check(rt, "no grace", bay.next_moment(), Some(20));
}

/// 5 lets go, so 6 holds, with the next token; that is taken away, and told at once.
fn end(rt: &impl Abort, bay: &mut Bay) {
    check(rt, "it waits", bay.let_go(6, 8), Err(NotHeld::Waits));
    check(rt, "lets go", bay.let_go(5, 8), Ok(()));
    check(rt, "it is over", bay.let_go(5, 8), Err(NotHeld::Over));
    check(rt, "taken away", bay.take_away(6, 9), Ok(()));
    tell(
        rt,
        bay,
        1,
        Some((2, 6, Outcome::Over(End::TakenAway), 0, 2)),
    );
    bay.time(30);
    check(rt, "asks", bay.ask(&[1], request(7, 0, None), 30), Ok(()));
    bay.leave(7, 30);
    check(rt, "nobody has it", bay.keeper(8, 0).is_none(), true);
    bay.stop(31);
    check(
        rt,
        "it stopped",
        bay.ask(&[1], request(8, 0, None), 31),
        Err(NotAsked::Stopped),
    );
}

/// 8 tokens were given, and so 8 numbers at least; 9 is let in with token 9.
fn rise(rt: &impl Abort, bay: &mut Bay) {
    check(rt, "next", bay.next_number(), 8);
    check(rt, "asks", bay.ask(&[4], request(9, 0, None), 52), Ok(()));
    check(rt, "both", bay.len(), 2);
    assert!(rt; 1 < bay.len());
    check(rt, "its own", bay.ask_at(0).token, 8);
    check(rt, "larger", bay.ask_at(1).token, 9);
}

#[test]
fn bays(rt: HostRuntime) {
    match Bay::open(rt.alloc(), classes(&rt, rt.alloc()), TERMS, 4, 1, BAY) {
        Ok(mut bay) => {
            ask(&rt, &mut bay);
            look(&rt, &bay);
            write(&rt, &mut bay);
            note(&rt, rt.alloc(), &mut bay);
            go(&rt, &mut bay);
            end(&rt, &mut bay);
        }
        Err(_) => panic!(rt; "no bay"),
    }
}

/// 5 holds 1; 6 waits for 0 and 1; and 7, which is urgent, for 0 behind 6, though it is free.
fn hurry(rt: &impl Abort, bay: &mut Bay) {
    let urgent = Request {
        number: 7,
        class: 0,
        owner: 0,
        deadline: None,
        limit: None,
        urgency: Urgency::Urgent,
    };
    check(rt, "holds", bay.ask(&[2], request(5, 0, None), 0), Ok(()));
    check(rt, "waits", bay.ask(&[3], request(6, 0, None), 0), Ok(()));
    check(rt, "is urgent", bay.ask(&[1], urgent, 0), Ok(()));
    check(
        rt,
        "first",
        bay.wish_for(6, 0).map(|wish| (wish.needs, wish.passed)),
        Some((3, 1)),
    );
    check(
        rt,
        "itself",
        bay.wish_for(7, 0).map(|wish| (wish.needs, wish.passed)),
        Some((1, 1)),
    );
    check(
        rt,
        "for whom",
        bay.keeper(7, 0).map(|ask| ask.number),
        Some(6),
    );
}

#[test]
fn urgent(rt: HostRuntime) {
    match Bay::open(rt.alloc(), classes(&rt, rt.alloc()), TERMS, 4, 1, BAY) {
        Ok(mut bay) => hurry(&rt, &mut bay),
        Err(_) => panic!(rt; "no bay"),
    }
}

/// It comes back from the two whole lines of its file, and 5 holds. Whoever is let in next has a larger token than 5 has, which is 8.
#[test]
fn come_back(rt: HostRuntime) {
    match Bay::resume(
        rt.alloc(),
        classes(&rt, rt.alloc()),
        TERMS,
        4,
        1,
        BAY,
        FILE,
        50,
    ) {
        Ok((mut bay, used)) => {
            check(&rt, "used", used, 303);
            check(&rt, "grace", bay.next_moment(), Some(60));
            check(&rt, "back", bay.back(5, OWNER, 51), Some(3));
            rise(&rt, &mut bay);
        }
        Err(_) => panic!(rt; "no bay"),
    }
}
