//! The book.
use crate::rows::check;
use bay_book::{Book, End, NotRestored, Outcome, Stage};
use std::alloc::Global;
use std::process::Abort;
use std::rt::HostRuntime;

/// 3 asks at 2, until 9, and may hold for 4; 5 asks for as long as it takes.
fn ask(rt: &impl Abort, book: &mut Book) {
    check(rt, "no number was given", book.next(), 0);
    assert!(rt; book.next() <= 3);
    check(rt, "first", book.add(3, 1, 7, Some(9), Some(4), 2), Ok(()));
    check(rt, "next", book.next(), 4);
    assert!(rt; book.next() <= 5);
    check(rt, "second", book.add(5, 0, 8, None, None, 2), Ok(()));
    check(rt, "both", book.len(), 2);
    check(rt, "its place", book.place_of(5), Some(1));
    check(rt, "not there", book.place_of(4), None);
}

/// Nobody holds yet; 3 lapses at 9.
fn wait(rt: &impl Abort, book: &Book) {
    check(rt, "due", book.due(None, None), Some(9));
    check(rt, "in time", book.first_late(8, None), None);
    check(rt, "late", book.first_late(9, None), Some((0, End::Lapsed)));
    check(rt, "in use", book.in_use(), 0);
    check(rt, "taken", book.taken(1), 0);
    check(rt, "of each", *book.taken_of_each(), [0; 32]);
}

/// The ask at this place holds these instruments.
fn hold(rt: &impl Abort, book: &mut Book, place: usize, needs: u64, now: u64) {
    assert!(rt; place < book.len());
    match book.ask_at(place).stage {
        Stage::Waits => book.hold(place, needs, now, true),
        _ => panic!(rt; "it doesn't wait"),
    }
}

/// The token of the ask at this place.
fn token(rt: &impl Abort, book: &Book, place: usize, wanted: u64) {
    assert!(rt; place < book.len());
    check(rt, "token", book.ask_at(place).token, wanted);
}

/// 3 holds 1 and 2 from 3 on, so its limit is over at 7, if somebody wants 1.
fn use_up(rt: &impl Abort, book: &Book) {
    check(rt, "in use", book.in_use(), 6);
    check(rt, "taken", book.taken(1), 1);
    let mut one = [0; 32];
    one[1] = 1;
    check(rt, "of each", *book.taken_of_each(), one);
    check(rt, "limit", book.limit_due(2, 0), Some(7));
    check(rt, "nobody wants it", book.limit_due(1, 1), None);
    check(rt, "within", book.first_over_limit(6, 2, 0), None);
    check(rt, "over", book.first_over_limit(7, 2, 0), Some(0));
}

/// The next is told what it is to be told; that is this.
fn tell(rt: &impl Abort, book: &mut Book, wanted: Option<(usize, Outcome)>) {
    let came = book.next_to_tell();
    check(rt, "told", came, wanted);
    if let Some((place, what)) = came {
        book.heard(place, what);
    }
}

/// The line of its hold is given, up to 50, and then durable.
fn write(rt: &impl Abort, book: &mut Book) {
    tell(rt, book, None);
    assert!(rt; 0 < book.len());
    book.give_one(0, 50);
    tell(rt, book, None);
    book.reach(50);
    check(rt, "durable", book.durable(), 50);
    tell(rt, book, Some((0, Outcome::Holds)));
    tell(rt, book, None);
}

/// Its client is gone since 5, and its grace of 5 is over at 10; then it is back.
fn go(rt: &impl Abort, book: &mut Book) {
    assert!(rt; 0 < book.len());
    book.set_gone(0, 5);
    check(rt, "due", book.due(Some(5), None), Some(10));
    check(rt, "within", book.first_gone(9, Some(5)), None);
    check(rt, "over", book.first_gone(10, Some(5)), Some(0));
    assert!(rt; 0 < book.len());
    book.is_back(0);
    check(rt, "back", book.first_gone(10, Some(5)), None);
}

/// It lets go, and is told so once the line that says so is durable; then it isn't in the book any more.
fn let_go(rt: &impl Abort, book: &mut Book) {
    assert!(rt; 0 < book.len());
    match book.ask_at(0).stage {
        Stage::Holds => book.end(0, End::LetGo, 11),
        _ => panic!(rt; "it doesn't hold"),
    }
    book.give(80);
    tell(rt, book, None);
    book.reach(80);
    tell(rt, book, Some((0, Outcome::Over(End::LetGo))));
    book.purge();
    check(rt, "one is left", book.len(), 1);
    check(rt, "it is the other", book.place_of(5), Some(0));
}

/// This one doesn't hold again.
fn refuse(rt: &impl Abort, book: &mut Book, row: &str, number: u64, token: u64) {
    let many = book.len();
    let came = book.restore(number, 0, 3, None, 16, 1, 2, 4, token);
    check(rt, row, came, Err(NotRestored::MayNot));
    check(rt, row, book.len(), many);
}

/// One holds again, as a journal says, with token 18. Numbers below 12 were given, and 20 tokens, so as many numbers. Whoever is let in next has token 21.
/// While it waits nobody holds again.
fn restore(rt: &impl Abort, alloc: Global) {
    let mut book = Book::behind(alloc, 12, 20);
    refuse(rt, &mut book, "no token", 12, 0);
    refuse(rt, &mut book, "the last of all numbers", u64::MAX, 18);
    check(
        rt,
        "it is back",
        book.restore(12, 0, 3, None, 8, 1, 2, 4, 18),
        Ok(()),
    );
    check(rt, "it holds", book.in_use(), 8);
    check(rt, "next", book.next(), 20);
    check(rt, "tokens", book.granted(), 20);
    refuse(rt, &mut book, "its number", 12, 19);
    refuse(rt, &mut book, "its token", 13, 18);
    tell(rt, &mut book, None);
    assert!(rt; book.next() <= 20);
    check(rt, "asks", book.add(20, 0, 5, None, None, 6), Ok(()));
    refuse(rt, &mut book, "somebody waits", 21, 19);
    hold(rt, &mut book, 1, 1, 6);
    token(rt, &book, 0, 18);
    token(rt, &book, 1, 21);
}

#[test]
fn books(rt: HostRuntime) {
    let mut book = Book::nobody(rt.alloc());
    ask(&rt, &mut book);
    wait(&rt, &book);
    hold(&rt, &mut book, 0, 6, 3);
    token(&rt, &book, 0, 1);
    token(&rt, &book, 1, 0);
    use_up(&rt, &book);
    write(&rt, &mut book);
    go(&rt, &mut book);
    let_go(&rt, &mut book);
    restore(&rt, rt.alloc());
}
