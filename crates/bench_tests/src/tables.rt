//! Tables of calls: who makes which, what it answers, and what its job then knows. They were worked out by hand.
use crate::labs::{opened, plan_of};
use crate::seats::{Answer, Call, Phase, Seat, seated};
use crate::words::edge;
use std::alloc::Allocator;
use std::process::Abort;

/// A job that makes a call, the answer, the words that the job saw last on its edges, and how far it is.
pub(crate) type Row = (usize, Call, Answer, &'static [u64], Phase);

/// Who makes which call, and what it answers; the words that its job then saw last on its edges, and how far it is: dining, drinking,
/// session, position.
macro_rules! rows {
    ($($who:ident: $call:expr => $answer:expr, [$($words:tt)*], $dining:ident $drinking:ident $session:literal $position:literal;)*) => {
        [$(($who, $call, $answer, &[$($words)*], ($dining, $drinking, $session, $position))),*]
    };
}

pub(crate) use rows;

pub(crate) const A: usize = 0;

pub(crate) const B: usize = 1;

pub(crate) const C: usize = 2;

/// The edge of two jobs.
pub(crate) const AB: u16 = 0;

/// The words that the job saw last on its edges; a failure tells both, as edges.
fn saw<T: Allocator>(rt: &impl Abort, seat: &Seat<T>, words: &[u64], number: usize) {
    assert!(rt; seat.edges() == words.len(), "row {number}");
    for (place, word) in words.iter().enumerate() {
        let seen = seat.seen(rt, place);
        let (wanted, came) = (edge(*word), edge(seen));
        assert!(rt;
            seen == *word,
            "row {number}, edge {place}: {wanted:?} was wanted, not {came:?}"
        );
    }
}

fn is_so_far(rt: &impl Abort, now: Phase, phase: Phase, number: usize) {
    assert!(rt;
        now == phase,
        "row {number}: {phase:?} was wanted, not {now:?}"
    );
}

fn holds<T: Allocator>(rt: &impl Abort, seats: &mut [Seat<T>], row: &Row, number: usize) {
    let (who, call, answer, words, phase) = *row;
    assert!(rt; who < seats.len());
    let seat = &mut seats[who];
    let made = seat.make(rt, call);
    assert!(rt;
        made == answer,
        "row {number}: {answer:?} was wanted, not {made:?}"
    );
    saw(rt, seat, words, number);
    is_so_far(rt, seat.phase(), phase, number);
}

/// Makes the calls of the rows, from the opening on.
pub(crate) fn follow<T: Allocator>(rt: &impl Abort, seats: &mut [Seat<T>], rows: &[Row]) {
    for (number, row) in rows.iter().enumerate() {
        holds(rt, seats, row, number);
    }
}

/// The rows hold from the opening of the script on, and after them each job's session has waited this many turns.
pub(crate) fn check<T: Allocator + Copy>(
    rt: &impl Abort,
    alloc: T,
    script: &str,
    rows: &[Row],
    waited: &[u32],
) {
    let plan = plan_of(rt, alloc, script);
    let (bench, desks) = opened(rt, alloc, &plan);
    let mut seats = seated(rt, alloc, &bench, desks);
    follow(rt, seats.as_mut_slice(), rows);
    have_waited(rt, seats.as_slice(), waited);
}

fn have_waited<T: Allocator>(rt: &impl Abort, seats: &[Seat<T>], waited: &[u32]) {
    assert!(rt; seats.len() == waited.len());
    for (seat, turns) in seats.iter().zip(waited) {
        assert!(rt; seat.waited() == *turns);
    }
}
