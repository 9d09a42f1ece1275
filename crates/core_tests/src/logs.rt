//! Worked entries, refusals in their order, parts cut at each place, the dial's wrap, and refused memory.
use crate::heaps::heap_of;
use crate::rows::check;
use instrument_log::{Entry, InstrumentLog, LogRefusal, pack_entry, turned, unpack_entry};
use lab_plan::{JobNo, Verb};
use std::alloc::{Allocator, Global};
use std::process::Abort;

/// Of job 0, session 1: place 1 of 2, `set 5`.
const FIRST: [u8; 16] = [0, 1, 0, 1, 0, 0, 2, 0, 0, 0, 5, 0, 0, 5, 0, 0];

const FIRST_ENTRY: Entry = Entry {
    job: JobNo(0),
    session: 1,
    place: 1,
    length: 2,
    verb: Verb::Set(5),
    value: 5,
};

/// The last of all.
const LAST: [u8; 16] = [
    0x1f, 0xe8, 0x03, 0xa0, 0x86, 0x01, 0xa0, 0x86, 0x01, 0x01, 0x3f, 0x42, 0x0f, 0x3f, 0x42, 0x0f,
];

const LAST_ENTRY: Entry = Entry {
    job: JobNo(31),
    session: 1000,
    place: 100_000,
    length: 100_000,
    verb: Verb::Add(999_999),
    value: 999_999,
};

/// Offers the entry with the value that follows from the log's.
fn offer<A: Allocator>(
    rt: &impl Abort,
    log: &mut InstrumentLog<A>,
    session: u32,
    place: u32,
    length: u32,
    verb: Verb,
) -> Result<(), LogRefusal> {
    let entry = Entry {
        job: JobNo(3),
        session,
        place,
        length,
        verb,
        value: turned(verb, log.value()),
    };
    assert!(rt; entry.is_within_limits());
    log.append(entry)
}

/// The entry's bytes.
fn packed(rt: &impl Abort, entry: Entry) -> [u8; 16] {
    assert!(rt; entry.is_within_limits());
    pack_entry(entry)
}

fn check_packed(rt: &impl Abort, entry: &Entry, bytes: &[u8]) {
    let came = packed(rt, *entry);
    check(rt, entry, came.as_slice(), bytes);
    check(
        rt,
        entry,
        unpack_entry(packed(rt, *entry)).as_ref(),
        Some(entry),
    );
}

#[test]
fn packs_worked_entries(rt: HostRuntime) {
    check_packed(&rt, &FIRST_ENTRY, &FIRST);
    check_packed(&rt, &LAST_ENTRY, &LAST);
}

/// Bytes of `FIRST` that make it none. Those from 9 on are the verb (0 set, 1 add, 2 read), its number and the value.
const WRONG: [(usize, u8); 11] = [
    (0, 32),
    (1, 0),
    (2, 4),
    (3, 0),
    (3, 3),
    (5, 1),
    (8, 2),
    (9, 2),
    (9, 3),
    (12, 16),
    (15, 16),
];

/// The bytes of `FIRST` with another at this place.
fn first_with(rt: &impl Abort, place: usize, byte: u8) -> [u8; 16] {
    let mut bytes = FIRST;
    assert!(rt; place < 16);
    bytes[place] = byte;
    bytes
}

#[test]
fn unpacks_no_entry_past_the_limits(rt: HostRuntime) {
    for &(place, byte) in &WRONG {
        let bytes = first_with(&rt, place, byte);
        check(&rt, (place, byte), unpack_entry(bytes), None);
    }
}

/// An entry that is offered: its session, place, length and verb, and the answer.
type Offer = (u32, u32, u32, Verb, Result<(), LogRefusal>);

fn offer_all<A: Allocator>(rt: &impl Abort, log: &mut InstrumentLog<A>, offers: &[Offer]) {
    for &(session, place, length, verb, wanted) in offers {
        let answer = offer(rt, log, session, place, length, verb);
        check(rt, (session, place, length), answer.err(), wanted.err());
    }
}

/// The last entry, which is packed last.
pub(crate) fn last_of<A: Allocator>(rt: &impl Abort, log: &InstrumentLog<A>) -> Entry {
    assert!(rt; log.len() > 0 && log.packed().len() == log.len());
    let last = log.entry(log.len() - 1);
    check(rt, last, packed(rt, last), log.packed()[log.len() - 1]);
    last
}

/// What a log has: how many entries, how many of them are of whole parts and how many are not; then the place of the
/// last, its verb, and the dial.
type Cut = ((usize, usize, usize), (u32, Verb, u32));

fn check_cut<A: Allocator>(rt: &impl Abort, log: &InstrumentLog<A>, cut: Cut) {
    let last = last_of(rt, log);
    let parts = (log.len(), log.whole(), log.unfinished());
    check(rt, cut, (parts, (last.place, last.verb, log.value())), cut);
}

/// What is offered to a log, and what it has then.
type Stage<'a> = (&'a [Offer], Cut);

fn pass<A: Allocator>(rt: &impl Abort, log: &mut InstrumentLog<A>, stages: &[Stage]) {
    for (offers, cut) in stages {
        offer_all(rt, log, offers);
        check_cut(rt, log, *cut);
    }
}

/// A log with so much room goes through these stages.
fn check_log<A: Allocator>(rt: &impl Abort, alloc: A, room: usize, stages: &[Stage]) {
    let Ok(mut log) = InstrumentLog::with_room(alloc, room) else {
        panic!(rt; "no log");
    };
    check(rt, room, (log.room(), log.is_empty()), (room, true));
    pass(rt, &mut log, stages);
}

const IN_ORDER: [Offer; 6] = [
    (1, 2, 2, Verb::Read, Err(LogRefusal::NotFirstPlace)),
    (1, 1, 2, Verb::Set(8), Ok(())),
    (2, 1, 1, Verb::Read, Err(LogRefusal::NotNextPlace)),
    (1, 2, 2, Verb::Add(2), Ok(())),
    (2, 2, 2, Verb::Read, Err(LogRefusal::NotFirstPlace)),
    (2, 1, 2, Verb::Read, Err(LogRefusal::NoRoom)),
];

const AFTER_IN_ORDER: Cut = ((2, 2, 0), (2, Verb::Add(2), 10));

const FULL: [Offer; 3] = [
    (1, 1, 2, Verb::Read, Ok(())),
    (2, 2, 2, Verb::Read, Err(LogRefusal::NotNextPlace)),
    (1, 2, 2, Verb::Read, Err(LogRefusal::NoRoom)),
];

#[test]
fn refuses_in_order(rt: HostRuntime) {
    check_log(&rt, rt.alloc(), 2, &[(&IN_ORDER, AFTER_IN_ORDER)]);
}

#[test]
fn refuses_in_a_part_without_room(rt: HostRuntime) {
    check_log(
        &rt,
        rt.alloc(),
        1,
        &[(&FULL, ((1, 0, 1), (1, Verb::Read, 0)))],
    );
}

/// A part of a single command, and one of five. Each entry is followed by one that is refused: the next place but one,
/// or of another length.
const PARTS: [Stage<'static>; 6] = [
    (
        &[
            (1, 1, 1, Verb::Set(7), Ok(())),
            (2, 2, 6, Verb::Read, Err(LogRefusal::NotFirstPlace)),
        ],
        ((1, 1, 0), (1, Verb::Set(7), 7)),
    ),
    (
        &[
            (2, 1, 5, Verb::Add(1), Ok(())),
            (2, 3, 6, Verb::Read, Err(LogRefusal::NotNextPlace)),
        ],
        ((2, 1, 1), (1, Verb::Add(1), 8)),
    ),
    (
        &[
            (2, 2, 5, Verb::Add(1), Ok(())),
            (2, 4, 6, Verb::Read, Err(LogRefusal::NotNextPlace)),
        ],
        ((3, 1, 2), (2, Verb::Add(1), 9)),
    ),
    (
        &[
            (2, 3, 5, Verb::Add(1), Ok(())),
            (2, 5, 6, Verb::Read, Err(LogRefusal::NotNextPlace)),
        ],
        ((4, 1, 3), (3, Verb::Add(1), 10)),
    ),
    (
        &[
            (2, 4, 5, Verb::Add(1), Ok(())),
            (2, 6, 6, Verb::Read, Err(LogRefusal::NotNextPlace)),
        ],
        ((5, 1, 4), (4, Verb::Add(1), 11)),
    ),
    (
        &[
            (2, 5, 5, Verb::Add(1), Ok(())),
            (2, 2, 6, Verb::Read, Err(LogRefusal::NotFirstPlace)),
        ],
        ((6, 6, 0), (5, Verb::Add(1), 12)),
    ),
];

/// A part of five commands after one of a single command, cut at each of its places.
#[test]
fn keeps_a_part_cut_at_each_place(rt: HostRuntime) {
    check_log(&rt, rt.alloc(), 6, &PARTS);
}

const EIGHT: Entry = Entry {
    job: JobNo(3),
    session: 1,
    place: 1,
    length: 2,
    verb: Verb::Set(8),
    value: 8,
};

/// Adds an entry that is the first of a log, and so is known to follow.
#[tactic(auto, using(crate::proofs::FirstEntry::may_begin))]
fn begin<A: Allocator>(rt: &impl Abort, log: &mut InstrumentLog<A>, entry: Entry) {
    assert!(rt; log.is_empty() && log.room() > 0 && entry.place == 1);
    assert!(rt; entry.is_within_limits() && entry.value == turned(entry.verb, log.value()));
    log.add(entry);
}

fn go_on<A: Allocator>(rt: &impl Abort, log: &mut InstrumentLog<A>) {
    begin(rt, log, EIGHT);
    check_cut(rt, log, ((1, 0, 1), (1, Verb::Set(8), 8)));
    check(rt, EIGHT, last_of(rt, log), EIGHT);
    pass(rt, log, &[(&IN_ORDER[2..], AFTER_IN_ORDER)]);
}

fn begin_and_go_on<A: Allocator>(rt: &impl Abort, alloc: A) {
    match InstrumentLog::with_room(alloc, 2) {
        Ok(mut log) => go_on(rt, &mut log),
        Err(_) => panic!(rt; "no log"),
    }
}

/// After it the log goes on as after one that was appended: the rest of `IN_ORDER` is answered alike.
#[test]
fn adds_an_entry_that_follows(rt: HostRuntime) {
    begin_and_go_on(&rt, rt.alloc());
}

/// The dial turns past the last number, and is read then.
const PAST_THE_LAST: [Stage<'static>; 2] = [
    (
        &[
            (1, 1, 3, Verb::Set(999_999), Ok(())),
            (1, 2, 3, Verb::Add(1), Ok(())),
        ],
        ((2, 0, 2), (2, Verb::Add(1), 0)),
    ),
    (
        &[(1, 3, 3, Verb::Read, Ok(()))],
        ((3, 3, 0), (3, Verb::Read, 0)),
    ),
];

#[test]
fn turns_past_the_last_number(rt: HostRuntime) {
    check_log(&rt, rt.alloc(), 3, &PAST_THE_LAST);
}

/// Adds 20 entries; their sum is in the dial.
fn add_twenty<A: Allocator>(rt: &impl Abort, log: &mut InstrumentLog<A>) {
    for place in 1..=20u32 {
        offer_all(rt, log, &[(1, place, 20, Verb::Add(place), Ok(()))]);
    }
    check(rt, 20, log.value(), 210);
}

/// Whether there is room for 20 entries, which are then added.
fn has_room<A: Allocator>(rt: &impl Abort, alloc: A) -> bool {
    match InstrumentLog::with_room(alloc, 20) {
        Ok(mut log) => {
            add_twenty(rt, &mut log);
            true
        }
        Err(_) => false,
    }
}

/// The same of a heap of this size.
fn heap_has_room(rt: &impl Abort, alloc: Global, size: usize) -> bool {
    let heap = heap_of(rt, alloc, size);
    has_room(rt, &heap)
}

/// The one allocation is that of `with_room`: if it is refused, there is no log.
#[test]
fn refuses_room_where_memory_is_refused(rt: HostRuntime) {
    let mut made = 0u32;
    for budget in 1..20usize {
        let has_room = heap_has_room(&rt, rt.alloc(), 64 * budget);
        made = made.saturating_add(has_room as u32);
    }
    assert!(rt; made > 0 && made < 19);
}

fn make_room<A: Allocator>(rt: &impl Abort, log: &mut InstrumentLog<A>, more: usize) {
    check(rt, more, log.make_room(more).is_ok(), true);
}

/// A log without room gets some, gives one entry's back, and gets more.
fn gets_room<A: Allocator>(rt: &impl Abort, log: &mut InstrumentLog<A>) {
    offer_all(rt, log, &[(1, 1, 1, Verb::Read, Err(LogRefusal::NoRoom))]);
    make_room(rt, log, 3);
    offer_all(
        rt,
        log,
        &[
            (1, 1, 2, Verb::Set(5), Ok(())),
            (1, 2, 2, Verb::Read, Ok(())),
        ],
    );
    assert!(rt; log.len() < log.room());
    log.give_back_room(1);
    check(rt, "given back", (log.room(), log.value()), (2, 5));
    offer_all(rt, log, &[(2, 1, 1, Verb::Read, Err(LogRefusal::NoRoom))]);
    make_room(rt, log, 1);
    offer_all(rt, log, &[(2, 1, 1, Verb::Add(1), Ok(()))]);
    check(rt, "made", (log.room(), log.value()), (3, 6));
}

#[test]
fn room_is_made_and_given_back(rt: HostRuntime) {
    match InstrumentLog::with_room(rt.alloc(), 0) {
        Ok(mut log) => {
            gets_room(&rt, &mut log);
            check(&rt, "too much", log.make_room(usize::MAX).is_ok(), false);
            check(&rt, "unchanged", (log.room(), log.len()), (3, 3));
        }
        Err(_) => panic!(rt; "no log"),
    }
}
