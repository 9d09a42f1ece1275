//! That each law can be called, and the answers of the functions that have one.
use crate::plans::{Line, plan_of};
use crate::rows::check;
use lab_plan::{EdgeNo, InstrumentNo, JobNo, Plan, PlanBuilder, Verb, has_instrument};
use legal_steps::{Dining, Drinking, EdgeState, End, JobState, laws, log_laws, neighbour};
use std::alloc::Allocator;
use std::process::Abort;

#[test]
fn other_end(rt: HostRuntime) {
    check(&rt, End::Lower, End::Lower.other(), End::Higher);
    check(&rt, End::Higher, End::Higher.other(), End::Lower);
}

/// The fork's end, whether it is dirty, and the token's end; then whether a look from the lower end sets a mark,
/// of a job that waits for a meal or wants none, and of one that eats.
const FORK_MARKS: [(End, bool, End, bool, bool); 8] = [
    (End::Lower, false, End::Lower, true, false),
    (End::Lower, false, End::Higher, true, false),
    // here and dirty, and the neighbour asked for it
    (End::Lower, true, End::Lower, false, true),
    (End::Lower, true, End::Higher, true, true),
    (End::Higher, false, End::Lower, false, false),
    (End::Higher, false, End::Higher, false, false),
    (End::Higher, true, End::Lower, false, false),
    (End::Higher, true, End::Higher, false, false),
];

fn edge(fork: End, dirty: bool, token: End, bottles: u32) -> EdgeState {
    EdgeState {
        fork,
        dirty,
        token,
        bottles,
        bottle_tokens: 0,
    }
}

/// Whether a look from this end sets a mark, of a job that waits for a meal or wants none, and of one that eats.
fn check_marks(rt: &impl Abort, state: EdgeState, here: End, waiting: bool, eating: bool) {
    for (dining, mark) in [
        (Dining::Thinking, waiting),
        (Dining::Hungry, waiting),
        (Dining::Eating, eating),
    ] {
        check(rt, (state, dining), state.fork_mark(here, dining), mark);
    }
}

#[test]
fn fork_marks_of_looks(rt: HostRuntime) {
    for &(fork, dirty, token, waiting, eating) in &FORK_MARKS {
        let lower = edge(fork, dirty, token, 0);
        let higher = edge(fork.other(), dirty, token.other(), 0);
        check_marks(&rt, lower, End::Lower, waiting, eating);
        check_marks(&rt, higher, End::Higher, waiting, eating);
    }
}

#[test]
fn who_wants_a_fork(rt: HostRuntime) {
    let there = edge(End::Higher, false, End::Lower, 0);
    for (here, dining, wants) in [
        (End::Lower, Dining::Hungry, true),
        (End::Lower, Dining::Thinking, false),
        (End::Higher, Dining::Hungry, false),
    ] {
        check(&rt, (here, dining), there.wants_fork(here, dining), wants);
    }
}

/// Whether a fork that the neighbour asked for is dirty, and who sits where; then whether that job gives it.
const GIVES: [(bool, End, Dining, bool); 5] = [
    (true, End::Lower, Dining::Thinking, true),
    (true, End::Lower, Dining::Hungry, true),
    (true, End::Lower, Dining::Eating, false),
    (true, End::Higher, Dining::Thinking, false),
    (false, End::Lower, Dining::Thinking, false),
];

#[test]
fn who_gives_a_fork(rt: HostRuntime) {
    for &(dirty, here, dining, gives) in &GIVES {
        let asked = edge(End::Lower, dirty, End::Lower, 0);
        check(
            &rt,
            (dirty, here, dining),
            asked.gives_fork(here, dining),
            gives,
        );
    }
}

#[test]
fn who_soils_a_fork(rt: HostRuntime) {
    for (dirty, dining, soils) in [
        (false, Dining::Eating, true),
        (false, Dining::Hungry, false),
        (true, Dining::Eating, false),
    ] {
        let state = edge(End::Lower, dirty, End::Lower, 0);
        check(&rt, (dirty, dining), state.soils(End::Lower, dining), soils);
    }
}

const HELD: EdgeState = EdgeState {
    fork: End::Lower,
    dirty: true,
    token: End::Lower,
    bottles: 0b011,
    bottle_tokens: 0,
};

#[test]
fn edges_after_a_fork_moves(rt: HostRuntime) {
    let (asked, given) = (HELD.fork_asked(), HELD.fork_given());
    let soiled = given.fork_soiled();
    check(&rt, 1, asked, edge(End::Lower, true, End::Higher, 0b011));
    check(&rt, 2, given, edge(End::Higher, false, End::Lower, 0b011));
    check(&rt, 3, soiled, edge(End::Higher, true, End::Lower, 0b011));
}

const ASKED: EdgeState = EdgeState {
    bottle_tokens: 0b110,
    ..HELD
};

#[test]
fn edges_after_bottles_move(rt: HostRuntime) {
    let given = edge(End::Lower, true, End::Lower, 0b101);
    check(&rt, 1, HELD.bottles_given(0b110), given);
    check(&rt, 2, HELD.bottles_asked(0b110), ASKED);
    check(&rt, 3, ASKED.bottles_asked(0b110), HELD);
}

const IDLE: JobState = JobState {
    dining: Dining::Thinking,
    drinking: Drinking::Tranquil,
    session: 4,
    position: 0,
};

const THIRSTY: JobState = JobState {
    drinking: Drinking::Thirsty,
    session: 5,
    ..IDLE
};

const DONE: JobState = JobState {
    drinking: Drinking::Drinking,
    position: 3,
    ..THIRSTY
};

#[test]
fn phases_after_events(rt: HostRuntime) {
    let out = JobState { session: 5, ..IDLE };
    let begins = IDLE.with_drinking(Drinking::Thirsty);
    let hungry = THIRSTY.with_dining(Dining::Hungry);
    let drinks = THIRSTY.with_drinking(Drinking::Drinking);
    check(&rt, IDLE, IDLE.in_next_session(), THIRSTY);
    check(&rt, IDLE, begins.session, 4);
    check(&rt, THIRSTY, hungry.dining, Dining::Hungry);
    check(
        &rt,
        THIRSTY,
        drinks,
        JobState {
            position: 0,
            ..DONE
        },
    );
    check(&rt, DONE, DONE.out_of_session(), out);
}

/// Whether a job is in a session, and whether it drinks.
#[test]
fn phases_are_told(rt: HostRuntime) {
    for (phase, is_in_session, is_drinking) in [
        (IDLE, false, false),
        (THIRSTY, true, false),
        (DONE, true, true),
    ] {
        let told = (phase.is_in_session(), phase.is_drinking());
        check(&rt, phase, told, (is_in_session, is_drinking));
    }
}

/// Two jobs with three bottles on their edge.
const TWO_READERS: [Line<'static>; 10] = [
    Line::Job(b"a"),
    Line::Session,
    Line::Command(b"lamp", Verb::Read),
    Line::Command(b"pump", Verb::Read),
    Line::Command(b"scale", Verb::Read),
    Line::Job(b"b"),
    Line::Session,
    Line::Command(b"lamp", Verb::Read),
    Line::Command(b"pump", Verb::Read),
    Line::Command(b"scale", Verb::Read),
];

const AB: EdgeNo = EdgeNo(0);

/// The end of the edge at which one of its jobs sits.
fn end_of<T: Allocator>(rt: &impl Abort, plan: &Plan<T>, job: JobNo) -> End {
    assert!(rt; plan.edges() == 1);
    let (lower, higher) = plan.ends(AB);
    assert!(rt; lower == job || higher == job);
    End::of(plan, job, AB)
}

/// The job at the other end of the edge.
fn beside<T: Allocator>(rt: &impl Abort, plan: &Plan<T>, job: JobNo) -> JobNo {
    assert!(rt; plan.edges() == 1);
    neighbour(plan, job, AB)
}

/// The bottles of the edge that are at each of its ends, if those of this set are at the higher one.
fn bottles_there<T: Allocator>(rt: &impl Abort, plan: &Plan<T>, set: u32) -> (u32, u32) {
    assert!(rt; plan.edges() == 1);
    let state = edge(End::Lower, true, End::Higher, set);
    (
        state.bottles_at(plan, AB, End::Higher),
        state.bottles_at(plan, AB, End::Lower),
    )
}

/// The own end of each job of the edge, and the bottles there.
fn check_ends<T: Allocator>(rt: &impl Abort, plan: &Plan<T>) {
    check(rt, 0, end_of(rt, plan, JobNo(0)), End::Lower);
    check(rt, 1, end_of(rt, plan, JobNo(1)), End::Higher);
    check(rt, 0, beside(rt, plan, JobNo(0)), JobNo(1));
    check(rt, 1, beside(rt, plan, JobNo(1)), JobNo(0));
    for (set, lower) in [
        (0b000, 0b111),
        (0b101, 0b010),
        (0b110, 0b001),
        (0b111, 0b000),
    ] {
        check(rt, set, bottles_there(rt, plan, set), (set, lower));
    }
}

fn each_end<T: Allocator + Copy>(rt: &impl Abort, alloc: T) {
    check_ends(rt, &plan_of(rt, PlanBuilder::new(alloc), &TWO_READERS));
}

#[test]
fn instruments_of_a_set(rt: HostRuntime) {
    // a set of the instruments 0, 2 and 55
    let set = 1u64 << 55 | 0b101;
    for (instrument, is_in) in [(0, true), (1, false), (2, true), (54, false), (55, true)] {
        check(
            &rt,
            instrument,
            has_instrument(set, InstrumentNo(instrument)),
            is_in,
        );
    }
}

#[test]
fn ends_of_an_edge(rt: HostRuntime) {
    each_end(&rt, rt.alloc());
}

#[test]
fn laws_of_states() {
    laws::within_plan();
    laws::truthful_marks();
    laws::one_holder();
    laws::one_place();
    laws::no_cycle();
    laws::the_opening_is_acyclic();
    laws::openings_are_chosen();
}

#[test]
fn laws_of_logs() {
    log_laws::whole_logs();
    log_laws::dial_values();
    log_laws::ends_in_order();
    log_laws::ended_sessions_there();
    log_laws::nothing_else_at_rest();
    log_laws::room_enough();
    log_laws::act_finds_room();
    log_laws::few_sessions();
    log_laws::few_meals();
    log_laws::sessions_counted();
}
