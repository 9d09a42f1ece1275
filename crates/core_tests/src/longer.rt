//! A world whose plan gets longer while it goes on: what it says then, worked out by hand.
use crate::benches::{A, AB, B, Do, TWO, plan_of};
use crate::rows::check;
use crate::steps::open;
use crate::waits::go_on;
use interleaving::{AddRefusal, World};
use lab_plan::{InstrumentNo, JobNo, MoreRefusal, Plan, Verb};
use std::alloc::Allocator;
use std::process::Abort;

const SCALE: InstrumentNo = InstrumentNo(0);

/// A session that comes.
#[derive(Clone, Copy)]
enum Session {
    /// It reads the scale.
    OfScale,
    /// It reads an instrument that no job names.
    OfAnother,
    /// It has no command.
    Empty,
}

/// What is done to a world, or what it says then.
#[derive(Clone, Copy)]
enum Row {
    /// These steps, which are legal.
    Does(&'static [Do]),
    /// A session comes to the job, or why it doesn't.
    Comes(u8, Session, Option<AddRefusal>),
    /// How many sessions the job has, and how many entries the log of the scale has room for.
    Sizes(u8, u32, usize),
    /// How many entries the log of the scale has, and the number on its dial.
    Log(usize, u32),
}

/// Adds a session to the job.
fn adds<T: Allocator>(
    rt: &impl Abort,
    world: &mut World<T>,
    job: u8,
    commands: &[(InstrumentNo, Verb)],
) -> Option<AddRefusal> {
    assert!(rt; world.plan().jobs() > job as usize);
    world.add_session(JobNo(job), None, commands).err()
}

/// Why the session doesn't come to the job, if so.
fn comes<T: Allocator>(
    rt: &impl Abort,
    world: &mut World<T>,
    job: u8,
    session: Session,
) -> Option<AddRefusal> {
    match session {
        Session::OfScale => adds(rt, world, job, &[(SCALE, Verb::Read)]),
        Session::OfAnother => adds(rt, world, job, &[(InstrumentNo(1), Verb::Read)]),
        Session::Empty => adds(rt, world, job, &[]),
    }
}

fn sizes<T: Allocator>(rt: &impl Abort, world: &World<T>, job: u8) -> (u32, usize) {
    assert!(rt; world.plan().jobs() > job as usize && world.plan().instruments() == 1);
    (world.plan().sessions(JobNo(job)), world.log(SCALE).room())
}

fn log_of<T: Allocator>(rt: &impl Abort, world: &World<T>) -> (usize, u32) {
    assert!(rt; world.plan().instruments() == 1);
    (world.log(SCALE).len(), world.log(SCALE).value())
}

/// Whether the row is so.
fn is_so<T: Allocator>(rt: &impl Abort, world: &mut World<T>, row: Row) -> bool {
    match row {
        Row::Does(steps) => {
            go_on(rt, world, steps);
            true
        }
        Row::Comes(job, session, why) => comes(rt, world, job, session) == why,
        Row::Sizes(job, sessions, room) => sizes(rt, world, job) == (sessions, room),
        Row::Log(entries, value) => log_of(rt, world) == (entries, value),
    }
}

fn follow<T: Allocator>(rt: &impl Abort, world: &mut World<T>, rows: &[Row]) {
    for number in 0..rows.len() {
        check(rt, number, is_so(rt, world, rows[number]), true);
    }
}

/// The rows hold of a world that owns the plan of two.
fn follow_owner<T: Allocator + Copy>(rt: &impl Abort, alloc: T, rows: &[Row]) {
    match World::of_plan(alloc, plan_of(rt, alloc, TWO)) {
        Ok(mut world) => follow(rt, &mut world, rows),
        Err(_) => panic!(rt; "no memory"),
    }
}

/// The rows hold of a world that was lent it.
fn follow_borrower<T: Allocator + Copy>(rt: &impl Abort, alloc: T, plan: &Plan<T>, rows: &[Row]) {
    let mut world = open(rt, alloc, plan);
    follow(rt, &mut world, rows);
}

/// The bottle of the scale is at a, but it hasn't looked yet: so it looks first.
const HOLDS: [Do; 3] = [Do::Thirst(A), Do::Look(A, AB), Do::Drink(A)];

const ENDS: [Do; 3] = [Do::Reach(A), Do::Act(A), Do::Quit(A)];

const HOLDS_AGAIN: [Do; 2] = [Do::Thirst(A), Do::Drink(A)];

const RETIRES: [Do; 1] = [Do::Retire(A)];

/// A session comes to a while it drinks, and a does it after its first; the log has room for it, and b's session is as it was.
const ONE_COMES: [Row; 9] = [
    Row::Does(&HOLDS),
    Row::Comes(A, Session::OfScale, None),
    Row::Sizes(A, 2, 3),
    Row::Sizes(B, 1, 3),
    Row::Does(&ENDS),
    Row::Does(&HOLDS_AGAIN),
    Row::Does(&ENDS),
    Row::Log(2, 1),
    Row::Does(&RETIRES),
];

#[test]
fn a_session_comes(rt: HostRuntime) {
    follow_owner(&rt, rt.alloc(), &ONE_COMES);
}

/// A retired job takes no session, and nothing changes; the other does.
const BEHIND_A_RETIRE: [Row; 7] = [
    Row::Does(&HOLDS),
    Row::Does(&ENDS),
    Row::Does(&RETIRES),
    Row::Comes(A, Session::OfScale, Some(AddRefusal::HasRetired)),
    Row::Sizes(A, 1, 2),
    Row::Comes(B, Session::OfScale, None),
    Row::Sizes(B, 2, 3),
];

#[test]
fn none_comes_behind_a_retire(rt: HostRuntime) {
    follow_owner(&rt, rt.alloc(), &BEHIND_A_RETIRE);
}

/// A plan that is only lent stays as it is.
const LENT: [Row; 2] = [
    Row::Comes(A, Session::OfScale, Some(AddRefusal::IsLent)),
    Row::Sizes(A, 1, 2),
];

#[test]
fn a_lent_plan_stays(rt: HostRuntime) {
    let plan = plan_of(&rt, rt.alloc(), TWO);
    follow_borrower(&rt, rt.alloc(), &plan, &LENT);
}

const EMPTY: AddRefusal = AddRefusal::Refused(MoreRefusal::Empty);

const NOT_ITS_OWN: AddRefusal = AddRefusal::Refused(MoreRefusal::NotItsOwn);

/// What the plan refuses changes no room.
const REFUSED: [Row; 3] = [
    Row::Comes(A, Session::Empty, Some(EMPTY)),
    Row::Comes(A, Session::OfAnother, Some(NOT_ITS_OWN)),
    Row::Sizes(A, 1, 2),
];

#[test]
fn a_refused_session_takes_no_room(rt: HostRuntime) {
    follow_owner(&rt, rt.alloc(), &REFUSED);
}
