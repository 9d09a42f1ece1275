//! Calls on desks, and what they answer.
ghost use Rattle.legal_steps.specs.State.{IsOwn};
ghost use Rattle.turns.specs.Lists.{Each};
ghost use Rattle.edge_rule.specs.DeskView.{Owns};

use crate::desks::{commanded, glanced, store};
use crate::labs::{opened, plan_of};
use crate::words::{edge, phase};
use dining_layer::{fork_moves, may_ask, may_give, may_soil};
use drinking_layer::{is_own_edge, may_ask_bottles, may_exchange, may_give_bottles, with_bottles};
use edge_rule::{
    Bench, Counts, Desk, PhaseEvent, Stepped, ask_bottles, ask_fork, exchange, give_bottles,
    give_fork, look, soil,
};
use edge_word::{EdgeMoves, PhaseWord};
use instrument_log::Entry;
use lab_plan::{EdgeNo, JobNo, Verb};
use legal_steps::{EdgeState, JobState};
use std::alloc::Allocator;
use std::process::Abort;

/// A move on an edge, or all that are due there, or a group of moves.
#[derive(Clone, Copy)]
pub(crate) enum Move {
    GiveFork,
    GiveBottles(u32),
    AskFork,
    AskBottles(u32),
    Soil,
    AllDue,
    These(EdgeMoves),
}

/// A call on a desk, with the number of an edge or of another job.
#[derive(Clone, Copy)]
pub(crate) enum Call {
    Look(u16),
    Try(Move, u16),
    May(EdgeMoves, u16),
    Store(PhaseEvent),
    Command,
    Glance(u8),
    NoteTurn(bool),
    Seen(u16),
    Marks(u16),
    Phase,
    Retired,
    Counts,
}

/// What is answered; words as they are packed.
#[derive(Clone, Copy, PartialEq, Eq, Debug)]
pub(crate) enum Answer {
    /// an edge as it was seen, or as a move left it
    Word(u64),
    /// how far a job is
    Far(u64),
    /// the other word that an exchange found
    Found(u64),
    Is(bool),
    /// the job and the value of an entry
    Added(u8, u32),
    /// whether there is a mark for the fork, and which bottles there are marks for
    Marks(bool, u32),
    /// the turns, and in how many of them the session waited
    Turns(u64, u32),
    Counted(Counts),
}

fn looked<T: Allocator>(
    rt: &impl Abort,
    bench: &Bench<T>,
    desk: &mut Desk<T>,
    edge: EdgeNo,
) -> Answer
    requires own { Owns bench.now desk.old }
    ensures { Owns bench.now desk.new }
{
    assert!(rt; is_own_edge(bench, desk, edge));
    Answer::Word(look(bench, desk, edge).pack())
}

/// Moves that are seen to be legal.
fn moved<T: Allocator>(
    rt: &impl Abort,
    bench: &Bench<T>,
    desk: &mut Desk<T>,
    what: Move,
    edge: EdgeNo,
) -> Stepped
    requires own { Owns bench.now desk.old }
    requires edge { IsOwn desk.old.plan desk.old.job edge }
    ensures { Owns bench.now desk.new }
{
    match what {
        Move::GiveFork => {
            assert!(rt; may_give(bench, desk, edge));
            give_fork(bench, desk, edge)
        }
        Move::GiveBottles(set) => {
            assert!(rt; may_give_bottles(bench, desk, edge, set));
            give_bottles(bench, desk, edge, set)
        }
        Move::AskFork => {
            assert!(rt; may_ask(bench, desk, edge));
            ask_fork(bench, desk, edge)
        }
        Move::AskBottles(set) => {
            assert!(rt; may_ask_bottles(bench, desk, edge, set));
            ask_bottles(bench, desk, edge, set)
        }
        Move::Soil => {
            assert!(rt; may_soil(bench, desk, edge));
            soil(bench, desk, edge)
        }
        Move::AllDue => {
            let forks = fork_moves(bench, desk, edge);
            let moves = with_bottles(bench, desk, edge, forks);
            assert!(rt; may_exchange(bench, desk, edge, moves));
            exchange(bench, desk, edge, moves)
        }
        Move::These(moves) => {
            assert!(rt; may_exchange(bench, desk, edge, moves));
            exchange(bench, desk, edge, moves)
        }
    }
}

fn seen<T: Allocator>(rt: &impl Abort, bench: &Bench<T>, desk: &Desk<T>, edge: EdgeNo) -> u64
    requires own { Owns bench.now desk.now }
{
    assert!(rt; is_own_edge(bench, desk, edge));
    desk.seen(edge).pack()
}

fn tried<T: Allocator>(
    rt: &impl Abort,
    bench: &Bench<T>,
    desk: &mut Desk<T>,
    what: Move,
    edge: EdgeNo,
) -> Answer
    requires own { Owns bench.now desk.old }
    ensures { Owns bench.now desk.new }
{
    assert!(rt; is_own_edge(bench, desk, edge));
    match moved(rt, bench, desk, what, edge) {
        Stepped::Done => Answer::Word(seen(rt, bench, desk, edge)),
        Stepped::Moved(found) => Answer::Found(found.pack()),
    }
}

fn phase_of<T: Allocator>(rt: &impl Abort, desk: &Desk<T>) -> u64 {
    let phase = desk.phase();
    assert!(rt; phase.session < 16_777_216);
    PhaseWord::new(phase).pack()
}

/// The entry of the one command of a job's first session on an instrument, which adds 1.
pub(crate) fn entry_of(job: JobNo, value: u32) -> Entry {
    Entry {
        job,
        session: 1,
        place: 1,
        length: 1,
        verb: Verb::Add(1),
        value,
    }
}

fn added<T: Allocator>(rt: &impl Abort, bench: &Bench<T>, desk: &mut Desk<T>) -> Answer
    requires own { Owns bench.now desk.old }
    ensures { Owns bench.now desk.new }
{
    let entry = commanded(rt, bench, desk);
    let (job, value) = (entry.job.0, entry.value);
    let wanted = entry_of(JobNo(job), value);
    assert!(rt; entry == wanted, "{wanted:?} was wanted, not {entry:?}");
    Answer::Added(job, value)
}

fn noted<T: Allocator>(bench: &Bench<T>, desk: &mut Desk<T>, thirsty_at_start: bool) -> Answer
    requires own { Owns bench.now desk.old }
    ensures { Owns bench.now desk.new }
{
    desk.note_turn(thirsty_at_start);
    Answer::Turns(desk.turns(), desk.waited())
}

fn marks<T: Allocator>(rt: &impl Abort, bench: &Bench<T>, desk: &Desk<T>, edge: EdgeNo) -> Answer
    requires own { Owns bench.now desk.now }
{
    assert!(rt; is_own_edge(bench, desk, edge));
    Answer::Marks(desk.fork_mark(edge), desk.bottle_marks(edge))
}

fn counted<T: Allocator>(rt: &impl Abort, desk: &Desk<T>) -> Answer {
    let counts = desk.counts();
    assert!(rt; counts.meals == desk.meals());
    assert!(rt; counts.sessions_done == desk.sessions_done());
    assert!(rt; counts.withdrawn == desk.withdrawn());
    Answer::Counted(counts)
}

pub(crate) fn called<T: Allocator>(
    rt: &impl Abort,
    bench: &Bench<T>,
    desk: &mut Desk<T>,
    call: Call,
) -> Answer
    requires own { Owns bench.now desk.old }
    ensures { Owns bench.now desk.new }
{
    match call {
        Call::Look(edge) => looked(rt, bench, desk, EdgeNo(edge)),
        Call::Try(what, edge) => tried(rt, bench, desk, what, EdgeNo(edge)),
        Call::May(moves, edge) => Answer::Is(may_exchange(bench, desk, EdgeNo(edge), moves)),
        Call::Store(what) => {
            store(rt, bench, desk, what);
            Answer::Far(phase_of(rt, desk))
        }
        Call::Command => added(rt, bench, desk),
        Call::Glance(other) => Answer::Far(glanced(rt, bench, desk, JobNo(other)).pack()),
        Call::NoteTurn(thirsty_at_start) => noted(bench, desk, thirsty_at_start),
        Call::Seen(edge) => Answer::Word(seen(rt, bench, desk, EdgeNo(edge))),
        Call::Marks(edge) => marks(rt, bench, desk, EdgeNo(edge)),
        Call::Phase => Answer::Far(phase_of(rt, desk)),
        Call::Retired => Answer::Is(desk.retired()),
        Call::Counts => counted(rt, desk),
    }
}

/// The desks stand in ascending order of their jobs.
fn answer_of<T: Allocator>(
    rt: &impl Abort,
    bench: &Bench<T>,
    desks: &mut [Desk<T>],
    job: u8,
    call: Call,
) -> Answer
    requires own { Each (Owns bench.now) desks.old }
    ensures { Each (Owns bench.now) desks.new }
{
    let place = usize::from(job);
    assert!(rt; place < desks.len());
    assert!(rt; desks[place].job().0 == job);
    called(rt, bench, &mut desks[place], call)
}

/// A job, a call on its desk, and what has to be answered.
pub(crate) type Line = (u8, Call, Answer);

/// An answer as a failure tells it, with what its word says of an edge, or of how far a job is.
fn said(answer: Answer) -> (Answer, Option<EdgeState>, Option<JobState>) {
    match answer {
        Answer::Word(word) | Answer::Found(word) => (answer, edge(word), None),
        Answer::Far(word) => (answer, None, phase(word)),
        _ => (answer, None, None),
    }
}

/// Does all the calls, and compares each answer.
pub(crate) fn do_all<T: Allocator>(
    rt: &impl Abort,
    bench: &Bench<T>,
    desks: &mut [Desk<T>],
    lines: &[Line],
)
    requires own { Each (Owns bench.now) desks.old }
    ensures { Each (Owns bench.now) desks.new }
{
    for number in 0..lines.len() {
        let (job, call, wanted) = lines[number];
        let told = answer_of(rt, bench, desks, job, call);
        let (want, came) = (said(wanted), said(told));
        assert!(rt;
            told == wanted,
            "call {number}: {want:?} was wanted, not {came:?}"
        );
    }
}

/// The calls on a bench that is opened for them.
pub(crate) fn check<T: Allocator + Copy>(rt: &impl Abort, alloc: T, script: &str, lines: &[Line]) {
    let plan = plan_of(rt, alloc, script);
    let (bench, mut desks) = opened(rt, alloc, &plan);
    do_all(rt, &bench, desks.as_mut_slice(), lines);
}
