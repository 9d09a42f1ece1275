//! A job at its bench: the calls of its desk by name, and what each answers.
ghost use Rattle.turns.specs.Lists.{Each};
ghost use Rattle.legal_steps.specs.State.{IsOwn};
ghost use Rattle.edge_rule.specs.DeskView.{Owns};

use crate::desks::{commanded, glanced, store};
use dining_layer::{Tried, ask, dine, fork_moves, give, soil, table};
use drinking_layer::{drink, due_moves, is_own_edge, serve_bottles, want_bottles};
use edge_rule::{Bench, Desk, PhaseEvent, look};
use edge_word::{EdgeMoves, PhaseWord};
use lab_plan::{EdgeNo, JobNo};
use legal_steps::{Dining, Drinking};
use session_layer::{Due, Turned, Visited, act, all_retired, phase_due, turn, visit};
use std::alloc::Allocator;
use std::process::Abort;

/// A call on one of the job's edges.
#[derive(Clone, Copy)]
pub(crate) enum Move {
    Look,
    /// one move of a layer, if it is legal by the word last seen
    Give,
    Ask,
    Soil,
    Dine,
    Serve,
    Want,
    /// a look, and one exchange of all that is due by it
    Visit,
    /// whether it is noted as calm, and which of its bottles are needed
    Noted,
    Needed,
    /// the moves that are due there, of which nothing is done
    Forks,
    Due,
}

/// A call of a job. Jobs and edges are plain numbers here: a table with an `EdgeNo` in it isn't a constant to the prover, and is costly.
#[derive(Clone, Copy)]
pub(crate) enum Call {
    On(u16, Move),
    /// the phase act of a turn whose session has waited so long, and what it would be
    Act(u32),
    ActDue(u32),
    /// whether it is noted that no act of the phase is legal
    Settled,
    Turn,
    AllRetired,
    Table,
    Drink,
    Store(PhaseEvent),
    Command,
    Glance(u8),
}

/// What a call answers.
#[derive(Clone, Copy, PartialEq, Eq, Debug)]
pub(crate) enum Answer {
    Done,
    Found(u64),
    NotLegal,
    Saw(u64),
    /// how far another job is
    Far(Phase),
    Moves(EdgeMoves),
    Calm,
    Lost,
    Does(Due),
    Acted(u32),
    Idle,
    Stored(PhaseEvent),
    Yes,
    No,
    Value(u32),
}

fn of_try(what: Tried) -> Answer {
    match what {
        Tried::Done => Answer::Done,
        Tried::Moved(word) => Answer::Found(word.pack()),
        Tried::NotLegal => Answer::NotLegal,
    }
}

fn of_turn(what: Turned) -> Answer {
    match what {
        Turned::Acted(count) => Answer::Acted(count),
        Turned::Moved => Answer::Lost,
        Turned::Idle => Answer::Idle,
    }
}

fn of_visit(what: Visited) -> Answer {
    match what {
        Visited::Done => Answer::Done,
        Visited::Lost => Answer::Lost,
        Visited::Calm => Answer::Calm,
    }
}

fn of_table(what: Option<PhaseEvent>) -> Answer {
    match what {
        Some(what) => Answer::Stored(what),
        None => Answer::NotLegal,
    }
}

fn of_glance(word: PhaseWord) -> Answer {
    Answer::Far((
        word.dining(),
        word.drinking(),
        word.session(),
        word.position(),
    ))
}

fn yes_or_no(yes: bool) -> Answer {
    if yes { Answer::Yes } else { Answer::No }
}

/// A move of a layer.
fn layer_move<A: Allocator>(
    bench: &Bench<A>,
    desk: &mut Desk<A>,
    edge: EdgeNo,
    what: Move,
) -> Answer
    requires own { Owns bench.now desk.old }
    requires edge { IsOwn desk.old.plan desk.old.job edge }
    ensures { Owns bench.now desk.new }
{
    match what {
        Move::Look => Answer::Saw(look(bench, desk, edge).pack()),
        Move::Give => of_try(give(bench, desk, edge)),
        Move::Ask => of_try(ask(bench, desk, edge)),
        Move::Soil => of_try(soil(bench, desk, edge)),
        Move::Dine => of_try(dine(bench, desk, edge)),
        Move::Serve => of_try(serve_bottles(bench, desk, edge)),
        Move::Want => of_try(want_bottles(bench, desk, edge)),
        Move::Visit => of_visit(visit(bench, desk, edge)),
        Move::Noted => yes_or_no(desk.is_calm(edge)),
        Move::Needed => Answer::Saw(u64::from(desk.needed(edge))),
        _ => Answer::NotLegal,
    }
}

/// What is due on the edge.
fn due<A: Allocator>(bench: &Bench<A>, desk: &Desk<A>, edge: EdgeNo, bottles: bool) -> Answer
    requires own { Owns bench.now desk.now }
    requires edge { IsOwn desk.now.plan desk.now.job edge }
{
    if bottles {
        return Answer::Moves(due_moves(bench, desk, edge));
    }
    Answer::Moves(fork_moves(bench, desk, edge))
}

/// A call on one edge.
fn on_edge<A: Allocator>(
    rt: &impl Abort,
    bench: &Bench<A>,
    desk: &mut Desk<A>,
    edge: EdgeNo,
    what: Move,
) -> Answer
    requires { Owns bench.now desk.old }
    ensures { Owns bench.now desk.new }
{
    assert!(rt; is_own_edge(bench, desk, edge));
    match what {
        Move::Forks => due(bench, desk, edge, false),
        Move::Due => due(bench, desk, edge, true),
        _ => layer_move(bench, desk, edge, what),
    }
}

fn taken<A: Allocator>(bench: &Bench<A>, desk: &mut Desk<A>) -> Answer
    requires { Owns bench.now desk.old }
    ensures { Owns bench.now desk.new }
{
    of_turn(turn(bench, desk))
}

/// A call of a job.
fn by_job<A: Allocator>(rt: &impl Abort, bench: &Bench<A>, desk: &mut Desk<A>, call: Call) -> Answer
    requires { Owns bench.now desk.old }
    ensures { Owns bench.now desk.new }
{
    match call {
        Call::Act(waited) => Answer::Acted(act(bench, desk, waited)),
        Call::ActDue(waited) => Answer::Does(phase_due(bench, desk, waited)),
        Call::Settled => yes_or_no(desk.is_settled()),
        Call::Turn => taken(bench, desk),
        Call::AllRetired => yes_or_no(all_retired(bench, desk)),
        Call::Table => of_table(table(bench, desk)),
        Call::Drink => yes_or_no(drink(bench, desk)),
        Call::Store(what) => {
            store(rt, bench, desk, what);
            Answer::Done
        }
        Call::Command => Answer::Value(commanded(rt, bench, desk).value),
        Call::Glance(other) => of_glance(glanced(rt, bench, desk, JobNo(other))),
        Call::On(edge, what) => on_edge(rt, bench, desk, EdgeNo(edge), what),
    }
}

/// How far a job is: dining, drinking, session and position.
pub(crate) type Phase = (Dining, Drinking, u32, u32);

/// A desk at the bench that it came from.
#[derive(Drop)]
pub(crate) struct Seat<'b, 'p, A: Allocator> {
    bench: &'b Bench<'p, A>,
    desk: Desk<A>,
    ghost own: { Owns bench.now desk },
}

impl<A: Allocator> Seat<'_, '_, A> {
    /// Makes the call.
    pub(crate) fn make(&mut self, rt: &impl Abort, call: Call) -> Answer {
        by_job(rt, self.bench, &mut self.desk, call)
    }

    /// How far the job is.
    pub(crate) fn phase(&self) -> Phase {
        let phase = self.desk.phase();
        (phase.dining, phase.drinking, phase.session, phase.position)
    }

    /// How long the job's session has waited.
    pub(crate) fn waited(&self) -> u32 {
        self.desk.waited()
    }

    /// How many edges the job has.
    pub(crate) fn edges(&self) -> usize {
        self.bench.plan().edges_of(self.desk.job()).len()
    }

    /// The word that the job saw last on this one of its edges.
    pub(crate) fn seen(&self, rt: &impl Abort, place: usize) -> u64 {
        let own = self.bench.plan().edges_of(self.desk.job());
        assert!(rt; place < own.len() && is_own_edge(self.bench, &self.desk, own[place]));
        self.desk.seen(own[place]).pack()
    }
}

/// Each desk at its bench.
pub(crate) fn seated<'b, 'p, A: Allocator + Copy>(
    rt: &impl Abort,
    alloc: A,
    bench: &'b Bench<'p, A>,
    mut desks: Vec<Desk<A>, A>,
) -> Vec<Seat<'b, 'p, A>, A>
    requires { Each (Owns bench.now) desks.items }
{
    let mut seats = Vec::new(alloc);
    while let Some(desk) = desks.pop() {
        let pushed = seats.push(Seat { bench, desk }).is_ok();
        assert!(rt; pushed);
    }
    seats.reverse();
    seats
}
