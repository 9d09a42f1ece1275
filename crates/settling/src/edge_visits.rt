//! Visits of edges: a look, and then what is due there.
ghost use Rattle.std.specs.Prelude.{◌≡◌, ◌≤◌, ◌∷◌, [], ℕ, true, length};
ghost use Rattle.lab_plan.specs.LabPlan.{edges_of};
ghost use Rattle.legal_steps.specs.declared.event.Event.TheVariants.{Look};
ghost use Rattle.legal_steps.specs.State.{IsOwn, edge as edge_at, end_of};
ghost use Rattle.legal_steps.specs.Legal.{IsJob, May};
ghost use Rattle.legal_steps.specs.Run.{IsLegalFrom};
ghost use Rattle.interleaving.specs.World.{LeadsTo};
ghost use Rattle.edge_word.specs.Moves.{events_of, on};
ghost use Rattle.dining_layer.specs.Turned.{turned};
ghost use Rattle.settling.specs.Doing.{VisitsEdge, VisitsEdges};
ghost use Rattle.settling.specs.Visiting.{Moves};

use crate::moves::moves_by;
use dining_layer::seen_from;
use edge_word::EdgeMoves;
use interleaving::World;
use lab_plan::{EdgeNo, JobNo};
use legal_steps::{EdgeState, End, Event};
use std::alloc::Allocator;

/// Looks at the edge, which is so, and so as it is seen from the job's own end. A look that would change no mark leads to the same state, so
/// it isn't done then.
fn look<A: Allocator>(
    world: &mut World<A>,
    job: JobNo,
    edge: EdgeNo,
    seen: EdgeState,
    mine: EdgeState,
)
    requires own { IsOwn world.old.plan job edge }
    requires seen { seen ≡ edge_at world.old.state edge }
    requires mine { mine ≡ turned world.old.plan edge (end_of world.old.plan job edge) seen }
    ensures { LeadsTo world.old (Look job edge (edge_at world.old.state edge) ∷ []) world.new }
{
    let mark = mine.fork_mark(End::Higher, world.job(job).dining);
    if mark == world.fork_mark(job, edge) && mine.bottles == world.bottle_marks(job, edge) {
        return;
    }
    // What is there is seen: so the look is legal.
    world.done(Event::Look(job, edge, seen));
}

/// Does the event if it is to be done.
fn step_if<A: Allocator>(world: &mut World<A>, wanted: bool, event: Event)
    requires { wanted ≡ true → May world.old.plan world.old.state event }
    ensures { LeadsTo world.old (on wanted event []) world.new }
{
    if wanted {
        world.done(event);
    }
}

/// How many moves there are.
pub(crate) fn number_of(moves: EdgeMoves) -> u32
    ensures many { (j e : ℕ) → result ≡ length (events_of moves j e) }
    ensures few { result ≤ 5 }
{
    u32::from(moves.give_fork)
        + u32::from(moves.give_bottles != 0)
        + u32::from(moves.ask_fork)
        + u32::from(moves.ask_bottles != 0)
        + u32::from(moves.soil)
}

/// Does the moves, which are legal one after another.
fn move_at<A: Allocator>(world: &mut World<A>, job: JobNo, edge: EdgeNo, moves: EdgeMoves)
    requires { IsLegalFrom world.old.plan world.old.state (events_of moves job edge) }
    ensures { LeadsTo world.old (events_of moves job edge) world.new }
{
    let gives = moves.give_bottles != 0;
    let asks = moves.ask_bottles != 0;
    step_if(world, moves.give_fork, Event::GiveFork(job, edge));
    step_if(
        world,
        gives,
        Event::GiveBottles(job, edge, moves.give_bottles),
    );
    step_if(world, moves.ask_fork, Event::AskFork(job, edge));
    step_if(world, asks, Event::AskBottles(job, edge, moves.ask_bottles));
    step_if(world, moves.soil, Event::Soil(job, edge));
}

/// Looks at the edge, and does all moves that are due there. Answers which.
pub(crate) fn moved_at<A: Allocator>(world: &mut World<A>, job: JobNo, edge: EdgeNo) -> EdgeMoves
    requires { IsOwn world.old.plan job edge }
    ensures { Moves world.old job edge result world.new }
{
    let plan = world.plan();
    let seen = world.edge(edge);
    let mine = seen_from(plan, edge, End::of(plan, job, edge), seen);
    let phase = world.job(job);
    let moves = moves_by(plan, job, phase, edge, mine);
    look(world, job, edge, seen, mine);
    if moves.is_empty() {
        return moves;
    }
    move_at(world, job, edge, moves);
    moves
}

/// Looks at the edge, and does all moves that are due there. Answers how many there were.
pub fn visit<A: Allocator>(world: &mut World<A>, job: JobNo, edge: EdgeNo) -> u32
    requires { IsOwn world.old.plan job edge }
    ensures visits { VisitsEdge world.old job edge result world.new }
    ensures few { result ≤ 5 }
{
    let moves = moved_at(world, job, edge);
    number_of(moves)
}

/// Visits each edge of the job, in the order of the plan. Answers at how many something was done.
pub fn visit_all<A: Allocator>(world: &mut World<A>, job: JobNo) -> u32
    requires { IsJob world.old.plan job }
    ensures visits { VisitsEdges world.old job (edges_of world.old.plan job) result world.new }
    ensures few { result ≤ 496 }
{
    // A plan has 496 edges at most, as this call ensures: so the count can't overflow.
    let _ = world.plan().edges();
    let mut done = 0u32;
    for index in 0..world.plan().edges_of(job).len() {
        let edge = world.plan().edges_of(job)[index];
        if visit(world, job, edge) > 0 {
            done += 1;
        }
    }
    done
}
