//! The moves that are due at an edge.
ghost use Rattle.std.specs.Prelude.{◌<◌, length};
ghost use Rattle.lab_plan.specs.LabPlan.{edges};
ghost use Rattle.legal_steps.specs.State.{IsOwn};
ghost use Rattle.legal_steps.specs.Legal.{IsJob};
ghost use Rattle.legal_steps.specs.Fitting.{IsPhaseOf};
ghost use Rattle.legal_steps.specs.Run.{IsLegalFrom};
ghost use Rattle.edge_rule.specs.NeededBottles.{AreNeededIn};
ghost use Rattle.edge_word.specs.Moves.{events_of};
ghost use Rattle.turns.specs.Due.{AreDue};
ghost use Rattle.settling.specs.Visiting.{AreDueBy};

use dining_layer::{due_forks, seen_from};
use drinking_layer::with_sets;
use edge_word::EdgeMoves;
use interleaving::World;
use lab_plan::{EdgeNo, JobNo, Plan};
use legal_steps::{EdgeState, End, JobState};
use std::alloc::Allocator;

/// The bottles of the edge that a job in this phase needs.
pub(crate) fn needed_in<A: Allocator>(
    plan: &Plan<A>,
    job: JobNo,
    phase: JobState,
    edge: EdgeNo,
) -> u32
    requires is_job { IsJob plan.now job }
    requires fits { IsPhaseOf plan.now job phase }
    requires edge { edge < length (edges plan.now) }
    ensures { AreNeededIn plan.now job phase edge result }
{
    if phase.is_in_session() {
        plan.needed_bottles(job, phase.session, edge)
    } else {
        0
    }
}

/// All moves that are due for a job in this phase at an edge that is so, as it is seen from the job's own end: every legal fork move, and
/// the greatest legal sets of bottles.
pub(crate) fn moves_by<A: Allocator>(
    plan: &Plan<A>,
    job: JobNo,
    phase: JobState,
    edge: EdgeNo,
    mine: EdgeState,
) -> EdgeMoves
    requires is_job { IsJob plan.now job }
    requires fits { IsPhaseOf plan.now job phase }
    requires own { IsOwn plan.now job edge }
    ensures { AreDueBy plan.now job phase edge mine result }
{
    let needed = needed_in(plan, job, phase, edge);
    let forks = due_forks(phase.dining, End::Higher, mine);
    with_sets(phase, needed, mine, forks)
}

/// All moves that are due at the edge by what is there.
pub fn due_moves<A: Allocator>(world: &World<A>, job: JobNo, edge: EdgeNo) -> EdgeMoves
    requires { IsOwn world.now.plan job edge }
    ensures due { AreDue world.now.plan world.now.state job edge result }
    ensures legal { IsLegalFrom world.now.plan world.now.state (events_of result job edge) }
{
    let plan = world.plan();
    let mine = seen_from(plan, edge, End::of(plan, job, edge), world.edge(edge));
    moves_by(plan, job, world.job(job), edge, mine)
}
