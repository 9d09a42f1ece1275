//! What a job has at hand at an edge.
ghost use Rattle.std.specs.Prelude.{◌≡◌, ◌<◌, ◌≤◌, length};
ghost use Rattle.lab_plan.specs.Limits.{most_bottles};
ghost use Rattle.lab_plan.specs.LabPlan.{edges, bottles};
ghost use Rattle.legal_steps.specs.State.{IsOwn, end_of, edge as edge_at, phase as phase_at};
ghost use Rattle.edge_word.specs.Words.{IsOfBottles};
ghost use Rattle.edge_rule.specs.DeskView.{Owns, known};
ghost use Rattle.edge_rule.specs.Knowing.{IsKnown};
ghost use Rattle.dining_layer.specs.Turned.{turned};

use edge_rule::{Bench, Desk};
use edge_word::EdgeWord;
use lab_plan::{EdgeNo, JobNo, Plan};
use legal_steps::{EdgeState, End, JobState};
use std::alloc::Allocator;

/// What a job has at hand at an edge: its own phase, its end, and the edge as it saw it last.
#[derive(Clone, Copy)]
pub struct AtEdge {
    pub job: JobNo,
    pub phase: JobState,
    pub here: End,
    pub seen: EdgeState,
    /// The edge turned round if the job is the lower one: what is at the job's own end stands at the higher end here.
    pub mine: EdgeState,
}

/// The edge as it is seen from this end: turned round if that is the lower one.
#[tactic(auto, unfolding(legal_steps::specs::State::bottles_at))]
pub fn seen_from<A: Allocator>(
    plan: &Plan<A>,
    edge: EdgeNo,
    here: End,
    seen: EdgeState,
) -> EdgeState
    requires { edge < length (edges plan.now) }
    ensures { result ≡ turned plan.now edge here seen }
{
    match here {
        End::Higher => seen,
        End::Lower => {
            let all = (1u32 << plan.bottles(edge)) - 1;
            EdgeState {
                fork: seen.fork.other(),
                dirty: seen.dirty,
                token: seen.token.other(),
                bottles: all ^ seen.bottles,
                bottle_tokens: all ^ seen.bottle_tokens,
            }
        }
    }
}

/// What the desk's job has at hand at one of its edges.
pub fn at_edge<A: Allocator>(bench: &Bench<A>, desk: &Desk<A>, edge: EdgeNo) -> AtEdge
    requires own { Owns bench.now desk.now }
    requires edge { IsOwn desk.now.plan desk.now.job edge }
    ensures job { result.job ≡ desk.now.job }
    ensures phase { result.phase ≡ phase_at (known desk.now) desk.now.job }
    ensures here { result.here ≡ end_of desk.now.plan desk.now.job edge }
    ensures seen { result.seen ≡ edge_at (known desk.now) edge }
    ensures mine { result.mine ≡ turned desk.now.plan edge (end_of desk.now.plan desk.now.job edge) (edge_at (known desk.now) edge) }
    ensures fits { IsOfBottles (length (bottles desk.now.plan edge)) result.seen }
    ensures few { length (bottles desk.now.plan edge) ≤ most_bottles }
    ensures known { IsKnown desk.now.plan (known desk.now) desk.now.job }
{
    let seen = desk.seen(edge);
    at_edge_seen(bench, desk, edge, seen)
}

/// The same for a caller that has at hand what the desk saw last on the edge.
pub fn at_edge_seen<A: Allocator>(
    bench: &Bench<A>,
    desk: &Desk<A>,
    edge: EdgeNo,
    seen: EdgeWord,
) -> AtEdge
    requires own { Owns bench.now desk.now }
    requires edge { IsOwn desk.now.plan desk.now.job edge }
    requires seen { seen ≡ edge_at (known desk.now) edge }
    requires fits_seen { IsOfBottles (length (bottles desk.now.plan edge)) seen }
    ensures job { result.job ≡ desk.now.job }
    ensures phase { result.phase ≡ phase_at (known desk.now) desk.now.job }
    ensures here { result.here ≡ end_of desk.now.plan desk.now.job edge }
    ensures seen { result.seen ≡ edge_at (known desk.now) edge }
    ensures mine { result.mine ≡ turned desk.now.plan edge (end_of desk.now.plan desk.now.job edge) (edge_at (known desk.now) edge) }
    ensures fits { IsOfBottles (length (bottles desk.now.plan edge)) result.seen }
    ensures few { length (bottles desk.now.plan edge) ≤ most_bottles }
    ensures known { IsKnown desk.now.plan (known desk.now) desk.now.job }
{
    let job = desk.job();
    let plan = bench.plan();
    let here = End::of(plan, job, edge);
    // A call for its clause alone: an edge has few bottles.
    let _ = plan.bottles(edge);
    let seen = seen.unpacked();
    AtEdge {
        job,
        phase: desk.phase(),
        here,
        seen,
        mine: seen_from(plan, edge, here, seen),
    }
}
