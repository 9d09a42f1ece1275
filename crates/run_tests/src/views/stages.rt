//! Causes why events aren't legal that no step of a text has: of jobs and edges that aren't there, of what is seen, and of sets of bottles.
//! The others, and the moves that are legal, stand in `checks/cases/of_labview/explanations.py`.
ghost use Rattle.std.specs.List.{All};
ghost use Rattle.legal_steps.specs.Steps.{IsStepOf};

use interleaving::{Dining, Drinking, EdgeState, End, Event, JobState, StepLine, World};
use lab_plan::{EdgeNo, JobNo, Plan};
use legal_steps::{bottle_end, has};
use refused_steps::why_not;
use script_reader::read_steps;
use std::alloc::{Allocator, Global};
use std::fmt::Debug;
use std::process::Abort;

// The numbers of jobs and edges are plain ones and causes are told by their names, because a table of these is one constant. Of events and
// causes each row would be proved, in each function that names the table.
const A: u8 = 0;

const B: u8 = 1;

const NOBODY: u8 = 2;

/// The one edge. Its bottle 0 is the scale's, its bottle 1 the lamp's.
const AB: u16 = 0;

/// Job a needs the scale first and then the lamp, b both at once.
const TOOLS: &str =
    "lab 2\njob a\nsession\nscale add 1\nend\nsession\nlamp add 1\nend\njob b\nsession patience 5\nscale add 1\nlamp add 1\nend\n";

/// The same, with steps by which both are thirsty and hungry.
const THIRSTY_BOTH: &str =
    "lab 2\njob a\nsession\nscale add 1\nend\nsession\nlamp add 1\nend\njob b\nsession patience 5\nscale add 1\nlamp add 1\nend\nsteps\nthirst a\nhunger a\nthirst b\nhunger b\naskbottles b a scale\naskfork b a\n";

/// The edge before the first step: all at a, all tokens at b.
const OPENED: EdgeState = EdgeState {
    fork: End::Lower,
    dirty: true,
    token: End::Higher,
    bottles: 0,
    bottle_tokens: 3,
};

const CLEAN: EdgeState = EdgeState {
    fork: End::Lower,
    dirty: false,
    token: End::Higher,
    bottles: 0,
    bottle_tokens: 3,
};

const THIRSTY: JobState = JobState {
    dining: Dining::Thinking,
    drinking: Drinking::Thirsty,
    session: 1,
    position: 0,
};

/// An event, as tables have it.
#[derive(Clone, Copy)]
enum Do {
    /// It sees the edge as it is before the first step.
    Look(u8, u16),
    /// It sees a clean fork there.
    LookAtClean(u8, u16),
    Soil(u8, u16),
    AskBottles(u8, u16, u32),
    GiveBottles(u8, u16, u32),
    Thirst(u8),
    Retire(u8),
    /// It sees a job that has begun nothing.
    Glance(u8, u8),
    /// It sees a thirsty job.
    GlanceAtThirsty(u8, u8),
}

fn event_of(it: Do) -> Event {
    match it {
        Do::Look(job, edge) => Event::Look(JobNo(job), EdgeNo(edge), OPENED),
        Do::LookAtClean(job, edge) => Event::Look(JobNo(job), EdgeNo(edge), CLEAN),
        Do::Soil(job, edge) => Event::Soil(JobNo(job), EdgeNo(edge)),
        Do::AskBottles(job, edge, set) => Event::AskBottles(JobNo(job), EdgeNo(edge), set),
        Do::GiveBottles(job, edge, set) => Event::GiveBottles(JobNo(job), EdgeNo(edge), set),
        Do::Thirst(job) => Event::Thirst(JobNo(job)),
        Do::Retire(job) => Event::Retire(JobNo(job)),
        Do::Glance(job, other) => Event::Glance(JobNo(job), JobNo(other), JobState::IDLE),
        Do::GlanceAtThirsty(job, other) => Event::Glance(JobNo(job), JobNo(other), THIRSTY),
    }
}

/// An event, and the name of the cause why it isn't legal, with its numbers.
#[derive(Clone, Copy)]
struct Case(Do, &'static str);

/// Before the first step.
const FIRST: [Case; 14] = [
    Case(Do::Look(A, AB), "None"),
    Case(Do::Glance(A, B), "None"),
    Case(Do::Thirst(A), "None"),
    Case(Do::Thirst(NOBODY), "Some(NotJob)"),
    Case(Do::Glance(NOBODY, A), "Some(NotJob)"),
    Case(Do::Look(A, 1), "Some(NotOwn)"),
    Case(Do::Soil(NOBODY, AB), "Some(NotOwn)"),
    Case(Do::LookAtClean(A, AB), "Some(SeesElse)"),
    Case(Do::GlanceAtThirsty(A, B), "Some(SeesElse)"),
    Case(Do::Glance(A, NOBODY), "Some(OtherNotJob)"),
    Case(Do::Glance(A, A), "Some(Itself)"),
    Case(Do::AskBottles(A, AB, 0), "Some(NotThirsty)"),
    Case(Do::GiveBottles(A, AB, 0), "Some(NoBottle)"),
    Case(Do::GiveBottles(A, AB, 4), "Some(NotOfEdge)"),
];

/// Where both are thirsty.
const ASKED: [Case; 4] = [
    Case(Do::AskBottles(B, AB, 2), "None"),
    Case(Do::AskBottles(B, AB, 0), "Some(NoBottle)"),
    Case(Do::AskBottles(B, AB, 4), "Some(NotOfEdge)"),
    Case(Do::Retire(NOBODY), "Some(NotJob)"),
];

/// Whether the value is told by this text.
fn is_told<T: Copy + Debug>(rt: &impl Abort, out: Global, value: T, text: &str) -> bool {
    match format!(in out; "{value:?}") {
        Ok(told) => told.as_str() == text,
        Err(_) => panic!(rt; "no memory for a text"),
    }
}

fn ask_causes<T: Allocator>(rt: &impl Abort, out: Global, world: &World<T>, cases: &[Case]) {
    for case in cases {
        let Case(it, wanted) = *case;
        let event = event_of(it);
        let cause = why_not(world, &event);
        assert!(rt;
            is_told(rt, out, cause, wanted),
            "{event:?}: {wanted} was wanted, not {cause:?}"
        );
    }
}

/// The causes after these steps. It alone owns a world.
fn ask_after<T: Allocator + Copy>(
    rt: &impl Abort,
    alloc: T,
    out: Global,
    plan: &Plan<T>,
    steps: &[StepLine],
    cases: &[Case],
)
    requires { All (λ line. IsStepOf plan.now line.step) steps.now }
{
    let Ok(mut world) = World::opening(alloc, plan) else {
        panic!(rt; "no memory for a world");
    };
    assert!(rt; world.replay_steps(steps).is_ok());
    ask_causes(rt, out, &world, cases);
}

fn ask_text<T: Allocator + Copy>(
    rt: &impl Abort,
    alloc: T,
    out: Global,
    text: &str,
    cases: &[Case],
) {
    match read_steps(alloc, text.as_bytes()) {
        Ok((plan, steps)) => ask_after(rt, alloc, out, &plan, &steps, cases),
        Err(_) => panic!(rt; "no steps"),
    }
}

#[test]
fn causes_of_no_text(rt: HostRuntime) {
    ask_text(&rt, rt.alloc(), rt.alloc(), TOOLS, &FIRST);
    ask_text(&rt, rt.alloc(), rt.alloc(), THIRSTY_BOTH, &ASKED);
}

#[test]
fn sets_of_bottles(rt: HostRuntime) {
    assert!(rt; has(5, 0) && !has(5, 1) && has(5, 2) && !has(5, 31));
    assert!(rt; bottle_end(2, 0) == End::Lower && bottle_end(2, 1) == End::Higher);
    assert!(rt; has(0x8000_0000, 31) && bottle_end(0x8000_0000, 31) == End::Higher);
}
