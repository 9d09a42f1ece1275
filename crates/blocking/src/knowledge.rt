//! What a job waits for, by what its desk knows.
ghost use Rattle.std.specs.Prelude.{◌≡◌, ◌<◌, ◌≤◌, ◌==◌, ℕ, length, true};
ghost use Rattle.std.specs.Int.{bit_at};
ghost use Rattle.lab_plan.specs.LabPlan.{edges, bottles, sessions, session_names};
ghost use Rattle.lab_plan.specs.InstrumentSets.{holds};
ghost use Rattle.legal_steps.specs.State.{IsOwn, phase as phase_at};
ghost use Rattle.legal_steps.specs.Legal.{instrument_of};
ghost use Rattle.turns.specs.Patience.{is_waiting};
ghost use Rattle.edge_rule.specs.DeskView.{known};
ghost use Rattle.blocking.specs.Watching.{AreWaitedFor};

use edge_rule::Desk;
use lab_plan::{EdgeNo, InstrumentNo, JobNo, Plan};
use legal_steps::{Drinking, End, JobState};
use std::alloc::Allocator;

/// The instrument of a bottle.
pub(crate) fn instrument_at<A: Allocator>(plan: &Plan<A>, edge: EdgeNo, bottle: u32) -> InstrumentNo
    requires edge { edge < length (edges plan.now) }
    requires bottle { bottle < length (bottles plan.now edge) }
    ensures value { result ≡ instrument_of plan.now edge bottle }
    ensures few { result < 64 }
{
    // A plan has 56 instruments at most.
    let _ = plan.instruments();
    plan.instrument_of(edge, bottle)
}

/// Whether the bottle is in the set.
#[tactic(auto, using(std::proofs::lemmas::Nat::Bits::shr_and_one))]
fn is_in(set: u32, bottle: u32) -> bool
    requires { bottle < 32 }
    ensures { result ≡ (bit_at set bottle == 1) }
{
    set >> bottle & 1 == 1
}

/// The first bottle of the set from this one on, or the end if there is none in front of it.
fn later_in(set: u32, from: u32, end: u32) -> u32
    requires inside { from ≤ end }
    requires few { end ≤ 32 }
    ensures low { from ≤ result }
    ensures high { result ≤ end }
    ensures passed { (k : ℕ) → from ≤ k → k < result → bit_at set k ≡ 0 }
    ensures found { result < end → bit_at set result ≡ 1 }
{
    let rest = u64::from(set) >> from;
    (from + rest.trailing_zeros()).min(end)
}

/// The same, quicker if this one is in the set already.
pub(crate) fn next_in(set: u32, from: u32, end: u32) -> u32
    requires inside { from ≤ end }
    requires few { end ≤ 32 }
    ensures low { from ≤ result }
    ensures high { result ≤ end }
    ensures passed { (k : ℕ) → from ≤ k → k < result → bit_at set k ≡ 0 }
    ensures found { result < end → bit_at set result ≡ 1 }
{
    if from < end && is_in(set, from) {
        from
    } else {
        later_in(set, from, end)
    }
}

/// Whether a job in this phase is thirsty.
fn is_thirsty(phase: JobState) -> bool
    ensures { result ≡ is_waiting phase.drinking }
{
    phase.drinking == Drinking::Thirsty
}

/// The bottles of an edge that the desk's job needs and knows to be at its neighbour, if it is thirsty.
fn needed_across<A: Allocator>(plan: &Plan<A>, desk: &Desk<A>, edge: EdgeNo) -> u32
    requires plan { desk.now.plan ≡ plan.now }
    requires own { IsOwn plan.now desk.now.job edge }
    requires thirsty { is_waiting (phase_at (known desk.now) desk.now.job).drinking ≡ true }
    ensures { AreWaitedFor plan.now (known desk.now) desk.now.job edge result }
{
    let needed = desk.needed(edge);
    let higher = needed & desk.seen(edge).unpacked().bottles;
    match End::of(plan, desk.job(), edge) {
        End::Lower => higher,
        End::Higher => needed ^ higher,
    }
}

/// The bottles of an edge for which the desk's job waits: none if it isn't thirsty, and else those that it needs and knows to be at
/// its neighbour.
pub(crate) fn waited_on<A: Allocator>(plan: &Plan<A>, desk: &Desk<A>, edge: EdgeNo) -> u32
    requires plan { desk.now.plan ≡ plan.now }
    requires own { IsOwn plan.now desk.now.job edge }
    ensures { AreWaitedFor plan.now (known desk.now) desk.now.job edge result }
{
    if is_thirsty(desk.phase()) {
        needed_across(plan, desk, edge)
    } else {
        0
    }
}
