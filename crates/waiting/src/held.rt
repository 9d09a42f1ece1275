//! What a job holds, by what its desk knows.
ghost use Rattle.std.specs.Prelude.{◌≡◌, ◌≤◌, ◌<◌, ℕ, length};
ghost use Rattle.lab_plan.specs.LabPlan.{sessions, session_names};
ghost use Rattle.lab_plan.specs.InstrumentSets.{holds};
ghost use Rattle.legal_steps.specs.State.{phase as phase_at};
ghost use Rattle.edge_rule.specs.DeskView.{known};
ghost use Rattle.waiting.specs.Holding.{holds_in};

use edge_rule::Desk;
use lab_plan::{JobNo, Plan};
use std::alloc::Allocator;

/// The instruments that the desk's job holds: those of its session while it drinks, and else none.
pub fn held_by<A: Allocator>(plan: &Plan<A>, desk: &Desk<A>) -> u64
    requires { desk.now.plan ≡ plan.now }
    ensures { (i : ℕ) → holds result i ≡ holds_in plan.now desk.now.job (phase_at (known desk.now) desk.now.job) i }
{
    let phase = desk.phase();
    if phase.is_drinking() {
        plan.needs(desk.job(), phase.session)
    } else {
        0
    }
}
