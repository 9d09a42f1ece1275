//! Causes in words.
ghost use Rattle.std.specs.Prelude.{◌≡◌, ◌<◌, ◌++◌, length, codes, OnOk};
ghost use Rattle.lab_plan.specs.LabPlan.{edges, bottles};
ghost use Rattle.legal_steps.specs.Steps.{IsStepOf};
ghost use Rattle.explaining.specs.CauseTexts.{NamesWithin, reason_text, fork_place, bottle_place, own_bottle_place, place_text, cause_text, job_of, edge_of};

use lab_plan::{EdgeNo, JobNo, Plan};
use legal_steps::Step;
use refused_steps::Cause;
use std::alloc::{AllocError, Allocator};
use step_texts::{add_bottle, add_other};

/// What a cause says, without where.
#[tactic(auto, unfolding(crate::specs::CauseTexts::reason_text))]
fn reason(cause: &Cause) -> &'static [u8]
    ensures { result.now ≡ reason_text cause.now }
{
    match *cause {
        Cause::NotJob => b"there is no such job",
        Cause::NotOwn => b"the two jobs share no instrument",
        Cause::SeesElse => b"something else is there",
        Cause::OtherNotJob => b"there is no such other job",
        Cause::Itself => b"a job glances at another job, not at itself",
        Cause::NotThinking => b"the job is hungry or eats",
        Cause::NotHungry => b"the job is not hungry",
        Cause::NotEating => b"the job does not eat",
        Cause::Eats => b"the job eats; it has to leave first",
        Cause::NotTranquil => b"the job is in a session, or retired",
        Cause::NotThirsty => b"the job is not thirsty",
        Cause::Thirsts => b"the job is thirsty; it has to drink first",
        Cause::NotDrinking => b"the job does not drink, or has reached already",
        Cause::NotReaching => b"the job has not reached",
        Cause::ForkHere => b"the job has the fork",
        Cause::ForkThere => b"the job does not have the fork",
        Cause::ForkClean => b"the fork is clean; it is given once it was soiled in a meal",
        Cause::ForkDirty => b"the fork is dirty already",
        Cause::TokenThere => b"the job does not have the fork's request token",
        Cause::UnmarkedAway(_) => b"the fork is not here; ask for it, and look once it was given",
        Cause::UnmarkedClaimed(_) => {
            b"the fork is here but dirty, and its token is here too; look again after the other has had it"
        }
        Cause::UnmarkedClean(_) => b"the fork is here but clean; soil it",
        Cause::UnmarkedUnseen(_) => b"the fork is here; look",
        Cause::NoBottle => b"the step names no bottle",
        Cause::NotOfEdge => b"the two jobs share no such bottle",
        Cause::NotNeeded(_) => b"the job's session does not need it",
        Cause::BottleHere(_) => b"it is here already",
        Cause::BottleThere(_) => b"it is not here",
        Cause::BottleTokenThere(_) => b"its request token is not here",
        Cause::KeptInSession(_) =>
            b"the job's session holds it; it is given once the session has ended",
        Cause::KeptWithFork(_) => b"the job needs it and has the fork, so it keeps it",
        Cause::MissingAway(_, _) => b"it is not here; ask for it, and look once it was given",
        Cause::MissingUnseen(_, _) => b"it is here; look",
        Cause::NoSessionLeft => b"the job has no session left",
        Cause::SessionLeft => b"the job has a session left",
        Cause::NoCommandLeft => b"the session has no command left",
        Cause::CommandLeft => b"the session has a command left",
        Cause::NoPatience => b"the session has no patience",
    }
}

/// `no mark for the fork with JOB: `
fn add_fork_place<A: Allocator, B: Allocator>(
    out: &mut Vec<u8, A>,
    plan: &Plan<B>,
    job: JobNo,
    edge: EdgeNo,
) -> Result<(), AllocError>
    requires { edge < length (edges plan.now) }
    ensures { OnOk result (out.new.items ≡ out.old.items ++ fork_place plan.now job edge) }
{
    out.extend_from_slice(b"no mark for the fork with ")?;
    add_other(out, plan, job, edge)?;
    out.extend_from_slice(b": ")
}

/// `the bottle of INSTRUMENT: `
fn add_own_bottle_place<A: Allocator, B: Allocator>(
    out: &mut Vec<u8, A>,
    plan: &Plan<B>,
    edge: EdgeNo,
    bottle: u32,
) -> Result<(), AllocError>
    requires is_edge { edge < length (edges plan.now) }
    requires is_bottle { bottle < length (bottles plan.now edge) }
    ensures { OnOk result (out.new.items ≡ out.old.items ++ own_bottle_place plan.now edge bottle) }
{
    out.extend_from_slice(b"the bottle of ")?;
    add_bottle(out, plan, edge, bottle)?;
    out.extend_from_slice(b": ")
}

/// `no mark for the bottle of INSTRUMENT with JOB: `
fn add_bottle_place<A: Allocator, B: Allocator>(
    out: &mut Vec<u8, A>,
    plan: &Plan<B>,
    job: JobNo,
    edge: EdgeNo,
    bottle: u32,
) -> Result<(), AllocError>
    requires is_edge { edge < length (edges plan.now) }
    requires is_bottle { bottle < length (bottles plan.now edge) }
    ensures { OnOk result (out.new.items ≡ out.old.items ++ bottle_place plan.now job edge bottle) }
{
    out.extend_from_slice(b"no mark for the bottle of ")?;
    add_bottle(out, plan, edge, bottle)?;
    out.extend_from_slice(b" with ")?;
    add_other(out, plan, job, edge)?;
    out.extend_from_slice(b": ")
}

/// Whose step it is.
pub(crate) fn job_of(step: &Step) -> JobNo
    ensures { result ≡ job_of step.now }
{
    match *step {
        Step::Look(job, _) => job,
        Step::AskFork(job, _) => job,
        Step::GiveFork(job, _) => job,
        Step::Soil(job, _) => job,
        Step::AskBottles(job, _, _) => job,
        Step::GiveBottles(job, _, _) => job,
        Step::Thirst(job) => job,
        Step::Hunger(job) => job,
        Step::Sit(job) => job,
        Step::Leave(job) => job,
        Step::Drink(job) => job,
        Step::Reach(job) => job,
        Step::Act(job) => job,
        Step::Quit(job) => job,
        Step::Retire(job) => job,
        Step::Glance(job, _) => job,
        Step::Withdraw(job) => job,
    }
}

/// The edge of a step with bottles.
fn edge_of(step: &Step) -> EdgeNo
    ensures { result ≡ edge_of step.now }
{
    match *step {
        Step::AskBottles(_, edge, _) => edge,
        Step::GiveBottles(_, edge, _) => edge,
        _ => EdgeNo(0),
    }
}

/// Where the cause is: at a fork or a bottle, or nowhere.
#[tactic(auto, unfolding(crate::specs::CauseTexts::place_text))]
fn add_place<A: Allocator, B: Allocator>(
    out: &mut Vec<u8, A>,
    plan: &Plan<B>,
    step: &Step,
    cause: Cause,
) -> Result<(), AllocError>
    requires { NamesWithin plan.now step.now cause }
    ensures { OnOk result (out.new.items ≡ out.old.items ++ place_text plan.now step.now cause) }
{
    let job = job_of(step);
    match cause {
        Cause::UnmarkedAway(edge) => add_fork_place(out, plan, job, edge),
        Cause::UnmarkedClaimed(edge) => add_fork_place(out, plan, job, edge),
        Cause::UnmarkedClean(edge) => add_fork_place(out, plan, job, edge),
        Cause::UnmarkedUnseen(edge) => add_fork_place(out, plan, job, edge),
        Cause::MissingAway(edge, bottle) => add_bottle_place(out, plan, job, edge, bottle),
        Cause::MissingUnseen(edge, bottle) => add_bottle_place(out, plan, job, edge, bottle),
        Cause::NotNeeded(bottle) => add_own_bottle_place(out, plan, edge_of(step), bottle),
        Cause::BottleHere(bottle) => add_own_bottle_place(out, plan, edge_of(step), bottle),
        Cause::BottleThere(bottle) => add_own_bottle_place(out, plan, edge_of(step), bottle),
        Cause::BottleTokenThere(bottle) => add_own_bottle_place(out, plan, edge_of(step), bottle),
        Cause::KeptInSession(bottle) => add_own_bottle_place(out, plan, edge_of(step), bottle),
        Cause::KeptWithFork(bottle) => add_own_bottle_place(out, plan, edge_of(step), bottle),
        _ => Ok(()),
    }
}

/// The cause in words.
pub(crate) fn add_cause<A: Allocator, B: Allocator>(
    out: &mut Vec<u8, A>,
    plan: &Plan<B>,
    step: &Step,
    cause: Cause,
) -> Result<(), AllocError>
    requires { NamesWithin plan.now step.now cause }
    ensures { OnOk result (out.new.items ≡ out.old.items ++ cause_text plan.now step.now cause) }
{
    add_place(out, plan, step, cause)?;
    out.extend_from_slice(reason(&cause))
}
