//! Whether the two ends of every edge saw one word, by their desks.
ghost use Rattle.std.specs.Prelude.{◌≡◌, ◌<◌, ◌↔◌, ℕ, IsTrue, length};
ghost use Rattle.lab_plan.specs.LabPlan.{edges, ends, bottles};
ghost use Rattle.edge_word.specs.Words.{IsOfBottles};
ghost use Rattle.edge_rule.specs.DeskView.{Owns};
ghost use Rattle.edge_rule.specs.Ending.{Any};
ghost use Rattle.turns.specs.Lists.{Each};
ghost use Rattle.rounds.specs.Company.{AllOf, seen_by, IsAgreed};
ghost use Rattle.edge_rule.specs.Company.{jobs_of};

use edge_rule::{Bench, Desk};
use edge_word::EdgeWord;
use lab_plan::{EdgeNo, JobNo};
use std::alloc::Allocator;

/// The word that the desk of the job saw last on the edge.
fn seen_by<A: Allocator>(bench: &Bench<A>, desks: &[Desk<A>], job: JobNo, edge: EdgeNo) -> EdgeWord
    requires own { Each (Owns bench.now) desks.now }
    requires job { Any (λ j. j ≡ job) (jobs_of desks.now) }
    requires edge { edge < length (edges bench.now.plan) }
    ensures word { result ≡ seen_by desks.now job edge }
    ensures fits { IsOfBottles (length (bottles bench.now.plan edge)) result }
{
    match desks {
        [] => unreachable!(),
        [desk, others @ ..] => {
            if desk.job() == job {
                return desk.seen(edge);
            }
            seen_by(bench, others, job, edge)
        }
    }
}

/// Whether the two ends of the edge saw the same word last.
fn is_agreed_at<A: Allocator>(bench: &Bench<A>, desks: &[Desk<A>], edge: EdgeNo) -> bool
    requires own { Each (Owns bench.now) desks.now }
    requires all { AllOf bench.now.plan (jobs_of desks.now) }
    requires edge { edge < length (edges bench.now.plan) }
    ensures { IsTrue result ↔ seen_by desks.now (ends bench.now.plan edge).0 edge ≡ seen_by desks.now (ends bench.now.plan edge).1 edge }
{
    let plan = bench.plan();
    // An edge has 28 bottles at most, so two of its words are equal only if they say the same.
    let _ = plan.bottles(edge);
    let (lower, higher) = plan.ends(edge);
    let seen = seen_by(bench, desks, lower, edge);
    seen == seen_by(bench, desks, higher, edge)
}

/// Whether the two ends of every edge saw the same word last.
pub(crate) fn is_agreed<A: Allocator>(bench: &Bench<A>, desks: &[Desk<A>]) -> bool
    requires own { Each (Owns bench.now) desks.now }
    requires all { AllOf bench.now.plan (jobs_of desks.now) }
    ensures { IsTrue result ↔ IsAgreed desks.now bench.now.plan (length (edges bench.now.plan)) }
{
    let mut all = true;
    for number in 0..bench.plan().edges() {
        all = all && is_agreed_at(bench, desks, EdgeNo(number));
    }
    all
}
