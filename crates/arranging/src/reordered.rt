//! Whether a plan has the jobs of another in the order of their colours.
ghost use Rattle.std.specs.Prelude.{◌≡◌, ◌≢◌, ◌↔◌, ℕ, ◌<◌, IsTrue, length, slice_index};
ghost use Rattle.std.specs.List.{All};
ghost use Rattle.lab_plan.specs.LabPlan.{edges, ends};
ghost use Rattle.arranging.specs.Colours.{IsColouring, in_order};
ghost use Rattle.arranging.specs.Reordered.{IsArrangement};

use crate::colours::Colouring;
use crate::same_jobs::has_jobs_of;
use lab_plan::{EdgeNo, JobNo, Plan};
use std::alloc::Allocator;

/// Whether the two jobs of each edge have different colours, if the jobs had these colours before they were put in this order.
fn differ_along<A: Allocator>(plan: &Plan<A>, colours: &[u8], order: &[JobNo]) -> bool
    requires jobs { length order.now ≡ length plan.now.jobs }
    requires coloured { All (λ job. job < length colours.now) order.now }
    ensures { IsTrue result ↔ ((e : ℕ) → e < length (edges plan.now)
        → slice_index colours.now (slice_index order.now (ends plan.now e).0) ≢ slice_index colours.now (slice_index order.now (ends plan.now e).1)) }
{
    for edge in 0..plan.edges() {
        let (low, high) = plan.ends(EdgeNo(edge));
        let first = order[low.0 as usize];
        let second = order[high.0 as usize];
        if colours[first.0 as usize] == colours[second.0 as usize] {
            return false;
        }
    }
    true
}

/// Whether a plan has the jobs of another in the order of their colours, and those of one colour share nothing there. So a plan
/// that was read from a text is judged, however the text was made.
pub fn is_arrangement<A: Allocator, B: Allocator, C: Allocator>(
    plan: &Plan<A>,
    colouring: &Colouring<B>,
    order: &[JobNo],
    arranged: &Plan<C>,
) -> bool
    requires colours { IsColouring plan.now colouring.now.colours colouring.now.count }
    requires order { order.now ≡ in_order colouring.now.colours colouring.now.count }
    ensures { IsTrue result ↔ IsArrangement plan.now colouring.now arranged.now }
{
    if plan.version() != arranged.version() {
        return false;
    }
    if order.len() != arranged.jobs() {
        return false;
    }
    if !has_jobs_of(plan, order, arranged) {
        return false;
    }
    differ_along(arranged, colouring.colours(), order)
}
