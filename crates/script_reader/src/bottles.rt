//! Sets of bottles of an edge, by the names of their instruments.
ghost use Rattle.std.specs.Prelude.{◌≡◌, ◌<◌, length, None, Some, MatchOption};
ghost use Rattle.lab_plan.specs.Limits.{most_bottles};
ghost use Rattle.lab_plan.specs.LabPlan.{edges, bottles};
ghost use Rattle.script_reader.specs.Fields.{fields};
ghost use Rattle.script_reader.specs.Steps.{bottle_named, bottle_set};

use crate::field::next_field;
use lab_plan::{EdgeNo, Plan, is_same_name};
use std::alloc::Allocator;

/// The bottle of an edge whose instrument has this name.
#[tactic(auto, using(crate::proofs::OfInstruments::bottle_inside))]
fn bottle_named<A: Allocator>(plan: &Plan<A>, edge: EdgeNo, name: &[u8]) -> Option<u32>
    requires { edge < length (edges plan.now) }
    ensures { MatchOption result (bottle_named plan.now edge name.now ≡ None) (λ k. (bottle_named plan.now edge name.now ≡ Some k) × (k < most_bottles)) }
{
    for bottle in 0..plan.bottles(edge) {
        let instrument = plan.instrument_of(edge, bottle);
        if is_same_name(name, plan.instrument_name(instrument)) {
            return Some(bottle);
        }
    }
    None
}

/// The set of the bottles of an edge with these names, bit k for bottle k, if each is a bottle of
/// the edge and none is named twice.
pub(crate) fn bottle_set<A: Allocator>(plan: &Plan<A>, edge: EdgeNo, names: &[u8]) -> Option<u32>
    requires { edge < length (edges plan.now) }
    ensures { result ≡ bottle_set plan.now edge (fields names.now) }
{
    let mut set = 0u32;
    let mut rest = names;
    while let Some((name, others)) = next_field(rest) {
        let bottle = bottle_named(plan, edge, name)?;
        let bit = 1u32 << bottle;
        if set & bit != 0 {
            return None;
        }
        set |= bit;
        rest = others;
    }
    Some(set)
}
