//! Whether all jobs are retired, by their desks.
ghost use Rattle.std.specs.Prelude.{◌≡◌};
ghost use Rattle.turns.specs.Lists.{Each};
ghost use Rattle.edge_rule.specs.DeskView.{IsAtRest};
ghost use Rattle.edge_rule.specs.Ending.{Rests};
ghost use Rattle.session_layer.specs.Retired.{is_retired};
ghost use Rattle.rounds.specs.Company.{all_retired};

use edge_rule::Desk;
use legal_steps::Drinking;
use std::alloc::Allocator;

fn is_retired<A: Allocator>(desk: &Desk<A>) -> bool
    ensures { result ≡ is_retired desk.now }
{
    desk.phase().drinking == Drinking::Retired
}

/// Whether the job of each of the desks is retired.
pub fn all_retired<A: Allocator>(desks: &[Desk<A>]) -> bool
    ensures { result ≡ all_retired desks.now }
{
    match desks {
        [] => true,
        [desk, others @ ..] => is_retired(desk) && all_retired(others),
    }
}

/// Does nothing: says that a desk is at rest and reaches for no log. Its type keeps that, and its calls tell it.
fn is_at_rest<A: Allocator>(desk: &Desk<A>)
    ensures rest { IsAtRest desk.now }
    ensures reaches { Rests desk.now }
{
    let _ = desk.job();
}

/// Does nothing: each desk is at rest and reaches for no log, since its type keeps that. This says so of all at once, to callers
/// whose own contracts rest on it.
pub fn are_at_rest<A: Allocator>(desks: &[Desk<A>])
    ensures rest { Each IsAtRest desks.now }
    ensures none_reaches { Each Rests desks.now }
{
    match desks {
        [] => (),
        [desk, others @ ..] => {
            is_at_rest(desk);
            are_at_rest(others)
        }
    }
}
