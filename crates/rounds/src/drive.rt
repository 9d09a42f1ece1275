//! Rounds one after another, until all jobs are retired, or a round was quiet, or the limit is there.
ghost use Rattle.std.specs.Prelude.{◌≡◌};
ghost use Rattle.turns.specs.Lists.{Each};
ghost use Rattle.edge_rule.specs.DeskView.{Owns};
ghost use Rattle.edge_rule.specs.Ending.{HasAll};
ghost use Rattle.edge_rule.specs.Company.{jobs_of};
ghost use Rattle.rounds.specs.Company.{AllOf, IsWhole, Spread};
ghost use Rattle.rounds.specs.Rounds.{Played, Drove, players_of};

use crate::agreement::is_agreed;
use crate::ended::Ended;
use crate::one_round::round;
use crate::retired::{all_retired, are_at_rest};
use edge_rule::{Bench, Desk, News, heed, meet_all, tell};
use std::alloc::Allocator;

/// Rounds, each desk hearing from the one before. Answers too what was seen then.
fn play<A: Allocator>(
    bench: &Bench<A>,
    desks: &mut [Desk<A>],
    limit: u32,
    news: News<A>,
) -> (Ended, u32, News<A>)
    requires spread { Spread bench.now news.front desks.old }
    requires news { news.table ≡ bench.now.table }
    requires all { AllOf bench.now.plan (jobs_of desks.old) }
    ensures spread { Spread bench.now result.2.front desks.new }
    ensures news { result.2.table ≡ bench.now.table }
    ensures jobs { jobs_of desks.new ≡ jobs_of desks.old }
    ensures played { IsWhole result.2.front desks.new → IsWhole news.front desks.old
        × Played bench.now limit (players_of desks.old) news.front result.0 result.1 result.2.front desks.new }
{
    let mut quiet = false;
    let mut last = news;
    for number in 0..limit {
        if all_retired(desks) {
            return (Ended::AllRetired, number, last);
        }
        if quiet {
            return (Ended::Quiet, number, last);
        }
        let (idle, later) = round(bench, desks, last);
        last = later;
        // A turn may be idle by a word that its neighbour has exchanged since: so both ends must have seen one word.
        quiet = idle && is_agreed(bench, desks);
    }
    if all_retired(desks) {
        return (Ended::AllRetired, limit, last);
    }
    if quiet {
        return (Ended::Quiet, limit, last);
    }
    (Ended::Limit, limit, last)
}

/// Drives all desks of the bench, one turn each a round in the order of the slice, and answers why it ended, and after how
/// many rounds. Before the first round and after each it asks, in this order: are all jobs retired, was the last round
/// quiet, is the number the limit?
///
/// It takes no memory, and waits for nobody. A desk hears of what the one before it has seen; all meet before the first turn
/// and after the last, so a turn's share of meeting doesn't grow with the number of desks.
pub fn rounds<A: Allocator>(bench: &Bench<A>, desks: &mut [Desk<A>], limit: u32) -> (Ended, u32)
    requires own { Each (Owns bench.now) desks.old }
    requires all { HasAll bench.now.plan desks.old }
    ensures { Drove bench.now limit desks.old result.0 result.1 desks.new }
{
    if desks.is_empty() {
        return (Ended::AllRetired, 0);
    }
    are_at_rest(desks);
    // Each desk has seen a beginning of the one history. The first is to see as much of it as any, with every record whole.
    meet_all(bench, desks);
    let news = tell(bench, &mut desks[0]);
    let (ended, number, last) = play(bench, desks, limit, news);
    // It hears of all turns. That nobody else acted between them is known only when all meet again.
    heed(bench, &mut desks[0], last);
    meet_all(bench, desks);
    (ended, number)
}
