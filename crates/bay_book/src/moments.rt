//! When the time of an ask is over.
ghost use Rattle.std.specs.Prelude.{◌≡◌, ◌==◌};
ghost use Rattle.std.specs.Int.{bit_at};
ghost use Rattle.bay_book.specs.Moments.{plus, after, later, sooner, is_past, until, late_end, if_holds, kept_until, limit_end};
ghost use Rattle.bay_book.specs.Moments.{common, is_wanted, due_at, limit_due_at, is_late, is_gone_too_long, is_over_limit};

use crate::ask::{Ask, End, Stage};
use crate::telling::is_written;

/// So long after a moment.
fn plus(moment: u64, span: u64) -> u64
    ensures { result ≡ plus moment span }
{
    if span <= u64::MAX - moment {
        moment + span
    } else {
        u64::MAX
    }
}

/// So long after a moment, if there is one.
fn after(moment: Option<u64>, span: Option<u64>) -> Option<u64>
    ensures { result ≡ after moment span }
{
    match (moment, span) {
        (Some(moment), Some(span)) => Some(plus(moment, span)),
        (Some(_), None) => None,
        (None, Some(_)) => None,
        (None, None) => None,
    }
}

/// The later of the two.
fn later(a: Option<u64>, b: Option<u64>) -> Option<u64>
    ensures { result ≡ later a b }
{
    match (a, b) {
        (Some(a), Some(b)) => Some(a.max(b)),
        (Some(_), None) => None,
        (None, Some(_)) => None,
        (None, None) => None,
    }
}

/// The sooner of those that there are.
pub(crate) fn sooner(a: Option<u64>, b: Option<u64>) -> Option<u64>
    ensures { result ≡ sooner a b }
{
    match (a, b) {
        (Some(a), Some(b)) => Some(a.min(b)),
        (Some(a), None) => Some(a),
        (None, Some(b)) => Some(b),
        (None, None) => None,
    }
}

/// Whether the moment is over.
fn is_past(moment: Option<u64>, now: u64) -> bool
    ensures { result ≡ is_past now moment }
{
    match moment {
        None => false,
        Some(moment) => moment <= now,
    }
}

/// Until when it may wait, and once it holds, until when the disk may take to write that. A hold that is written has all the time.
fn until(ask: Ask, durable: u64, disk: Option<u64>) -> Option<u64>
    ensures { result ≡ until durable disk ask }
{
    match ask.stage {
        Stage::Waits => ask.deadline,
        Stage::Holds => {
            if is_written(ask.hold_line, durable) {
                None
            } else {
                later(ask.deadline, after(Some(ask.since), disk))
            }
        }
        Stage::Over(_) => None,
    }
}

/// How it ends, if that is over.
pub(crate) fn late_end(stage: Stage) -> End
    ensures { result ≡ late_end stage }
{
    match stage {
        Stage::Waits => End::Lapsed,
        Stage::Holds => End::NotWritten,
        Stage::Over(how) => how,
    }
}

/// A moment of one that holds.
fn if_holds(stage: Stage, moment: Option<u64>) -> Option<u64>
    ensures { result ≡ if_holds stage moment }
{
    match stage {
        Stage::Waits => None,
        Stage::Holds => moment,
        Stage::Over(_) => None,
    }
}

/// Until when it holds though its client is gone.
fn kept_until(ask: Ask, grace: Option<u64>) -> Option<u64>
    ensures { result ≡ kept_until grace ask }
{
    if_holds(ask.stage, after(ask.gone, grace))
}

/// Until when it holds though somebody waits for what it has.
fn limit_end(ask: Ask) -> Option<u64>
    ensures { result ≡ limit_end ask }
{
    if_holds(ask.stage, after(Some(ask.since), ask.limit))
}

/// Whether something is in both sets.
pub(crate) fn common(a: u64, b: u64) -> bool
    ensures { result ≡ common a b }
{
    a & b != 0
}

/// Whether the class is in the set.
fn has_class(full: u32, class: u32) -> bool
    ensures { result ≡ (bit_at full class == 1) }
{
    class < 32 && full >> class & 1 == 1
}

/// Whether somebody waits for what it has.
fn is_wanted(ask: Ask, wanted: u64, full: u32) -> bool
    ensures { result ≡ is_wanted wanted full ask }
{
    common(ask.needs, wanted) || has_class(full, ask.class)
}

/// The next moment at which something of it is over, whoever waits.
pub(crate) fn due_at(ask: Ask, grace: Option<u64>, durable: u64, disk: Option<u64>) -> Option<u64>
    ensures { result ≡ due_at grace durable disk ask }
{
    sooner(until(ask, durable, disk), kept_until(ask, grace))
}

/// If somebody waits for what it has, the moment at which its limit is over.
pub(crate) fn limit_due_at(ask: Ask, wanted: u64, full: u32) -> Option<u64>
    ensures { result ≡ limit_due_at wanted full ask }
{
    if is_wanted(ask, wanted, full) {
        limit_end(ask)
    } else {
        None
    }
}

/// Whether its wait is over, or the disk took too long.
pub(crate) fn is_late(ask: Ask, now: u64, durable: u64, disk: Option<u64>) -> bool
    ensures { result ≡ is_late now durable disk ask }
{
    is_past(until(ask, durable, disk), now)
}

/// Whether its client is gone for too long.
pub(crate) fn is_gone_too_long(ask: Ask, now: u64, grace: Option<u64>) -> bool
    ensures { result ≡ is_gone_too_long now grace ask }
{
    is_past(kept_until(ask, grace), now)
}

/// Whether its limit is over, and somebody waits for what it has.
pub(crate) fn is_over_limit(ask: Ask, now: u64, wanted: u64, full: u32) -> bool
    ensures { result ≡ is_over_limit now wanted full ask }
{
    is_past(limit_due_at(ask, wanted, full), now)
}
