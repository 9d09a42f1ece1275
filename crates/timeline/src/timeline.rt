//! Timelines.
ghost use Rattle.std.specs.Prelude.{◌≤◌, length};
ghost use Rattle.lab_plan.specs.Limits.{most_jobs, most_instruments};
ghost use Rattle.timeline.specs.Faults.{Answers};
ghost use Rattle.timeline.specs.Clean.{AllClean};

use crate::agreement::{all_agree, all_right};
use crate::behind::pairs_of;
use crate::fault::TimelineFault;
use crate::faulty::{check, contradiction};
use crate::order::order_beside;
use crate::own::own_pairs;
use crate::place::place;
use crate::span::Span;
use report_reader::Report;
use std::alloc::{Allocator, Global};
use std::marker::Model;

/// The columns of each session of a report, and how many there are.
#[derive(Drop)]
pub struct Timeline<A: Allocator = Global> {
    spans: Vec<Span, A>,
    columns: u32,
}

impl<A: Allocator> Model for Timeline<A> {
    ghost use Rattle.timeline.specs.Timelines.{TimelineView};

    ghost Value = { TimelineView };

    ghost view = { λ t. record { spans = t.spans.items; columns = t.columns } };
}

impl<A: Allocator> Timeline<A> {
    ghost use Rattle.std.specs.Prelude.{◌≡◌};

    /// The columns of sessions, which `span_of` reads.
    pub fn spans(&self) -> &[Span]
        ensures { result.now ≡ self.now.spans }
    {
        &self.spans
    }

    /// How many columns there are.
    pub fn columns(&self) -> u32
        ensures { result ≡ self.now.columns }
    {
        self.columns
    }
}

/// A timeline of a report by the pairs of its sessions, if these columns are none. Takes time in proportion to the report's entries
/// times its jobs, if the sessions that have no columns among these are stuck: so `place` leaves them.
fn slow_timeline_of<A: Allocator + Copy>(
    alloc: A,
    report: &Report<'_, A>,
    spans: &[Span],
) -> Result<Timeline<A>, TimelineFault>
    requires { (length report.now.jobs ≤ most_jobs) × (length report.now.logs ≤ most_instruments) × AllClean report.now.jobs report.now.logs }
    ensures { Answers report.now result }
{
    let Ok(pairs) = pairs_of(alloc, report.jobs(), report.logs()) else {
        return Err(TimelineFault::NoMemory);
    };
    match order_beside(alloc, &pairs, spans) {
        Ok(Some((spans, columns))) => Ok(Timeline { spans, columns }),
        Ok(None) => Err(contradiction(alloc, report)),
        Err(_) => Err(TimelineFault::NoMemory),
    }
}

/// The timeline of a report. Takes time in proportion to the report's entries times its jobs, at most 32, and memory
/// in proportion to its entries, beside a fixed part for all sessions that a lab may have.
pub fn timeline_of<A: Allocator + Copy>(
    alloc: A,
    report: &Report<'_, A>,
) -> Result<Timeline<A>, TimelineFault>
    ensures { Answers report.now result }
{
    check(report)?;
    let Ok(own) = own_pairs(alloc, report.jobs(), report.logs()) else {
        return Err(TimelineFault::NoMemory);
    };
    let Ok((spans, columns)) = place(alloc, report.jobs(), report.logs(), &own) else {
        return Err(TimelineFault::NoMemory);
    };
    if all_agree(report.jobs(), &spans, columns, report.logs()) && all_right(&own, &spans) {
        return Ok(Timeline { spans, columns });
    }
    slow_timeline_of(alloc, report, &spans)
}
