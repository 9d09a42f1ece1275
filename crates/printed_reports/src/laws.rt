//! What is read of a report that was printed. Each law is the contract of a function that does nothing.
ghost use Rattle.printed_reports.specs.HasTimeline.{HasNoOtherFault, HasTimeline};
ghost use Rattle.printed_reports.specs.ReadBack.{IsReportReadBack};

/// The report of a legal list of events is the text of one report and of no other. That one is what a reader answers, unless memory
/// runs out, and its lines have the numbers, the names, the form and the end that a report has.
pub fn is_read_back()
    ensures { IsReportReadBack }
{}

/// Its logs, and each job's own sessions, have one order, that in which sessions ended: so it has a timeline.
pub fn has_timeline()
    ensures { HasTimeline }
{}

/// A timeline of it is refused only because memory ran out: it has none of the faults that a report may have.
pub fn has_no_other_fault()
    ensures { HasNoOtherFault }
{}
