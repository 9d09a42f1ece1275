//! The laws of reports. Each is the contract of a function that does nothing.
ghost use Rattle.report.specs.Events.{HasOneReport, IsReportOfEvents};

/// The report of a world is a function of its plan, its opening state and the events that led from there:
/// no other way to the same events, and nothing else of the world, shows in it.
pub fn report_of_events()
    ensures { IsReportOfEvents }
{}

/// A report reads nothing but the logs of the plan's instruments, and of the plan's jobs what they drink and
/// what they did: two shown states that agree on these have one report.
pub fn one_report()
    ensures { HasOneReport }
{}
