//! What follows from the definitions alone.
ghost use Rattle.report_reader.specs.Laws.{IsNoReport};

/// A text that is refused is that of no report, unless memory ran out.
pub fn no_report()
    ensures { IsNoReport }
{}
