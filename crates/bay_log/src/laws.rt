//! What holds of the journal. Each law is the contract of a function that does nothing.
ghost use Rattle.bay_log.specs.Laws.{LinesAreRead, CutLinesAreRead, DurableLinesAreRead, ChangedLineIsRefused};
ghost use Rattle.bay_log.specs.Laws.{FilesAreBeginnings, HoldsAtTheCut, GrowsByALine, DurableHoldsAreRead};

/// What is written is read again.
pub fn lines_are_read()
    ensures { LinesAreRead }
{}

/// Of a file that was cut at any byte the first lines are read, and no more is lost than the torn one.
pub fn cut_lines_are_read()
    ensures { CutLinesAreRead }
{}

/// Lines that are durable are read after a crash.
pub fn durable_lines_are_read()
    ensures { DurableLinesAreRead }
{}

/// A line that was changed is refused, unless sums agree.
pub fn changed_line_is_refused()
    ensures { ChangedLineIsRefused }
{}

/// What was handed out is at all times a beginning of the one text.
pub fn files_are_beginnings()
    ensures { FilesAreBeginnings }
{}

/// Whoever holds after all lines held after each beginning of them that has the line by which it began.
pub fn holds_at_the_cut()
    ensures { HoldsAtTheCut }
{}

/// A line more changes who holds as it says, and ends behind all lines before it.
pub fn grows_by_a_line()
    ensures { GrowsByALine }
{}

/// Whoever holds, and whose hold is durable, is found to hold after a crash.
pub fn durable_holds_are_read()
    ensures { DurableHoldsAreRead }
{}
