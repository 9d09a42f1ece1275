//! The lines of reports and scripts.
ghost use Rattle.std.specs.Prelude.{◌≡◌, ◌+◌, ◌≤◌, ◌++◌, [], length, Some};
ghost use Rattle.lab_plan.specs.Texts.{header_line};
ghost use Rattle.report.specs.Report.{instrument_line, entry_line, withdrawn_text, job_line};
ghost use Rattle.lab_plan.specs.Upgrade.{session_line, command_line, name_line};

use crate::job_tally::JobTally;
use crate::line::Line;
use instrument_log::Entry;
use lab_plan::Verb;

/// The longest line of a report or a script has fewer bytes.
pub(crate) type TextLine = Line<128>;

/// `lab 1` or `lab 2`.
pub(crate) fn header_line(version: u8) -> TextLine
    ensures { result ≡ header_line version }
{
    let mut line = TextLine::new();
    line.text(b"lab ");
    line.number(u32::from(version));
    line.text(b"\n");
    line
}

/// `instrument NAME N`, N the number of its entries.
pub(crate) fn instrument_line(name: &[u8], entries: usize) -> TextLine
    requires { length name.now ≤ 16 }
    ensures { result ≡ instrument_line name.now entries }
{
    let mut line = TextLine::new();
    line.text(b"instrument ");
    line.text(name);
    line.text(b" ");
    line.count(entries);
    line.text(b"\n");
    line
}

/// Adds `JOB SESSION PLACE/LENGTH VERB = VALUE` to an empty line.
pub(crate) fn add_entry(line: &mut TextLine, job: &[u8], entry: &Entry)
    requires empty { line.old ≡ [] }
    requires short { length job.now ≤ 16 }
    ensures { line.new ≡ entry_line job.now entry.now }
{
    line.text(job);
    line.text(b" ");
    line.number(entry.session);
    line.text(b" ");
    line.number(entry.place);
    line.text(b"/");
    line.number(entry.length);
    line.text(b" ");
    line.verb(entry.verb);
    line.text(b" = ");
    line.number(entry.value);
    line.text(b"\n");
}

/// Adds ` withdrawn X` in version 2, nothing in version 1.
fn add_withdrawn(line: &mut TextLine, version: u8, withdrawn: u32)
    requires { length line.old + 21 ≤ 128 }
    ensures text { line.new ≡ line.old ++ withdrawn_text version withdrawn }
    ensures len { length line.new ≤ length line.old + 21 }
{
    if version == 2 {
        line.text(b" withdrawn ");
        line.number(withdrawn);
    }
}

/// `job NAME sessions D of S meals M STATE`, in version 2 with ` withdrawn X` before the meals.
pub(crate) fn job_line(version: u8, name: &[u8], tally: JobTally) -> TextLine
    requires { length name.now ≤ 16 }
    ensures { result ≡ job_line version name.now tally }
{
    let mut line = TextLine::new();
    line.text(b"job ");
    line.text(name);
    line.text(b" sessions ");
    line.number(tally.done);
    line.text(b" of ");
    line.number(tally.sessions);
    add_withdrawn(&mut line, version, tally.withdrawn);
    line.text(b" meals ");
    line.number(tally.meals);
    let state: &[u8] = if tally.is_retired {
        b" retired\n"
    } else {
        b" waiting\n"
    };
    line.text(state);
    line
}

/// `session`, or `session patience N`.
pub(crate) fn session_line(patience: Option<u32>) -> TextLine
    ensures { result ≡ session_line patience }
{
    let mut line = TextLine::new();
    line.text(b"session");
    if let Some(number) = patience {
        line.text(b" patience ");
        line.number(number);
    }
    line.text(b"\n");
    line
}

/// `NAME set N`, `NAME add N` or `NAME read`.
pub(crate) fn command_line(instrument: &[u8], verb: Verb) -> TextLine
    requires { length instrument.now ≤ 16 }
    ensures { result ≡ command_line instrument.now verb }
{
    let mut line = TextLine::new();
    line.text(instrument);
    line.text(b" ");
    line.verb(verb);
    line.text(b"\n");
    line
}

/// `job NAME`.
pub(crate) fn name_line(name: &[u8]) -> TextLine
    requires { length name.now ≤ 16 }
    ensures { result ≡ name_line name.now }
{
    let mut line = TextLine::new();
    line.text(b"job ");
    line.text(name);
    line.text(b"\n");
    line
}
