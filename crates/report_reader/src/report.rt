//! A report that was read.
use crate::lines::{EntryLine, JobLine};
use std::alloc::{AllocError, Allocator, Global};
use std::marker::Model;

/// An instrument with its log.
#[derive(Drop)]
pub struct Log<'a, A: Allocator = Global> {
    name: &'a [u8],
    entries: Vec<EntryLine<'a>, A>,
}

impl<'a, A: Allocator> Model for Log<'a, A> {
    ghost use Rattle.std.specs.Prelude.{map};
    ghost use Rattle.report_reader.specs.Report.{LogText};
    ghost use Rattle.report_reader.specs.Form.{entry_text};

    ghost Value = { LogText };

    ghost view = { λ l. record { name = l.name.now; entries = map entry_text l.entries.items } };
}

impl<'a, A: Allocator> Log<'a, A> {
    ghost use Rattle.std.specs.Prelude.{◌≡◌, [], map, is_ok, if◌then◌else◌};
    ghost use Rattle.report_reader.specs.Form.{entry_text};
    ghost use Rattle.report_reader.specs.State.{with_entry};

    pub(crate) fn new(alloc: A, name: &'a [u8]) -> Log<'a, A>
        ensures { result ≡ record { name = name.now; entries = [] } }
    {
        Log {
            name,
            entries: Vec::new(alloc),
        }
    }

    pub(crate) fn push(&mut self, entry: EntryLine<'a>) -> Result<(), AllocError>
        ensures { self.new ≡ (if is_ok result then with_entry (entry_text entry.entry) self.old else self.old) }
    {
        self.entries.push(entry)?;
        Ok(())
    }

    /// The instrument's name.
    pub fn name(&self) -> &[u8]
        ensures { result.now ≡ self.now.name }
    {
        self.name
    }

    /// The entries in the order of the log.
    pub fn entries(&self) -> &[EntryLine<'a>]
        ensures { map entry_text result.now ≡ self.now.entries }
    {
        &self.entries
    }
}

/// A report: the version of its script, the instruments with their logs, what it says of each job, and
/// whether the run was finished.
#[derive(Drop)]
pub struct Report<'a, A: Allocator = Global> {
    version: u8,
    logs: Vec<Log<'a, A>, A>,
    jobs: Vec<JobLine<'a>, A>,
    is_finished: bool,
}

impl<'a, A: Allocator> Model for Report<'a, A> {
    ghost use Rattle.std.specs.Prelude.{map};
    ghost use Rattle.report_reader.specs.Report.{ReportText};
    ghost use Rattle.report_reader.specs.Form.{job_text};

    ghost Value = { ReportText };

    ghost view = { λ r. record { version = r.version; logs = r.logs.items; jobs = map job_text r.jobs.items; is_finished = r.is_finished } };
}

impl<'a, A: Allocator> Report<'a, A> {
    ghost use Rattle.std.specs.Prelude.{◌≡◌, map};
    ghost use Rattle.report_reader.specs.Form.{job_text};

    pub(crate) fn new(
        version: u8,
        logs: Vec<Log<'a, A>, A>,
        jobs: Vec<JobLine<'a>, A>,
        is_finished: bool,
    ) -> Report<'a, A>
        ensures { result ≡ record { version = version; logs = logs.entry.items; jobs = map job_text jobs.entry.items; is_finished = is_finished } }
    {
        Report {
            version,
            logs,
            jobs,
            is_finished,
        }
    }

    /// 1 or 2.
    pub fn version(&self) -> u8
        ensures { result ≡ self.now.version }
    {
        self.version
    }

    /// The instruments with their logs, in the report's order.
    pub fn logs(&self) -> &[Log<'a, A>]
        ensures { result.now ≡ self.now.logs }
    {
        &self.logs
    }

    /// What it says of each job, in the report's order.
    pub fn jobs(&self) -> &[JobLine<'a>]
        ensures { map job_text result.now ≡ self.now.jobs }
    {
        &self.jobs
    }

    /// Whether every job was retired.
    pub fn is_finished(&self) -> bool
        ensures { result ≡ self.now.is_finished }
    {
        self.is_finished
    }
}
