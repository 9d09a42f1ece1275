//! Reads a report, line by line.
ghost use Rattle.std.specs.Prelude.{◌≡◌, ◌<◌, length, map, is_ok, if◌then◌else◌};
ghost use Rattle.std.specs.List.{list_all};
ghost use Rattle.lab_plan.specs.Building.{on_last};
ghost use Rattle.report_reader.specs.Line.{Header, Instrument, Entry, Job, Last};
ghost use Rattle.report_reader.specs.Form.{line_text, entry_text, job_text};
ghost use Rattle.report_reader.specs.Read.{line_of};
ghost use Rattle.report_reader.specs.Report.{words};
ghost use Rattle.report_reader.specs.State.{opening, all_retired, is_within, is_due, is_two, with_entry, Takes, Reads, Ends};

use crate::fault::ReportCause;
use crate::form::line_of;
use crate::lines::{EntryLine, Form, JobLine};
use crate::parts::parts;
use crate::report::{Log, Report};
use std::alloc::{AllocError, Allocator};
use std::marker::Model;

/// What is known of a report after some of its lines.
#[derive(Drop)]
pub(crate) struct Reader<'a, A: Allocator + Copy> {
    alloc: A,
    version: Option<u8>,
    logs: Vec<Log<'a, A>, A>,
    /// How many entries are due in the last log.
    due: u32,
    jobs: Vec<JobLine<'a>, A>,
    last: Option<bool>,
}

impl<'a, A: Allocator + Copy> Model for Reader<'a, A> {
    ghost use Rattle.std.specs.Prelude.{map};
    ghost use Rattle.report_reader.specs.State.{State};
    ghost use Rattle.report_reader.specs.Form.{job_text};

    ghost Value = { State };

    ghost view = { λ r. record { version = r.version; logs = r.logs.items; due = r.due; jobs = map job_text r.jobs.items; last = r.last } };
}

fn all_retired(jobs: &[JobLine]) -> bool
    ensures { result ≡ list_all (λ job. job.is_retired) jobs.now }
{
    jobs.iter().all(|job| job.is_retired)
}

/// One more entry of the last log.
fn push_entry<'a, A: Allocator>(
    logs: &mut Vec<Log<'a, A>, A>,
    entry: EntryLine<'a>,
) -> Result<(), AllocError>
    requires { 0 < length logs.old.items }
    ensures { logs.new.items ≡ (if is_ok result then on_last (with_entry (entry_text entry.entry)) logs.old.items else logs.old.items) }
{
    let last = logs.len() - 1;
    let log = &mut logs[last];
    log.push(entry)
}

impl<'a, A: Allocator + Copy> Reader<'a, A> {
    pub(crate) fn new(alloc: A) -> Reader<'a, A>
        ensures { result ≡ opening }
    {
        Reader {
            alloc,
            version: None,
            logs: Vec::new(alloc),
            due: 0,
            jobs: Vec::new(alloc),
            last: None,
        }
    }

    fn is_within(&self) -> bool
        ensures { result ≡ is_within self.now }
    {
        self.version.is_some() && self.last.is_none()
    }

    fn is_due(&self) -> bool
        ensures { result ≡ is_due self.now }
    {
        self.due > 0 && !self.logs.is_empty()
    }

    #[tactic(auto, unfolding(crate::specs::State::cause_in, crate::specs::State::after))]
    fn header(&mut self, version: u8) -> Result<(), ReportCause>
        ensures { Takes self.old (Header version) result self.new }
    {
        if self.version.is_some() {
            return Err(ReportCause::OutOfPlace);
        }
        self.version = Some(version);
        Ok(())
    }

    #[tactic(auto, unfolding(crate::specs::State::cause_in, crate::specs::State::after))]
    fn instrument(&mut self, name: &'a [u8], entries: u32) -> Result<(), ReportCause>
        ensures { Takes self.old (Instrument name.now entries) result self.new }
    {
        if !self.is_within() || self.due > 0 || !self.jobs.is_empty() {
            return Err(ReportCause::OutOfPlace);
        }
        match self.logs.push(Log::new(self.alloc, name)) {
            Ok(()) => {
                self.due = entries;
                Ok(())
            }
            Err(_) => Err(ReportCause::NoMemory),
        }
    }

    #[tactic(auto, unfolding(crate::specs::State::cause_in, crate::specs::State::after))]
    fn entry(&mut self, entry: EntryLine<'a>) -> Result<(), ReportCause>
        ensures { Takes self.old (Entry (entry_text entry.entry)) result self.new }
    {
        if !self.is_within() || !self.is_due() {
            return Err(ReportCause::OutOfPlace);
        }
        match push_entry(&mut self.logs, entry) {
            Ok(()) => {
                self.due -= 1;
                Ok(())
            }
            Err(_) => Err(ReportCause::NoMemory),
        }
    }

    #[tactic(auto, unfolding(crate::specs::State::cause_in, crate::specs::State::after))]
    fn job(&mut self, job: JobLine<'a>) -> Result<(), ReportCause>
        ensures { Takes self.old (Job (job_text job.entry)) result self.new }
    {
        if !self.is_within() || self.due > 0 {
            return Err(ReportCause::OutOfPlace);
        }
        if job.withdrawn.is_some() != (self.version == Some(2)) {
            return Err(ReportCause::OtherVersion);
        }
        match self.jobs.push(job) {
            Ok(()) => Ok(()),
            Err(_) => Err(ReportCause::NoMemory),
        }
    }

    #[tactic(auto, using(crate::proofs::Texts::all_texts), unfolding(crate::specs::State::cause_in, crate::specs::State::after))]
    fn last(&mut self, is_finished: bool) -> Result<(), ReportCause>
        ensures { Takes self.old (Last is_finished) result self.new }
    {
        if !self.is_within() || self.due > 0 {
            return Err(ReportCause::OutOfPlace);
        }
        if is_finished != all_retired(&self.jobs) {
            return Err(ReportCause::WrongEnd);
        }
        self.last = Some(is_finished);
        Ok(())
    }

    fn take(&mut self, form: Form<'a>) -> Result<(), ReportCause>
        ensures { Takes self.old (line_text form.entry) result self.new }
    {
        match form {
            Form::Header(version) => self.header(version),
            Form::Instrument(name, entries) => self.instrument(name, entries),
            Form::Entry(entry) => self.entry(entry),
            Form::Job(job) => self.job(job),
            Form::Last(is_finished) => self.last(is_finished),
        }
    }

    /// Reads the next line.
    pub(crate) fn read(&mut self, line: &'a [u8]) -> Result<(), ReportCause>
        ensures { Reads self.old (line_of (words line.now)) result self.new }
    {
        let Ok(words) = parts(self.alloc, line, b' ') else {
            return Err(ReportCause::NoMemory);
        };
        match line_of(&words) {
            None => Err(ReportCause::UnknownLine),
            Some(form) => self.take(form),
        }
    }

    /// The report, at the end of the text.
    pub(crate) fn finish(self) -> Result<Report<'a, A>, ReportCause>
        ensures { Ends self.entry result }
    {
        let Reader {
            version,
            logs,
            jobs,
            last,
            ..
        } = self;
        match (version, last) {
            (Some(version), Some(is_finished)) => Ok(Report::new(version, logs, jobs, is_finished)),
            _ => Err(ReportCause::NotWhole),
        }
    }
}
