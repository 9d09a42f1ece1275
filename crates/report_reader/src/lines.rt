//! The lines of a report.
use lab_plan::Verb;

/// An entry: the job's session, counted from 1, did its command number `place` of `length` on the
/// instrument, and the dial showed `value` after it.
#[derive(Clone, Copy, Debug)]
pub struct EntryLine<'a> {
    pub job: &'a [u8],
    pub session: u32,
    pub place: u32,
    pub length: u32,
    pub verb: Verb,
    pub value: u32,
}

/// What a report says of a job: of `sessions` sessions `done` are done, in version 2 `withdrawn` were given
/// up, and `meals` meals were begun.
#[derive(Clone, Copy, Debug)]
pub struct JobLine<'a> {
    pub name: &'a [u8],
    pub done: u32,
    pub sessions: u32,
    pub withdrawn: Option<u32>,
    pub meals: u32,
    pub is_retired: bool,
}

/// A line of a report.
#[derive(Clone, Copy, Debug)]
pub enum Form<'a> {
    Header(u8),
    Instrument(&'a [u8], u32),
    Entry(EntryLine<'a>),
    Job(JobLine<'a>),
    Last(bool),
}
