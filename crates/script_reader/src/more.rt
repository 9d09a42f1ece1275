//! Further sessions for a job of a plan.
ghost use Rattle.std.specs.Prelude.{◌≡◌, ◌<◌, [], length, None, Some, Ok, Err, if◌then◌else◌, is_ok, ◌==◌, true, false, IfOk, IfErr, MatchResult};
ghost use Rattle.lab_plan.specs.Building.{and_command, instrument_number};
ghost use Rattle.lab_plan.specs.Longer.{session_of};
ghost use Rattle.script_reader.specs.Line.{Session, PatientSession, Command, End, form_of};
ghost use Rattle.script_reader.specs.Form.{line_of, verb_text};
ghost use Rattle.script_reader.specs.More.{no_sessions, with_begun, with_more, has_all_sessions, has_all_commands};
ghost use Rattle.script_reader.specs.More.{is_its_own, is_last_empty, more_end_cause, AnswersMore, TakesMore};
ghost use Rattle.script_reader.specs.declared.fault.ScriptCause.TheVariants.{NoMemory, NotItsOwn};

use crate::fault::{ScriptCause, ScriptFault, at_line};
use crate::form::{Form, VerbField, form_of};
use crate::reader::{checked_number, verb_of};
use bstr::ByteSlice;
use lab_plan::name::is_name;
use lab_plan::{InstrumentNo, JobNo, MOST_COMMANDS, MOST_SESSIONS, Plan, Verb};
use std::alloc::{AllocError, Allocator, Global};
use std::marker::Model;

/// A session that was read for a job of a plan, whose instruments it uses.
#[derive(Drop)]
pub struct FurtherSession<A: Allocator = Global> {
    patience: Option<u32>,
    commands: Vec<(InstrumentNo, Verb), A>,
}

impl<A: Allocator> Model for FurtherSession<A> {
    ghost use Rattle.lab_plan.specs.LabPlan.{SessionPlan};

    ghost Value = { SessionPlan };

    ghost view = { λ s. record { patience = s.patience; commands = s.commands.items } };
}

impl<A: Allocator> FurtherSession<A> {
    fn new(alloc: A, patience: Option<u32>) -> FurtherSession<A>
        ensures { result ≡ session_of patience [] }
    {
        FurtherSession {
            patience,
            commands: Vec::new(alloc),
        }
    }

    fn push(&mut self, instrument: InstrumentNo, verb: Verb) -> Result<(), AllocError>
        ensures { self.new ≡ (if is_ok result then and_command instrument verb self.old else self.old) }
    {
        self.commands.push((instrument, verb))?;
        Ok(())
    }

    fn is_empty(&self) -> bool
        ensures { result ≡ (length self.now.commands == 0) }
    {
        self.commands.is_empty()
    }

    /// How many of its own turns the session may stay thirsty, if it has a patience.
    pub fn patience(&self) -> Option<u32>
        ensures { result ≡ self.now.patience }
    {
        self.patience
    }

    /// Its commands, in order.
    pub fn commands(&self) -> &[(InstrumentNo, Verb)]
        ensures { result.now ≡ self.now.commands }
    {
        &self.commands
    }
}

/// The instrument with this name, if the job names it.
fn own_instrument<B: Allocator>(
    plan: &Plan<B>,
    job: JobNo,
    name: &[u8],
) -> Result<InstrumentNo, ScriptCause>
    requires { job < length plan.now.jobs }
    ensures { MatchResult result (λ i. (is_its_own plan.now job name.now ≡ true) × (i ≡ instrument_number name.now plan.now))
        (λ cause. (is_its_own plan.now job name.now ≡ false) × (cause ≡ NotItsOwn)) }
{
    match plan.instrument_named(name) {
        Some(instrument) => {
            if plan.names(job, instrument) {
                Ok(instrument)
            } else {
                Err(ScriptCause::NotItsOwn)
            }
        }
        None => Err(ScriptCause::NotItsOwn),
    }
}

/// The sessions of the lines so far.
#[derive(Drop)]
struct SessionReader<A: Allocator + Copy> {
    alloc: A,
    in_session: bool,
    sessions: Vec<FurtherSession<A>, A>,
    /// How many commands they have.
    commands: usize,
}

impl<A: Allocator + Copy> Model for SessionReader<A> {
    ghost use Rattle.std.specs.Prelude.{◌≡◌, ◌<◌, length, true};
    ghost use Rattle.lab_plan.specs.Cuts.{commands_of};
    ghost use Rattle.script_reader.specs.More.{SessionsSoFar};

    ghost Value = { SessionsSoFar };

    ghost view = { λ r. record { in_session = r.in_session; sessions = r.sessions.items } };

    ghost invariant = { λ r. record {
      counted : r.commands ≡ length (commands_of r.sessions.items);
      some : r.in_session ≡ true → 0 < length r.sessions.items;
    } };
}

impl<A: Allocator + Copy> SessionReader<A> {
    ghost use Rattle.lab_plan.specs.Limits.{most_commands};
    ghost use Rattle.lab_plan.specs.Cuts.{commands_of};

    fn new(alloc: A) -> SessionReader<A>
        ensures { result ≡ no_sessions }
    {
        SessionReader {
            alloc,
            in_session: false,
            sessions: Vec::new(alloc),
            commands: 0,
        }
    }

    fn has_all_sessions<B: Allocator>(&self, plan: &Plan<B>, job: JobNo) -> bool
        requires { job < length plan.now.jobs }
        ensures { result ≡ has_all_sessions plan.now job self.now }
    {
        self.sessions.len() >= (MOST_SESSIONS - plan.sessions(job)) as usize
    }

    fn has_all_commands<B: Allocator>(&self, plan: &Plan<B>) -> bool
        ensures { result ≡ has_all_commands plan.now self.now }
    {
        self.commands >= MOST_COMMANDS as usize - plan.all_commands()
    }

    fn begin(&mut self, patience: Option<u32>) -> Result<(), ScriptCause>
        ensures value { self.new ≡ (if is_ok result then with_begun patience self.old else self.old) }
        ensures err { IfErr result (λ cause. cause ≡ NoMemory) }
    {
        let begun = FurtherSession::new(self.alloc, patience);
        if self.sessions.push(begun).is_err() {
            return Err(ScriptCause::NoMemory);
        }
        self.in_session = true;
        Ok(())
    }

    fn push(&mut self, instrument: InstrumentNo, verb: Verb) -> Result<(), ScriptCause>
        requires in_session { self.old.in_session ≡ true }
        requires few { length (commands_of self.old.sessions) < most_commands }
        ensures value { self.new ≡ (if is_ok result then with_more instrument verb self.old else self.old) }
        ensures err { IfErr result (λ cause. cause ≡ NoMemory) }
    {
        let last = self.sessions.len() - 1;
        let session = &mut self.sessions[last];
        if session.push(instrument, verb).is_err() {
            return Err(ScriptCause::NoMemory);
        }
        self.commands += 1;
        Ok(())
    }

    fn session<B: Allocator>(&mut self, plan: &Plan<B>, job: JobNo) -> Result<(), ScriptCause>
        requires { job < length plan.now.jobs }
        ensures { TakesMore plan.now job self.old (Some Session) result self.new }
    {
        if self.in_session {
            return Err(ScriptCause::SessionNotClosed);
        }
        if self.has_all_sessions(plan, job) {
            return Err(ScriptCause::LimitPassed);
        }
        self.begin(None)
    }

    fn patient_session<B: Allocator>(
        &mut self,
        plan: &Plan<B>,
        job: JobNo,
        number: &[u8],
    ) -> Result<(), ScriptCause>
        requires { job < length plan.now.jobs }
        ensures { TakesMore plan.now job self.old (Some (PatientSession number.now)) result self.new }
    {
        if plan.version() != 2 {
            return Err(ScriptCause::UnknownWord);
        }
        if self.in_session {
            return Err(ScriptCause::SessionNotClosed);
        }
        let patience = checked_number(number)?;
        if self.has_all_sessions(plan, job) {
            return Err(ScriptCause::LimitPassed);
        }
        self.begin(Some(patience))
    }

    fn command<B: Allocator>(
        &mut self,
        plan: &Plan<B>,
        job: JobNo,
        name: &[u8],
        verb: VerbField,
    ) -> Result<(), ScriptCause>
        requires { job < length plan.now.jobs }
        ensures { TakesMore plan.now job self.old (Some (Command name.now (verb_text verb.entry))) result self.new }
    {
        if !self.in_session {
            return Err(ScriptCause::NotInSession);
        }
        if !is_name(name) {
            return Err(ScriptCause::BadName);
        }
        let verb = verb_of(verb)?;
        if self.has_all_commands(plan) {
            return Err(ScriptCause::LimitPassed);
        }
        let instrument = own_instrument(plan, job, name)?;
        self.push(instrument, verb)
    }

    fn is_last_empty(&self) -> bool
        requires { self.now.in_session ≡ true }
        ensures { result ≡ is_last_empty self.now }
    {
        self.sessions[self.sessions.len() - 1].is_empty()
    }

    fn end<B: Allocator>(&mut self, plan: &Plan<B>, job: JobNo) -> Result<(), ScriptCause>
        ensures { TakesMore plan.now job self.old (Some End) result self.new }
    {
        if !self.in_session {
            return Err(ScriptCause::NotInSession);
        }
        if self.is_last_empty() {
            return Err(ScriptCause::EmptySession);
        }
        self.in_session = false;
        Ok(())
    }

    fn take<B: Allocator>(
        &mut self,
        plan: &Plan<B>,
        job: JobNo,
        form: Form,
    ) -> Result<(), ScriptCause>
        requires { job < length plan.now.jobs }
        ensures { TakesMore plan.now job self.old (Some (line_of form.entry)) result self.new }
    {
        match form {
            Form::Session => self.session(plan, job),
            Form::PatientSession(number) => self.patient_session(plan, job, number),
            Form::Command(name, verb) => self.command(plan, job, name, verb),
            Form::End => self.end(plan, job),
            Form::Header(_) => Err(ScriptCause::UnknownWord),
            Form::Job(_) => Err(ScriptCause::UnknownWord),
            Form::Steps => Err(ScriptCause::UnknownWord),
            Form::Unknown => Err(ScriptCause::UnknownWord),
        }
    }

    /// Reads the next line of the text.
    fn read<B: Allocator>(
        &mut self,
        plan: &Plan<B>,
        job: JobNo,
        line: &[u8],
    ) -> Result<(), ScriptCause>
        requires { job < length plan.now.jobs }
        ensures { TakesMore plan.now job self.old (form_of line.now) result self.new }
    {
        match form_of(line) {
            None => Ok(()),
            Some(form) => self.take(plan, job, form),
        }
    }

    /// The sessions, at the end of the text.
    fn finish(self) -> Result<Vec<FurtherSession<A>, A>, ScriptCause>
        ensures { MatchResult result (λ further. (more_end_cause self ≡ None) × (further.items ≡ self.sessions)) (λ cause. more_end_cause self ≡ Some cause) }
    {
        if self.in_session {
            return Err(ScriptCause::SessionNotClosed);
        }
        if self.sessions.is_empty() {
            return Err(ScriptCause::EmptySession);
        }
        let SessionReader { sessions, .. } = self;
        Ok(sessions)
    }
}

/// Reads one or more sessions for a job of a plan, as a script has them: `session` or `session patience N`, commands, `end`. They may use
/// the instruments that the job's sessions name already, and `Plan::add_session` takes them one by one.
///
/// The fault is that of the first line that meets a cause, with the first cause that it meets in the order of docs/FORMATS.md, or that of
/// the text's end; or it is that memory ran out at a line up to which no line meets a cause.
pub fn read_sessions<A: Allocator + Copy, B: Allocator>(
    alloc: A,
    plan: &Plan<B>,
    job: JobNo,
    text: &[u8],
) -> Result<Vec<FurtherSession<A>, A>, ScriptFault>
    requires { job < length plan.now.jobs }
    ensures ok { IfOk result (λ further. AnswersMore plan.now job text.now (Ok further.items)) }
    ensures err { IfErr result (λ fault. AnswersMore plan.now job text.now (Err fault)) }
{
    let mut reader = SessionReader::new(alloc);
    let mut number = 1usize;
    for line in text.lines() {
        at_line(number, reader.read(plan, job, line))?;
        number += 1;
    }
    at_line(number, reader.finish())
}
