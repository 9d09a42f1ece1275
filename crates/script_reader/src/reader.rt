//! Reads a script, line by line.
ghost use Rattle.std.specs.Prelude.{◌≡◌, ◌≤◌, [], IfOk, IfErr, IsOk, MatchResult, ◌↔◌, true, false, not};
ghost use Rattle.lab_plan.specs.Limits.{largest_number};
ghost use Rattle.lab_plan.specs.Verbs.{Fits};
ghost use Rattle.lab_plan.specs.Building.{empty_plan};
ghost use Rattle.script_reader.specs.Line.{Line, Header, Job, Session, PatientSession, Command, End, Steps, Unknown, verb_number, form_of};
ghost use Rattle.script_reader.specs.Number.{is_number, number_of};
ghost use Rattle.script_reader.specs.Plan.{verb_of};
ghost use Rattle.script_reader.specs.Script.{has};
ghost use Rattle.script_reader.specs.State.{State, Takes, ReadsForm, Ends, IsTied, state_of, version_number};
ghost use Rattle.script_reader.specs.Form.{line_of, verb_text};
ghost use Rattle.script_reader.specs.declared.fault.ScriptCause.TheVariants.{BadNumber};

use crate::fault::ScriptCause;
use crate::form::{Form, VerbField, Version, form_of};
use crate::number::{is_number, number_of};
use lab_plan::name::is_name;
use lab_plan::{Plan, PlanBuilder, Verb};
use std::alloc::Allocator;
use std::marker::Model;

/// What is known of a script after some of its lines.
#[derive(Drop)]
pub(crate) struct Reader<A: Allocator + Copy> {
    alloc: A,
    /// Before the first line.
    fresh: bool,
    version: Version,
    in_session: bool,
    /// The open session has no command yet.
    bare: bool,
    builder: PlanBuilder<A>,
}

impl<A: Allocator + Copy> Model for Reader<A> {
    ghost use Rattle.script_reader.specs.State.{State};

    ghost Value = { State };

    ghost view = { λ r. record { fresh = r.fresh; version = r.version; in_session = r.in_session; bare = r.bare; plan = r.builder } };
}

impl<A: Allocator + Copy> Reader<A> {
    /// A reader before the first line of a script.
    pub(crate) fn new(alloc: A) -> Reader<A>
        ensures { result ≡ state_of [] }
    {
        Reader {
            alloc,
            fresh: true,
            version: Version::One,
            in_session: false,
            bare: false,
            builder: PlanBuilder::new(alloc),
        }
    }

    /// A reader behind the header.
    fn of_version(alloc: A, version: Version) -> Reader<A>
        ensures { result ≡ record { fresh = false; version = version; in_session = false; bare = false; plan = empty_plan (version_number version) } }
    {
        let builder = match version {
            Version::One => PlanBuilder::new(alloc),
            Version::Two => PlanBuilder::new_two(alloc),
        };
        Reader {
            alloc,
            fresh: false,
            version,
            in_session: false,
            bare: false,
            builder,
        }
    }

    fn header(&mut self, version: Version) -> Result<(), ScriptCause>
        ensures { Takes self.old (Header version) result self.new }
    {
        if !self.fresh {
            return Err(ScriptCause::UnknownWord);
        }
        let alloc = self.alloc;
        *self = Reader::of_version(alloc, version);
        Ok(())
    }

    fn job(&mut self, name: &[u8]) -> Result<(), ScriptCause>
        requires { IsTied self.old }
        ensures { Takes self.old (Job name.now) result self.new }
    {
        if self.fresh {
            return Err(ScriptCause::NoHeader);
        }
        if self.in_session {
            return Err(ScriptCause::SessionNotClosed);
        }
        if !is_name(name) {
            return Err(ScriptCause::BadName);
        }
        self.builder.job(name)?;
        Ok(())
    }

    fn end(&mut self) -> Result<(), ScriptCause>
        ensures { Takes self.old End result self.new }
    {
        if self.fresh {
            return Err(ScriptCause::NoHeader);
        }
        if !self.in_session {
            return Err(ScriptCause::NotInSession);
        }
        if self.bare {
            return Err(ScriptCause::EmptySession);
        }
        self.in_session = false;
        Ok(())
    }

    fn session(&mut self) -> Result<(), ScriptCause>
        requires { IsTied self.old }
        ensures { Takes self.old Session result self.new }
    {
        if self.fresh {
            return Err(ScriptCause::NoHeader);
        }
        if self.in_session {
            return Err(ScriptCause::SessionNotClosed);
        }
        if !self.builder.has_job() {
            return Err(ScriptCause::NotInJob);
        }
        self.builder.session()?;
        self.in_session = true;
        self.bare = true;
        Ok(())
    }

    fn patient_session(&mut self, number: &[u8]) -> Result<(), ScriptCause>
        requires { IsTied self.old }
        ensures { Takes self.old (PatientSession number.now) result self.new }
    {
        if self.fresh {
            return Err(ScriptCause::NoHeader);
        }
        if !self.version.is_two() {
            return Err(ScriptCause::UnknownWord);
        }
        if self.in_session {
            return Err(ScriptCause::SessionNotClosed);
        }
        if !self.builder.has_job() {
            return Err(ScriptCause::NotInJob);
        }
        let patience = checked_number(number)?;
        self.builder.patient_session(patience)?;
        self.in_session = true;
        self.bare = true;
        Ok(())
    }

    fn command(&mut self, name: &[u8], verb: VerbField) -> Result<(), ScriptCause>
        requires { IsTied self.old }
        ensures { Takes self.old (Command name.now (verb_text verb.entry)) result self.new }
    {
        if self.fresh {
            return Err(ScriptCause::NoHeader);
        }
        if !self.in_session {
            return Err(ScriptCause::NotInSession);
        }
        if !is_name(name) {
            return Err(ScriptCause::BadName);
        }
        let verb = verb_of(verb)?;
        self.builder.command(name, verb)?;
        self.bare = false;
        Ok(())
    }

    fn refuse(&mut self) -> Result<(), ScriptCause>
        ensures steps { Takes self.old Steps result self.new }
        ensures unknown { Takes self.old Unknown result self.new }
    {
        if self.fresh {
            return Err(ScriptCause::NoHeader);
        }
        Err(ScriptCause::UnknownWord)
    }

    /// Takes the next line that isn't skipped.
    fn take(&mut self, form: Form) -> Result<(), ScriptCause>
        requires { IsTied self.old }
        ensures { Takes self.old (line_of form.entry) result self.new }
    {
        match form {
            Form::Header(version) => self.header(version),
            Form::Job(name) => self.job(name),
            Form::Session => self.session(),
            Form::PatientSession(number) => self.patient_session(number),
            Form::Command(name, verb) => self.command(name, verb),
            Form::End => self.end(),
            Form::Steps => self.refuse(),
            Form::Unknown => self.refuse(),
        }
    }

    /// Reads the next line of the text.
    pub(crate) fn read(&mut self, line: &[u8]) -> Result<(), ScriptCause>
        requires { IsTied self.old }
        ensures { ReadsForm self.old (form_of line.now) result self.new }
    {
        match form_of(line) {
            None => Ok(()),
            Some(form) => self.take(form),
        }
    }

    /// The plan, at the end of the script.
    pub(crate) fn finish(self) -> Result<Plan<A>, ScriptCause>
        requires { IsTied self }
        ensures { Ends self result }
    {
        if self.fresh {
            return Err(ScriptCause::NoHeader);
        }
        if self.in_session {
            return Err(ScriptCause::SessionNotClosed);
        }
        let Reader { builder, .. } = self;
        match builder.finish() {
            Ok(plan) => Ok(plan),
            Err((refusal, _builder)) => Err(ScriptCause::from(refusal)),
        }
    }
}

/// The number, if the bytes spell one.
pub(crate) fn checked_number(bytes: &[u8]) -> Result<u32, ScriptCause>
    ensures { MatchResult result (λ n. (is_number bytes.now ≡ true) × (n ≡ number_of bytes.now) × (n ≤ largest_number))
        (λ cause. (is_number bytes.now ≡ false) × (cause ≡ BadNumber)) }
{
    if !is_number(bytes) {
        return Err(ScriptCause::BadNumber);
    }
    Ok(number_of(bytes))
}

/// The verb, if its number is spelled as a number.
pub(crate) fn verb_of(verb: VerbField) -> Result<Verb, ScriptCause>
    ensures number { (has (λ number. not (is_number number)) (verb_number (verb_text verb.entry)) ≡ false) ↔ IsOk result }
    ensures ok { IfOk result (λ v. (v ≡ verb_of (verb_text verb.entry)) × Fits v) }
    ensures err { IfErr result (λ cause. cause ≡ BadNumber) }
{
    match verb {
        VerbField::Set(number) => Ok(Verb::Set(checked_number(number)?)),
        VerbField::Add(number) => Ok(Verb::Add(checked_number(number)?)),
        VerbField::Read => Ok(Verb::Read),
    }
}
