//! Jobs and their sessions.
ghost use Rattle.std.specs.Prelude.{◌≡◌, ℕ, ◌+◌, ◌-◌, ◌≤◌, ◌<◌, ◌&&◌, ◌==◌, nat_lt, [], ◌∷◌, ◌++◌, length, slice_index_or, is_ok, if◌then◌else◌};
ghost use Rattle.std.specs.Str.{bytes_eq};
ghost use Rattle.lab_plan.specs.LabPlan.{no_session};
ghost use Rattle.lab_plan.specs.Building.{in_last_session, and_session};
ghost use Rattle.lab_plan.specs.Longer.{session_of, with_session};
ghost use Rattle.lab_plan.specs.Cuts.{commands_of, commands_before};

use crate::name::Name;
use crate::numbers::InstrumentNo;
use crate::verb::Verb;
use std::alloc::{AllocError, Allocator, Global};
use std::marker::Model;

/// A session: its patience, and where its commands begin among those of its job.
#[derive(Clone, Copy)]
pub(crate) struct Session {
    patience: Option<u32>,
    start: usize,
}

/// A job: its name, its sessions, and the commands of all of them, one session's behind the other's.
#[derive(Drop)]
pub(crate) struct Job<A: Allocator = Global> {
    name: Name<A>,
    sessions: Vec<Session, A>,
    commands: Vec<(InstrumentNo, Verb), A>,
}

impl<A: Allocator> Model for Job<A> {
    ghost use Rattle.std.specs.Prelude.{◌≡◌, length};
    ghost use Rattle.lab_plan.specs.LabPlan.{JobPlan};
    ghost use Rattle.lab_plan.specs.Cuts.{cut, first_start, AreInOrder};

    ghost Value = { JobPlan };

    ghost view = { λ j. record { name = j.name; sessions = cut j.sessions.items j.commands.items } };

    ghost invariant = { λ j. record {
      whole : first_start j.sessions.items (length j.commands.items) ≡ 0;
      in_order : AreInOrder j.sessions.items (length j.commands.items);
    } };
}

impl<A: Allocator> Job<A> {
    pub(crate) fn new(alloc: A, name: Name<A>) -> Job<A>
    where
        A: Copy,
        ensures { result ≡ record { name = name; sessions = [] } }
    {
        Job {
            name,
            sessions: Vec::new(alloc),
            commands: Vec::new(alloc),
        }
    }

    pub(crate) fn is(&self, name: &[u8]) -> bool
        ensures { result ≡ bytes_eq name.now self.now.name }
    {
        self.name.is(name)
    }

    /// Whether the last session has no command yet.
    pub(crate) fn is_bare(&self) -> bool
        ensures { result ≡ nat_lt 0 (length self.now.sessions)
            && (length (slice_index_or self.now.sessions (length self.now.sessions - 1) no_session).commands == 0) }
    {
        !self.sessions.is_empty()
            && self.sessions[self.sessions.len() - 1].start == self.commands.len()
    }

    pub(crate) fn begin(&mut self, patience: Option<u32>) -> Result<(), AllocError>
        ensures { self.new ≡ (if is_ok result then and_session patience self.old else self.old) }
    {
        let start = self.commands.len();
        self.sessions.push(Session { patience, start })?;
        Ok(())
    }

    pub(crate) fn push(&mut self, instrument: InstrumentNo, verb: Verb) -> Result<(), AllocError>
        requires { 0 < length self.old.sessions }
        ensures { self.new ≡ (if is_ok result then in_last_session instrument verb self.old else self.old) }
    {
        self.commands.push((instrument, verb))?;
        Ok(())
    }

    /// Adds a session with its commands.
    pub(crate) fn add_session(
        &mut self,
        patience: Option<u32>,
        commands: &[(InstrumentNo, Verb)],
    ) -> Result<(), AllocError>
        ensures { self.new ≡ (if is_ok result then with_session self.old (session_of patience commands.now) else self.old) }
    {
        self.sessions.reserve(1)?;
        let start = self.commands.len();
        self.commands.extend_from_slice(commands)?;
        self.sessions.push_reserved(Session { patience, start });
        Ok(())
    }

    pub(crate) fn name(&self) -> &Name<A>
        ensures { result.now ≡ self.now.name }
    {
        &self.name
    }

    pub(crate) fn len(&self) -> usize
        ensures { result ≡ length self.now.sessions }
    {
        self.sessions.len()
    }
}

/// A session is named by how many of its job come before it.
impl<A: Allocator> Job<A> {
    pub(crate) fn patience(&self, before: usize) -> Option<u32>
        requires { before < length self.now.sessions }
        ensures { result ≡ (slice_index_or self.now.sessions before no_session).patience }
    {
        self.sessions[before].patience
    }

    /// Where a session's commands begin among all of the job.
    pub(crate) fn start(&self, before: usize) -> usize
        requires { before < length self.now.sessions }
        ensures { result ≡ commands_before self.now.sessions before }
    {
        self.sessions[before].start
    }

    /// Where they end.
    fn end(&self, before: usize) -> usize
        requires { before < length self.now.sessions }
        ensures { result ≡ commands_before self.now.sessions (before + 1) }
    {
        match self.sessions.get(before + 1) {
            Some(next) => next.start,
            None => self.commands.len(),
        }
    }

    pub(crate) fn commands(&self, before: usize) -> &[(InstrumentNo, Verb)]
        requires { before < length self.now.sessions }
        ensures { result.now ≡ (slice_index_or self.now.sessions before no_session).commands }
    {
        &self.all_commands()[self.start(before)..self.end(before)]
    }

    /// The commands of all sessions, in order.
    pub(crate) fn all_commands(&self) -> &[(InstrumentNo, Verb)]
        ensures { result.now ≡ commands_of self.now.sessions }
    {
        &self.commands
    }
}
