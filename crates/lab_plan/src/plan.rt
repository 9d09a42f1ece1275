//! A plan, kept with the tables of its edges, bottles and sessions.
ghost use Rattle.std.specs.Prelude.{◌≡◌, ℕ, ◌-◌, ◌^◌, ◌<◌, ◌≤◌, length, slice_index, slice_index_or};
ghost use Rattle.std.specs.Prelude.{slice_get, All, Contains, IfSome, IfNone, is_ok, if◌then◌else◌, [], None};
ghost use Rattle.std.specs.Int.{bit_at};
ghost use Rattle.lab_plan.specs.Limits.{most_commands};
ghost use Rattle.lab_plan.specs.LabPlan.{count_on};

use crate::bottles::Bottles;
use crate::draft::Draft;
use crate::instrument_set::InstrumentSet;
use crate::numbers::{EdgeNo, InstrumentNo, JobNo};
use crate::place::Place;
use crate::session_table::JobTable;
use crate::tables::Tables;
use crate::verb::Verb;
use std::alloc::{AllocError, Allocator, Global};
use std::marker::Model;

/// How many of some commands are on an instrument.
fn count_on(commands: &[(InstrumentNo, Verb)], instrument: InstrumentNo) -> u32
    requires { length commands.now ≤ most_commands }
    ensures { result ≡ count_on instrument commands.now }
{
    let mut count = 0u32;
    for (other, _) in commands {
        if *other == instrument {
            count += 1;
        }
    }
    count
}

/// A plan: jobs with their sessions of commands on instruments, within every limit.
#[derive(Drop)]
pub struct Plan<A: Allocator = Global> {
    draft: Draft<A>,
    tables: Tables<A>,
}

impl<A: Allocator> Model for Plan<A> {
    ghost use Rattle.lab_plan.specs.LabPlan.{LabPlan};
    ghost use Rattle.lab_plan.specs.IsPlan.{IsPlan};
    ghost use Rattle.lab_plan.specs.Tables.{AreTablesOf};

    ghost Value = { LabPlan };

    ghost view = { λ p. p.draft };

    ghost invariant = { λ p. record {
      is_plan : IsPlan p.draft;
      tables_are : AreTablesOf p.draft p.tables;
    } };
}

impl<A: Allocator> Plan<A> {
    ghost use Rattle.lab_plan.specs.Limits.{most_instruments, most_sessions, most_commands, most_bottles};
    ghost use Rattle.lab_plan.specs.LabPlan.{edges, ends, edges_of, lower_first, bottles, sessions, commands};
    ghost use Rattle.lab_plan.specs.LabPlan.{patience, session_names, part, place_at, length_at, job_at, all_commands};
    ghost use Rattle.lab_plan.specs.InstrumentSets.{holds};
    ghost use Rattle.lab_plan.specs.IsPlan.{IsPlan};
    ghost use Rattle.lab_plan.specs.Names.{IsName};
    ghost use Rattle.lab_plan.specs.SessionTables.{IsJobTable, AreNeeds, AreNamedBy};
    ghost use Rattle.lab_plan.specs.Tables.{AreTablesOf};
    ghost use Rattle.lab_plan.specs.Building.{IsPlace, job_number};
    ghost use Rattle.lab_plan.specs.Longer.{session_of, with_one_more, more_refusal};

    pub(crate) fn new(draft: Draft<A>, tables: Tables<A>) -> Plan<A>
        requires plan { IsPlan draft }
        requires tables { AreTablesOf draft tables }
        ensures { result ≡ draft }
    {
        Plan { draft, tables }
    }

    /// The version of the plan's script: 1, or 2 if sessions may have a patience.
    pub fn version(&self) -> u8
        ensures { result ≡ self.now.version }
    {
        self.draft.version()
    }

    /// How many jobs there are; their numbers are the ones below it.
    pub fn jobs(&self) -> usize
        ensures jobs { result ≡ length self.now.jobs }
        ensures plan { IsPlan self.now }
    {
        self.draft.jobs()
    }

    /// How many instruments there are; their numbers are the ones below it, in order of first naming.
    pub fn instruments(&self) -> usize
        ensures instruments { result ≡ length self.now.instruments }
        ensures few { result ≤ most_instruments }
    {
        self.draft.instruments()
    }

    /// How many edges the conflict graph has: one for each pair of jobs that name some instrument together.
    pub fn edges(&self) -> u16
        ensures edges { result ≡ length (edges self.now) }
        ensures few { result ≤ 496 }
    {
        self.tables.edges().len()
    }

    /// The name of a job: 1 to 16 bytes of ASCII.
    pub fn job_name(&self, job: JobNo) -> &[u8]
        requires { job < length self.now.jobs }
        ensures value { result.now ≡ (job_at self.now job).name }
        ensures name { IsName result.now }
        ensures short { length result.now ≤ 16 }
    {
        self.draft.job_name(job)
    }

    /// The name of an instrument: 1 to 16 bytes of ASCII.
    pub fn instrument_name(&self, instrument: InstrumentNo) -> &[u8]
        requires { instrument < length self.now.instruments }
        ensures value { result.now ≡ slice_index_or self.now.instruments instrument [] }
        ensures name { IsName result.now }
        ensures short { length result.now ≤ 16 }
    {
        self.draft.instrument_name(instrument)
    }

    /// The instrument with this name.
    pub fn instrument_named(&self, name: &[u8]) -> Option<InstrumentNo>
        ensures { IsPlace name.now self.now result }
    {
        let place = self.draft.place(0, name)?;
        Some(InstrumentNo(place as u8))
    }

    /// The job with this name.
    pub fn job_named(&self, name: &[u8]) -> Option<JobNo>
        ensures found { IfSome result (λ j. job_number name.now self.now ≡ Some j) }
        ensures there { IfSome result (λ j. j < length self.now.jobs) }
        ensures none { IfNone result (job_number name.now self.now ≡ None) }
    {
        let place = self.draft.job_place(name)?;
        Some(JobNo(place as u8))
    }

    /// The two jobs of an edge, the lower number first.
    pub fn ends(&self, edge: EdgeNo) -> (JobNo, JobNo)
        requires { edge < length (edges self.now) }
        ensures ends { result ≡ ends self.now edge }
        ensures ordered { result.0 < result.1 }
        ensures jobs { result.1 < length self.now.jobs }
    {
        self.tables.edges().ends(edge)
    }

    /// The edges of a job, ascending.
    #[tactic(auto, using(crate::proofs::Readers::pairs_with_is))]
    pub fn edges_of(&self, job: JobNo) -> &[EdgeNo]
        requires { job < length self.now.jobs }
        ensures { result.now ≡ edges_of self.now job }
    {
        self.tables.edges().edges_of(job)
    }

    /// The edge of two jobs, in either order; `None` if they have nothing in common, and for a job and itself.
    pub fn edge_of(&self, a: JobNo, b: JobNo) -> Option<EdgeNo>
        requires a { a < length self.now.jobs }
        requires b { b < length self.now.jobs }
        ensures found { IfSome result (λ e. slice_get (edges self.now) e ≡ Some (lower_first a b)) }
        ensures none { IfNone result (¬ Contains (edges self.now) (lower_first a b)) }
    {
        self.tables.edges().edge_of(a, b)
    }

    #[tactic(auto, using(crate::proofs::Readers::bottles_at, crate::proofs::Readers::bottle_lists))]
    pub(crate) fn bottles_at(&self, edge: EdgeNo) -> &Bottles<A>
        requires { edge < length (edges self.now) }
        ensures bottles { result.now ≡ bottles self.now edge }
        ensures plan { IsPlan self.now }
    {
        self.tables.bottles(edge)
    }

    /// How many bottles an edge has: one of each instrument that both its jobs name.
    #[tactic(auto, using(crate::proofs::Readers::some_bottles, crate::proofs::Readers::few_bottles))]
    pub fn bottles(&self, edge: EdgeNo) -> u32
        requires { edge < length (edges self.now) }
        ensures bottles { result ≡ length (bottles self.now edge) }
        ensures some { 1 ≤ result }
        ensures few { result ≤ most_bottles }
    {
        self.bottles_at(edge).len() as u32
    }

    /// The bottle of an instrument on an edge, if both its jobs name it.
    #[tactic(auto, using(crate::proofs::Readers::few_bottles))]
    pub fn bottle_of(&self, edge: EdgeNo, instrument: InstrumentNo) -> Option<u32>
        requires { edge < length (edges self.now) }
        ensures found { IfSome result (λ k. slice_get (bottles self.now edge) k ≡ Some instrument) }
        ensures none { IfNone result (¬ Contains (bottles self.now edge) instrument) }
    {
        self.bottles_at(edge).place_of(instrument)
    }

    /// The instrument that a bottle of an edge is of; bottles are counted from 0.
    pub fn instrument_of(&self, edge: EdgeNo, bottle: u32) -> InstrumentNo
        requires is_edge { edge < length (edges self.now) }
        requires is_bottle { bottle < length (bottles self.now edge) }
        ensures { result ≡ slice_index (bottles self.now edge) bottle }
    {
        self.bottles_at(edge).at(bottle)
    }

    /// How many sessions a job has; they are counted from 1.
    pub fn sessions(&self, job: JobNo) -> u32
        requires { job < length self.now.jobs }
        ensures sessions { result ≡ length (sessions self.now job) }
        ensures few { result ≤ most_sessions }
    {
        self.draft.sessions(job) as u32
    }

    /// The commands of a session, in order.
    pub fn commands(&self, job: JobNo, session: u32) -> &[(InstrumentNo, Verb)]
        requires is_job { job < length self.now.jobs }
        requires begun { 1 ≤ session }
        requires is_session { session ≤ length (sessions self.now job) }
        ensures commands { result.now ≡ commands self.now job session }
        ensures named { All (λ command. command.0 < length self.now.instruments) result.now }
    {
        self.draft.commands(job, session)
    }

    /// How many of its own turns a session may stay thirsty, if it has a patience.
    pub fn patience(&self, job: JobNo, session: u32) -> Option<u32>
        requires is_job { job < length self.now.jobs }
        requires begun { 1 ≤ session }
        requires is_session { session ≤ length (sessions self.now job) }
        ensures { result ≡ patience self.now job session }
    {
        self.draft.patience(job, session)
    }

    #[tactic(auto, using(crate::proofs::Readers::table_of, crate::proofs::Readers::job_tables_of))]
    fn table(&self, job: JobNo) -> &JobTable<A>
        requires { job < length self.now.jobs }
        ensures table { IsJobTable (job_at self.now job) result.now }
        ensures plan { IsPlan self.now }
    {
        self.tables.job(job)
    }

    /// The instruments that a job's sessions name.
    pub(crate) fn named(&self, job: JobNo) -> InstrumentSet
        requires { job < length self.now.jobs }
        ensures { AreNamedBy (job_at self.now job) result }
    {
        self.table(job).named()
    }

    /// How many commands all sessions of the plan have. It takes one step for each job.
    pub fn all_commands(&self) -> usize
        ensures commands { result ≡ length (all_commands self.now) }
        ensures few { result ≤ most_commands }
    {
        self.draft.all_commands()
    }

    /// The instruments that a session names.
    pub(crate) fn needed(&self, job: JobNo, session: u32) -> InstrumentSet
        requires is_job { job < length self.now.jobs }
        requires begun { 1 ≤ session }
        requires is_session { session ≤ length (sessions self.now job) }
        ensures needs { AreNeeds (commands self.now job session) result }
        ensures plan { IsPlan self.now }
    {
        self.table(job).needs(session as usize - 1)
    }

    /// The instruments that a session names, as a set: bit i stands for instrument i (`has_instrument`).
    pub fn needs(&self, job: JobNo, session: u32) -> u64
        requires is_job { job < length self.now.jobs }
        requires begun { 1 ≤ session }
        requires is_session { session ≤ length (sessions self.now job) }
        ensures needs { (i : ℕ) → bit_at result i ≡ (if session_names self.now job session i then 1 else 0) }
        ensures names { (i : ℕ) → holds result i ≡ session_names self.now job session i }
        ensures few { result < 2 ^ length self.now.instruments }
    {
        self.needed(job, session).bits()
    }

    /// Adds a session that the plan doesn't refuse.
    pub(crate) fn push_session(
        &mut self,
        job: JobNo,
        patience: Option<u32>,
        commands: &[(InstrumentNo, Verb)],
    ) -> Result<(), AllocError>
        requires job { job < length self.old.jobs }
        requires granted { more_refusal self.old job (session_of patience commands.now) ≡ None }
        ensures { self.new ≡ (if is_ok result then with_one_more self.old job (session_of patience commands.now) else self.old) }
    {
        let _ = &self.draft;
        let needs = InstrumentSet::of(commands);
        self.tables.add_session(job, needs, commands)?;
        let added = self.draft.add_session(job, patience, commands);
        if added.is_err() {
            self.tables.take_back_session(job, commands.len());
        }
        added
    }

    /// How many of a session's commands are on an instrument.
    pub fn part(&self, job: JobNo, session: u32, instrument: InstrumentNo) -> u32
        requires is_job { job < length self.now.jobs }
        requires begun { 1 ≤ session }
        requires is_session { session ≤ length (sessions self.now job) }
        requires is_instrument { instrument < length self.now.instruments }
        ensures { result ≡ part self.now job session instrument }
    {
        count_on(self.draft.commands(job, session), instrument)
    }

    /// The place of a session's command, by its position counted from 0, within the session's part on its instrument.
    pub fn place(&self, job: JobNo, session: u32, position: u32) -> Place
        requires is_job { job < length self.now.jobs }
        requires begun { 1 ≤ session }
        requires is_session { session ≤ length (sessions self.now job) }
        requires is_position { position < length (commands self.now job session) }
        ensures place { result.place ≡ place_at self.now job session position }
        ensures length { result.length ≡ length_at self.now job session position }
    {
        self.table(job)
            .place(self.draft.start(job, session) + position as usize)
    }
}
