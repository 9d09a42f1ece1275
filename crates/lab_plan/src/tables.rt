//! The tables of a plan, made from its draft in one go.
ghost use Rattle.std.specs.Prelude.{◌≡◌, ◌<◌, ◌≤◌, [], length, slice_index_or, is_ok, if◌then◌else◌, All, IfOk};
ghost use Rattle.lab_plan.specs.Limits.{most_instruments, most_commands};
ghost use Rattle.lab_plan.specs.IsPlan.{IsDraft};
ghost use Rattle.lab_plan.specs.SessionTables.{no_table};
ghost use Rattle.lab_plan.specs.Tables.{AreTablesOf, tables_with, tables_without};

use crate::bottles::{Bottles, bottles_of_all};
use crate::draft::Draft;
use crate::edge_table::EdgeTable;
use crate::instrument_set::InstrumentSet;
use crate::named_sets::Naming;
use crate::numbers::{EdgeNo, InstrumentNo, JobNo};
use crate::session_table::{JobTable, job_tables};
use crate::verb::Verb;
use std::alloc::{AllocError, Allocator, Global};
use std::marker::Model;

#[derive(Drop)]
pub(crate) struct Tables<A: Allocator = Global> {
    edges: EdgeTable<A>,
    bottles: Vec<Bottles<A>, A>,
    jobs: Vec<JobTable<A>, A>,
}

impl<A: Allocator> Model for Tables<A> {
    ghost use Rattle.lab_plan.specs.Tables.{PlanTables};

    ghost Value = { PlanTables };

    ghost view = { λ t. record { pairs = t.edges; bottle_lists = t.bottles.items; job_tables = t.jobs.items } };
}

impl<A: Allocator> Tables<A> {
    pub(crate) fn new(alloc: A, draft: &Draft<A>) -> Result<Tables<A>, AllocError>
    where
        A: Copy,
        requires { IsDraft draft.now }
        ensures { IfOk result (λ tables. AreTablesOf draft.now tables) }
    {
        let naming = Naming::new(draft);
        let edges = EdgeTable::new(alloc, &naming)?;
        let bottles = bottles_of_all(alloc, &naming, edges.pairs())?;
        let jobs = job_tables(alloc, draft.all_jobs())?;
        Ok(Tables {
            edges,
            bottles,
            jobs,
        })
    }

    /// Adds what is kept of one more session of a job, all of whose instruments the job names already.
    pub(crate) fn add_session(
        &mut self,
        job: JobNo,
        needs: InstrumentSet,
        commands: &[(InstrumentNo, Verb)],
    ) -> Result<(), AllocError>
        requires job { job < length self.old.job_tables }
        requires numbered { All (λ command. command.0 < most_instruments) commands.now }
        requires few { length commands.now ≤ most_commands }
        ensures { self.new ≡ (if is_ok result then tables_with job needs commands.now self.old else self.old) }
    {
        let table = &mut self.jobs[job.0 as usize];
        table.add_session(needs, commands)
    }

    /// Takes back the last session of a job, which has this many commands.
    pub(crate) fn take_back_session(&mut self, job: JobNo, commands: usize)
        requires job { job < length self.old.job_tables }
        requires sessions { 0 < length (slice_index_or self.old.job_tables job no_table).needs }
        requires commands { commands ≤ length (slice_index_or self.old.job_tables job no_table).places }
        ensures { self.new ≡ tables_without job commands self.old }
    {
        let table = &mut self.jobs[job.0 as usize];
        table.take_back_session(commands);
    }

    pub(crate) fn edges(&self) -> &EdgeTable<A>
        ensures { result.now ≡ self.now.pairs }
    {
        &self.edges
    }

    pub(crate) fn bottles(&self, edge: EdgeNo) -> &Bottles<A>
        requires { edge < length self.now.bottle_lists }
        ensures { result.now ≡ slice_index_or self.now.bottle_lists edge [] }
    {
        &self.bottles[edge.0 as usize]
    }

    pub(crate) fn job(&self, job: JobNo) -> &JobTable<A>
        requires { job < length self.now.job_tables }
        ensures { result.now ≡ slice_index_or self.now.job_tables job no_table }
    {
        &self.jobs[job.0 as usize]
    }
}
