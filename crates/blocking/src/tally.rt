//! What is counted of a job's present session, and who kept its earlier ones.
ghost use Rattle.std.specs.Prelude.{◌≡◌, ◌<◌, length, replicate, [], IfOk, OnOk};
ghost use Rattle.rounds.specs.Company.{first_front};
ghost use Rattle.waiting.specs.Watching.{KnowAll};
ghost use Rattle.blocking.specs.Tallying.{fresh_tally, put_away, moved_to, FitsTally, TallyThen};

use crate::sides::{Side, add_sides, count_round, take_counts};
use block_lines::{Block, largest_three};
use edge_rule::Desk;
use lab_plan::{JobNo, Plan};
use std::alloc::{AllocError, Allocator, Global};
use std::marker::Model;

/// Who kept a session waiting.
#[derive(Drop)]
pub(crate) struct SessionKeepers<A: Allocator = Global> {
    blocks: Vec<Block, A>,
}

impl<A: Allocator> Model for SessionKeepers<A> {
    ghost use Rattle.std.specs.Prelude.{List};
    ghost use Rattle.block_lines.specs.declared.block.Block.{Block};

    ghost Value = { List Block };

    ghost view = { λ k. k.blocks.items };
}

impl<A: Allocator> SessionKeepers<A> {
    pub fn blocks(&self) -> &[Block]
        ensures { result.now ≡ self.now }
    {
        &self.blocks
    }
}

/// The number of a job's present session, what is counted of this session at each end of an edge of the job, and who kept each of
/// the others, by their numbers.
#[derive(Drop)]
pub(crate) struct Tally<A: Allocator = Global> {
    session: u32,
    sides: Vec<Side<A>, A>,
    kept: Vec<SessionKeepers<A>, A>,
}

impl<A: Allocator> Model for Tally<A> {
    ghost use Rattle.blocking.specs.Tallying.{TallyView};

    ghost Value = { TallyView };

    ghost view = { λ t. record { session = t.session; sides = t.sides.items; kept = t.kept.items } };
}

/// Nobody, for each of this many sessions.
fn nobody<A: Allocator + Copy>(
    alloc: A,
    sessions: u32,
) -> Result<Vec<SessionKeepers<A>, A>, AllocError>
    ensures { IfOk result (λ kept. kept.items ≡ replicate sessions []) }
{
    let mut kept = Vec::new(alloc);
    for _session in 0..sessions {
        kept.push(SessionKeepers {
            blocks: Vec::new(alloc),
        })?;
    }
    Ok(kept)
}

impl<A: Allocator> Tally<A> {
    /// A job before the first round.
    pub(crate) fn new(alloc: A, plan: &Plan<A>, job: JobNo) -> Result<Tally<A>, AllocError>
    where
        A: Copy,
        requires { job < length plan.now.jobs }
        ensures { IfOk result (λ tally. tally ≡ fresh_tally plan.now job) }
    {
        let mut sides = Vec::new(alloc);
        add_sides(&mut sides, alloc, plan, job)?;
        let kept = nobody(alloc, plan.sessions(job))?;
        Ok(Tally {
            session: 0,
            sides,
            kept,
        })
    }

    /// Who kept each session, by its number.
    pub(crate) fn kept(&self) -> &[SessionKeepers<A>]
        ensures { result.now ≡ self.now.kept }
    {
        &self.kept
    }

    /// Keeps, beside the other sessions, who kept the present one, and counts nothing from now on.
    pub(crate) fn put_away(&mut self, alloc: A, plan: &Plan<A>) -> Result<(), AllocError>
    where
        A: Copy,
        requires { FitsTally plan.now self.old }
        ensures { OnOk result (self.new ≡ put_away plan.now self.old) }
    {
        let counts = take_counts(alloc, plan, self.sides.as_mut_slice())?;
        if self.session == 0 {
            return Ok(());
        }
        let blocks = largest_three(alloc, &counts)?;
        self.kept[self.session as usize - 1] = SessionKeepers { blocks };
        Ok(())
    }

    /// Goes on to another session, if it is another.
    fn move_to(&mut self, alloc: A, plan: &Plan<A>, session: u32) -> Result<(), AllocError>
    where
        A: Copy,
        requires { FitsTally plan.now self.old }
        ensures { OnOk result (self.new ≡ moved_to plan.now session self.old) }
    {
        if self.session == session {
            return Ok(());
        }
        self.put_away(alloc, plan)?;
        self.session = session;
        Ok(())
    }

    /// Counts a round, which the job ended in this session.
    pub(crate) fn note(
        &mut self,
        alloc: A,
        plan: &Plan<A>,
        desks: &[Desk<A>],
        before: &[u64],
        after: &[u64],
        session: u32,
    ) -> Result<(), AllocError>
    where
        A: Copy,
        requires desks { KnowAll plan.now (first_front desks.now) desks.now }
        requires before { length before.now ≡ length plan.now.jobs }
        requires after { length after.now ≡ length plan.now.jobs }
        requires fits { FitsTally plan.now self.old }
        ensures { OnOk result (TallyThen plan.now (first_front desks.now) before.now after.now session self.old self.new) }
    {
        self.move_to(alloc, plan, session)?;
        count_round(plan, desks, before, after, self.sides.as_mut_slice());
        Ok(())
    }
}
