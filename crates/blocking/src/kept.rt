//! A run by rounds, with who kept each of its sessions waiting.
ghost use Rattle.std.specs.Prelude.{◌≡◌, ◌<◌, ◌≤◌, length};
ghost use Rattle.blocking.specs.Keepers.{keepers_at};

use crate::tally::Tally;
use block_lines::Block;
use lab_plan::JobNo;
use std::alloc::{Allocator, Global};
use std::marker::Model;
use waiting::RoundsRun;

/// What became of the sessions and meals of a plan's jobs in a run by rounds, and who kept each session waiting.
#[derive(Drop)]
pub struct KeptRun<A: Allocator = Global> {
    pub(crate) run: RoundsRun<A>,
    pub(crate) tallies: Vec<Tally<A>, A>,
}

impl<A: Allocator> Model for KeptRun<A> {
    ghost use Rattle.std.specs.Prelude.{map};
    ghost use Rattle.blocking.specs.Keepers.{KeptView};
    ghost use Rattle.blocking.specs.Tallying.{kept_of};

    ghost Value = { KeptView };

    ghost view = { λ r. record { run = r.run; keepers = map kept_of r.tallies.items } };
}

impl<A: Allocator> KeptRun<A> {
    /// The rounds of sessions and meals.
    pub fn run(&self) -> &RoundsRun<A>
        ensures { result.now ≡ self.now.run }
    {
        &self.run
    }

    /// The three that kept a session waiting for the most rounds, largest first, and equal ones in the script's order. Sessions
    /// are counted from 1.
    pub fn keepers(&self, job: JobNo, session: usize) -> &[Block]
        requires is_job { job < length self.now.keepers }
        requires begun { 1 ≤ session }
        ensures { result.now ≡ keepers_at self.now job session }
    {
        let kept = self.tallies[job.0 as usize].kept();
        if session <= kept.len() {
            kept[session - 1].blocks()
        } else {
            &[]
        }
    }
}
