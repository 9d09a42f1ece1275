//! A run by rounds, as who kept whom waiting.
ghost use Rattle.std.specs.Prelude.{◌≡◌};

use block_lines::Block;
use std::alloc::{Allocator, Global};
use std::marker::Model;

/// Who kept whom waiting in a run by rounds.
#[derive(Drop)]
pub struct BlockedRun<A: Allocator = Global> {
    pub(crate) number: u32,
    pub(crate) retired: bool,
    pub(crate) blocks: Vec<Block, A>,
}

impl<A: Allocator> Model for BlockedRun<A> {
    ghost use Rattle.blocking.specs.Blocks.{RunView};

    ghost Value = { RunView };

    ghost view = { λ r. record { number = r.number; retired = r.retired; blocks = r.blocks.items } };
}

impl<A: Allocator> BlockedRun<A> {
    /// How many rounds were done.
    pub fn rounds(&self) -> u32
        ensures { result ≡ self.now.number }
    {
        self.number
    }

    /// Whether all jobs are retired then.
    pub fn retired(&self) -> bool
        ensures { result ≡ self.now.retired }
    {
        self.retired
    }

    /// For each job, in the order of the script, each neighbour in that order, and each instrument that both name, in the order
    /// of first naming: the rounds in which the job waited, which may be 0.
    pub fn blocks(&self) -> &[Block]
        ensures { result.now ≡ self.now.blocks }
    {
        &self.blocks
    }
}
