//! What a job knows where a bench opens.
use edge_word::EdgeWord;
use legal_steps::{Counts, JobState};
use std::alloc::{Allocator, Global};

/// How far a job is, its marks, each edge as the job last saw or changed it, and what it has done. Lists are by edge number of the plan.
#[derive(Drop)]
pub struct JobKnowledge<A: Allocator = Global> {
    pub phase: JobState,
    pub fork_marks: Vec<bool, A>,
    pub bottle_marks: Vec<u32, A>,
    pub seen: Vec<EdgeWord, A>,
    pub counts: Counts,
}
