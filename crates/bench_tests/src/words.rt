//! Words by what they say. The word of an edge is that of its fork and those of its bottles, as `DIRTY_A | BOTTLE_A`: A stands for the edge's
//! lower job, and B for the higher. A thing is ASKED if its request token is at the same job: the other has asked for it.
use edge_word::{EdgeWord, PhaseWord};
use legal_steps::{EdgeState, JobState};

/// The bits of a word: each is set if the thing is at B; DIRTY if the fork is dirty.
const FORK: u64 = 1;

const DIRTY: u64 = 1 << 1;

const FORK_TOKEN: u64 = 1 << 2;

const BOTTLE: u64 = 1 << 4;

const BOTTLE_TOKEN: u64 = 1 << 32;

/// The fork at A.
pub(crate) const DIRTY_A: u64 = DIRTY | FORK_TOKEN;

pub(crate) const DIRTY_A_ASKED: u64 = DIRTY;

pub(crate) const CLEAN_A: u64 = FORK_TOKEN;

/// The fork at B.
pub(crate) const CLEAN_B: u64 = FORK;

pub(crate) const CLEAN_B_ASKED: u64 = FORK | FORK_TOKEN;

pub(crate) const DIRTY_B: u64 = FORK | DIRTY;

pub(crate) const DIRTY_B_ASKED: u64 = FORK | DIRTY | FORK_TOKEN;

/// The one bottle at A; if it is asked for, any number of them.
pub(crate) const BOTTLE_A: u64 = BOTTLE_TOKEN;

pub(crate) const BOTTLE_A_ASKED: u64 = 0;

/// The bottle at B.
pub(crate) const BOTTLE_B: u64 = BOTTLE;

pub(crate) const BOTTLE_B_ASKED: u64 = BOTTLE | BOTTLE_TOKEN;

/// As an edge opens: fork and bottle at A, the fork dirty, and neither asked for.
pub(crate) const OPEN: u64 = DIRTY_A | BOTTLE_A;

/// Fork and bottle. The tables name whole words: an `|` in a table is costly to prove.
pub(crate) const CLEAN_A_BOTTLE_A: u64 = CLEAN_A | BOTTLE_A;

pub(crate) const CLEAN_B_ASKED_BOTTLE_B: u64 = CLEAN_B_ASKED | BOTTLE_B;

pub(crate) const CLEAN_B_ASKED_BOTTLE_B_ASKED: u64 = CLEAN_B_ASKED | BOTTLE_B_ASKED;

pub(crate) const CLEAN_B_BOTTLE_A: u64 = CLEAN_B | BOTTLE_A;

pub(crate) const CLEAN_B_BOTTLE_A_ASKED: u64 = CLEAN_B | BOTTLE_A_ASKED;

pub(crate) const CLEAN_B_BOTTLE_B: u64 = CLEAN_B | BOTTLE_B;

pub(crate) const CLEAN_B_BOTTLE_B_ASKED: u64 = CLEAN_B | BOTTLE_B_ASKED;

pub(crate) const DIRTY_A_ALL_28_B: u64 = DIRTY_A | ALL_28_B;

pub(crate) const DIRTY_A_ASKED_BOTTLE_A: u64 = DIRTY_A_ASKED | BOTTLE_A;

pub(crate) const DIRTY_A_ASKED_BOTTLE_A_ASKED: u64 = DIRTY_A_ASKED | BOTTLE_A_ASKED;

pub(crate) const DIRTY_A_BOTTLES_0_AND_2_B: u64 = DIRTY_A | BOTTLES_0_AND_2_B;

pub(crate) const DIRTY_A_BOTTLE_A_ASKED: u64 = DIRTY_A | BOTTLE_A_ASKED;

pub(crate) const DIRTY_A_BOTTLE_B: u64 = DIRTY_A | BOTTLE_B;

pub(crate) const DIRTY_A_THREE_BOTTLES_B: u64 = DIRTY_A | THREE_BOTTLES_B;

pub(crate) const DIRTY_B_ASKED_BOTTLE_A: u64 = DIRTY_B_ASKED | BOTTLE_A;

pub(crate) const DIRTY_B_ASKED_BOTTLE_B_ASKED: u64 = DIRTY_B_ASKED | BOTTLE_B_ASKED;

pub(crate) const DIRTY_B_BOTTLE_A: u64 = DIRTY_B | BOTTLE_A;

pub(crate) const DIRTY_B_BOTTLE_A_ASKED: u64 = DIRTY_B | BOTTLE_A_ASKED;

pub(crate) const DIRTY_B_BOTTLE_B: u64 = DIRTY_B | BOTTLE_B;

pub(crate) const DIRTY_B_BOTTLE_B_ASKED: u64 = DIRTY_B | BOTTLE_B_ASKED;

/// Of an edge with three bottles: as it opens, and after some went to B, which had asked for all.
pub(crate) const OPEN_OF_THREE: u64 = DIRTY_A | 7 << 32;

pub(crate) const BOTTLES_0_AND_2_B: u64 = 5 << 4;

pub(crate) const THREE_BOTTLES_B: u64 = 7 << 4;

/// Of an edge with 28.
pub(crate) const OPEN_OF_28: u64 = DIRTY_A | 0x0fff_ffff << 32;

pub(crate) const ALL_28_B: u64 = 0x0fff_ffff << 4;

/// How far a job is in its first session, thinking and before its first command, unless more is said.
pub(crate) const TRANQUIL: u64 = 1 << 8;

pub(crate) const THIRSTY: u64 = TRANQUIL | 1 << 2;

pub(crate) const DRINKS: u64 = TRANQUIL | 2 << 2;

pub(crate) const RETIRED: u64 = TRANQUIL | 4 << 2;

pub(crate) const HUNGRY: u64 = 1;

pub(crate) const EATING: u64 = 2;

/// Commands done.
pub(crate) const ONE_DONE: u64 = 1 << 32;

pub(crate) const THREE_DONE: u64 = 3 << 32;

pub(crate) const SECOND_THIRST: u64 = 2 << 8 | 1 << 2;

pub(crate) const DRINKS_HUNGRY: u64 = DRINKS | HUNGRY;

pub(crate) const DRINKS_ONE_DONE: u64 = DRINKS | ONE_DONE;

pub(crate) const DRINKS_THREE_DONE: u64 = DRINKS | THREE_DONE;

pub(crate) const THIRSTY_EATING: u64 = THIRSTY | EATING;

pub(crate) const THIRSTY_HUNGRY: u64 = THIRSTY | HUNGRY;

/// What a word says of its edge; None if it is none.
pub(crate) fn edge(word: u64) -> Option<EdgeState> {
    match EdgeWord::unpack(word, 28) {
        Some(word) => Some(word.unpacked()),
        None => None,
    }
}

/// What a word says of how far a job is; None if it is none.
pub(crate) fn phase(word: u64) -> Option<JobState> {
    match PhaseWord::unpack(word) {
        Some(word) => Some(JobState {
            dining: word.dining(),
            drinking: word.drinking(),
            session: word.session(),
            position: word.position(),
        }),
        None => None,
    }
}
