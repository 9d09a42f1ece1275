//! The word of a job's phase.
ghost use Rattle.std.specs.Prelude.{◌≡◌, ◌≢◌, ◌^◌, ◌<◌, IfSome, IfNone, IsTrue, ◌↔◌};
ghost use Rattle.legal_steps.specs.declared.phase.JobState.{JobState};
ghost use Rattle.edge_word.specs.Phases.{dining_code, drinking_code, phase_word_of, FitsPhaseWord, IsPhaseWord};

use legal_steps::{Dining, Drinking, JobState};
use std::marker::Model;

/// How far a job is, in one word.
///
/// | bits | meaning |
/// |---|---|
/// | 0 to 1 | 0 thinking, 1 hungry, 2 eating |
/// | 2 to 4 | 0 tranquil, 1 thirsty, 2 drinking, 3 reaching, 4 retired |
/// | 5 to 7 | zero |
/// | 8 to 31 | session |
/// | 32 to 63 | position |
#[derive(Clone, Copy, PartialEq, Eq, Debug)]
pub struct PhaseWord {
    word: u64,
}

impl Model for PhaseWord {
    ghost use Rattle.legal_steps.specs.declared.phase.JobState.{JobState};
    ghost use Rattle.std.proofs.Common.{ap};
    ghost use Rattle.edge_word.specs.Phases.{phase_word_of, phase_of, IsPhaseWord};
    ghost use Rattle.edge_word.specs.PhaseCodec.{phase_word_of-phase_of};

    ghost Value = { JobState };

    ghost view = { λ a. phase_of a.word };

    ghost invariant = { λ a. IsPhaseWord a.word };

    ghost inverse = { λ x. record { word = phase_word_of x } };

    ghost inverse_ok = { λ a h. ap (λ w. record { word = w }) (phase_word_of-phase_of a.word h) };
}

fn code_of_dining(dining: Dining) -> u64
    ensures { result ≡ dining_code dining }
{
    match dining {
        Dining::Thinking => 0,
        Dining::Hungry => 1,
        Dining::Eating => 2,
    }
}

fn code_of_drinking(drinking: Drinking) -> u64
    ensures { result ≡ drinking_code drinking }
{
    match drinking {
        Drinking::Tranquil => 0,
        Drinking::Thirsty => 1,
        Drinking::Drinking => 2,
        Drinking::Reaching => 3,
        Drinking::Retired => 4,
    }
}

/// Whether both codes are known, and bits 5 to 7 zero.
fn is_phase_word(word: u64) -> bool
    ensures { IsTrue result ↔ IsPhaseWord word }
{
    word & 3 < 3 && (word >> 2) & 7 < 5 && (word >> 5) & 7 == 0
}

impl PhaseWord {
    /// The word of a phase. The sessions of a job are few enough to fit (`lab_plan::limits`).
    pub fn new(phase: JobState) -> PhaseWord
        requires fits { phase.session < 2 ^ 24 }
        ensures { result ≡ phase }
    {
        let low = (code_of_drinking(phase.drinking) << 2) + code_of_dining(phase.dining);
        PhaseWord {
            word: ((phase.position as u64) << 32) + ((phase.session as u64) << 8) + low,
        }
    }

    /// The phase that a word spells, or None exactly if bits 0 to 1 are 3, bits 2 to 4 above 4, or a bit
    /// among 5 to 7 is set.
    pub fn unpack(word: u64) -> Option<PhaseWord>
        ensures spelled { IfSome result (λ x. (phase_word_of x ≡ word) × FitsPhaseWord x) }
        ensures refused { IfNone result ((x : JobState) → FitsPhaseWord x → phase_word_of x ≢ word) }
    {
        if is_phase_word(word) {
            Some(PhaseWord { word })
        } else {
            None
        }
    }

    /// The phase that a word spells, if it is known to spell one: no bit of it is tested. Any other word is
    /// for [`unpack`](Self::unpack).
    pub fn spelled(word: u64) -> PhaseWord
        requires { (x : JobState) × (word ≡ phase_word_of x) × FitsPhaseWord x }
        ensures word { phase_word_of result ≡ word }
        ensures fits { FitsPhaseWord result }
    {
        PhaseWord { word }
    }

    /// The word itself.
    #[tactic(auto, using(crate::proofs::PhaseLemmas::phase_behind))]
    pub fn pack(self) -> u64
        ensures { result ≡ phase_word_of self }
    {
        self.word
    }

    /// What the job does at the table of forks.
    #[tactic(auto, unfolding(crate::specs::Phases::phase_of, crate::specs::Phases::dining_at))]
    pub fn dining(self) -> Dining
        ensures { result ≡ self.dining }
    {
        match self.word & 3 {
            0 => Dining::Thinking,
            1 => Dining::Hungry,
            _ => Dining::Eating,
        }
    }

    /// What the job does with the bottles of its session.
    #[tactic(auto, unfolding(crate::specs::Phases::phase_of, crate::specs::Phases::drinking_at))]
    pub fn drinking(self) -> Drinking
        ensures { result ≡ self.drinking }
    {
        match (self.word >> 2) & 7 {
            0 => Drinking::Tranquil,
            1 => Drinking::Thirsty,
            2 => Drinking::Drinking,
            3 => Drinking::Reaching,
            _ => Drinking::Retired,
        }
    }

    /// The number of sessions that the job has begun.
    #[tactic(auto, unfolding(crate::specs::Phases::phase_of))]
    pub fn session(self) -> u32
        ensures { result ≡ self.session }
    {
        ((self.word >> 8) & 0xff_ffff) as u32
    }

    /// The number of commands of its session that the job has done.
    #[tactic(auto, unfolding(crate::specs::Phases::phase_of))]
    pub fn position(self) -> u32
        ensures { result ≡ self.position }
    {
        (self.word >> 32) as u32
    }
}
