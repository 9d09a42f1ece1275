//! The law of the quiet round, and what an idle turn leaves a job with.
ghost use Rattle.rounds.specs.QuietRound.{BothSawIsBothKnow, IdleJobKnowsWhatItSaw, QuietRoundIsRetired};

/// After an idle turn, what a job knows of each of its edges is the word that its last look at it saw.
pub fn idle_job_knows_what_it_saw()
    ensures { IdleJobKnowsWhatItSaw }
{}

/// If each job's last turn was idle, the two ends of an edge know the same of it exactly if their last looks
/// saw the same word.
pub fn both_saw_is_both_know()
    ensures { BothSawIsBothKnow }
{}

/// In a history in which each job's last turn was idle, no job reaches for an instrument, and the two ends of
/// every edge saw the same word last, all jobs are retired.
pub fn quiet_round_is_retired()
    ensures { QuietRoundIsRetired }
{}
