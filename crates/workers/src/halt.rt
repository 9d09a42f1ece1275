//! Where a team's rounds ended.
ghost use Rattle.std.specs.Prelude.{◌≡◌};
ghost use Rattle.workers.specs.Team.{taken};

/// Where rounds ended.
#[derive(Clone, Copy, PartialEq, Eq, Debug)]
pub enum Halt {
    /// Each desk has taken this many turns.
    After(u32),
    /// A desk has seen that all jobs are retired.
    AllRetired,
}

impl Halt {
    /// How many of this many turns are over: all of them if all jobs are retired.
    pub fn taken(self, turns: u32) -> u32
        ensures { result ≡ taken turns self }
    {
        match self {
            Halt::After(taken) => taken,
            Halt::AllRetired => turns,
        }
    }
}
