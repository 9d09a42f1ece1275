//! The moves that one job does on one edge in one step.
ghost use Rattle.std.specs.Prelude.{◌≡◌, ◌≤◌, IsTrue, ◌↔◌};

/// Moves of one job on one edge, done at once in the order of the fields. Bit `k` of a set stands for bottle `k`
/// of the edge; an empty set is no move.
#[derive(Clone, Copy, PartialEq, Eq, Debug)]
pub struct EdgeMoves {
    /// Sends the fork, cleaned, to the other end.
    pub give_fork: bool,
    /// Sends these bottles to the other end.
    pub give_bottles: u32,
    /// Sends the fork's request token to the other end.
    pub ask_fork: bool,
    /// Sends the request tokens of these bottles to the other end.
    pub ask_bottles: u32,
    /// Makes the fork dirty.
    pub soil: bool,
}

impl EdgeMoves {
    ghost use Rattle.lab_plan.specs.Limits.{most_bottles};
    ghost use Rattle.edge_word.specs.Moves.{AreOfBottles, is_nothing, fork_mark_after, bottle_marks_after};

    /// No move.
    pub const NONE: EdgeMoves = EdgeMoves {
        give_fork: false,
        give_bottles: 0,
        ask_fork: false,
        ask_bottles: 0,
        soil: false,
    };

    /// The fork goes to the other end, and nothing else moves.
    pub const GIVE_FORK: EdgeMoves = EdgeMoves {
        give_fork: true,
        ..EdgeMoves::NONE
    };

    /// The fork's request token goes to the other end, and nothing else moves.
    pub const ASK_FORK: EdgeMoves = EdgeMoves {
        ask_fork: true,
        ..EdgeMoves::NONE
    };

    /// The fork is made dirty, and nothing moves.
    pub const SOIL: EdgeMoves = EdgeMoves {
        soil: true,
        ..EdgeMoves::NONE
    };

    /// Whether there is no move.
    pub fn is_empty(&self) -> bool
        ensures { result ≡ is_nothing self.now }
    {
        !self.give_fork
            && self.give_bottles == 0
            && !self.ask_fork
            && self.ask_bottles == 0
            && !self.soil
    }

    /// Whether both sets name only bottles of an edge that has this many.
    pub fn are_of_bottles(self, bottles: u32) -> bool
        requires few { bottles ≤ most_bottles }
        ensures are { IsTrue result ↔ AreOfBottles bottles self }
        ensures fit_words { IsTrue result → AreOfBottles most_bottles self }
    {
        (self.give_bottles >> bottles) == 0 && (self.ask_bottles >> bottles) == 0
    }
    /// The mark for the fork of their edge after the moves, if it was `old` before: soiling the fork sets it, and
    /// giving the fork clears it.
    pub fn fork_mark(self, old: bool) -> bool
        ensures { result ≡ fork_mark_after self old }
    {
        if self.soil {
            true
        } else if self.give_fork {
            false
        } else {
            old
        }
    }

    /// The marks for the bottles of their edge after the moves, if they were `old` before: those of bottles that are
    /// given are cleared.
    pub fn bottle_marks(self, old: u32) -> u32
        ensures { result ≡ bottle_marks_after self old }
    {
        old ^ (old & self.give_bottles)
    }
}
