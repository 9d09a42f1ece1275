//! What a desk notes of having nothing to do: where nothing was due on an edge, nothing is due there until its word or the
//! job's phase changes, and where no phase act was due, none but
//! giving the session up is due until the job's phase or a mark changes.
ghost use Rattle.std.specs.Prelude.{◌≡◌, ◌<◌, length, IsTrue};
ghost use Rattle.std.specs.List.{All};
ghost use Rattle.lab_plan.specs.LabPlan.{edges};
ghost use Rattle.turns.specs.Due.{IsCalm};
ghost use Rattle.turns.specs.Acts.{IsSettled};
ghost use Rattle.edge_rule.specs.DeskView.{known};
ghost use Rattle.edge_rule.specs.CalmEdges.{HasJustLooked, written_at};

use crate::desk::Desk;
use crate::words::number;
use lab_plan::EdgeNo;
use std::alloc::Allocator;

/// A note that there is none: no edge has this word, because some of the set bits are zero in every edge's word.
pub(crate) const NO_WORD: u64 = 0xffff_ffff_ffff_ffff;

/// Writes the same for each of these edges into a list by edge number.
pub(crate) fn write_at<T: Copy, A: Allocator>(edges: &[EdgeNo], what: T, list: &mut Vec<T, A>)
    requires { All (λ e. e < length list.old.items) edges.now }
    ensures { list.new.items ≡ written_at edges.now what list.old.items }
{
    for edge in edges {
        list[number(*edge)] = what;
    }
}

impl<A: Allocator> Desk<A> {
    /// Whether the edge was noted as calm, and neither the word that the desk knows of it nor the job's phase has changed since,
    /// but for the count of the session's commands. An edge that was never noted may be calm too.
    pub fn is_calm(&self, edge: EdgeNo) -> bool
        requires { edge < length (edges self.now.plan) }
        ensures { IsTrue result → IsCalm self.now.plan (known self.now) self.now.job edge }
    {
        self.calm[number(edge)] != NO_WORD
    }

    /// Notes that no move on the edge is legal, right after a look at it.
    pub fn note_calm(&mut self, edge: EdgeNo)
        requires edge { edge < length (edges self.old.plan) }
        requires calm { IsCalm self.old.plan (known self.old) self.old.job edge }
        requires looked { HasJustLooked self.old edge }
        ensures { self.new ≡ self.old }
    {
        let place = number(edge);
        self.calm[place] = self.seen[place].pack();
    }

    /// Whether it was noted that no phase act is legal but giving the session up, and neither the job's phase nor a mark has
    /// changed since.
    pub fn is_settled(&self) -> bool
        ensures { IsTrue result → IsSettled self.now.plan (known self.now) self.now.job }
    {
        self.settled
    }

    /// Notes that no phase act is legal but giving the session up.
    pub fn note_settled(&mut self)
        requires { IsSettled self.old.plan (known self.old) self.old.job }
        ensures { self.new ≡ self.old }
    {
        self.settled = true;
    }
}
