//! Precedence among jobs: who eats first on each edge.
ghost use Rattle.std.specs.Prelude.{◌≡◌, ℕ, ◌<◌, ◌↔◌, IsTrue, true, false, length, IfOk};
ghost use Rattle.std.specs.List.{Contains};
ghost use Rattle.cycles.specs.Cycles.{IsAmong, AreBelow};
ghost use Rattle.lab_plan.specs.LabPlan.{edges};
ghost use Rattle.legal_steps.specs.Precedence.{IsAcyclic, Precedes, PrecedesOn};
ghost use Rattle.interleaving.specs.Pairs.{IsPrecedenceByEdge};

use crate::tables::Tables;
use cycles::{NoMemory, cycle_in};
use lab_plan::{EdgeNo, JobNo};
use legal_steps::{Dining, End};
use std::alloc::{AllocError, Allocator};

impl<'a, A: Allocator> Tables<'a, A> {
    /// The job that precedes on the edge, and the other.
    pub(crate) fn order(&self, edge: EdgeNo) -> (JobNo, JobNo)
        requires { edge < length (edges self.now.plan) }
        ensures precedes { PrecedesOn self.now.plan self.now.state edge result.0 result.1 }
        ensures no_other { (a b : ℕ) → PrecedesOn self.now.plan self.now.state edge a b → (a ≡ result.0) × (b ≡ result.1) }
        ensures jobs { (result.0 < length self.now.plan.jobs) × (result.1 < length self.now.plan.jobs) }
    {
        let (lower, higher) = self.plan().ends(edge);
        let state = self.edge(edge);
        let (holder, waiter) = match state.fork {
            End::Lower => (lower, higher),
            End::Higher => (higher, lower),
        };
        if state.dirty || self.phase(holder).dining == Dining::Eating {
            (waiter, holder)
        } else {
            (holder, waiter)
        }
    }

    pub(crate) fn precedes(&self, a: JobNo, b: JobNo) -> bool
        ensures { IsTrue result ↔ Precedes self.now.plan self.now.state a b }
    {
        if !self.is_job(a) {
            return false;
        }
        let own = self.own_edges(a);
        for edge in own {
            if self.order(*edge) == (a, b) {
                return true;
            }
        }
        false
    }

    /// The pairs of jobs of which the first precedes the second, by edge number.
    pub(crate) fn precedence<B: Allocator>(
        &self,
        alloc: B,
    ) -> Result<Vec<(JobNo, JobNo), B>, AllocError>
        ensures by_edge { IfOk result (λ pairs. IsPrecedenceByEdge self.now.plan self.now.state pairs.items) }
        ensures pairs { IfOk result (λ pairs. (a b : ℕ) → IsAmong pairs.items a b ↔ Precedes self.now.plan self.now.state a b) }
        ensures below { IfOk result (λ pairs. AreBelow (length self.now.plan.jobs) pairs.items) }
    {
        let mut pairs = Vec::new(alloc);
        let edges = self.plan().edges();
        for edge in 0..edges {
            pairs.push(self.order(EdgeNo(edge)))?;
        }
        Ok(pairs)
    }
    /// Whether precedence has a cycle.
    pub(crate) fn has_cycle<B: Allocator + Copy>(&self, alloc: B) -> Result<bool, NoMemory>
        ensures cyclic { IfOk result (λ answer. answer ≡ true → ¬ IsAcyclic self.now.plan self.now.state) }
        ensures acyclic { IfOk result (λ answer. answer ≡ false → IsAcyclic self.now.plan self.now.state) }
    {
        let pairs = self.precedence(alloc)?;
        match cycle_in(alloc, self.plan().jobs(), &pairs)? {
            Some(_) => Ok(true),
            None => Ok(false),
        }
    }
}
