//! The edges of a plan: their ends, the number of a pair of jobs, and the edges of each job.
ghost use Rattle.std.specs.Prelude.{◌≡◌, ℕ, ◌+◌, ◌*◌, ◌<◌, ◌≤◌, ◌++◌, length, filter, map, slice_index_or, slice_get, Contains, IfOk, IfSome, IfNone};
ghost use Rattle.std.specs.List.{All, range_with_len};
ghost use Rattle.lab_plan.specs.Limits.{most_jobs, most_instruments};
ghost use Rattle.lab_plan.specs.NamedBy.{meet, row, meeting};
ghost use Rattle.lab_plan.specs.PairTables.{IsPair, AreNumbers, IsNumber};
ghost use Rattle.lab_plan.specs.LabPlan.{lower_first, has_end, pairs_with};

use crate::limits::MOST_JOBS;
use crate::named_sets::Naming;
use crate::numbers::{EdgeNo, JobNo};
use std::alloc::{AllocError, Allocator, Global};
use std::marker::Model;

/// The edges of one job, ascending.
#[derive(Drop)]
pub(crate) struct EdgeList<A: Allocator = Global> {
    edges: Vec<EdgeNo, A>,
}

impl<A: Allocator> Model for EdgeList<A> {
    ghost use Rattle.std.specs.Prelude.{List, ℕ};

    ghost Value = { List ℕ };

    ghost view = { λ l. l.edges.items };
}

/// Whether the job is an end of the edge with this number.
fn has_end(pairs: &[(JobNo, JobNo)], edge: usize, job: u8) -> bool
    requires { edge < length pairs.now }
    ensures { result ≡ has_end pairs.now job edge }
{
    let (low, high) = pairs[edge];
    low.0 == job || high.0 == job
}

impl<A: Allocator> EdgeList<A> {
    fn new(alloc: A, pairs: &[(JobNo, JobNo)], job: u8) -> Result<EdgeList<A>, AllocError>
        requires { length pairs.now ≤ 496 }
        ensures { IfOk result (λ l. l ≡ pairs_with pairs.now job) }
    {
        let mut edges = Vec::new(alloc);
        for e in 0..pairs.len() {
            if has_end(pairs, e, job) {
                edges.push(EdgeNo(e as u16))?;
            }
        }
        Ok(EdgeList { edges })
    }

    pub(crate) fn as_slice(&self) -> &[EdgeNo]
        ensures { result.now ≡ self.now }
    {
        &self.edges
    }
}

/// Adds the edges whose lower end is this job.
#[tactic(auto, using(crate::proofs::Pairs::row_none))]
fn push_row<A: Allocator>(
    found: &mut Vec<(JobNo, JobNo), A>,
    naming: &Naming,
    low: u8,
) -> Result<(), AllocError>
    requires low { low < naming.now.jobs }
    requires jobs { naming.now.jobs ≤ most_jobs }
    requires instruments { naming.now.instruments ≤ most_instruments }
    ensures { IfOk result (λ _. found.new.items ≡ found.old.items ++ filter (meet naming.now.sets naming.now.instruments) (row low naming.now.jobs)) }
{
    for high in low + 1..naming.jobs() {
        if naming.meet(low, high) {
            found.push((JobNo(low), JobNo(high)))?;
        }
    }
    Ok(())
}

fn find_pairs<A: Allocator>(alloc: A, naming: &Naming) -> Result<Vec<(JobNo, JobNo), A>, AllocError>
    requires jobs { naming.now.jobs ≤ most_jobs }
    requires instruments { naming.now.instruments ≤ most_instruments }
    ensures found { IfOk result (λ found. found.items ≡ meeting naming.now.sets naming.now.instruments naming.now.jobs) }
    ensures few { IfOk result (λ found. length found.items ≤ 496) }
    ensures pairs { IfOk result (λ found. All IsPair found.items) }
{
    let mut found = Vec::new(alloc);
    for low in 0..naming.jobs() {
        push_row(&mut found, naming, low)?;
    }
    Ok(found)
}

/// Where a table over pairs of jobs has this pair.
fn slot(low: JobNo, high: JobNo) -> usize
    ensures { result ≡ low * most_jobs + high }
{
    low.0 as usize * MOST_JOBS + high.0 as usize
}

/// The number of each pair of jobs.
fn number_pairs<A: Allocator>(
    alloc: A,
    pairs: &[(JobNo, JobNo)],
) -> Result<Vec<Option<EdgeNo>, A>, AllocError>
    requires few { length pairs.now ≤ 496 }
    requires pairs { All IsPair pairs.now }
    ensures length { IfOk result (λ numbers. length numbers.items ≡ 1024) }
    ensures numbers { IfOk result (λ numbers. AreNumbers pairs.now numbers.items) }
{
    let mut numbers = vec![in alloc; None; 1024]?;
    for (e, (low, high)) in pairs.iter().enumerate() {
        numbers[slot(*low, *high)] = Some(EdgeNo(e as u16));
    }
    Ok(numbers)
}

/// The edges of each job, empty for a number that is no job's.
fn lists_by_job<A: Allocator + Copy>(
    alloc: A,
    pairs: &[(JobNo, JobNo)],
) -> Result<Vec<EdgeList<A>, A>, AllocError>
    requires { length pairs.now ≤ 496 }
    ensures { IfOk result (λ lists. lists.items ≡ map (pairs_with pairs.now) (range_with_len 0 most_jobs)) }
{
    let mut lists = Vec::new(alloc);
    for job in 0..MOST_JOBS as u8 {
        lists.push(EdgeList::new(alloc, pairs, job)?)?;
    }
    Ok(lists)
}

/// Two jobs, the lower number first.
fn lower_first(a: JobNo, b: JobNo) -> (JobNo, JobNo)
    ensures { result ≡ lower_first a b }
{
    if a.0 <= b.0 { (a, b) } else { (b, a) }
}

#[derive(Drop)]
pub(crate) struct EdgeTable<A: Allocator = Global> {
    pairs: Vec<(JobNo, JobNo), A>,
    numbers: Vec<Option<EdgeNo>, A>,
    lists: Vec<EdgeList<A>, A>,
}

impl<A: Allocator> Model for EdgeTable<A> {
    ghost use Rattle.std.specs.Prelude.{List, ℕ, length, ◌≤◌, ◌≡◌, map};
    ghost use Rattle.std.specs.List.{All, range_with_len};
    ghost use Rattle.lab_plan.specs.Limits.{most_jobs};
    ghost use Rattle.lab_plan.specs.LabPlan.{pairs_with};
    ghost use Rattle.lab_plan.specs.PairTables.{IsPair, AreNumbers};

    ghost Value = { List (ℕ × ℕ) };

    ghost view = { λ t. t.pairs.items };

    ghost invariant = { λ t. record {
      few : length t.pairs.items ≤ 496;
      fit : All IsPair t.pairs.items;
      places : length t.numbers.items ≡ 1024;
      numbers_are : AreNumbers t.pairs.items t.numbers.items;
      lists_are : t.lists.items ≡ map (pairs_with t.pairs.items) (range_with_len 0 most_jobs);
    } };
}

impl<A: Allocator> EdgeTable<A> {
    pub(crate) fn new(alloc: A, naming: &Naming) -> Result<EdgeTable<A>, AllocError>
    where
        A: Copy,
        requires jobs { naming.now.jobs ≤ most_jobs }
        requires instruments { naming.now.instruments ≤ most_instruments }
        ensures { IfOk result (λ edges. edges ≡ meeting naming.now.sets naming.now.instruments naming.now.jobs) }
    {
        let pairs = find_pairs(alloc, naming)?;
        let numbers = number_pairs(alloc, &pairs)?;
        let lists = lists_by_job(alloc, &pairs)?;
        Ok(EdgeTable {
            pairs,
            numbers,
            lists,
        })
    }

    pub(crate) fn len(&self) -> u16
        ensures edges { result ≡ length self.now }
        ensures few { result ≤ 496 }
    {
        self.pairs.len() as u16
    }

    pub(crate) fn pairs(&self) -> &[(JobNo, JobNo)]
        ensures pairs { result.now ≡ self.now }
        ensures fit { All IsPair result.now }
    {
        &self.pairs
    }

    pub(crate) fn ends(&self, edge: EdgeNo) -> (JobNo, JobNo)
        requires { edge < length self.now }
        ensures { result ≡ slice_index_or self.now edge (0, 0) }
    {
        self.pairs[edge.0 as usize]
    }

    fn number(&self, low: JobNo, high: JobNo) -> Option<EdgeNo>
        requires low { low < most_jobs }
        requires high { high < most_jobs }
        ensures { IsNumber self.now (low, high) result }
    {
        self.numbers[slot(low, high)]
    }

    /// The edge of two jobs, in either order.
    #[tactic(auto, using(crate::proofs::PairNumbers::found_is, crate::proofs::PairNumbers::none_is))]
    pub(crate) fn edge_of(&self, a: JobNo, b: JobNo) -> Option<EdgeNo>
        requires a { a < most_jobs }
        requires b { b < most_jobs }
        ensures found { IfSome result (λ e. slice_get self.now e ≡ Some (lower_first a b)) }
        ensures none { IfNone result (¬ Contains self.now (lower_first a b)) }
    {
        let (low, high) = lower_first(a, b);
        self.number(low, high)
    }

    pub(crate) fn edges_of(&self, job: JobNo) -> &[EdgeNo]
        requires { job < most_jobs }
        ensures { result.now ≡ pairs_with self.now job }
    {
        self.lists[job.0 as usize].as_slice()
    }
}
