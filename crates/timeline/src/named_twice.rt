//! Job lines whose name stands before them.
ghost use Rattle.std.specs.Prelude.{map, IfSome};
ghost use Rattle.report_reader.specs.Form.{job_text};
ghost use Rattle.timeline.specs.Faults.{IsNamedBefore};

use crate::jobs::job_number;
use report_reader::JobLine;

/// A job line that isn't the first of its name.
pub(crate) fn job_twice(jobs: &[JobLine]) -> Option<usize>
    ensures { IfSome result (λ number. IsNamedBefore (map job_text jobs.now) number) }
{
    for number in 0..jobs.len() {
        if job_number(jobs, jobs[number].name) != Some(number) {
            return Some(number);
        }
    }
    None
}
