//! The jobs of a report, by their names.
ghost use Rattle.std.specs.Prelude.{◌≡◌, map};
ghost use Rattle.std.specs.List.{position};
ghost use Rattle.std.specs.Str.{bytes_eq};
ghost use Rattle.report_reader.specs.Form.{job_text};
ghost use Rattle.timeline.specs.Spans.{job_number};

use report_reader::JobLine;

/// The number of the first job line with this name, by the names as they lie.
fn place_of(jobs: &[JobLine], name: &[u8]) -> Option<usize>
    ensures { result ≡ position (λ job. bytes_eq job.name.now name.now) jobs.now }
{
    jobs.iter().position(|job| job.name == name)
}

/// The number of the first job line with this name, counted from 0.
pub fn job_number(jobs: &[JobLine], name: &[u8]) -> Option<usize>
    ensures { result ≡ job_number (map job_text jobs.now) name.now }
{
    place_of(jobs, name)
}
