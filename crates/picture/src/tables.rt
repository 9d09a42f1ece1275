//! The head of the picture, the head of a row, the lines of the table of jobs, and the end.
ghost use Rattle.std.specs.Prelude.{◌≡◌, ◌+◌, ◌*◌, ◌≤◌, ◌++◌, ◌<◌, length, max};
ghost use Rattle.lab_plan.specs.Limits.{most_jobs, most_instruments};
ghost use Rattle.report_reader.specs.Line.{state_word, last_word};
ghost use Rattle.report_reader.specs.Form.{job_text};
ghost use Rattle.picture.specs.Tables.{size_text, words_text, thin, head_text, row_text, withdrawn_text, legend, sessions_text, meals_text, job_line, end_text};

use crate::columns::{has_room, left_of};
use crate::line::{PictureLine, add_name};
use crate::looks::add_look;
use report_reader::JobLine;

/// Adds the beginning of the text, at most 320 bytes.
fn add_size(line: &mut PictureLine, width: usize, height: usize)
    requires { length line.old + 320 ≤ 1000 }
    ensures text { line.new ≡ line.old ++ size_text width height }
    ensures len { length line.new ≤ length line.old + 320 }
{
    line.text(
        b"<?xml version=\"1.0\" encoding=\"UTF-8\"?>\n<svg xmlns=\"http://www.w3.org/2000/svg\" version=\"1.1\" width=\"",
    );
    line.count(width);
    line.text(b"\" height=\"");
    line.count(height);
    line.text(b"\" viewBox=\"0 0 ");
    line.count(width);
    line.text(b" ");
    line.count(height);
    line.text(b"\" font-family=\"monospace\" font-size=\"10\">\n");
}

/// Adds what is read aloud, at most 400 bytes.
fn add_words(line: &mut PictureLine, instruments: usize, jobs: usize, columns: u32)
    requires { length line.old + 400 ≤ 1000 }
    ensures text { line.new ≡ line.old ++ words_text instruments jobs columns }
    ensures len { length line.new ≤ length line.old + 400 }
{
    line.text(b"<title>Timeline of a laboratory run</title>\n<desc>Instruments, a row each: ");
    line.count(instruments);
    line.text(b". Jobs, a line each in the table below: ");
    line.count(jobs);
    line.text(b". Columns: ");
    line.number(columns);
    line.text(
        b". A box is a session on an instrument, and a tick is a command; a session has the same columns on each of its instruments.</desc>\n",
    );
}

/// The head of the picture.
#[tactic(auto, unfolding(crate::specs::Tables::head_text))]
pub(crate) fn head_line(instruments: usize, jobs: usize, columns: u32) -> PictureLine
    requires few_instruments { instruments ≤ most_instruments }
    requires few_jobs { jobs ≤ most_jobs }
    ensures { result ≡ head_text instruments jobs columns }
{
    let mut line = PictureLine::new();
    let width = (180 + left_of(columns, columns as usize)).max(700);
    let height = 130 + 70 * instruments + 20 * jobs;
    add_size(&mut line, width, height);
    add_words(&mut line, instruments, jobs, columns);
    line.text(b"<rect width=\"100%\" height=\"100%\" fill=\"#fff\"/>\n");
    line
}

/// How thick edges are in a row.
fn thin(columns: u32) -> &'static [u8]
    ensures text { result.now ≡ thin columns }
    ensures len { length result.now ≤ 19 }
{
    if has_room(columns) {
        b""
    } else {
        b" stroke-width=\"0.4\""
    }
}

/// The head of an instrument's row.
pub(crate) fn row_line(number: usize, name: &[u8], columns: u32) -> PictureLine
    requires { number < most_instruments }
    ensures { result ≡ row_text number name.now columns }
{
    let mut line = PictureLine::new();
    line.text(b"<g transform=\"translate(160 ");
    line.count(30 + 70 * number);
    line.text(b")\"");
    line.text(thin(columns));
    line.text(b"><path d=\"M-150 66H");
    line.count(left_of(columns, columns as usize));
    line.text(b"\" stroke=\"#ccc\"/><text x=\"-150\" y=\"38\" font-size=\"13\">");
    add_name(&mut line, name);
    line.text(b"</text>\n");
    line
}

/// Adds the look and the name of a job, at most 260 bytes.
fn add_legend(line: &mut PictureLine, instruments: usize, number: usize, job: &JobLine)
    requires room { length line.old + 260 ≤ 1000 }
    requires few_instruments { instruments ≤ most_instruments }
    requires few_jobs { number < most_jobs }
    ensures text { line.new ≡ line.old ++ legend instruments number (job_text job.now) }
    ensures len { length line.new ≤ length line.old + 260 }
{
    line.text(b"<g transform=\"translate(10 ");
    line.count(50 + 70 * instruments + 20 * number);
    line.text(b")\"><path d=\"M0 0h24v12H0z");
    add_look(line, number);
    line.text(b"<text x=\"34\" y=\"10\">");
    add_name(line, job.name);
    line.text(b"</text>");
}

/// Adds how many sessions of all are done, at most 80 bytes.
fn add_sessions(line: &mut PictureLine, job: &JobLine)
    requires { length line.old + 80 ≤ 1000 }
    ensures text { line.new ≡ line.old ++ sessions_text (job_text job.now) }
    ensures len { length line.new ≤ length line.old + 80 }
{
    line.text(b"<text x=\"150\" y=\"10\">sessions ");
    line.number(job.done);
    line.text(b" of ");
    line.number(job.sessions);
    line.text(b"</text>");
}

/// Adds how many sessions were withdrawn, if the report says so, at most 60 bytes.
fn add_withdrawn(line: &mut PictureLine, withdrawn: Option<u32>)
    requires { length line.old + 60 ≤ 1000 }
    ensures text { line.new ≡ line.old ++ withdrawn_text withdrawn }
    ensures len { length line.new ≤ length line.old + 60 }
{
    if let Some(withdrawn) = withdrawn {
        line.text(b"<text x=\"340\" y=\"10\">withdrawn ");
        line.number(withdrawn);
        line.text(b"</text>");
    }
}

fn state_word(is_retired: bool) -> &'static [u8]
    ensures text { result.now ≡ state_word is_retired }
    ensures len { length result.now ≡ 7 }
{
    if is_retired { b"retired" } else { b"waiting" }
}

/// Adds the meals, and whether the job is retired, at most 100 bytes.
fn add_meals(line: &mut PictureLine, job: &JobLine)
    requires { length line.old + 100 ≤ 1000 }
    ensures text { line.new ≡ line.old ++ meals_text (job_text job.now) }
    ensures len { length line.new ≤ length line.old + 100 }
{
    line.text(b"<text x=\"460\" y=\"10\">meals ");
    line.number(job.meals);
    line.text(b"</text><text x=\"590\" y=\"10\">");
    line.text(state_word(job.is_retired));
    line.text(b"</text></g>\n");
}

/// A line of the table of jobs.
#[tactic(auto, unfolding(crate::specs::Tables::job_line))]
pub(crate) fn job_line(instruments: usize, number: usize, job: &JobLine) -> PictureLine
    requires few_instruments { instruments ≤ most_instruments }
    requires few_jobs { number < most_jobs }
    ensures { result ≡ job_line instruments number (job_text job.now) }
{
    let mut line = PictureLine::new();
    add_legend(&mut line, instruments, number, job);
    add_sessions(&mut line, job);
    add_withdrawn(&mut line, job.withdrawn);
    add_meals(&mut line, job);
    line
}

fn last_word(is_finished: bool) -> &'static [u8]
    ensures text { result.now ≡ last_word is_finished }
    ensures len { length result.now ≤ 10 }
{
    if is_finished {
        b"finished"
    } else {
        b"unfinished"
    }
}

/// The last line, what is drawn in everyday words, and the end.
pub(crate) fn end_line(instruments: usize, jobs: usize, is_finished: bool) -> PictureLine
    requires few_instruments { instruments ≤ most_instruments }
    requires few_jobs { jobs ≤ most_jobs }
    ensures { result ≡ end_text instruments jobs is_finished }
{
    let mut line = PictureLine::new();
    line.text(b"<text x=\"10\" y=\"");
    line.count(80 + 70 * instruments + 20 * jobs);
    line.text(b"\" font-size=\"13\">");
    line.text(last_word(is_finished));
    line.text(b"</text>\n<text x=\"10\" y=\"");
    line.count(100 + 70 * instruments + 20 * jobs);
    line.text(
        b"\" fill=\"#555\">box: a session holds the instrument; tick: a command; withdrawn: it waited and gave up; meals: it had right of way</text>\n</svg>\n",
    );
    line
}
