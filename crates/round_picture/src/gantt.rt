//! The whole picture.
ghost use Rattle.std.specs.Prelude.{◌≡◌, ◌*◌, ◌≤◌, ◌<◌, ◌^◌, ◌++◌, length, OnOk};
ghost use Rattle.std.specs.List.{flat_map};
ghost use Rattle.lab_plan.specs.Limits.{most_jobs};
ghost use Rattle.waiting.specs.Text.{jobs};
ghost use Rattle.blocking.specs.Keepers.{IsKeptOf};
ghost use Rattle.round_picture.specs.Gantt.{full_width, full_height, size_text, legend, thin, head_text, tick};
ghost use Rattle.round_picture.specs.Gantt.{tick_text, scale_text, row_head, row_text, gantt_of};

use crate::meals::add_meals;
use crate::scale::{add_place, add_text, place, step_of};
use crate::sessions::add_sessions;
use blocking::KeptRun;
use lab_plan::{JobNo, Plan};
use std::alloc::{AllocError, Allocator};
use waiting::{RoundsRun, add_rounds};

/// Adds the beginning of the text.
#[tactic(auto, unfolding(crate::specs::Gantt::size_text))]
fn add_size<A: Allocator>(out: &mut Vec<u8, A>, width: u64, height: u64) -> Result<(), AllocError>
    ensures { OnOk result (out.new.items ≡ out.old.items ++ size_text width height) }
{
    add_place(
        out,
        b"<?xml version=\"1.0\" encoding=\"UTF-8\"?>\n<svg xmlns=\"http://www.w3.org/2000/svg\" version=\"1.1\" width=\"",
        width,
    )?;
    add_place(out, b"\" height=\"", height)?;
    add_place(out, b"\" viewBox=\"0 0 ", width)?;
    add_place(out, b" ", height)?;
    add_text(out, b"\" font-family=\"monospace\" font-size=\"10\">\n")
}

/// How wide the picture is.
fn full_width(last: u32) -> u64
    ensures { result ≡ full_width last }
{
    (180 + place(last, last)).max(720)
}

/// Adds the beginning of the text, with the size of the picture.
fn add_canvas<A: Allocator>(out: &mut Vec<u8, A>, last: u32, jobs: usize) -> Result<(), AllocError>
    requires { jobs ≤ most_jobs }
    ensures { OnOk result (out.new.items ≡ out.old.items ++ size_text (full_width last) (full_height jobs)) }
{
    add_size(out, full_width(last), 100 + 40 * jobs as u64)
}

/// Adds what each shape stands for.
#[tactic(auto, unfolding(crate::specs::Gantt::legend))]
fn add_legend<A: Allocator>(out: &mut Vec<u8, A>) -> Result<(), AllocError>
    ensures { OnOk result (out.new.items ≡ out.old.items ++ legend) }
{
    add_text(
        out,
        b"<title>A run by rounds</title>\n<rect width=\"100%\" height=\"100%\" fill=\"#fff\"/>\n<g transform=\"translate(10 10)\">",
    )?;
    add_text(
        out,
        b"<rect width=\"30\" height=\"16\" fill=\"#fff4d9\" stroke=\"#c77f00\" stroke-dasharray=\"3 2\"/><text x=\"36\" y=\"12\">thirsty</text>",
    )?;
    add_text(
        out,
        b"<rect x=\"100\" width=\"30\" height=\"16\" fill=\"#56b4e9\" stroke=\"#222\"/><text x=\"136\" y=\"12\">session S holds its instruments</text><text x=\"103\" y=\"12\">S</text>",
    )?;
    add_text(
        out,
        b"<path d=\"M350 8m-5-5l10 10m0-10l-10 10\" fill=\"none\" stroke=\"#d00000\" stroke-width=\"2\"/><text x=\"362\" y=\"12\">given up</text>",
    )?;
    add_text(
        out,
        b"<path d=\"M440 8h30\" stroke=\"#777\" stroke-width=\"2\" stroke-dasharray=\"2 3\"/><text x=\"476\" y=\"12\">hungry</text>",
    )?;
    add_text(
        out,
        b"<path d=\"M540 8h30\" stroke=\"#222\" stroke-width=\"5\"/><text x=\"576\" y=\"12\">eats</text></g>\n",
    )?;
    add_text(
        out,
        b"<text x=\"10\" y=\"36\" fill=\"#555\">thirsty: waits for its instruments; hungry: waits for its forks, which settle who gives way; eats: has all of them</text>\n<text x=\"10\" y=\"84\" fill=\"#555\">round</text>\n",
    )
}

/// How thick lines are.
fn thin(last: u32) -> &'static [u8]
    ensures { result.now ≡ thin last }
{
    if last <= 300 {
        b""
    } else {
        b" stroke-width=\"0.4\""
    }
}

/// Adds the head: the size, the legend, and how the run ended.
#[tactic(auto, unfolding(crate::specs::Gantt::head_text))]
fn add_head<A: Allocator, B: Allocator>(
    out: &mut Vec<u8, A>,
    jobs: usize,
    run: &RoundsRun<B>,
) -> Result<(), AllocError>
    requires { jobs ≤ most_jobs }
    ensures { OnOk result (out.new.items ≡ out.old.items ++ head_text jobs run.now) }
{
    let last = run.rounds();
    add_canvas(out, last, jobs)?;
    add_legend(out)?;
    add_text(out, b"<text x=\"10\" y=\"50\" font-size=\"13\">")?;
    add_rounds(out, run)?;
    add_text(out, b"</text>\n<g transform=\"translate(150 90)\"")?;
    add_text(out, thin(last))?;
    add_text(out, b">\n")
}

/// Adds a number of the scale, and its line.
#[tactic(auto, unfolding(crate::specs::Gantt::tick))]
fn add_tick<A: Allocator>(
    out: &mut Vec<u8, A>,
    x: u64,
    bottom: u64,
    round: u64,
) -> Result<(), AllocError>
    ensures { OnOk result (out.new.items ≡ out.old.items ++ tick x bottom round) }
{
    add_place(out, b"<path d=\"M", x)?;
    add_place(out, b" 0V", bottom)?;
    add_place(out, b"\" stroke=\"#ddd\"/><text x=\"", x)?;
    add_place(
        out,
        b"\" y=\"-6\" text-anchor=\"middle\" fill=\"#555\">",
        round,
    )?;
    add_text(out, b"</text>\n")
}

/// Adds a round of the scale, if the run has it.
#[tactic(auto, unfolding(crate::specs::Gantt::tick_text))]
fn add_tick_at<A: Allocator>(
    out: &mut Vec<u8, A>,
    last: u32,
    bottom: u64,
    step: u64,
    number: u64,
) -> Result<(), AllocError>
    requires few { number ≤ 20 }
    requires small { step < 2 ^ 35 }
    ensures { OnOk result (out.new.items ≡ out.old.items ++ tick_text last bottom step number) }
{
    let round = step * number;
    if round <= u64::from(last) {
        add_tick(out, place(last, round as u32), bottom, round)
    } else {
        Ok(())
    }
}

/// Adds the scale.
fn add_scale<A: Allocator>(
    out: &mut Vec<u8, A>,
    last: u32,
    bottom: u64,
    step: u64,
) -> Result<(), AllocError>
    requires { step < 2 ^ 35 }
    ensures { OnOk result (out.new.items ≡ out.old.items ++ scale_text last bottom step) }
{
    for number in 0u64..21 {
        add_tick_at(out, last, bottom, step, number)?;
    }
    Ok(())
}

/// Adds the head of a job's row.
#[tactic(auto, unfolding(crate::specs::Gantt::row_head))]
fn add_row_head<A: Allocator>(
    out: &mut Vec<u8, A>,
    last: u32,
    name: &[u8],
    top: u64,
) -> Result<(), AllocError>
    ensures { OnOk result (out.new.items ≡ out.old.items ++ row_head last name.now top) }
{
    add_place(out, b"<g transform=\"translate(0 ", top)?;
    add_place(out, b")\"><path d=\"M-140 38H", place(last, last))?;
    add_text(
        out,
        b"\" stroke=\"#bbb\"/><text x=\"-140\" y=\"18\" font-size=\"12\">",
    )?;
    add_text(out, name)?;
    add_text(out, b"</text>\n")
}

/// Adds the row of a job.
#[tactic(auto, unfolding(crate::specs::Gantt::row_text))]
fn add_row<A: Allocator, B: Allocator, C: Allocator>(
    out: &mut Vec<u8, A>,
    plan: &Plan<B>,
    run: &KeptRun<C>,
    job: JobNo,
) -> Result<(), AllocError>
    requires known { IsKeptOf plan.now run.now }
    requires inside { job < length plan.now.jobs }
    ensures { OnOk result (out.new.items ≡ out.old.items ++ row_text plan.now run.now job) }
{
    let rounds = run.run();
    let last = rounds.rounds();
    add_row_head(out, last, plan.job_name(job), 40 * u64::from(job.0))?;
    add_sessions(out, plan, run, job, 1, rounds.sessions(job))?;
    add_meals(out, last, rounds.meals(job))?;
    add_text(out, b"</g>\n")
}

/// Adds the rows of all jobs.
fn add_rows<A: Allocator, B: Allocator, C: Allocator>(
    out: &mut Vec<u8, A>,
    plan: &Plan<B>,
    run: &KeptRun<C>,
) -> Result<(), AllocError>
    requires { IsKeptOf plan.now run.now }
    ensures { OnOk result (out.new.items ≡ out.old.items ++ flat_map (row_text plan.now run.now) (jobs plan.now)) }
{
    for job in 0..plan.jobs() {
        add_row(out, plan, run, JobNo(job as u8))?;
    }
    Ok(())
}

/// Adds the picture over time of a run. Unless an allocation fails, the text is added whole.
#[tactic(auto, unfolding(crate::specs::Gantt::gantt_of))]
pub fn add_gantt<A: Allocator, B: Allocator, C: Allocator>(
    out: &mut Vec<u8, A>,
    plan: &Plan<B>,
    run: &KeptRun<C>,
) -> Result<(), AllocError>
    requires { IsKeptOf plan.now run.now }
    ensures { OnOk result (out.new.items ≡ out.old.items ++ gantt_of plan.now run.now) }
{
    let jobs = plan.jobs();
    let rounds = run.run();
    add_head(out, jobs, rounds)?;
    let last = rounds.rounds();
    add_scale(out, last, 40 * jobs as u64, step_of(last))?;
    add_rows(out, plan, run)?;
    add_text(out, b"</g>\n</svg>\n")
}
