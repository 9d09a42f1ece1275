//! What C calls: the program's runs on one thread, from a script in memory to a report in memory.

ghost use Rattle.std.specs.Prelude.{◌≡◌};
ghost use Rattle.lab_program.specs.Answers.{ScriptRefuses};
ghost use Rattle.lab_runs.specs.Replays.{ReplaysScript, ReplayRefuses};
ghost use Rattle.lab_runs.specs.Scripts.{Checks, Upgrades, UpgradeIsStable};
ghost use Rattle.lab_runs.specs.Shared.{RunsInRounds, HasOneRun};
ghost use Rattle.bench_c.specs.Runs.{Answers};

use crate::bytes::Bytes;
use crate::told::tell;
use c_tells::{MemorySink, Told};
use lab_runs::{run_check, run_replay, run_rounds, run_upgrade};
use std::alloc::Global;

/// Runs a script in rounds, at most `limit` of them, and puts the report into `report`.
///
/// The status is the program's, or 6 if the report has more bytes than `report`. If there is no report, and at status 6,
/// `report` stays as it was.
#[unsafe(no_mangle)]
pub extern "C" fn lab_rounds(
    alloc: Global,
    script: &[u8],
    limit: u32,
    report: &mut [u8],
    told: &mut Told,
) -> u32
    ensures answer { Answers (RunsInRounds limit) ScriptRefuses script.now report.old report.new told.new result }
    ensures one { HasOneRun }
{
    let mut sink = MemorySink::new(alloc);
    let answer = run_rounds(alloc, &mut Bytes::new(script), &mut sink, limit);
    tell(answer, sink.bytes(), report, told)
}

/// Takes the steps of a script, and puts the report into `report`, as `lab_rounds` does.
#[unsafe(no_mangle)]
pub extern "C" fn lab_replay(
    alloc: Global,
    script: &[u8],
    report: &mut [u8],
    told: &mut Told,
) -> u32
    ensures { Answers ReplaysScript ReplayRefuses script.now report.old report.new told.new result }
{
    let mut sink = MemorySink::new(alloc);
    let answer = run_replay(alloc, &mut Bytes::new(script), &mut sink);
    tell(answer, sink.bytes(), report, told)
}

/// Puts the line of a script's counts into `report`, as `lab_rounds` does a report.
#[unsafe(no_mangle)]
pub extern "C" fn lab_check(alloc: Global, script: &[u8], report: &mut [u8], told: &mut Told) -> u32
    ensures { Answers Checks ScriptRefuses script.now report.old report.new told.new result }
{
    let mut sink = MemorySink::new(alloc);
    let answer = run_check(alloc, &mut Bytes::new(script), &mut sink);
    tell(answer, sink.bytes(), report, told)
}

/// Puts the script of version 2 that means the same plan into `report`, as `lab_rounds` does a report.
#[unsafe(no_mangle)]
pub extern "C" fn lab_upgrade(
    alloc: Global,
    script: &[u8],
    report: &mut [u8],
    told: &mut Told,
) -> u32
    ensures answer { Answers Upgrades ScriptRefuses script.now report.old report.new told.new result }
    ensures stable { UpgradeIsStable }
{
    let mut sink = MemorySink::new(alloc);
    let answer = run_upgrade(alloc, &mut Bytes::new(script), &mut sink);
    tell(answer, sink.bytes(), report, told)
}
