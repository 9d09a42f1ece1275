//! The table of a report.
ghost use Rattle.std.specs.Prelude.{◌≡◌, ◌+◌, ◌<◌, ◌++◌, length, map, slice_index_or, OnOk, IfOk};
ghost use Rattle.std.specs.List.{flat_map};
ghost use Rattle.report_reader.specs.Form.{entry_text};
ghost use Rattle.picture.specs.LogTable.{entry_line, no_entry, log_lines, table_text};

use crate::log_entries::add_entry;
use report_reader::{EntryLine, Log, Report};
use std::alloc::{AllocError, Allocator};

/// The line of an entry, by its place in the log, counted from 0.
#[tactic(auto, using(crate::proofs::LogLines::nth_spelled))]
fn add_nth<A: Allocator>(
    out: &mut Vec<u8, A>,
    instrument: &[u8],
    entries: &[EntryLine],
    place: usize,
) -> Result<(), AllocError>
    requires { place < length entries.now }
    ensures { OnOk result (out.new.items ≡ out.old.items
        ++ entry_line instrument.now (place + 1) (slice_index_or (map entry_text entries.now) place no_entry)) }
{
    add_entry(out, instrument, place as u64 + 1, &entries[place])
}

/// The lines of a log, one for each entry.
fn add_log<A: Allocator, B: Allocator>(
    out: &mut Vec<u8, A>,
    log: &Log<'_, B>,
) -> Result<(), AllocError>
    ensures { OnOk result (out.new.items ≡ out.old.items ++ log_lines log.now) }
{
    let entries = log.entries();
    for place in 0..entries.len() {
        add_nth(out, log.name(), entries, place)?;
    }
    Ok(())
}

/// The lines of all logs.
fn add_logs<'a, A: Allocator, B: Allocator>(
    out: &mut Vec<u8, A>,
    logs: &[Log<'a, B>],
) -> Result<(), AllocError>
    ensures { OnOk result (out.new.items ≡ out.old.items ++ flat_map log_lines logs.now) }
{
    for log in logs {
        add_log(out, log)?;
    }
    Ok(())
}

/// The table of a report's logs: a head that names the fields, and a line for each entry. Takes some 60 bytes an entry.
#[tactic(auto, unfolding(crate::specs::LogTable::table_text))]
pub fn table_of<A: Allocator, B: Allocator>(
    alloc: A,
    report: &Report<'_, B>,
) -> Result<Vec<u8, A>, AllocError>
    ensures { IfOk result (λ text. text.items ≡ table_text report.now) }
{
    let mut text = Vec::new(alloc);
    text.extend_from_slice(b"instrument,entry,job,session,place,length,verb,number,value\n")?;
    add_logs(&mut text, report.logs())?;
    Ok(text)
}
