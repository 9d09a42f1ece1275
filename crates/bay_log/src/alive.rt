//! Who holds by the lines of a journal.
ghost use Rattle.std.specs.Prelude.{◌≡◌, ◌∷◌, ◌++◌, [], IfOk, OnOk};
ghost use Rattle.bay_log.specs.Alive.{alive};
ghost use Rattle.bay_log.specs.Holders.{entry_in, without, pushed, taken, AreHolders};

use crate::line::{Entry, Line};
use std::alloc::{AllocError, Global};

/// An ask that holds, and what it holds.
#[derive(Clone, Copy, PartialEq, Eq, Debug)]
pub struct Holder {
    pub ask: u64,
    pub entry: Entry,
}

/// What an ask holds.
fn entry_of(holders: &[Holder], ask: u64) -> Option<Entry>
    ensures { result ≡ entry_in holders.now ask }
{
    for holder in holders {
        if holder.ask == ask {
            return Some(holder.entry);
        }
    }
    None
}

/// An ask holds no more.
fn remove(holders: &mut Vec<Holder, Global>, ask: u64)
    ensures { holders.new.items ≡ without ask holders.old.items }
{
    holders.retain(|holder| holder.ask != ask);
}

/// From here on this ask holds this, and nothing else.
fn set(holders: &mut Vec<Holder, Global>, ask: u64, entry: Option<Entry>) -> Result<(), AllocError>
    ensures { OnOk result (holders.new.items ≡ pushed ask entry (without ask holders.old.items)) }
{
    remove(holders, ask);
    if let Some(entry) = entry {
        holders.push(Holder { ask, entry })?;
    }
    Ok(())
}

/// What is held after a line.
fn take(holders: &mut Vec<Holder, Global>, line: &Line) -> Result<(), AllocError>
    ensures { OnOk result (holders.new.items ≡ taken holders.old.items line.now) }
{
    match line {
        Line::Head { .. } | Line::Note { .. } => {}
        Line::Hold { ask, entry } => set(holders, *ask, Some(*entry))?,
        Line::Back { from, to } => {
            let entry = entry_of(holders, *from);
            remove(holders, *from);
            set(holders, *to, entry)?;
        }
        Line::End { ask, .. } => remove(holders, *ask),
    }
    Ok(())
}

/// The asks that hold after all lines, each of them once.
pub fn holders(alloc: Global, lines: &[Line]) -> Result<Vec<Holder, Global>, AllocError>
    ensures { IfOk result (λ found. AreHolders found.items (alive lines.now)) }
{
    let mut found = Vec::new(alloc);
    for line in lines {
        take(&mut found, line)?;
    }
    Ok(found)
}
