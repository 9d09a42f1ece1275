//! The line of an entry, field by field.
ghost use Rattle.std.specs.Prelude.{◌≡◌, ◌++◌, OnOk};
ghost use Rattle.report_reader.specs.Form.{entry_text};
ghost use Rattle.picture.specs.LogTable.{name_field, number_field, verb_fields, place_fields, session_fields, entry_line};

use itoa::Buffer;
use lab_plan::{Verb, is_name};
use report_reader::EntryLine;
use std::alloc::{AllocError, Allocator};

/// A name, or `?` in place of what is no name.
fn add_name<A: Allocator>(out: &mut Vec<u8, A>, name: &[u8]) -> Result<(), AllocError>
    ensures { OnOk result (out.new.items ≡ out.old.items ++ name_field name.now) }
{
    if is_name(name) {
        out.extend_from_slice(name)
    } else {
        out.extend_from_slice(b"?")
    }
}

/// One more field, a number.
fn add_number<A: Allocator>(out: &mut Vec<u8, A>, number: u64) -> Result<(), AllocError>
    ensures { OnOk result (out.new.items ≡ out.old.items ++ number_field number) }
{
    out.extend_from_slice(b",")?;
    out.extend_from_slice(Buffer::new().format(number).as_bytes())
}

/// The verb and its number, of which a reading has none.
fn add_verb<A: Allocator>(out: &mut Vec<u8, A>, verb: Verb) -> Result<(), AllocError>
    ensures { OnOk result (out.new.items ≡ out.old.items ++ verb_fields verb) }
{
    match verb {
        Verb::Set(number) => {
            out.extend_from_slice(b",set")?;
            add_number(out, u64::from(number))
        }
        Verb::Add(number) => {
            out.extend_from_slice(b",add")?;
            add_number(out, u64::from(number))
        }
        Verb::Read => out.extend_from_slice(b",read,"),
    }
}

/// The instrument, the entry's place in its log, counted from 1, and the job.
#[tactic(auto, unfolding(crate::specs::LogTable::place_fields))]
fn add_place<A: Allocator>(
    out: &mut Vec<u8, A>,
    instrument: &[u8],
    number: u64,
    entry: &EntryLine,
) -> Result<(), AllocError>
    ensures { OnOk result (out.new.items ≡ out.old.items ++ place_fields instrument.now number (entry_text entry.now)) }
{
    add_name(out, instrument)?;
    add_number(out, number)?;
    out.extend_from_slice(b",")?;
    add_name(out, entry.job)
}

/// The job's session, and the place in the session's part, of this many.
#[tactic(auto, unfolding(crate::specs::LogTable::session_fields))]
fn add_session<A: Allocator>(out: &mut Vec<u8, A>, entry: &EntryLine) -> Result<(), AllocError>
    ensures { OnOk result (out.new.items ≡ out.old.items ++ session_fields (entry_text entry.now)) }
{
    add_number(out, u64::from(entry.session))?;
    add_number(out, u64::from(entry.place))?;
    add_number(out, u64::from(entry.length))
}

/// The line of an entry.
#[tactic(auto, unfolding(crate::specs::LogTable::entry_line))]
pub(crate) fn add_entry<A: Allocator>(
    out: &mut Vec<u8, A>,
    instrument: &[u8],
    number: u64,
    entry: &EntryLine,
) -> Result<(), AllocError>
    ensures { OnOk result (out.new.items ≡ out.old.items ++ entry_line instrument.now number (entry_text entry.now)) }
{
    add_place(out, instrument, number, entry)?;
    add_session(out, entry)?;
    add_verb(out, entry.verb)?;
    add_number(out, u64::from(entry.value))?;
    out.extend_from_slice(b"\n")
}
