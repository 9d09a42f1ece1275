//! How a call ends: what it leaves in the caller's memory, and its status.
ghost use Rattle.std.specs.Prelude.{◌≡◌, Err};
ghost use Rattle.c_tells.specs.Telling.{cause_number, told_of, Gives, Delivers};
ghost use Rattle.lab_program.specs.Faults.{status_of};

use lab_program::{RunFault, status_of};
use script_reader::ScriptCause;

/// The status if a text has more bytes than there is room for.
const NO_ROOM: u32 = 6;

/// What a call tells beside its status. In C: `struct lab_told { size_t written; size_t line; uint32_t cause; };`
#[repr(C)]
#[derive(Clone, Copy)]
pub struct Told {
    /// How many bytes the text has, or of a journal were read, or how many sessions were added; 0 if there is none of these.
    pub written: usize,
    /// The line that a fault names, counted from 1, and 0 if none does.
    pub line: usize,
    /// Why this line is refused: 1 to 14 for S1 to S14, and 0 for a step that isn't legal or no fault of a line.
    pub cause: u32,
}

fn cause_number(cause: ScriptCause) -> u32
    ensures { result ≡ cause_number cause }
{
    match cause {
        ScriptCause::NoHeader => 1,
        ScriptCause::UnknownWord => 2,
        ScriptCause::BadName => 3,
        ScriptCause::BadNumber => 4,
        ScriptCause::JobTwice => 5,
        ScriptCause::NotInSession => 6,
        ScriptCause::NotInJob => 7,
        ScriptCause::EmptySession => 8,
        ScriptCause::SessionNotClosed => 9,
        ScriptCause::LimitPassed => 10,
        ScriptCause::TooManyInCommon => 11,
        ScriptCause::NoMemory => 12,
        ScriptCause::BadStep => 13,
        ScriptCause::NotItsOwn => 14,
    }
}

fn told_of(fault: RunFault) -> Told
    ensures { result ≡ told_of fault }
{
    let (line, cause) = match fault {
        RunFault::Script(fault) => (fault.line, cause_number(fault.cause)),
        RunFault::Step { line } => (line, 0),
        _ => (0, 0),
    };
    Told {
        written: 0,
        line,
        cause,
    }
}

/// Puts a text into the room, if it has room for it.
pub fn put(full: u32, text: &[u8], room: &mut [u8]) -> u32
    ensures { Gives full text.now room.old room.new result }
{
    if room.len() < text.len() {
        return NO_ROOM;
    }
    room[..text.len()].copy_from_slice(text);
    full
}

/// Puts a text into the room, if it has room for it, and tells its length in either case.
pub fn deliver(full: u32, text: &[u8], room: &mut [u8], told: &mut Told) -> u32
    ensures { Delivers full text.now room.old room.new told.new result }
{
    *told = Told {
        written: text.len(),
        line: 0,
        cause: 0,
    };
    put(full, text, room)
}

/// Tells a fault.
pub fn fail(fault: RunFault, told: &mut Told) -> u32
    ensures told { told.new ≡ told_of fault }
    ensures status { result ≡ status_of (Err fault) }
{
    *told = told_of(fault);
    u32::from(status_of(&Err(fault)))
}
