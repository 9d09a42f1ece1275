//! An entry as 16 bytes.
ghost use Rattle.std.specs.Prelude.{◌≡◌, ◌≢◌, ℕ, ◌+◌, ◌*◌, IfSome, IfNone};
ghost use Rattle.lab_plan.specs.Verbs.{verb_number};
ghost use Rattle.instrument_log.specs.declared.entry.Entry.{Entry};
ghost use Rattle.instrument_log.specs.Entries.{IsWithinLimits, verb_code, verb_of, entry_bytes, entry_of};

use crate::entry::{Entry, byte_of_job};
use lab_plan::{JobNo, Verb};

/// The entry as 16 bytes, each field with its least byte first: byte 0 is the job, 1 to 2 the session,
/// 3 to 5 the place, 6 to 8 the length, 9 the verb (0 set, 1 add, 2 read), 10 to 12 its number (0 for a
/// read) and 13 to 15 the value.
#[tactic(auto, unfolding(crate::specs::Entries::entry_bytes))]
pub fn pack_entry(entry: Entry) -> [u8; 16]
    requires { IsWithinLimits entry }
    ensures { result ≡ entry_bytes entry }
{
    let [s0, s1, _, _] = entry.session.to_le_bytes();
    let [p0, p1, p2, _] = entry.place.to_le_bytes();
    let [l0, l1, l2, _] = entry.length.to_le_bytes();
    let [n0, n1, n2, _] = number_of_verb(entry.verb).to_le_bytes();
    let [v0, v1, v2, _] = entry.value.to_le_bytes();
    let job = byte_of_job(entry.job);
    let code = code_of_verb(entry.verb);
    [
        job, s0, s1, p0, p1, p2, l0, l1, l2, code, n0, n1, n2, v0, v1, v2,
    ]
}

/// The entry that the bytes are packed from, if it is one within the limits. There is none exactly
/// if the job, the session, the length, the verb's number or the value is past its limit (`lab_plan::limits`), the session
/// or the place is 0, the place above the length, the verb above 2, or a read has a number.
pub fn unpack_entry(bytes: [u8; 16]) -> Option<Entry>
    ensures spelled { IfSome result (λ entry. (entry_bytes entry ≡ bytes) × IsWithinLimits entry) }
    ensures refused { IfNone result ((entry : Entry) → IsWithinLimits entry → entry_bytes entry ≢ bytes) }
{
    let entry = spelled_by(&bytes);
    if entry.is_within_limits() && pack_entry(entry) == bytes {
        Some(entry)
    } else {
        None
    }
}

/// The entry that the bytes spell, if they are those of an entry.
#[tactic(auto, unfolding(crate::specs::Entries::entry_of))]
pub(crate) fn spelled_by(bytes: &[u8; 16]) -> Entry
    ensures { result ≡ entry_of bytes.now }
{
    Entry {
        job: JobNo(bytes[0]),
        session: number_of(bytes[1], bytes[2], 0),
        place: number_of(bytes[3], bytes[4], bytes[5]),
        length: number_of(bytes[6], bytes[7], bytes[8]),
        verb: verb_of(bytes[9], number_of(bytes[10], bytes[11], bytes[12])),
        value: number_of(bytes[13], bytes[14], bytes[15]),
    }
}

fn number_of(low: u8, middle: u8, high: u8) -> u32
    ensures { result ≡ low + 256 * middle + 65536 * high }
{
    u32::from_le_bytes([low, middle, high, 0])
}

fn verb_of(code: u8, number: u32) -> Verb
    ensures { result ≡ verb_of code number }
{
    match code {
        0 => Verb::Set(number),
        1 => Verb::Add(number),
        _ => Verb::Read,
    }
}

fn code_of_verb(verb: Verb) -> u8
    ensures { result ≡ verb_code verb }
{
    match verb {
        Verb::Set(_) => 0,
        Verb::Add(_) => 1,
        Verb::Read => 2,
    }
}

fn number_of_verb(verb: Verb) -> u32
    ensures { result ≡ verb_number verb }
{
    match verb {
        Verb::Set(number) | Verb::Add(number) => number,
        Verb::Read => 0,
    }
}
