//! The log of one instrument.
ghost use Rattle.std.specs.Prelude.{◌≡◌, ◌≢◌, ◌+◌, ◌-◌, ◌<◌, ◌≤◌, length, map, slice_get, Some, is_ok, if◌then◌else◌, IfOk, IsTrue, ◌↔◌};
ghost use Rattle.std.specs.Option.{MatchOption, option_map_or};
ghost use Rattle.instrument_log.specs.Entries.{IsWithinLimits, entry_bytes};
ghost use Rattle.instrument_log.specs.Dial.{turned, dial};
ghost use Rattle.instrument_log.specs.Parts.{IsNextPlace, if_open, open_entry, unfinished_of};
ghost use Rattle.instrument_log.specs.InstrumentLog.{IsLog, MayAppend, IsRefused, Appends, empty_log, with_room, with_entry};

use crate::entry::Entry;
use crate::packed::{pack_entry, spelled_by};
use crate::refusal::LogRefusal;
use std::alloc::{AllocError, Allocator, Global};
use std::marker::Model;

/// What keeps the next log off this one's cache lines, and off those that a processor fetches with them: logs of a bench stand side by
/// side, and every entry writes how many its log has, perhaps on another thread. Never read.
type Apart = [u64; 16];

const APART: Apart = [0; 16];

/// The log of one instrument: what its commands left, in order, with room for a number of entries that
/// is set when the log is made; `make_room` makes more.
///
/// Its entries are parts, one after another: a part is what one session of a job leaves on the
/// instrument, with places from 1 to its length, and only the last part may be unfinished. Each value
/// follows from the one before by its entry's verb, the first from 0. Contracts see the list of entries
/// and the room. An entry takes 16 bytes.
#[derive(Drop)]
pub struct InstrumentLog<A: Allocator = Global> {
    /// Each entry as `pack_entry` packs it, with capacity for `room` of them.
    packed: Vec<[u8; 16], A>,
    room: usize,
    /// How many entries the last part has if it is unfinished; otherwise 0.
    unfinished: u32,
    value: u32,
    apart: Apart,
}

impl<A: Allocator> Model for InstrumentLog<A> {
    ghost use Rattle.std.specs.Prelude.{◌≤◌, vec_capacity};
    ghost use Rattle.instrument_log.specs.InstrumentLog.{LogView};
    ghost use Rattle.instrument_log.specs.Packed.{entries_of, IsKept};

    ghost Value = { LogView };

    ghost view = { λ log. record { entries = entries_of log.packed.items; room = log.room } };

    ghost invariant = { λ log. IsKept log.packed.items log.room log.unfinished log.value × (log.room ≤ vec_capacity log.packed) };
}

impl<A: Allocator> InstrumentLog<A> {
    /// An empty log with room for this many entries. All the memory that they take is taken here.
    pub fn with_room(alloc: A, room: usize) -> Result<InstrumentLog<A>, AllocError>
        ensures { IfOk result (λ log. log ≡ empty_log room) }
    {
        Ok(InstrumentLog {
            packed: Vec::with_capacity(alloc, room)?,
            room,
            unfinished: 0,
            value: 0,
            apart: APART,
        })
    }

    /// Makes room for more entries behind those that the log has room for already. Like every list, what the log takes grows by
    /// doubling, so that a number of calls costs no more than the entries that they make room for. It fails if no memory is left.
    pub fn make_room(&mut self, more: usize) -> Result<(), AllocError>
        ensures { self.new ≡ (if is_ok result then with_room (self.old.room + more) self.old else self.old) }
    {
        let room = self.room.checked_add(more).ok_or(AllocError)?;
        self.packed.reserve(room - self.packed.len())?;
        self.room = room;
        Ok(())
    }

    /// Gives up room that no entry takes, as one who made too much of it. It neither takes nor frees memory: the next call that makes
    /// room has it.
    pub fn give_back_room(&mut self, less: usize)
        requires { length self.old.entries + less ≤ self.old.room }
        ensures { self.new ≡ with_room (self.old.room - less) self.old }
    {
        self.room -= less;
    }

    /// Adds the entry at the end, if it follows: it is the next place of the unfinished part, or
    /// place 1 if no part is unfinished. Takes no memory. The entry's value is the dial after its
    /// verb, as [`turned`](crate::turned) answers it from [`value`](Self::value).
    pub fn append(&mut self, entry: Entry) -> Result<(), LogRefusal>
        requires within_limits { IsWithinLimits entry }
        requires on_dial { entry.value ≡ turned entry.verb (dial self.old.entries) }
        ensures { Appends self.old entry result self.new }
    {
        match self.refusal(&entry) {
            Some(refusal) => Err(refusal),
            None => {
                self.add(entry);
                Ok(())
            }
        }
    }

    fn refusal(&self, entry: &Entry) -> Option<LogRefusal>
        requires { 1 ≤ entry.now.place }
        ensures { MatchOption result (MayAppend self.now entry.now) (λ refusal. IsRefused self.now entry.now refusal) }
    {
        match self.open_entry() {
            Some(before) if !is_next_place(&before, entry) => Some(LogRefusal::NotNextPlace),
            None if entry.place != 1 => Some(LogRefusal::NotFirstPlace),
            _ if self.packed.len() == self.room => Some(LogRefusal::NoRoom),
            _ => None,
        }
    }

    /// The last entry, if its part is unfinished.
    fn open_entry(&self) -> Option<Entry>
        ensures { result ≡ open_entry self.now.entries }
    {
        if self.unfinished == 0 {
            None
        } else {
            Some(spelled_by(&self.packed[self.packed.len() - 1]))
        }
    }

    /// Adds at the end an entry that is known to follow, within the log's room, and tests nothing of it.
    /// Takes no memory. If that isn't known, [`append`](Self::append) says whether it does.
    pub fn add(&mut self, entry: Entry)
        requires may { MayAppend self.old entry }
        requires within_limits { IsWithinLimits entry }
        requires on_dial { entry.value ≡ turned entry.verb (dial self.old.entries) }
        ensures { self.new ≡ with_entry self.old entry }
    {
        self.packed.push_reserved(pack_entry(entry));
        self.unfinished = unfinished_by(&entry);
        self.value = entry.value;
    }

    /// The number of entries.
    pub fn len(&self) -> usize
        ensures { result ≡ length self.now.entries }
    {
        self.packed.len()
    }

    /// Whether the log has no entry yet.
    pub fn is_empty(&self) -> bool
        ensures { IsTrue result ↔ (length self.now.entries ≡ 0) }
    {
        self.packed.is_empty()
    }

    /// The number of entries that the log has room for.
    pub fn room(&self) -> usize
        ensures room { result ≡ self.now.room }
        ensures fits { length self.now.entries ≤ result }
    {
        self.room
    }

    /// The entry with `index` entries before it.
    pub fn entry(&self, index: usize) -> Entry
        requires { index < length self.now.entries }
        ensures entry { slice_get self.now.entries index ≡ Some result }
        ensures within_limits { IsWithinLimits result }
    {
        spelled_by(&self.packed[index])
    }

    /// The number of entries in finished parts.
    pub fn whole(&self) -> usize
        ensures { result + unfinished_of self.now.entries ≡ length self.now.entries }
    {
        self.len() - self.unfinished()
    }

    /// The number of entries of the unfinished last part, 0 if there is none.
    pub fn unfinished(&self) -> usize
        ensures unfinished { result ≡ unfinished_of self.now.entries }
        ensures counted { result ≤ length self.now.entries }
        ensures kept { IsLog self.now }
    {
        self.unfinished as usize
    }

    /// The number on the dial after all entries, 0 if there is none.
    pub fn value(&self) -> u32
        ensures value { result ≡ dial self.now.entries }
        ensures fits { result ≤ 999999 }
    {
        self.value
    }

    /// The entries as the log keeps them, in order, each packed as [`pack_entry`] packs it.
    pub fn packed(&self) -> &[[u8; 16]]
        ensures { result.now ≡ map entry_bytes self.now.entries }
    {
        &self.packed
    }
}

fn is_next_place(before: &Entry, entry: &Entry) -> bool
    requires { 1 ≤ entry.now.place }
    ensures { IsTrue result ↔ IsNextPlace before.now entry.now }
{
    entry.job == before.job
        && entry.session == before.session
        && entry.length == before.length
        && entry.place - 1 == before.place
}

/// How many entries a part has up to this one if it is unfinished; otherwise 0.
fn unfinished_by(entry: &Entry) -> u32
    ensures { result ≡ option_map_or (λ last. last.place) (if_open entry.now) 0 }
{
    if entry.place < entry.length {
        entry.place
    } else {
        0
    }
}
