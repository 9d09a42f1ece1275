//! What a call tells of a lab.
ghost use Rattle.std.specs.Prelude.{◌≡◌};
ghost use Rattle.bench_calls.specs.Telling.{turned_of, came_of, state_of, entry_of, session_of, keepers_of, outside_of, planned_of, verb_numbers};

use instrument_log::Entry;
use lab_plan::Verb;
use legal_steps::{Dining, Drinking};
use live_lab::{Came, Keepers, Planned, SessionFacts, Standing};
use session_layer::Turned;

/// What became of a turn. In C: `struct lab_turned { uint32_t what, count; };`
#[repr(C)]
#[derive(Clone, Copy)]
pub struct LabTurned {
    /// 0: nothing was due; 1: an exchange found another word; 2: this many acts were done.
    pub what: u32,
    pub count: u32,
}

pub fn turned_of(turned: Turned) -> LabTurned
    ensures { result ≡ turned_of turned }
{
    match turned {
        Turned::Acted(count) => LabTurned { what: 2, count },
        Turned::Moved => LabTurned { what: 1, count: 0 },
        Turned::Idle => LabTurned { what: 0, count: 0 },
    }
}

/// What came of a settle. In C: `struct lab_came { uint32_t holds, given_up, none_left, deeds; };`
#[repr(C)]
#[derive(Clone, Copy)]
pub struct LabCame {
    /// The jobs that hold now: bit k stands for job k.
    pub holds: u32,
    /// The jobs whose session was given up.
    pub given_up: u32,
    /// Those that were waited for and are in no session and have none left.
    pub none_left: u32,
    /// How many steps were done, looks aside.
    pub deeds: u32,
}

pub fn came_of(came: Came) -> LabCame
    ensures { result ≡ came_of came }
{
    LabCame {
        holds: came.holds,
        given_up: came.given_up,
        none_left: came.none_left,
        deeds: came.deeds,
    }
}

/// Who keeps a job waiting. In C: `struct lab_keepers { uint32_t jobs, holding; };`
#[repr(C)]
#[derive(Clone, Copy)]
pub struct LabKeepers {
    /// The jobs that keep the instrument from it: bit k stands for job k.
    pub jobs: u32,
    /// Those of them that hold it.
    pub holding: u32,
}

pub fn keepers_of(keepers: Keepers) -> LabKeepers
    ensures { result ≡ keepers_of keepers }
{
    LabKeepers {
        jobs: keepers.jobs,
        holding: keepers.holding,
    }
}

/// Whether a job waits outside. In C: `struct lab_outside { uint32_t is_outside, passed; };`
#[repr(C)]
#[derive(Clone, Copy)]
pub struct LabOutside {
    /// 1 or 0.
    pub is_outside: u32,
    /// How often it has been passed by; 0 if it isn't outside.
    pub passed: u32,
}

pub fn outside_of(passed: Option<u32>) -> LabOutside
    ensures { result ≡ outside_of passed }
{
    match passed {
        Some(passed) => LabOutside {
            is_outside: 1,
            passed,
        },
        None => LabOutside {
            is_outside: 0,
            passed: 0,
        },
    }
}

/// How many jobs and instruments there are. In C: `struct lab_size { size_t jobs, instruments; };`
#[repr(C)]
#[derive(Clone, Copy)]
pub struct LabSize {
    pub jobs: usize,
    pub instruments: usize,
}

/// What a session needs. In C: `struct lab_session { uint64_t needs; size_t commands; uint32_t patience, has_patience; };`
#[repr(C)]
#[derive(Clone, Copy)]
pub struct LabSession {
    /// Its instruments, as a set: bit i stands for instrument i.
    pub needs: u64,
    pub commands: usize,
    /// Turns; 0 if it has none.
    pub patience: u32,
    /// 1 or 0.
    pub has_patience: u32,
}

pub fn session_of(session: SessionFacts) -> LabSession
    ensures { result ≡ session_of session }
{
    let (patience, has_patience) = match session.patience {
        Some(turns) => (turns, 1),
        None => (0, 0),
    };
    LabSession {
        needs: session.needs,
        commands: session.commands,
        patience,
        has_patience,
    }
}

/// How far a job is. In C: `struct lab_state`, a `uint64_t` and nine `uint32_t`.
#[repr(C)]
#[derive(Clone, Copy)]
pub struct LabState {
    pub turns: u64,
    /// 0 thinking, 1 hungry, 2 eating.
    pub dining: u32,
    /// 0 tranquil, 1 thirsty, 2 drinking, 3 reaching, 4 retired.
    pub drinking: u32,
    /// How many sessions it has begun, and how many it has.
    pub session: u32,
    pub sessions: u32,
    /// How many commands of its session it has done.
    pub position: u32,
    pub sessions_done: u32,
    pub withdrawn: u32,
    pub meals: u32,
    /// How many turns its session has waited.
    pub waited: u32,
}

pub fn state_of(standing: Standing) -> LabState
    ensures { result ≡ state_of standing }
{
    LabState {
        turns: standing.turns,
        dining: match standing.phase.dining {
            Dining::Thinking => 0,
            Dining::Hungry => 1,
            Dining::Eating => 2,
        },
        drinking: match standing.phase.drinking {
            Drinking::Tranquil => 0,
            Drinking::Thirsty => 1,
            Drinking::Drinking => 2,
            Drinking::Reaching => 3,
            Drinking::Retired => 4,
        },
        session: standing.phase.session,
        sessions: standing.sessions,
        position: standing.phase.position,
        sessions_done: standing.counts.sessions_done,
        withdrawn: standing.counts.withdrawn,
        meals: standing.counts.meals,
        waited: standing.waited,
    }
}

/// An entry of a log. In C: `struct lab_entry { uint32_t session, place, length, verb, number, value; };`
#[repr(C)]
#[derive(Clone, Copy)]
pub struct LabEntry {
    pub session: u32,
    pub place: u32,
    pub length: u32,
    /// 0 set, 1 add, 2 read.
    pub verb: u32,
    pub number: u32,
    pub value: u32,
}

fn verb_numbers(verb: Verb) -> (u32, u32)
    ensures { result ≡ verb_numbers verb }
{
    match verb {
        Verb::Set(number) => (0, number),
        Verb::Add(number) => (1, number),
        Verb::Read => (2, 0),
    }
}

pub fn entry_of(entry: Entry) -> LabEntry
    ensures { result ≡ entry_of entry }
{
    let (verb, number) = verb_numbers(entry.verb);
    LabEntry {
        session: entry.session,
        place: entry.place,
        length: entry.length,
        verb,
        number,
        value: entry.value,
    }
}

/// A command as the script has it. In C: `struct lab_planned { uint32_t instrument, verb, number; };`
#[repr(C)]
#[derive(Clone, Copy)]
pub struct LabPlanned {
    pub instrument: u32,
    /// As in `LabEntry`.
    pub verb: u32,
    pub number: u32,
}

pub fn planned_of(command: Planned) -> LabPlanned
    ensures { result ≡ planned_of command }
{
    let (verb, number) = verb_numbers(command.verb);
    LabPlanned {
        instrument: command.instrument,
        verb,
        number,
    }
}
