//! Commands: the log of an instrument leaves its slot, gets an entry and goes back.
ghost use Rattle.std.specs.Prelude.{◌≡◌};
ghost use Rattle.legal_steps.specs.declared.event.Event.TheVariants.{Reach};
ghost use Rattle.legal_steps.specs.Legal.{May};
ghost use Rattle.edge_rule.specs.DeskView.{Owns, Commanded, known};

use crate::bench::Bench;
use crate::desk::Desk;
use crate::words::{packed_phase, phase_place};
use instrument_log::Entry;
use lab_plan::InstrumentNo;
use legal_steps::{Drinking, JobState};
use one_history::board::{Acts, Reaches};
use plan_logs::{drafted, entered, push};
use std::alloc::Allocator;

fn slot_of(instrument: InstrumentNo) -> usize
    ensures { result ≡ instrument }
{
    instrument.0 as usize
}

/// Reaches for the log of the next command's instrument, and acts: adds the command's entry, which it answers.
/// Others may act between the two.
pub fn command<A: Allocator>(bench: &Bench<A>, desk: &mut Desk<A>) -> Entry
    requires own { Owns bench.now desk.old }
    requires ready { May desk.old.plan (known desk.old) (Reach desk.old.job) }
    ensures { Commanded desk.old result desk.new }
{
    let plan = bench.plan;
    let phase = desk.phase;
    let job = desk.job;
    let place = phase_place(plan, job);
    // Looked up before the first store, behind which nothing of the plan could be taken as read.
    let (instrument, draft) = drafted(plan, job, phase);
    let slot = slot_of(instrument);
    let reaching = JobState {
        drinking: Drinking::Reaching,
        ..phase
    };
    let acted = JobState {
        drinking: Drinking::Drinking,
        position: phase.position + 1,
        ..phase
    };
    let first = packed_phase(reaching);
    let second = packed_phase(acted);
    // The job drinks, so nobody else holds the instrument: its log is in its slot, and no lock is asked for.
    bench
        .table
        .shared
        .store::<Reaches>(&mut desk.seat, place, first);
    let log = desk.seat.slot_mut(&bench.table.shared, slot);
    let entry = entered(draft, log);
    push(log, &entry);
    bench
        .table
        .shared
        .store::<Acts>(&mut desk.seat, place, second);
    // Only the position is another, on which no move of an edge depends: what is noted of edges stays. And if a command is
    // due, the desk isn't noted as settled.
    desk.phase.position = acted.position;
    entry
}
