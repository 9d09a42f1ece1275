//! How a run's answer is told.
ghost use Rattle.bench_c.specs.Runs.{Tells};

use c_tells::{Told, deliver, fail};
use lab_program::{Outcome, RunFault, status_of};

/// Puts the text of a run that wrote one into the room and says how long it is; else tells the fault.
pub(crate) fn tell(
    answer: Result<Outcome, RunFault>,
    text: &[u8],
    room: &mut [u8],
    told: &mut Told,
) -> u32
    ensures { Tells answer text.now room.old room.new told.new result }
{
    match answer {
        Ok(_) => deliver(u32::from(status_of(&answer)), text, room, told),
        // Writes fail only if an allocation fails.
        Err(RunFault::Write) => fail(RunFault::NoMemory, told),
        Err(fault) => fail(fault, told),
    }
}
