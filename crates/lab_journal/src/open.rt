//! A lab that keeps its events.
ghost use Rattle.std.specs.Prelude.{◌≡◌, ◌≤◌, IfOk, IfErr, length};
ghost use Rattle.script_reader.specs.Script.{ScriptMeans};
ghost use Rattle.live_lab.specs.Labs.{IsWhyNot};
ghost use Rattle.lab_journal.specs.Taking.{IsOpenedKept, has_room};

use crate::room::room_of;
use lab_program::RunFault;
use live_lab::Lab;
use std::alloc::Global;

/// A lab for the plan of a script, before its first event, that keeps what it does until its journal is taken. All memory that the lab needs
/// is taken here.
pub fn open_kept(alloc: Global, script: &[u8]) -> Result<Lab, RunFault>
    ensures opened { IfOk result (λ l. (length script.now ≤ 16777216) × ScriptMeans script.now l.world.plan × IsOpenedKept l) }
    ensures refused { IfErr result (λ fault. IsWhyNot script.now fault) }
{
    let mut lab = Lab::open(alloc, script)?;
    let room = room_of(lab.world().plan());
    match lab.keep(alloc, room) {
        Ok(()) => Ok(lab),
        Err(_) => Err(RunFault::NoMemory),
    }
}

/// Whether there is room for the events of one more call: at least half of the room is free. Of a lab that keeps nothing it is true.
pub fn has_room(lab: &Lab) -> bool
    ensures { result ≡ has_room lab.now.world.kept }
{
    let world = lab.world();
    world.kept().len() <= world.kept_room()
}
