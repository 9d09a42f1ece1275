//! More room, before longer sessions come.
ghost use Rattle.std.specs.Prelude.{◌≡◌, OnOk, IfErr, OnErr};
ghost use Rattle.lab_journal.specs.Rooms.{longest_in};
ghost use Rattle.lab_journal.specs.Room.{HasMoreRoom, IsWhyNoRoom};

use crate::room::room_with;
use bstr::ByteSlice;
use live_lab::Lab;
use std::alloc::Global;

/// Why there is no room for the steps of longer sessions. Nothing changed then.
#[derive(Clone, Copy, PartialEq, Eq, Debug)]
pub enum NoRoom {
    /// There was no memory.
    NoMemory,
    /// Steps are kept that weren't taken yet.
    HasSteps,
}

/// How many commands a session of the text has at most: the lines between two lines `end`.
fn longest_in(text: &[u8]) -> usize
    ensures { result ≡ longest_in text.now }
{
    let mut longest = 0usize;
    let mut lines = 0usize;
    for line in text.lines() {
        if line == b"end".as_slice() {
            longest = longest.max(lines);
            lines = 0;
        } else {
            lines += 1;
        }
    }
    longest.max(lines)
}

/// Makes room for the steps of the sessions that a text has, if the lab keeps its steps, before they are added. There can be more room only while
/// no step is kept.
pub fn make_room(lab: &mut Lab, alloc: Global, text: &[u8]) -> Result<(), NoRoom>
    ensures made { OnOk result (HasMoreRoom text.now lab.old lab.new) }
    ensures refused { IfErr result (IsWhyNoRoom text.now lab.old) }
    ensures not_made { OnErr result (lab.new ≡ lab.old) }
{
    let world = lab.world();
    let left = world.kept_room();
    let kept = world.kept().len();
    let wanted = room_with(world.plan(), longest_in(text));
    if (left == 0 && kept == 0) || wanted <= left.saturating_add(kept) {
        return Ok(());
    }
    if kept > 0 || !world.is_whole() {
        return Err(NoRoom::HasSteps);
    }
    match lab.keep(alloc, wanted) {
        Ok(()) => Ok(()),
        Err(_) => Err(NoRoom::NoMemory),
    }
}
