//! What a lab did since its journal was last taken, as text.
ghost use Rattle.std.specs.Prelude.{◌≡◌, ◌++◌, true, IfOk, IfErr, OnOk, OnErr};
ghost use Rattle.journal_texts.specs.Texts.{journal_text};
ghost use Rattle.lab_journal.specs.Taking.{taken, without_kept, IsWhyNotTaken};

use live_lab::Lab;
use round_trace::laws::steps_are_of_plan;
use std::alloc::Global;

/// Why no journal is taken. Nothing changed then.
#[derive(Clone, Copy, PartialEq, Eq, Debug)]
pub enum NotTaken {
    /// There was no memory for the text.
    NoMemory,
    /// The lab wasn't opened so that it keeps its events.
    NotKept,
    /// An event was missed for want of room, so no text is the whole of what was done.
    NotWhole,
}

/// What was done since the journal was last taken, as text, and it isn't taken yet: [`Lab::take_kept`] does that, once the text is safe.
pub fn journal(lab: &Lab, alloc: Global) -> Result<Vec<u8, Global>, NotTaken>
    ensures text { IfOk result (λ text. text.items ≡ journal_text lab.now.world.plan lab.now.world.kept.events) }
    ensures whole { IfOk result (λ _. lab.now.world.kept.whole ≡ true) }
    ensures refused { IfErr result (IsWhyNotTaken lab.now.world.kept) }
{
    let world = lab.world();
    if world.kept().is_empty() && world.kept_room() == 0 {
        return Err(NotTaken::NotKept);
    }
    if !world.is_whole() {
        return Err(NotTaken::NotWhole);
    }
    // Kept events are legal ones, so they are of the plan.
    steps_are_of_plan();
    match journal_texts::journal_text(alloc, world.plan(), world.kept()) {
        Ok(text) => Ok(text),
        Err(_) => Err(NotTaken::NoMemory),
    }
}

/// Takes what was done since the journal was last taken, as text. The texts, one after another, behind the script and a line `steps`, are
/// the journal.
pub fn take_journal(lab: &mut Lab, alloc: Global) -> Result<Vec<u8, Global>, NotTaken>
    ensures text { IfOk result (λ text. text.items ≡ journal_text lab.old.world.plan lab.old.world.kept.events) }
    ensures took { OnOk result (lab.new ≡ without_kept lab.old) }
    ensures taken { OnOk result (taken lab.new.world ≡ taken lab.old.world ++ lab.old.world.kept.events) }
    ensures all { OnOk result (taken lab.new.world ≡ lab.new.world.past) }
    ensures refused { IfErr result (IsWhyNotTaken lab.old.world.kept) }
    ensures not_taken { OnErr result (lab.new ≡ lab.old) }
{
    let text = journal(lab, alloc)?;
    // If nothing was missed, the past ends with what is kept.
    let _ = lab.world().plan();
    lab.take_kept();
    Ok(text)
}
