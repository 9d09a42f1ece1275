//! What is read of a step that `labview` wrote. Each law is the contract of a function that does nothing.
ghost use Rattle.written_steps.specs.Added.{AreLegalAtEnd, AreLegalInPlace};
ghost use Rattle.written_steps.specs.ReadBack.{IsReadBack, AreLegalReadBack};
ghost use Rattle.written_steps.specs.StepLists.{IsListReadBack};

/// The text of a step is, by the reader's own definition, that step of that plan.
#[tactic(auto, using(crate::proofs::StepTexts::read_back))]
pub fn is_read_back()
    ensures { IsReadBack }
{}

/// So is the text of each step that is legal in some state.
#[tactic(auto, using(crate::proofs::StepTexts::legal_read_back))]
pub fn legal_is_read_back()
    ensures { AreLegalReadBack }
{}

/// A script with its steps behind a line `steps`, at most 1000000 of them, is read as its plan and these steps, in their lines.
pub fn list_is_read_back()
    ensures { IsListReadBack }
{}

/// Each move that an explanation lists is legal behind the steps, if all of them are legal, and its text is read as this move.
pub fn listed_is_legal_at_end()
    ensures { AreLegalAtEnd }
{}

/// Each move that an explanation lists is legal in the place of the step that isn't, and its text is read as this move.
pub fn listed_is_legal_in_place()
    ensures { AreLegalInPlace }
{}
