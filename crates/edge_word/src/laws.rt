//! What holds of all words. Each law is the contract of a function that does nothing.
ghost use Rattle.edge_word.specs.WordLaws.{HasTheBitsOfTheTable, HasTheFieldsOfTheTable, NoTwoEdgesShareAWord};
ghost use Rattle.edge_word.specs.WordLaws.{NoTwoPhasesShareAWord, OpensAsTheOpening, OpensAtZero, MovesAreEvents};
ghost use Rattle.edge_word.specs.WordLaws.{MovesChangeOnlyTheirEdge, StaysOfItsBottles, LegalMovesAreOfTheEdge, LegalGroupsAreShort, MovesAreReadBack};

/// The word of an edge is the one number that has the bits of the table at `EdgeWord`.
pub fn bits_of_the_table()
    ensures { HasTheBitsOfTheTable }
{}

/// The word of a phase is the one number that has the fields of the table at `PhaseWord`.
pub fn fields_of_the_table()
    ensures { HasTheFieldsOfTheTable }
{}

/// No two edges have one word.
#[tactic(auto, using(crate::proofs::WordBits::no_two_edges))]
pub fn one_word_for_each_edge()
    ensures { NoTwoEdgesShareAWord }
{}

/// No two phases have one word.
#[tactic(auto, using(crate::proofs::PhaseLemmas::no_two_phases))]
pub fn one_word_for_each_phase()
    ensures { NoTwoPhasesShareAWord }
{}

/// In the initial state each edge is as `EdgeWord::opening` spells it.
#[tactic(auto, using(crate::proofs::OpeningWords::opens_as_the_opening))]
pub fn opens_as_the_opening()
    ensures { OpensAsTheOpening }
{}

/// In the initial state each phase word is 0: a job before its first event thinks, is tranquil, and is in no session.
pub fn opens_at_zero()
    ensures { OpensAtZero }
{}

/// The edge after a group of moves is the edge after the events of the group, one after another.
#[tactic(auto, using(crate::proofs::MoveLaws::moves_lead))]
pub fn moves_are_events()
    ensures { MovesAreEvents }
{}

/// A group of moves changes nothing but its edge, and marks of the job that moves.
pub fn moves_change_only_their_edge()
    ensures { MovesChangeOnlyTheirEdge }
{}

/// After moves of the edge's own bottles, its word names no other bottle.
#[tactic(auto, using(crate::proofs::MoveLaws::stays_of_its_bottles))]
pub fn stays_of_its_bottles()
    ensures { StaysOfItsBottles }
{}

/// If each move of a group is legal after the ones before it, its sets are of the edge.
#[tactic(auto, using(crate::proofs::MoveLaws::legal_moves_are_of_the_edge))]
pub fn legal_moves_are_of_the_edge()
    ensures { LegalMovesAreOfTheEdge }
{}

/// If each move of a group is legal after the ones before it, and there is one, the group has one to four events: who
/// asks for a fork is hungry, and who soils one eats.
pub fn legal_groups_are_short()
    ensures { LegalGroupsAreShort }
{}

/// If each move of a group is legal after the ones before it, the group is read back from the two words
/// before and after it. So two numbers tell which events an exchange was.
#[tactic(auto, using(crate::proofs::MoveLaws::read_back))]
pub fn moves_are_read_back()
    ensures { MovesAreReadBack }
{}
