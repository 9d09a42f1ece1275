//! Worked runs, whose answers were worked out by hand: forks, bottles, all moves at once, marks, counts and patience.
use crate::desks::{A, AB, AC, B, BC, C};
use crate::labs::{PATIENCE_0, THREE, TWICE, TWO};
use crate::lines::Answer::{Far, Found, Is, Word};
use crate::lines::Call::{Glance, Look, May, Seen, Store, Try};
use crate::lines::Move::{AllDue, AskBottles, AskFork, GiveBottles, GiveFork, Soil, These};
use crate::lines::{Answer, Call, Line, check};
use crate::words::{
    CLEAN_B_ASKED_BOTTLE_B, CLEAN_B_ASKED_BOTTLE_B_ASKED, CLEAN_B_BOTTLE_A, CLEAN_B_BOTTLE_A_ASKED,
    CLEAN_B_BOTTLE_B, CLEAN_B_BOTTLE_B_ASKED, DIRTY_A_ALL_28_B, DIRTY_A_ASKED_BOTTLE_A,
    DIRTY_A_ASKED_BOTTLE_A_ASKED, DIRTY_A_BOTTLE_A_ASKED, DIRTY_A_BOTTLES_0_AND_2_B,
    DIRTY_A_THREE_BOTTLES_B, DIRTY_B_ASKED_BOTTLE_A, DIRTY_B_BOTTLE_A, DRINKS, DRINKS_HUNGRY,
    DRINKS_THREE_DONE, OPEN, OPEN_OF_28, OPEN_OF_THREE, RETIRED, SECOND_THIRST, THIRSTY,
    THIRSTY_EATING, THIRSTY_HUNGRY, TRANQUIL,
};
use edge_rule::PhaseEvent::{Hunger, Quit, Retire, Sit, Thirst, Withdraw};
use edge_rule::{Counts, PhaseEvent};
use edge_word::EdgeMoves;
use std::alloc::{AllocError, Global};
use std::test::Fail;

const NOTHING_DONE: Counts = Counts {
    meals: 0,
    sessions_done: 0,
    withdrawn: 0,
};

/// What the desks know before anything is done, by the numbers of the words.
const OPENED: [Line; 9] = [
    (A, Seen(AB), Word(4294967302)),
    (A, Call::Marks(AB), Answer::Marks(false, 0)),
    (A, Call::Phase, Far(0)),
    (A, Call::Retired, Is(false)),
    (A, Call::Counts, Answer::Counted(NOTHING_DONE)),
    (B, Seen(AB), Word(4294967302)),
    (B, Call::Marks(AB), Answer::Marks(false, 0)),
    (B, Call::Phase, Far(0)),
    (B, Look(AB), Word(4294967302)),
];

/// The fork goes to b, which eats and soils it. Job a asks for it by a word that is out of date, which changes
/// nothing, and then by the word that is there.
const FORKS: [Line; 24] = [
    (A, Store(Thirst), Far(THIRSTY)),
    (B, Store(Thirst), Far(THIRSTY)),
    (B, Store(Hunger), Far(THIRSTY_HUNGRY)),
    (B, Look(AB), Word(OPEN)),
    (B, Try(AskFork, AB), Word(DIRTY_A_ASKED_BOTTLE_A)),
    (A, Look(AB), Word(DIRTY_A_ASKED_BOTTLE_A)),
    (A, Call::Marks(AB), Answer::Marks(false, 1)),
    (A, Try(GiveFork, AB), Word(CLEAN_B_BOTTLE_A)),
    (B, Look(AB), Word(CLEAN_B_BOTTLE_A)),
    (B, Call::Marks(AB), Answer::Marks(true, 0)),
    (B, Store(Sit), Far(THIRSTY_EATING)),
    (B, Call::Marks(AB), Answer::Marks(false, 0)),
    (A, Store(Hunger), Far(THIRSTY_HUNGRY)),
    (A, Look(AB), Word(CLEAN_B_BOTTLE_A)),
    (B, Try(Soil, AB), Word(DIRTY_B_BOTTLE_A)),
    (B, Call::Marks(AB), Answer::Marks(true, 0)),
    (A, Try(AskFork, AB), Found(DIRTY_B_BOTTLE_A)),
    (A, Seen(AB), Word(CLEAN_B_BOTTLE_A)),
    (A, Call::Phase, Far(THIRSTY_HUNGRY)),
    (A, Look(AB), Word(DIRTY_B_BOTTLE_A)),
    (A, Try(AskFork, AB), Word(DIRTY_B_ASKED_BOTTLE_A)),
    (B, Look(AB), Word(DIRTY_B_ASKED_BOTTLE_A)),
    (B, Call::Marks(AB), Answer::Marks(true, 0)),
    (B, May(EdgeMoves::GIVE_FORK, AB), Is(false)),
];

/// Fork and bottle go to b, which drinks before its meal; a asks for the bottle again.
const BOTTLES: [Line; 19] = [
    (A, Store(Thirst), Far(THIRSTY)),
    (B, Store(Thirst), Far(THIRSTY)),
    (B, Look(AB), Word(OPEN)),
    (B, Try(AskBottles(1), AB), Word(DIRTY_A_BOTTLE_A_ASKED)),
    (B, Store(Hunger), Far(THIRSTY_HUNGRY)),
    (B, Try(AskFork, AB), Word(DIRTY_A_ASKED_BOTTLE_A_ASKED)),
    (A, Look(AB), Word(DIRTY_A_ASKED_BOTTLE_A_ASKED)),
    // thirsty, and the fork is still here
    (A, May(GIVE_BOTTLE, AB), Is(false)),
    (A, Try(GiveFork, AB), Word(CLEAN_B_BOTTLE_A_ASKED)),
    (A, Try(GiveBottles(1), AB), Word(CLEAN_B_BOTTLE_B)),
    (A, Call::Marks(AB), Answer::Marks(false, 0)),
    (B, Look(AB), Word(CLEAN_B_BOTTLE_B)),
    (B, Call::Marks(AB), Answer::Marks(true, 1)),
    (B, Store(PhaseEvent::Drink), Far(DRINKS_HUNGRY)),
    (A, Look(AB), Word(CLEAN_B_BOTTLE_B)),
    (A, Try(AskBottles(1), AB), Word(CLEAN_B_BOTTLE_B_ASKED)),
    (B, Look(AB), Word(CLEAN_B_BOTTLE_B_ASKED)),
    // it drinks
    (B, May(GIVE_BOTTLE, AB), Is(false)),
    (A, Glance(B), Far(DRINKS_HUNGRY)),
];

/// Job b asks for fork and bottle in one exchange; a gives both and asks for them again in one, which a look of b sees.
const AT_ONCE: [Line; 10] = [
    (A, Store(Thirst), Far(THIRSTY)),
    (A, Store(Hunger), Far(THIRSTY_HUNGRY)),
    (B, Store(Thirst), Far(THIRSTY)),
    (B, Store(Hunger), Far(THIRSTY_HUNGRY)),
    (B, Look(AB), Word(OPEN)),
    (B, Try(AllDue, AB), Word(DIRTY_A_ASKED_BOTTLE_A_ASKED)),
    (A, Look(AB), Word(DIRTY_A_ASKED_BOTTLE_A_ASKED)),
    (A, Try(AllDue, AB), Word(CLEAN_B_ASKED_BOTTLE_B_ASKED)),
    (B, Seen(AB), Word(DIRTY_A_ASKED_BOTTLE_A_ASKED)),
    (B, Look(AB), Word(CLEAN_B_ASKED_BOTTLE_B_ASKED)),
];

const ASK_BOTH: EdgeMoves = EdgeMoves {
    ask_fork: true,
    ask_bottles: 1,
    ..EdgeMoves::NONE
};

const ASK_NO_BOTTLE_OF_THE_EDGE: EdgeMoves = EdgeMoves {
    ask_bottles: 2,
    ..EdgeMoves::NONE
};

const GIVE_BOTTLE: EdgeMoves = EdgeMoves {
    give_bottles: 1,
    ..EdgeMoves::NONE
};

const GIVE_BOTH: EdgeMoves = EdgeMoves {
    give_fork: true,
    give_bottles: 1,
    ..EdgeMoves::NONE
};

const GIVE_BOTH_AND_ASK: EdgeMoves = EdgeMoves {
    ask_fork: true,
    ..GIVE_BOTH
};

const GIVE_BOTH_AND_SOIL: EdgeMoves = EdgeMoves {
    soil: true,
    ..GIVE_BOTH
};

/// Groups of moves: each reason why one can't be done, and two that are.
const IN_GROUPS: [Line; 17] = [
    (A, Store(Thirst), Far(THIRSTY)),
    (A, Store(Hunger), Far(THIRSTY_HUNGRY)),
    // a tranquil job asks for nothing
    (B, May(ASK_BOTH, AB), Is(false)),
    (B, Store(Thirst), Far(THIRSTY)),
    (B, Store(Hunger), Far(THIRSTY_HUNGRY)),
    (B, May(ASK_BOTH, AB), Is(true)),
    (B, May(EdgeMoves::NONE, AB), Is(false)),
    // of two jobs there is but one edge
    (B, May(ASK_BOTH, AC), Is(false)),
    (B, May(ASK_NO_BOTTLE_OF_THE_EDGE, AB), Is(false)),
    (
        B,
        Try(These(ASK_BOTH), AB),
        Word(DIRTY_A_ASKED_BOTTLE_A_ASKED),
    ),
    (A, Look(AB), Word(DIRTY_A_ASKED_BOTTLE_A_ASKED)),
    // the fork is here
    (A, May(EdgeMoves::ASK_FORK, AB), Is(false)),
    // the bottle is kept as long as the fork is here
    (A, May(GIVE_BOTTLE, AB), Is(false)),
    (A, May(GIVE_BOTH, AB), Is(true)),
    // it doesn't eat
    (A, May(GIVE_BOTH_AND_SOIL, AB), Is(false)),
    (
        A,
        Try(These(GIVE_BOTH_AND_ASK), AB),
        Word(CLEAN_B_ASKED_BOTTLE_B),
    ),
    (B, Look(AB), Word(CLEAN_B_ASKED_BOTTLE_B)),
];

/// All three bottles of an edge.
const ASK_THREE: EdgeMoves = EdgeMoves {
    ask_bottles: 7,
    ..EdgeMoves::NONE
};

/// The same moves on an edge of the job, and on one of the others.
const OF_OTHERS: [Line; 3] = [
    (C, Store(Thirst), Far(THIRSTY)),
    (C, May(ASK_THREE, BC), Is(true)),
    (C, May(ASK_THREE, AB), Is(false)),
];

/// Job b gives its session up. Its desk counts the turns in which the session waited, and no other.
const GIVEN_UP: [Line; 9] = [
    (B, Call::NoteTurn(true), Answer::Turns(1, 0)),
    (B, Store(Thirst), Far(THIRSTY)),
    (B, Call::NoteTurn(false), Answer::Turns(2, 0)),
    (B, Call::NoteTurn(true), Answer::Turns(3, 1)),
    (B, Call::NoteTurn(true), Answer::Turns(4, 2)),
    (B, Store(Withdraw), Far(TRANQUIL)),
    (B, Call::Counts, Answer::Counted(ONE_GIVEN_UP)),
    (B, Store(Retire), Far(RETIRED)),
    (B, Call::Retired, Is(true)),
];

const ONE_GIVEN_UP: Counts = Counts {
    meals: 0,
    sessions_done: 0,
    withdrawn: 1,
};

/// Two sessions of a without a meal. The count of turns that the first one waited is gone in the second.
const TWO_SESSIONS: [Line; 9] = [
    (A, Store(Thirst), Far(THIRSTY)),
    (A, Call::NoteTurn(true), Answer::Turns(1, 1)),
    (A, Look(AB), Word(OPEN)),
    (A, Store(PhaseEvent::Drink), Far(DRINKS)),
    (A, Call::Command, Answer::Added(A, 1)),
    (A, Store(Quit), Far(TRANQUIL)),
    (A, Store(Thirst), Far(SECOND_THIRST)),
    (A, Call::NoteTurn(false), Answer::Turns(2, 0)),
    (A, Call::Counts, Answer::Counted(ONE_SESSION)),
];

const ONE_SESSION: Counts = Counts {
    meals: 0,
    sessions_done: 1,
    withdrawn: 0,
};

/// Of three jobs c gets three bottles from each of the others, and adds 1 on each instrument.
const RING: [Line; 19] = [
    (C, Store(Thirst), Far(THIRSTY)),
    (C, Look(AC), Word(OPEN_OF_THREE)),
    (C, Try(AskBottles(7), AC), Word(DIRTY_A_BOTTLE_A_ASKED)),
    (C, Look(BC), Word(OPEN_OF_THREE)),
    (C, Try(AllDue, BC), Word(DIRTY_A_BOTTLE_A_ASKED)),
    (A, Look(AC), Word(DIRTY_A_BOTTLE_A_ASKED)),
    (A, Try(GiveBottles(5), AC), Word(DIRTY_A_BOTTLES_0_AND_2_B)),
    (A, Try(GiveBottles(2), AC), Word(DIRTY_A_THREE_BOTTLES_B)),
    (B, Look(BC), Word(DIRTY_A_BOTTLE_A_ASKED)),
    (B, Try(AllDue, BC), Word(DIRTY_A_THREE_BOTTLES_B)),
    (C, Look(AC), Word(DIRTY_A_THREE_BOTTLES_B)),
    (C, Look(BC), Word(DIRTY_A_THREE_BOTTLES_B)),
    (C, Call::Marks(BC), Answer::Marks(false, 7)),
    (C, Store(PhaseEvent::Drink), Far(DRINKS)),
    (C, Call::Command, Answer::Added(C, 1)),
    (C, Call::Command, Answer::Added(C, 1)),
    (C, Call::Command, Answer::Added(C, 1)),
    (B, Glance(C), Far(DRINKS_THREE_DONE)),
    (A, Glance(C), Far(DRINKS_THREE_DONE)),
];

/// A script, and what is done there.
const RUNS: [(&str, &[Line]); 9] = [
    (TWO, &OPENED),
    (TWO, &FORKS),
    (TWO, &BOTTLES),
    (TWO, &AT_ONCE),
    (TWO, &IN_GROUPS),
    (THREE, &OF_OTHERS),
    (PATIENCE_0, &GIVEN_UP),
    (TWICE, &TWO_SESSIONS),
    (THREE, &RING),
];

#[test]
fn worked_runs(rt: HostRuntime) {
    for (script, lines) in &RUNS {
        check(&rt, rt.alloc(), script, lines);
    }
}

/// All bottles of an edge with 28 go to b.
const MANY: [Line; 7] = [
    (B, Store(Thirst), Far(THIRSTY)),
    (B, Look(AB), Word(OPEN_OF_28)),
    (
        B,
        Try(AskBottles(0x0fff_ffff), AB),
        Word(DIRTY_A_BOTTLE_A_ASKED),
    ),
    (A, Look(AB), Word(DIRTY_A_BOTTLE_A_ASKED)),
    (A, Try(GiveBottles(0x0fff_ffff), AB), Word(DIRTY_A_ALL_28_B)),
    (B, Look(AB), Word(DIRTY_A_ALL_28_B)),
    (B, Store(PhaseEvent::Drink), Far(DRINKS)),
];

/// Two jobs that read the same 28 instruments.
fn script_of_many(alloc: Global) -> Result<String, AllocError> {
    let mut script = String::new(alloc);
    script.push_str("lab 1\n")?;
    for front in ["job a\nsession\n", "end\njob b\nsession\n"] {
        script.push_str(front)?;
        for number in 0..28u32 {
            let line = format!(in alloc; "i{number} read\n")?;
            script.push_str(&line)?;
        }
    }
    script.push_str("end\n")?;
    Ok(script)
}

#[test]
fn many_in_common(rt: HostRuntime) -> Result<(), Fail> {
    let script = script_of_many(rt.alloc())?;
    check(&rt, rt.alloc(), &script, &MANY);
    Ok(())
}
