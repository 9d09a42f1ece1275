//! The parts of a turn by themselves: a visit of an edge, and the phase act that is due.
//!
//! A row says who calls what and what it answers, the words that this job then saw last on its edges, and how far it is (dining,
//! drinking, session, position). The numbers at the end of `check` say how many turns each job's session has waited after the rows.
use crate::labs::PATIENCE_1;
use crate::seats::Answer::{Acted, Calm, Does, Done, No, Saw, Stored, Yes};
use crate::seats::Call::{Act, ActDue, On, Settled, Table};
use crate::seats::Move::{Needed, Noted, Visit};
use crate::tables::{A, AB, B, Row, check, rows};
use crate::words::{
    CLEAN_B_BOTTLE_A_ASKED, CLEAN_B_BOTTLE_B, DIRTY_A_ASKED_BOTTLE_A_ASKED, DIRTY_A_BOTTLE_A_ASKED,
    DIRTY_B_BOTTLE_B, OPEN,
};
use edge_rule::PhaseEvent::{self, Hunger, Leave, Quit, Retire, Sit, Thirst, Withdraw};
use legal_steps::Dining::{Eating, Hungry, Thinking};
use legal_steps::Drinking::{Drinking as Drinks, Retired, Thirsty, Tranquil};
use session_layer::Due::{Command, Nothing, Store};

const DRINK: PhaseEvent = PhaseEvent::Drink;

/// Job a drinks first, then b, which eats after it. The session of b could be given up once it has waited for a turn.
const PARTS: [Row; 49] = rows! {
    A: On(AB, Noted) => No, [OPEN], Thinking Tranquil 0 0;
    A: ActDue(0) => Does(Store(Thirst)), [OPEN], Thinking Tranquil 0 0;
    A: On(AB, Visit) => Calm, [OPEN], Thinking Tranquil 0 0;
    A: On(AB, Noted) => Yes, [OPEN], Thinking Tranquil 0 0;
    A: Act(0) => Acted(1), [OPEN], Thinking Thirsty 1 0;
    A: On(AB, Noted) => No, [OPEN], Thinking Thirsty 1 0;
    A: ActDue(0) => Does(Store(DRINK)), [OPEN], Thinking Thirsty 1 0;
    B: Act(0) => Acted(1), [OPEN], Thinking Thirsty 1 0;
    B: ActDue(0) => Does(Store(Hunger)), [OPEN], Thinking Thirsty 1 0;
    B: ActDue(1) => Does(Store(Withdraw)), [OPEN], Thinking Thirsty 1 0;
    B: On(AB, Needed) => Saw(1), [OPEN], Thinking Thirsty 1 0;
    B: On(AB, Visit) => Done, [DIRTY_A_BOTTLE_A_ASKED], Thinking Thirsty 1 0;
    B: On(AB, Visit) => Calm, [DIRTY_A_BOTTLE_A_ASKED], Thinking Thirsty 1 0;
    B: Act(0) => Acted(1), [DIRTY_A_BOTTLE_A_ASKED], Hungry Thirsty 1 0;
    B: ActDue(0) => Does(Nothing), [DIRTY_A_BOTTLE_A_ASKED], Hungry Thirsty 1 0;
    B: Act(0) => Acted(0), [DIRTY_A_BOTTLE_A_ASKED], Hungry Thirsty 1 0;
    B: Settled => Yes, [DIRTY_A_BOTTLE_A_ASKED], Hungry Thirsty 1 0;
    B: ActDue(1) => Does(Store(Withdraw)), [DIRTY_A_BOTTLE_A_ASKED], Hungry Thirsty 1 0;
    B: ActDue(0) => Does(Nothing), [DIRTY_A_BOTTLE_A_ASKED], Hungry Thirsty 1 0;
    B: On(AB, Visit) => Done, [DIRTY_A_ASKED_BOTTLE_A_ASKED], Hungry Thirsty 1 0;
    B: Settled => No, [DIRTY_A_ASKED_BOTTLE_A_ASKED], Hungry Thirsty 1 0;
    A: Act(0) => Acted(1), [OPEN], Thinking Drinks 1 0;
    A: ActDue(0) => Does(Command), [OPEN], Thinking Drinks 1 0;
    A: Act(0) => Acted(1), [OPEN], Thinking Drinks 1 1;
    A: ActDue(0) => Does(Store(Quit)), [OPEN], Thinking Drinks 1 1;
    A: On(AB, Visit) => Done, [CLEAN_B_BOTTLE_A_ASKED], Thinking Drinks 1 1;
    A: Act(0) => Acted(1), [CLEAN_B_BOTTLE_A_ASKED], Thinking Tranquil 1 0;
    A: ActDue(0) => Does(Store(Retire)), [CLEAN_B_BOTTLE_A_ASKED], Thinking Tranquil 1 0;
    A: On(AB, Visit) => Done, [CLEAN_B_BOTTLE_B], Thinking Tranquil 1 0;
    A: Act(0) => Acted(1), [CLEAN_B_BOTTLE_B], Thinking Retired 1 0;
    A: ActDue(0) => Does(Nothing), [CLEAN_B_BOTTLE_B], Thinking Retired 1 0;
    A: On(AB, Visit) => Calm, [CLEAN_B_BOTTLE_B], Thinking Retired 1 0;
    B: On(AB, Visit) => Calm, [CLEAN_B_BOTTLE_B], Hungry Thirsty 1 0;
    B: ActDue(1) => Does(Store(DRINK)), [CLEAN_B_BOTTLE_B], Hungry Thirsty 1 0;
    B: Act(1) => Acted(1), [CLEAN_B_BOTTLE_B], Hungry Drinks 1 0;
    B: Act(0) => Acted(1), [CLEAN_B_BOTTLE_B], Hungry Drinks 1 1;
    B: Act(0) => Acted(1), [CLEAN_B_BOTTLE_B], Hungry Tranquil 1 0;
    B: On(AB, Needed) => Saw(0), [CLEAN_B_BOTTLE_B], Hungry Tranquil 1 0;
    B: ActDue(0) => Does(Store(Sit)), [CLEAN_B_BOTTLE_B], Hungry Tranquil 1 0;
    B: Act(0) => Acted(1), [CLEAN_B_BOTTLE_B], Eating Tranquil 1 0;
    B: ActDue(0) => Does(Nothing), [CLEAN_B_BOTTLE_B], Eating Tranquil 1 0;
    B: Act(0) => Acted(0), [CLEAN_B_BOTTLE_B], Eating Tranquil 1 0;
    B: On(AB, Visit) => Done, [DIRTY_B_BOTTLE_B], Eating Tranquil 1 0;
    B: ActDue(0) => Does(Store(Leave)), [DIRTY_B_BOTTLE_B], Eating Tranquil 1 0;
    B: Table => Stored(Leave), [DIRTY_B_BOTTLE_B], Thinking Tranquil 1 0;
    B: ActDue(0) => Does(Store(Retire)), [DIRTY_B_BOTTLE_B], Thinking Tranquil 1 0;
    B: Act(0) => Acted(1), [DIRTY_B_BOTTLE_B], Thinking Retired 1 0;
    B: On(AB, Visit) => Calm, [DIRTY_B_BOTTLE_B], Thinking Retired 1 0;
    A: On(AB, Visit) => Calm, [DIRTY_B_BOTTLE_B], Thinking Retired 1 0;
};

#[test]
fn parts_of_turns(rt: HostRuntime) {
    check(&rt, rt.alloc(), PATIENCE_1, &PARTS, &[0, 0]);
}
