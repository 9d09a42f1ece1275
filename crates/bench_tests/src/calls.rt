//! Calls one after another: those of the layers, and what is due.
//!
//! A row says who calls what and what it answers, the words that this job then saw last on its edges, and how far it is (dining,
//! drinking, session, position). The numbers at the end of `check` say how many turns each job's session has waited after the rows.
use crate::labs::TWO;
use crate::seats::Answer::{Acted, Done, Far, Found, Moves, No, NotLegal, Saw, Stored, Value, Yes};
use crate::seats::Call::{AllRetired, Command, Drink, Glance, On, Store, Table, Turn};
use crate::seats::Move::{Ask, Dine, Due, Forks, Give, Look, Serve, Soil, Want};
use crate::tables::{A, AB, B, Row, check, rows};
use crate::words::{
    CLEAN_B_ASKED_BOTTLE_B_ASKED, CLEAN_B_BOTTLE_A_ASKED, CLEAN_B_BOTTLE_B, CLEAN_B_BOTTLE_B_ASKED,
    DIRTY_A_ASKED_BOTTLE_A, DIRTY_A_ASKED_BOTTLE_A_ASKED, DIRTY_B_ASKED_BOTTLE_B_ASKED,
    DIRTY_B_BOTTLE_B_ASKED, OPEN,
};
use edge_rule::PhaseEvent::{Hunger, Sit, Thirst};
use edge_word::EdgeMoves;
use legal_steps::Dining::{Eating, Hungry, Thinking};
use legal_steps::Drinking::{Drinking as Drinks, Thirsty};

/// Each call of a layer: b gets the fork from a, which keeps the bottle that it needs as long as it has the fork; a asks for both
/// again, by a word that is out of date and then by the one that is there, while b eats, drinks and keeps them.
const BY_LAYER: [Row; 32] = rows! {
    A: Store(Thirst) => Done, [OPEN], Thinking Thirsty 1 0;
    B: Store(Thirst) => Done, [OPEN], Thinking Thirsty 1 0;
    A: On(AB, Serve) => NotLegal, [OPEN], Thinking Thirsty 1 0;
    B: On(AB, Ask) => NotLegal, [OPEN], Thinking Thirsty 1 0;
    B: Table => Stored(Hunger), [OPEN], Hungry Thirsty 1 0;
    B: On(AB, Ask) => Done, [DIRTY_A_ASKED_BOTTLE_A], Hungry Thirsty 1 0;
    B: On(AB, Want) => Done, [DIRTY_A_ASKED_BOTTLE_A_ASKED], Hungry Thirsty 1 0;
    B: On(AB, Want) => NotLegal, [DIRTY_A_ASKED_BOTTLE_A_ASKED], Hungry Thirsty 1 0;
    A: On(AB, Look) => Saw(DIRTY_A_ASKED_BOTTLE_A_ASKED), [DIRTY_A_ASKED_BOTTLE_A_ASKED], Thinking Thirsty 1 0;
    A: On(AB, Serve) => NotLegal, [DIRTY_A_ASKED_BOTTLE_A_ASKED], Thinking Thirsty 1 0;
    A: On(AB, Give) => Done, [CLEAN_B_BOTTLE_A_ASKED], Thinking Thirsty 1 0;
    A: On(AB, Serve) => Done, [CLEAN_B_BOTTLE_B], Thinking Thirsty 1 0;
    A: On(AB, Want) => Done, [CLEAN_B_BOTTLE_B_ASKED], Thinking Thirsty 1 0;
    A: Table => Stored(Hunger), [CLEAN_B_BOTTLE_B_ASKED], Hungry Thirsty 1 0;
    B: Drink => No, [DIRTY_A_ASKED_BOTTLE_A_ASKED], Hungry Thirsty 1 0;
    B: On(AB, Look) => Saw(CLEAN_B_BOTTLE_B_ASKED), [CLEAN_B_BOTTLE_B_ASKED], Hungry Thirsty 1 0;
    B: Table => Stored(Sit), [CLEAN_B_BOTTLE_B_ASKED], Eating Thirsty 1 0;
    B: On(AB, Soil) => Done, [DIRTY_B_BOTTLE_B_ASKED], Eating Thirsty 1 0;
    B: On(AB, Soil) => NotLegal, [DIRTY_B_BOTTLE_B_ASKED], Eating Thirsty 1 0;
    A: On(AB, Ask) => Found(DIRTY_B_BOTTLE_B_ASKED), [CLEAN_B_BOTTLE_B_ASKED], Hungry Thirsty 1 0;
    A: On(AB, Dine) => Done, [DIRTY_B_ASKED_BOTTLE_B_ASKED], Hungry Thirsty 1 0;
    B: On(AB, Look) => Saw(DIRTY_B_ASKED_BOTTLE_B_ASKED), [DIRTY_B_ASKED_BOTTLE_B_ASKED], Eating Thirsty 1 0;
    B: On(AB, Give) => NotLegal, [DIRTY_B_ASKED_BOTTLE_B_ASKED], Eating Thirsty 1 0;
    B: On(AB, Dine) => NotLegal, [DIRTY_B_ASKED_BOTTLE_B_ASKED], Eating Thirsty 1 0;
    B: Table => NotLegal, [DIRTY_B_ASKED_BOTTLE_B_ASKED], Eating Thirsty 1 0;
    B: On(AB, Serve) => NotLegal, [DIRTY_B_ASKED_BOTTLE_B_ASKED], Eating Thirsty 1 0;
    B: Drink => Yes, [DIRTY_B_ASKED_BOTTLE_B_ASKED], Eating Drinks 1 0;
    B: On(AB, Serve) => NotLegal, [DIRTY_B_ASKED_BOTTLE_B_ASKED], Eating Drinks 1 0;
    A: Glance(1) => Far((Eating, Drinks, 1, 0)), [DIRTY_B_ASKED_BOTTLE_B_ASKED], Hungry Thirsty 1 0;
    A: AllRetired => No, [DIRTY_B_ASKED_BOTTLE_B_ASKED], Hungry Thirsty 1 0;
    B: Command => Value(1), [DIRTY_B_ASKED_BOTTLE_B_ASKED], Eating Drinks 1 1;
    B: Drink => No, [DIRTY_B_ASKED_BOTTLE_B_ASKED], Eating Drinks 1 1;
};

#[test]
fn calls_of_the_layers(rt: HostRuntime) {
    check(&rt, rt.alloc(), TWO, &BY_LAYER, &[0, 0]);
}

const ASKS_FORK: EdgeMoves = EdgeMoves {
    ask_fork: true,
    ..EdgeMoves::NONE
};

const ASKS_BOTH: EdgeMoves = EdgeMoves {
    ask_fork: true,
    ask_bottles: 1,
    ..EdgeMoves::NONE
};

const GIVES_AND_ASKS_FORK: EdgeMoves = EdgeMoves {
    give_fork: true,
    ask_fork: true,
    ..EdgeMoves::NONE
};

const GIVES_AND_ASKS_BOTH: EdgeMoves = EdgeMoves {
    give_fork: true,
    give_bottles: 1,
    ask_fork: true,
    ask_bottles: 1,
    ..EdgeMoves::NONE
};

const SOILS: EdgeMoves = EdgeMoves {
    soil: true,
    ..EdgeMoves::NONE
};

/// All that is due on an edge goes in one exchange: a gives fork and bottle, and asks for both again.
const ALL_AT_ONCE: [Row; 19] = rows! {
    A: Store(Thirst) => Done, [OPEN], Thinking Thirsty 1 0;
    A: Store(Hunger) => Done, [OPEN], Hungry Thirsty 1 0;
    B: Store(Thirst) => Done, [OPEN], Thinking Thirsty 1 0;
    B: Store(Hunger) => Done, [OPEN], Hungry Thirsty 1 0;
    B: On(AB, Look) => Saw(OPEN), [OPEN], Hungry Thirsty 1 0;
    B: On(AB, Forks) => Moves(ASKS_FORK), [OPEN], Hungry Thirsty 1 0;
    B: On(AB, Due) => Moves(ASKS_BOTH), [OPEN], Hungry Thirsty 1 0;
    B: Turn => Acted(1), [DIRTY_A_ASKED_BOTTLE_A_ASKED], Hungry Thirsty 1 0;
    A: On(AB, Look) => Saw(DIRTY_A_ASKED_BOTTLE_A_ASKED), [DIRTY_A_ASKED_BOTTLE_A_ASKED], Hungry Thirsty 1 0;
    A: On(AB, Forks) => Moves(GIVES_AND_ASKS_FORK), [DIRTY_A_ASKED_BOTTLE_A_ASKED], Hungry Thirsty 1 0;
    A: On(AB, Due) => Moves(GIVES_AND_ASKS_BOTH), [DIRTY_A_ASKED_BOTTLE_A_ASKED], Hungry Thirsty 1 0;
    A: Turn => Acted(1), [CLEAN_B_ASKED_BOTTLE_B_ASKED], Hungry Thirsty 1 0;
    B: On(AB, Look) => Saw(CLEAN_B_ASKED_BOTTLE_B_ASKED), [CLEAN_B_ASKED_BOTTLE_B_ASKED], Hungry Thirsty 1 0;
    B: On(AB, Forks) => Moves(EdgeMoves::NONE), [CLEAN_B_ASKED_BOTTLE_B_ASKED], Hungry Thirsty 1 0;
    B: On(AB, Due) => Moves(EdgeMoves::NONE), [CLEAN_B_ASKED_BOTTLE_B_ASKED], Hungry Thirsty 1 0;
    B: Store(Sit) => Done, [CLEAN_B_ASKED_BOTTLE_B_ASKED], Eating Thirsty 1 0;
    B: On(AB, Forks) => Moves(SOILS), [CLEAN_B_ASKED_BOTTLE_B_ASKED], Eating Thirsty 1 0;
    B: On(AB, Due) => Moves(SOILS), [CLEAN_B_ASKED_BOTTLE_B_ASKED], Eating Thirsty 1 0;
    B: Turn => Acted(2), [DIRTY_B_ASKED_BOTTLE_B_ASKED], Eating Drinks 1 0;
};

#[test]
fn moves_that_are_due(rt: HostRuntime) {
    check(&rt, rt.alloc(), TWO, &ALL_AT_ONCE, &[1, 1]);
}
