//! Worked words: the opening, what is refused, each change, and two groups of moves; and that each law can be called.
use crate::rows::check;
use edge_word::{EdgeMoves, EdgeWord, PhaseWord, is_bottle_set, laws};
use legal_steps::{Dining, Drinking, End, JobState};
use std::process::Abort;

const ALL: u32 = 0xfff_ffff;

/// The initial word of an edge with one bottle.
const OPENING: u64 = 4294967302;

/// That of an edge with 28.
const OPENING_OF_28: u64 = 1152921500311879686;

#[test]
fn opening_words(rt: HostRuntime) {
    let most = EdgeWord::opening(28).pack();
    check(&rt, 1, EdgeWord::opening(1).pack(), OPENING);
    check(&rt, 1, OPENING.to_be_bytes(), [0, 0, 0, 1, 0, 0, 0, 6]);
    check(&rt, 28, most, OPENING_OF_28);
    check(
        &rt,
        28,
        most.to_be_bytes(),
        [0x0f, 0xff, 0xff, 0xff, 0, 0, 0, 6],
    );
}

#[test]
fn edges_refused(rt: HostRuntime) {
    for word in [8, 32, 8589934592, 1152921504606846976] {
        check(&rt, word, EdgeWord::unpack(word, 1), None);
    }
}

#[test]
fn phases_refused(rt: HostRuntime) {
    for word in [3, 20, 32] {
        check(&rt, word, PhaseWord::unpack(word), None);
    }
}

/// Whether the word is one of an edge, and the edge that it is known to spell is the one that is read in it.
fn spells_edge(word: u64) -> bool {
    match EdgeWord::unpack(word, 28) {
        Some(edge) => EdgeWord::spelled(word) == edge && EdgeWord::spelled(word).pack() == word,
        None => false,
    }
}

/// The same of a phase.
fn spells_phase(word: u64) -> bool {
    match PhaseWord::unpack(word) {
        Some(phase) => {
            PhaseWord::spelled(word) == phase && PhaseWord::spelled(word).pack() == word
        }
        None => false,
    }
}

#[test]
fn words_known_to_spell(rt: HostRuntime) {
    for (edge, phase) in [(OPENING, 261), (19, 272), (OPENING_OF_28, 4294967562)] {
        check(&rt, edge, spells_edge(edge), true);
        check(&rt, phase, spells_phase(phase), true);
    }
}

/// Where the fork is, whether it is dirty, and where its token is; then the bottle and its token.
type ReadEdge = ((End, bool, End), (End, End));

/// What is read in the word of an edge of one bottle.
fn read_edge(word: u64) -> Option<ReadEdge> {
    let edge = EdgeWord::unpack(word, 1)?;
    let fork = (edge.fork_end(), edge.dirty(), edge.token_end());
    Some((fork, (edge.bottle_end(0), edge.bottle_token_end(0))))
}

#[test]
fn edges_are_read(rt: HostRuntime) {
    let wanted = ((End::Lower, true, End::Higher), (End::Lower, End::Higher));
    check(&rt, OPENING, read_edge(OPENING), Some(wanted));
    check(
        &rt,
        OPENING,
        EdgeWord::unpack(OPENING, 1),
        Some(EdgeWord::opening(1)),
    );
}

/// The phase that is read in a word.
fn read_phase(word: u64) -> Option<JobState> {
    let phase = PhaseWord::unpack(word)?;
    Some(JobState {
        dining: phase.dining(),
        drinking: phase.drinking(),
        session: phase.session(),
        position: phase.position(),
    })
}

#[test]
fn phases_are_read(rt: HostRuntime) {
    for (word, dining, drinking, position) in [
        (261, Dining::Hungry, Drinking::Thirsty, 0),
        (266, Dining::Eating, Drinking::Drinking, 0),
        (270, Dining::Eating, Drinking::Reaching, 0),
        (272, Dining::Thinking, Drinking::Retired, 0),
        (4294967562, Dining::Eating, Drinking::Drinking, 1),
    ] {
        let phase = JobState {
            dining,
            drinking,
            session: 1,
            position,
        };
        check(&rt, word, read_phase(word), Some(phase));
        check(&rt, word, PhaseWord::new(phase).pack(), word);
    }
}

/// What is done to an edge.
#[derive(Clone, Copy)]
enum Change {
    Nothing,
    AskFork,
    GiveFork,
    Soil,
    AskBottles(u32),
    GiveBottles(u32),
}

/// The word of an edge, how many bottles it has, what is done to it, and its word after that.
const CHANGES: [(u64, u32, Change, u64); 10] = [
    (OPENING, 1, Change::Nothing, OPENING),
    (19, 1, Change::Nothing, 19),
    (OPENING_OF_28, 28, Change::Nothing, OPENING_OF_28),
    (OPENING, 1, Change::AskFork, 4294967298),
    (2, 1, Change::GiveFork, 1),
    (17, 1, Change::Soil, 19),
    (OPENING, 1, Change::AskBottles(1), 6),
    (1, 1, Change::GiveBottles(1), 17),
    (OPENING_OF_28, 28, Change::AskBottles(ALL), 6),
    (6, 28, Change::GiveBottles(ALL), 4294967286),
];

fn changed(rt: &impl Abort, edge: EdgeWord, change: Change) -> EdgeWord {
    match change {
        Change::Nothing => edge,
        Change::AskFork => edge.asked_fork(),
        Change::GiveFork => edge.given_fork(),
        Change::Soil => edge.soiled(),
        Change::AskBottles(set) => {
            assert!(rt; is_bottle_set(set, 28));
            edge.asked_bottles(set)
        }
        Change::GiveBottles(set) => {
            assert!(rt; is_bottle_set(set, 28));
            edge.given_bottles(set)
        }
    }
}

/// The word after the change, if the first is one of an edge with this many bottles.
fn word_after(rt: &impl Abort, word: u64, bottles: u32, change: Change) -> Option<u64> {
    assert!(rt; 1 <= bottles && bottles <= 28);
    let edge = EdgeWord::unpack(word, bottles)?;
    Some(changed(rt, edge, change).pack())
}

#[test]
fn edges_are_changed(rt: HostRuntime) {
    for &(word, bottles, change, wanted) in &CHANGES {
        let came = word_after(&rt, word, bottles, change);
        check(&rt, word, came, Some(wanted));
    }
}

/// Groups of moves in a row from the initial state on, and the word after each.
fn follow(rt: &impl Abort, groups: &[(EdgeMoves, u64)]) {
    let mut edge = EdgeWord::opening(1);
    for &(moves, word) in groups {
        assert!(rt; moves.are_of_bottles(1));
        edge = edge.moved(moves);
        check(rt, moves, edge.pack(), word);
    }
}

const ASK_BOTTLE: EdgeMoves = EdgeMoves {
    ask_bottles: 1,
    ..EdgeMoves::NONE
};

const ASK_FORK: EdgeMoves = EdgeMoves {
    ask_fork: true,
    ..EdgeMoves::NONE
};

const GIVE_BOTH: EdgeMoves = EdgeMoves {
    give_fork: true,
    give_bottles: 1,
    ..EdgeMoves::NONE
};

const ASK_BOTH: EdgeMoves = EdgeMoves {
    ask_fork: true,
    ask_bottles: 1,
    ..EdgeMoves::NONE
};

const GIVE_BOTH_AND_ASK: EdgeMoves = EdgeMoves {
    give_fork: true,
    give_bottles: 1,
    ask_fork: true,
    ask_bottles: 1,
    soil: false,
};

/// Job b asks for the bottle and then for the fork; then job a gives both at once.
#[test]
fn one_exchange_gives_fork_and_bottle(rt: HostRuntime) {
    follow(&rt, &[(ASK_BOTTLE, 6), (ASK_FORK, 2), (GIVE_BOTH, 17)]);
}

/// Both jobs are thirsty and hungry: b asks for fork and bottle at once, and a gives both and asks for them again.
#[test]
fn one_exchange_gives_and_asks_again(rt: HostRuntime) {
    follow(&rt, &[(ASK_BOTH, 2), (GIVE_BOTH_AND_ASK, 4294967317)]);
}

#[test]
fn sets_are_of_an_edge(rt: HostRuntime) {
    for (set, bottles, is_one) in [(0, 1, false), (1, 1, true), (2, 1, false), (ALL, 28, true)] {
        check(&rt, (set, bottles), is_bottle_set(set, bottles), is_one);
    }
}

const ASK_SECOND: EdgeMoves = EdgeMoves {
    give_bottles: 1,
    ask_bottles: 2,
    ..EdgeMoves::NONE
};

#[test]
fn moves_are_of_an_edge(rt: HostRuntime) {
    check(&rt, 1, EdgeMoves::NONE.are_of_bottles(1), true);
    check(&rt, 2, ASK_SECOND.are_of_bottles(2), true);
    check(&rt, 1, ASK_SECOND.are_of_bottles(1), false);
}

const GIVE: EdgeMoves = EdgeMoves {
    give_fork: true,
    give_bottles: 6,
    ..EdgeMoves::NONE
};

const GIVE_AND_SOIL: EdgeMoves = EdgeMoves { soil: true, ..GIVE };

#[test]
fn fork_marks_after_moves(rt: HostRuntime) {
    for (moves, old, wanted) in [
        (GIVE, true, false),
        (GIVE_AND_SOIL, false, true),
        (EdgeMoves::NONE, true, true),
        (EdgeMoves::NONE, false, false),
    ] {
        check(&rt, (moves, old), moves.fork_mark(old), wanted);
    }
}

#[test]
fn bottle_marks_after_moves(rt: HostRuntime) {
    check(&rt, GIVE, GIVE.bottle_marks(7), 1);
    check(&rt, EdgeMoves::NONE, EdgeMoves::NONE.bottle_marks(5), 5);
}

#[test]
fn laws_of_words() {
    laws::bits_of_the_table();
    laws::fields_of_the_table();
    laws::one_word_for_each_edge();
    laws::one_word_for_each_phase();
    laws::opens_as_the_opening();
    laws::opens_at_zero();
    laws::moves_are_events();
    laws::moves_change_only_their_edge();
    laws::stays_of_its_bottles();
    laws::legal_moves_are_of_the_edge();
    laws::legal_groups_are_short();
    laws::moves_are_read_back();
}

const GIVE_FORK: EdgeMoves = EdgeMoves {
    give_fork: true,
    ..EdgeMoves::NONE
};

const GIVE_BOTTLE: EdgeMoves = EdgeMoves {
    give_bottles: 1,
    ..EdgeMoves::NONE
};

const ASK_OTHER: EdgeMoves = EdgeMoves {
    ask_bottles: 2,
    ..EdgeMoves::NONE
};

const SOIL: EdgeMoves = EdgeMoves {
    soil: true,
    ..EdgeMoves::NONE
};

#[test]
fn a_group_is_empty_where_it_has_no_move(rt: HostRuntime) {
    check(&rt, EdgeMoves::NONE, EdgeMoves::NONE.is_empty(), true);
    for moves in [GIVE_FORK, GIVE_BOTTLE, ASK_FORK, ASK_OTHER, SOIL] {
        check(&rt, moves, moves.is_empty(), false);
    }
}
