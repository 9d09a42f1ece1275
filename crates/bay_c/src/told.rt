//! What C hands in, and what it is told.
ghost use Rattle.std.specs.Prelude.{◌≡◌, map, IfOk};
ghost use Rattle.bay_c.specs.Telling.{moment, class_of, terms_of, urgency_of, request_of, what_of, outcome_of, stage_of, standing_of};

use bay::{Class, Request, Terms, Told, Urgency};
use bay_book::{Ask, End, Outcome, Stage};
use std::alloc::{AllocError, Global};

/// A class. In C: `struct lab_class { uint64_t uses; uint32_t places, unused; };`
#[repr(C)]
#[derive(Clone, Copy)]
pub struct BayClass {
    /// The instruments that it may use: bit i for instrument i.
    pub uses: u64,
    /// How many of it hold at once.
    pub places: u32,
    pub unused: u32,
}

/// The terms of a bay. In C: `struct lab_terms { uint8_t bay[32]; uint64_t line, grace, disk; uint32_t overtakes, keeps; };`
#[repr(C)]
#[derive(Clone, Copy)]
pub struct BayTerms {
    /// Which bay it is: a hash.
    pub bay: [u8; 32],
    /// For how many sets there is room in line.
    pub line: u64,
    /// How long a hold is kept whose client is gone; 18446744073709551615: for ever.
    pub grace: u64,
    /// How long a hold may wait for the disk, and always until its deadline; 18446744073709551615: for ever.
    pub disk: u64,
    /// By how many that came later an ask is passed at most.
    pub overtakes: u32,
    /// 0: it keeps no journal.
    pub keeps: u32,
}

/// What somebody asks. In C: `struct lab_asked { uint64_t number, owner[2], deadline, limit; uint32_t kind, urgent; };`
#[repr(C)]
#[derive(Clone, Copy)]
pub struct BayAsked {
    pub number: u64,
    /// The high 64 bits of who asks.
    pub owner_high: u64,
    pub owner_low: u64,
    /// 18446744073709551615: none.
    pub deadline: u64,
    /// 18446744073709551615: none.
    pub limit: u64,
    pub class: u32,
    /// 0: it isn't urgent.
    pub urgent: u32,
}

/// What an ask is told. In C: `struct lab_outcome { uint64_t serial, number, needs, token; uint32_t what, unused; };`
#[repr(C)]
#[derive(Clone, Copy)]
pub struct BayOutcome {
    pub serial: u64,
    pub number: u64,
    /// The instruments that it holds.
    pub needs: u64,
    /// Its token; 0, if it wasn't let in.
    pub token: u64,
    /// 0: it holds; 1 to 9: it is over, and how.
    pub what: u32,
    pub unused: u32,
}

/// How an ask stands. In C: `struct lab_standing { uint64_t number, owner[2], needs, since, token; uint32_t kind, what; };`
#[repr(C)]
#[derive(Clone, Copy)]
pub struct BayStanding {
    pub number: u64,
    /// The high 64 bits of who asked.
    pub owner_high: u64,
    pub owner_low: u64,
    /// The instruments that it holds.
    pub needs: u64,
    /// Since when it asks, then since when it holds, and then since when it is over.
    pub since: u64,
    /// Its token; 0, if it wasn't let in.
    pub token: u64,
    pub class: u32,
    /// 0: it holds; 1 to 9: it is over, and how; 10: it waits.
    pub what: u32,
}

/// A moment, or none.
pub(crate) fn moment(number: u64) -> Option<u64>
    ensures { result ≡ moment number }
{
    if number == u64::MAX {
        None
    } else {
        Some(number)
    }
}

fn class_of(class: BayClass) -> Class
    ensures { result ≡ class_of class }
{
    Class {
        uses: class.uses,
        places: class.places,
    }
}

/// The classes as the bay has them. It takes memory.
pub(crate) fn classes_of(
    alloc: Global,
    classes: &[BayClass],
) -> Result<Vec<Class, Global>, AllocError>
    ensures { IfOk result (λ made. made.items ≡ map class_of classes.now) }
{
    let mut made = Vec::new(alloc);
    for place in 0..classes.len() {
        made.push(class_of(classes[place]))?;
    }
    Ok(made)
}

pub(crate) fn terms_of(terms: &BayTerms) -> Terms
    ensures { result ≡ terms_of terms.now }
{
    Terms {
        grace: moment(terms.grace),
        disk: moment(terms.disk),
        keeps: terms.keeps != 0,
    }
}

fn urgency_of(urgent: u32) -> Urgency
    ensures { result ≡ urgency_of urgent }
{
    if urgent == 0 {
        Urgency::Usual
    } else {
        Urgency::Urgent
    }
}

pub(crate) fn request_of(asked: &BayAsked) -> Request
    ensures { result ≡ request_of asked.now }
{
    Request {
        number: asked.number,
        class: asked.class,
        owner: asked.owner_high as u128 * 18446744073709551616 + asked.owner_low as u128,
        deadline: moment(asked.deadline),
        limit: moment(asked.limit),
        urgency: urgency_of(asked.urgent),
    }
}

fn what_of(outcome: Outcome) -> u32
    ensures { result ≡ what_of outcome }
{
    match outcome {
        Outcome::Holds => 0,
        Outcome::Over(End::LetGo) => 1,
        Outcome::Over(End::Left) => 2,
        Outcome::Over(End::Lapsed) => 3,
        Outcome::Over(End::NotWritten) => 4,
        Outcome::Over(End::Limit) => 5,
        Outcome::Over(End::Grace) => 6,
        Outcome::Over(End::TakenAway) => 7,
        Outcome::Over(End::Replaced) => 8,
        Outcome::Over(End::Stopped) => 9,
    }
}

pub(crate) fn outcome_of(told: Told) -> BayOutcome
    ensures { result ≡ outcome_of told }
{
    BayOutcome {
        serial: told.serial,
        number: told.number,
        needs: told.needs,
        token: told.token,
        what: what_of(told.outcome),
        unused: 0,
    }
}

fn stage_of(stage: Stage) -> u32
    ensures { result ≡ stage_of stage }
{
    match stage {
        Stage::Holds => what_of(Outcome::Holds),
        Stage::Over(end) => what_of(Outcome::Over(end)),
        Stage::Waits => 10,
    }
}

pub(crate) fn standing_of(ask: Ask) -> BayStanding
    ensures { result ≡ standing_of ask }
{
    BayStanding {
        number: ask.number,
        owner_high: (ask.owner / 18446744073709551616) as u64,
        owner_low: (ask.owner % 18446744073709551616) as u64,
        needs: ask.needs,
        since: ask.since,
        token: ask.token,
        class: ask.class,
        what: stage_of(ask.stage),
    }
}
