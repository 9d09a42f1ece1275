//! Somebody asks.
ghost use Rattle.std.specs.Prelude.{◌≡◌, ◌+◌, ◌<◌, ◌≤◌, None, false, length, OnOk, OnErr, IfErr};
ghost use Rattle.bay_book.specs.Asks.{ask_at};
ghost use Rattle.bay.specs.Cores.{core, IsTied};
ghost use Rattle.bay.specs.Requests.{is_of, has_owner, is_no_number, why_not, joined, ordered, asked, IsWhyNotTaken};

use crate::classes::{Class, class_bit, has_no_set, leaves};
use crate::request::{NotAsked, Request, Urgency};
use bay_book::{Book, Stage};
use bay_line::{Line, NotInLine};

/// Whether the ask isn't over, and is this owner's. 0 is nobody.
fn is_of(book: &Book, place: usize, owner: u128) -> bool
    requires { place < length book.now.asks }
    ensures { result ≡ is_of owner (ask_at book.now.asks place) }
{
    let ask = book.ask_at(place);
    let over = match ask.stage {
        Stage::Waits => false,
        Stage::Holds => false,
        Stage::Over(_) => true,
    };
    !over && owner != 0 && ask.owner == owner
}

/// Whether an ask of this owner isn't over.
fn has_owner(book: &Book, owner: u128) -> bool
    ensures { result ≡ has_owner owner book.now.asks }
{
    if owner == 0 {
        return false;
    }
    for place in 0..book.len() {
        if is_of(book, place, owner) {
            return true;
        }
    }
    false
}

/// Whether the number may not be given.
fn is_no_number(book: &Book, number: u64) -> bool
    ensures { result ≡ is_no_number book.now number }
{
    number < book.next() || number == u64::MAX
}

/// Why the request is refused before anything is tried, if it is.
pub(crate) fn why_not(
    classes: &[Class],
    book: &Book,
    stopped: bool,
    sets: &[u64],
    request: Request,
) -> Option<NotAsked>
    ensures { result ≡ why_not classes.now book.now stopped sets.now request }
{
    if stopped {
        return Some(NotAsked::Stopped);
    }
    if is_no_number(book, request.number) {
        return Some(NotAsked::Number);
    }
    if classes.len() <= request.class as usize {
        return Some(NotAsked::NoClass);
    }
    if has_no_set(sets) {
        return Some(NotAsked::Empty);
    }
    if leaves(sets, classes[request.class as usize].uses) {
        return Some(NotAsked::MayNotUse);
    }
    if has_owner(book, request.owner) {
        return Some(NotAsked::OwnerTaken);
    }
    None
}

/// The request is in line, and in the book. It takes memory, and if there is none, nothing changed.
fn join(
    classes: &[Class],
    line: &mut Line,
    book: &mut Book,
    sets: &[u64],
    request: Request,
    now: u64,
) -> Result<(), NotAsked>
    requires few { length classes.now ≤ 32 }
    requires tied { IsTied classes.now (core line.old book.old) }
    requires fits { why_not classes.now book.old false sets.now request ≡ None }
    ensures takes { OnOk result (core line.new book.new ≡ joined (core line.old book.old) sets.now request now) }
    ensures room { OnOk result (length line.new.wishes ≤ line.new.limit) }
    ensures tied { IsTied classes.now (core line.new book.new) }
    ensures refused { OnErr result (core line.new book.new ≡ core line.old book.old) }
    ensures why { IfErr result (λ why. IsWhyNotTaken line.old sets.now why) }
{
    book.is_sound();
    match line.ask(
        request.number,
        sets,
        class_bit(request.class),
        request.deadline,
    ) {
        Ok(()) => {}
        Err(NotInLine::Full) => return Err(NotAsked::LineFull),
        Err(NotInLine::NoMemory) => return Err(NotAsked::NoMemory),
    }
    match book.add(
        request.number,
        request.class,
        request.owner,
        request.deadline,
        request.limit,
        now,
    ) {
        Ok(()) => Ok(()),
        Err(_) => {
            line.leave(request.number);
            Err(NotAsked::NoMemory)
        }
    }
}

/// An urgent one keeps the order of all that stand in line.
fn keep_order(line: &mut Line, urgency: Urgency)
    ensures { line.new ≡ ordered urgency line.old }
{
    match urgency {
        Urgency::Usual => {}
        Urgency::Urgent => line.keep_order(),
    }
}

/// The request is taken: it is in line, and in the book. It takes memory, and if there is none, nothing changed.
pub(crate) fn take(
    classes: &[Class],
    line: &mut Line,
    book: &mut Book,
    sets: &[u64],
    request: Request,
    now: u64,
) -> Result<(), NotAsked>
    requires few { length classes.now ≤ 32 }
    requires tied { IsTied classes.now (core line.old book.old) }
    requires fits { why_not classes.now book.old false sets.now request ≡ None }
    ensures takes { OnOk result (core line.new book.new ≡ asked (core line.old book.old) sets.now request now) }
    ensures room { OnOk result (length line.old.wishes + length sets.now ≤ line.old.limit) }
    ensures tied { IsTied classes.now (core line.new book.new) }
    ensures refused { OnErr result (core line.new book.new ≡ core line.old book.old) }
    ensures why { IfErr result (λ why. IsWhyNotTaken line.old sets.now why) }
{
    join(classes, line, book, sets, request, now)?;
    keep_order(line, request.urgency);
    Ok(())
}
