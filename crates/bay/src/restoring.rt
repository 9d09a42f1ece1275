//! Those that held by the log hold again.
ghost use Rattle.std.specs.Prelude.{◌≡◌, ◌<◌, ◌≤◌, ◌↔◌, ℕ, ◌+◌, false, [], length, IsTrue, OnOk, IfOk, IfErr, All};
ghost use Rattle.bay_log.specs.Alive.{alive};
ghost use Rattle.bay_log.specs.Holders.{AreHolders};
ghost use Rattle.bay.specs.Cores.{IsFreeClass};
ghost use Rattle.bay.specs.Restoring.{holder_at, IsUnused, MayHold, IsNextTo, IsNextHolder, AreAlone, AreLow};
ghost use Rattle.bay.specs.Restoring.{Restores, AreRestored, AreDone, after_line, token_of, IsOf};
ghost use Rattle.bay.specs.Refusals.{IsUsed, MayNotHold, IsWhyNotOne, IsWhyNotRestored};

use crate::classes::{Class, is_within};
use crate::free::is_free;
use bay_book::{Book, NotRestored};
use bay_log::{Holder, Line, holders};
use std::alloc::Global;

/// Why a bay doesn't come back.
#[derive(Clone, Copy, PartialEq, Eq, Debug)]
pub enum NotBack {
    /// There is no memory.
    NoMemory,
    /// There is no position behind the lines of the file.
    NoPlace,
    /// This line, counted from 1, isn't one: changed, not in its place, or none of a log.
    Line(usize),
    /// It is the log of another bay, or has no line.
    Another,
    /// There are more than 32 classes.
    Classes,
    /// This ask held by the log, and may not: another holds one of its instruments, or its class may not use one, has no place left, or isn't there; or it has
    /// the last of all numbers, or no token of its own.
    MayNot(u64),
}

/// Whether nobody holds one of these instruments.
fn is_unused(book: &Book, needs: u64) -> bool
    ensures unused { IsTrue result → IsUnused book.now.asks needs }
    ensures used { result ≡ false → IsUsed book.now.asks needs }
{
    needs & book.in_use() == 0
}

/// Whether this one may hold, too, but for its number and its token: `Book::restore` looks at those.
fn may_hold(classes: &[Class], book: &Book, holder: Holder) -> bool
    requires { length classes.now ≤ 32 }
    ensures may { IsTrue result → MayHold classes.now book.now.asks holder }
    ensures may_not { result ≡ false → MayNotHold classes.now book.now.asks holder }
{
    let class = holder.entry.class as usize;
    if classes.len() <= class {
        return false;
    }
    if !is_within(holder.entry.needs, classes[class].uses) {
        return false;
    }
    if !is_unused(book, holder.entry.needs) {
        return false;
    }
    is_free(classes, book, class)
}

/// The one of the two whose number is less, if it isn't below that.
fn better(holders: &[Holder], best: Option<usize>, place: usize, next: u64) -> Option<usize>
    requires inside { place < length holders.now }
    requires so_far { IsNextTo next holders.now place best }
    ensures { IsNextTo next holders.now (place + 1) result }
{
    if holders[place].ask < next {
        return best;
    }
    match best {
        None => Some(place),
        Some(other) => {
            if holders[other].ask <= holders[place].ask {
                Some(other)
            } else {
                Some(place)
            }
        }
    }
}

/// The one with the least number that isn't below this.
fn next_holder(holders: &[Holder], next: u64) -> Option<usize>
    ensures { IsNextHolder next holders.now result }
{
    let mut best = None;
    for place in 0..holders.len() {
        best = better(holders, best, place, next);
    }
    best
}

/// One holds again. It takes memory.
fn restore_one(
    classes: &[Class],
    book: &mut Book,
    holder: Holder,
    moment: u64,
) -> Result<(), NotBack>
    requires few { length classes.now ≤ 32 }
    requires new { AreLow holder.ask book.old.asks }
    requires alone { AreAlone classes.now book.old }
    ensures restores { OnOk result (Restores holder moment book.old book.new) }
    ensures alone { OnOk result (AreAlone classes.now book.new) }
    ensures why { IfErr result (λ why. IsWhyNotOne classes.now book.old.asks holder why) }
{
    if !may_hold(classes, book, holder) {
        return Err(NotBack::MayNot(holder.ask));
    }
    let entry = holder.entry;
    match book.restore(
        holder.ask,
        entry.class,
        entry.owner,
        entry.limit,
        entry.needs,
        entry.asked,
        entry.since,
        moment,
        entry.token,
    ) {
        Ok(()) => Ok(()),
        Err(NotRestored::MayNot) => Err(NotBack::MayNot(holder.ask)),
        Err(NotRestored::NoMemory) => Err(NotBack::NoMemory),
    }
}

/// All that held by these lines hold again.
pub(crate) fn restore_all(
    classes: &[Class],
    book: &mut Book,
    lines: &[Line],
    holders: &[Holder],
    moment: u64,
) -> Result<(), NotBack>
    requires few { length classes.now ≤ 32 }
    requires holders { AreHolders holders.now (alive lines.now) }
    requires alone { AreAlone classes.now book.old }
    requires none { book.old.asks ≡ [] }
    ensures alone { OnOk result (AreAlone classes.now book.new) }
    ensures each { OnOk result (AreRestored lines.now moment book.old.durable book.new) }
    ensures all { OnOk result (AreDone lines.now book.new) }
    ensures more { OnOk result ((book.old.next ≤ book.new.next) × (book.old.granted ≤ book.new.granted)) }
    ensures why { IfErr result (λ why. IsWhyNotRestored classes.now lines.now why) }
{
    let _ = lines.len();
    let mut next = 0;
    while let Some(place) = next_holder(holders, next) {
        book.is_sound();
        restore_one(classes, book, holders[place], moment)?;
        next = holders[place].ask + 1;
    }
    Ok(())
}

/// The number behind those that a line has.
fn after_line(line: &Line) -> u64
    ensures { result ≡ after_line line.now }
{
    match line {
        Line::Head { next, .. } => *next,
        Line::Hold { ask, .. } => ask.saturating_add(1),
        Line::Back { from, to } => (*from).max(*to).saturating_add(1),
        Line::End { ask, .. } => ask.saturating_add(1),
        Line::Note { ask, .. } => ask.saturating_add(1),
    }
}

/// A number behind all that the lines have.
pub(crate) fn after_lines(lines: &[Line]) -> u64
    ensures { All (λ line. after_line line ≤ result) lines.now }
{
    let mut next = 0u64;
    for line in lines {
        next = next.max(after_line(line));
    }
    next
}

/// The token that a line says.
fn token_of(line: &Line) -> u64
    ensures { result ≡ token_of line.now }
{
    match line {
        Line::Head { granted, .. } => *granted,
        Line::Hold { entry, .. } => entry.token,
        Line::Back { .. } | Line::End { .. } | Line::Note { .. } => 0,
    }
}

/// The largest token that the lines say.
pub(crate) fn largest_token(lines: &[Line]) -> u64
    ensures { All (λ line. token_of line ≤ result) lines.now }
{
    let mut largest = 0u64;
    for line in lines {
        largest = largest.max(token_of(line));
    }
    largest
}

/// Whether these are the lines of this bay.
pub(crate) fn is_of(lines: &[Line], head: [u8; 32]) -> bool
    ensures { IsTrue result ↔ IsOf head lines.now }
{
    match lines.first() {
        Some(Line::Head { bay, .. }) => *bay == head,
        _ => false,
    }
}

/// A book in which just those hold that held by these lines. They outlive a crash up to this position. It takes memory.
pub(crate) fn restored_book(
    alloc: Global,
    classes: &[Class],
    lines: &[Line],
    position: u64,
    now: u64,
) -> Result<Book, NotBack>
    requires { length classes.now ≤ 32 }
    ensures alone { IfOk result (λ book. AreAlone classes.now book) }
    ensures each { IfOk result (λ book. AreRestored lines.now now position book) }
    ensures all { IfOk result (λ book. AreDone lines.now book) }
    ensures next { IfOk result (λ book. All (λ line. after_line line ≤ book.next) lines.now) }
    ensures tokens { IfOk result (λ book. All (λ line. token_of line ≤ book.granted) lines.now) }
    ensures why { IfErr result (λ why. IsWhyNotRestored classes.now lines.now why) }
{
    let Ok(found) = holders(alloc, lines) else {
        return Err(NotBack::NoMemory);
    };
    let mut book = Book::behind(alloc, after_lines(lines), largest_token(lines));
    book.reach(position);
    restore_all(classes, &mut book, lines, &found, now)?;
    Ok(book)
}
