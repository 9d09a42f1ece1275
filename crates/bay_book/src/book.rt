//! The book.
ghost use Rattle.std.specs.Prelude.{◌≡◌, ◌<◌, ◌≤◌, length, OnOk, OnErr, IfErr, Some, false};
ghost use Rattle.std.specs.List.{count_by};
ghost use Rattle.bay_book.specs.Asks.{ask_at, is_over, holds_class};
ghost use Rattle.bay_book.specs.Moments.{is_gone_too_long, is_over_limit, due_at, limit_due_at};
ghost use Rattle.bay_book.specs.Finding.{IsPlaceOf, IsFirst, IsFirstLate, IsLeast, IsInUse};
ghost use Rattle.bay_book.specs.Telling.{to_tell, IsNextToTell};
ghost use Rattle.bay_book.specs.Books.{IsSound, nobody, behind, add, restore, hold, end, set_gone, is_back, give, give_one, turn, reach, heard, purge};
ghost use Rattle.bay_book.specs.Counted.{AreTaken};
ghost use Rattle.bay_book.specs.Restoring.{MayBeRestored, IsWhyNotRestored};

use crate::ask::{Ask, End, Outcome, Stage};
use crate::counting::{count_down, count_up, with_needs, without_own};
use crate::finding::{
    due, first_gone, first_late, first_over_limit, in_use, limit_due, place_of, taken,
};
use crate::making::{asker, back_again, given, gone_since, hearing, holding, over, restored};
use crate::restoring::{NotRestored, may_be_restored};
use crate::row::Row;
use crate::settling::{purge, with_place};
use crate::telling::next_to_tell;
use std::alloc::{AllocError, Global};
use std::marker::Model;

/// The asks, the least number that the next may have, the largest token so far, and how far the journal outlives a crash; from where to where those
/// stand that aren't settled; and what is counted: how many of each of the first 32 classes hold, what is in use, and whether that is sure.
#[derive(Drop)]
pub struct Book {
    asks: Row,
    next: u64,
    granted: u64,
    durable: u64,
    from: usize,
    to: usize,
    taken: [usize; 32],
    used: u64,
    sure: bool,
}

impl Model for Book {
    ghost use Rattle.bay_book.specs.Books.{BookView, IsSound};
    ghost use Rattle.bay_book.specs.Settled.{AreWithin};
    ghost use Rattle.bay_book.specs.Counted.{AreCounted};

    ghost Value = { BookView };

    ghost view = { λ x. record { asks = x.asks; next = x.next; granted = x.granted; durable = x.durable } };

    ghost invariant = { λ x. IsSound (record { asks = x.asks; next = x.next; granted = x.granted; durable = x.durable })
        × AreWithin x.asks x.from x.to × AreCounted x.asks x.taken x.used x.sure };
}

impl Book {
    /// A book in which nobody is.
    pub fn nobody(alloc: Global) -> Book
        ensures { result ≡ nobody }
    {
        Book {
            asks: Row::nobody(alloc),
            next: 0,
            granted: 0,
            durable: 0,
            from: 0,
            to: 0,
            taken: [0; 32],
            used: 0,
            sure: true,
        }
    }

    /// A book in which nobody is. All numbers below this one were given, and all tokens up to that one; so as many numbers, since there are no more tokens.
    pub fn behind(alloc: Global, next: u64, granted: u64) -> Book
        ensures { result ≡ behind next granted }
    {
        Book {
            asks: Row::nobody(alloc),
            next: next.max(granted),
            granted,
            durable: 0,
            from: 0,
            to: 0,
            taken: [0; 32],
            used: 0,
            sure: true,
        }
    }

    /// What is so of every book. It does nothing.
    pub fn is_sound(&self)
        ensures { IsSound self.now }
    {
        let _ = &self.next;
    }

    /// How many asks are in the book.
    pub fn len(&self) -> usize
        ensures { result ≡ length self.now.asks }
    {
        self.asks.len()
    }

    /// The least number that the next ask may have.
    pub fn next(&self) -> u64
        ensures { result ≡ self.now.next }
    {
        self.next
    }

    /// The largest token so far: that of whoever was let in last.
    pub fn granted(&self) -> u64
        ensures { result ≡ self.now.granted }
    {
        self.granted
    }

    /// Up to where the journal outlives a crash.
    pub fn durable(&self) -> u64
        ensures { result ≡ self.now.durable }
    {
        self.durable
    }

    /// The ask at this place.
    pub fn ask_at(&self, place: usize) -> Ask
        requires { place < length self.now.asks }
        ensures { result ≡ ask_at self.now.asks place }
    {
        self.asks.at(place)
    }

    /// The place of the ask with this number, if it is in the book. No other has its number.
    pub fn place_of(&self, number: u64) -> Option<usize>
        ensures { IsPlaceOf self.now.asks number result }
    {
        place_of(self.asks.all(), number)
    }

    /// Somebody asks, at this moment, and waits. It takes memory.
    pub fn add(
        &mut self,
        number: u64,
        class: u32,
        owner: u128,
        deadline: Option<u64>,
        limit: Option<u64>,
        now: u64,
    ) -> Result<(), AllocError>
        requires new { self.old.next ≤ number }
        requires room { number < 18446744073709551615 }
        ensures adds { OnOk result (self.new ≡ add self.old number class owner deadline limit now) }
        ensures refused { OnErr result (self.new ≡ self.old) }
    {
        self.asks
            .push(asker(number, class, owner, deadline, limit, now))?;
        self.next = number + 1;
        Ok(())
    }

    /// An ask holds again, as the journal says, and as it was told; its client isn't there since this moment. It may not if somebody waits, if an ask in the
    /// book has no smaller number, or if its token is no new one. It takes memory.
    pub fn restore(
        &mut self,
        number: u64,
        class: u32,
        owner: u128,
        limit: Option<u64>,
        needs: u64,
        asked: u64,
        since: u64,
        gone: u64,
        token: u64,
    ) -> Result<(), NotRestored>
        ensures restores { OnOk result (self.new ≡ restore self.old number class owner limit needs asked since gone token) }
        ensures may { OnOk result (MayBeRestored self.old.asks number token) }
        ensures refused { OnErr result (self.new ≡ self.old) }
        ensures why { IfErr result (λ why. IsWhyNotRestored self.old.asks number token why) }
    {
        if !may_be_restored(self.asks.all(), number, token) {
            return Err(NotRestored::MayNot);
        }
        let ask = restored(
            number,
            class,
            owner,
            limit,
            needs,
            asked,
            since,
            gone,
            token,
            self.durable,
        );
        let (used, sure) = with_needs(self.used, self.sure, needs);
        let Ok(()) = self.asks.push(ask) else {
            return Err(NotRestored::NoMemory);
        };
        count_up(&mut self.taken, ask, self.asks.len());
        self.used = used;
        self.sure = sure;
        self.next = self.next.max(number + 1).max(token);
        self.granted = self.granted.max(token);
        Ok(())
    }

    /// It holds these instruments from this moment on, with the next token: there always is one, since there are no more than numbers. A line is owed, if the
    /// bay keeps a journal.
    pub fn hold(&mut self, place: usize, needs: u64, now: u64, keeps: bool)
        requires inside { place < length self.old.asks }
        requires waits { (ask_at self.old.asks place).stage ≡ Stage.Waits }
        ensures { self.new ≡ hold self.old place needs now keeps }
    {
        let (from, to) = with_place(self.from, self.to, place, self.asks.len());
        let (used, sure) = with_needs(self.used, self.sure, needs);
        self.granted += 1;
        let ask = holding(self.asks.at(place), needs, now, keeps, self.granted);
        count_up(&mut self.taken, ask, self.asks.len());
        self.asks.set(place, ask);
        self.from = from;
        self.to = to;
        self.used = used;
        self.sure = sure;
    }

    /// It is over from this moment on, and holds nothing. A line is owed if one was given that it holds.
    pub fn end(&mut self, place: usize, how: End, now: u64)
        requires inside { place < length self.old.asks }
        requires not_over { is_over (ask_at self.old.asks place).stage ≡ false }
        ensures { self.new ≡ end self.old place how now }
    {
        let (from, to) = with_place(self.from, self.to, place, self.asks.len());
        let ask = self.asks.at(place);
        let used = without_own(self.used, self.sure, ask);
        count_down(&mut self.taken, ask);
        self.asks.set(place, over(ask, how, now));
        self.from = from;
        self.to = to;
        self.used = used;
    }

    /// Its client isn't there since this moment.
    pub fn set_gone(&mut self, place: usize, moment: u64)
        requires { place < length self.old.asks }
        ensures { self.new ≡ set_gone self.old place moment }
    {
        let ask = gone_since(self.asks.at(place), moment);
        self.asks.set(place, ask);
    }

    /// Its client is there again.
    pub fn is_back(&mut self, place: usize)
        requires { place < length self.old.asks }
        ensures { self.new ≡ is_back self.old place }
    {
        let ask = back_again(self.asks.at(place));
        self.asks.set(place, ask);
    }

    /// All lines that are owed were given, and the journal is so long now.
    pub fn give(&mut self, at: u64)
        ensures { self.new ≡ give self.old at }
    {
        self.asks.give_all(at);
    }

    /// The lines that one owes were given, and the journal is so long now.
    pub fn give_one(&mut self, place: usize, at: u64)
        requires { place < length self.old.asks }
        ensures { self.new ≡ give_one self.old place at }
    {
        let ask = given(self.asks.at(place), at);
        self.asks.set(place, ask);
    }

    /// The journal goes on in a new file, which says of each that holds that it does, and outlives a crash up to this position.
    pub fn turn(&mut self, at: u64)
        ensures { self.new ≡ turn self.old at }
    {
        self.asks.turn_all(at);
        self.durable = self.durable.max(at);
    }

    /// The journal outlives a crash up to this position.
    pub fn reach(&mut self, position: u64)
        ensures { self.new ≡ reach self.old position }
    {
        self.durable = self.durable.max(position);
    }

    /// The next that is to be told something, and what.
    pub fn next_to_tell(&self) -> Option<(usize, Outcome)>
        ensures { IsNextToTell self.now.asks self.now.durable result }
    {
        next_to_tell(self.asks.all(), self.from, self.to, self.durable)
    }

    /// It was told what it was to be told.
    pub fn heard(&mut self, place: usize, what: Outcome)
        requires inside { place < length self.old.asks }
        requires due { to_tell self.old.durable (ask_at self.old.asks place) ≡ Some what }
        ensures { self.new ≡ heard self.old place what }
    {
        let ask = hearing(self.asks.at(place), what);
        self.asks.set(place, ask);
    }

    /// Those that are over, know it or needn't, and owe no line of their end aren't in the book any more.
    pub fn purge(&mut self)
        ensures { self.new ≡ purge self.old }
    {
        let (from, to) = purge(&mut self.asks, self.from, self.to);
        self.from = from;
        self.to = to;
    }

    /// All instruments of those that hold.
    pub fn in_use(&self) -> u64
        ensures { IsInUse self.now.asks result }
    {
        if self.sure {
            return self.used;
        }
        in_use(self.asks.all())
    }

    /// How many of each of the first 32 classes hold.
    pub fn taken_of_each(&self) -> &[usize; 32]
        ensures { AreTaken self.now.asks result.now }
    {
        &self.taken
    }

    /// How many of this class hold.
    pub fn taken(&self, class: u32) -> usize
        ensures { result ≡ count_by (holds_class class) self.now.asks }
    {
        taken(self.asks.all(), class)
    }

    /// The next moment at which a deadline, the disk's time or a grace is over.
    pub fn due(&self, grace: Option<u64>, disk: Option<u64>) -> Option<u64>
        ensures { IsLeast (due_at grace self.now.durable disk) self.now.asks result }
    {
        due(self.asks.all(), grace, self.durable, disk)
    }

    /// The next moment at which a limit is over, of those that have one of these instruments, or a place of one of these classes.
    pub fn limit_due(&self, wanted: u64, full: u32) -> Option<u64>
        ensures { IsLeast (limit_due_at wanted full) self.now.asks result }
    {
        limit_due(self.asks.all(), wanted, full)
    }

    /// The first that has to lapse at this moment, and how.
    pub fn first_late(&self, now: u64, disk: Option<u64>) -> Option<(usize, End)>
        ensures { IsFirstLate now self.now.durable disk self.now.asks result }
    {
        first_late(self.asks.all(), now, self.durable, disk)
    }

    /// The first that holds, and whose client is gone for too long.
    pub fn first_gone(&self, now: u64, grace: Option<u64>) -> Option<usize>
        ensures { IsFirst (is_gone_too_long now grace) self.now.asks result }
    {
        first_gone(self.asks.all(), now, grace)
    }

    /// The first that holds, and whose limit is over, of those that have one of these instruments, or a place of one of these classes.
    pub fn first_over_limit(&self, now: u64, wanted: u64, full: u32) -> Option<usize>
        ensures { IsFirst (is_over_limit now wanted full) self.now.asks result }
    {
        first_over_limit(self.asks.all(), now, wanted, full)
    }
}
