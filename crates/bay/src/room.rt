//! The room: who waits, who holds, and what is told; all but the log.
ghost use Rattle.std.specs.Prelude.{◌≡◌, false, ◌<◌, ◌≤◌, length, Some, None, OnOk, OnErr, IfErr, IfSome, IfOk, IsTrue, ◌↔◌};
ghost use Rattle.bay_book.specs.declared.ask.End.TheVariants.{LetGo as EndLetGo, TakenAway as EndTakenAway};
ghost use Rattle.bay_book.specs.Asks.{ask_at};
ghost use Rattle.bay.specs.Rooms.{IsOpened, Asks, IsWhyNot, Ends, IsWhyNotHeld, Leaves, Goes};
ghost use Rattle.bay.specs.Rooms.{ComesBack, Passes, Stops, reached, with_book, Tells, IsKept};
ghost use Rattle.bay.specs.Following.{IsNextMoment};
ghost use Rattle.bay_line.specs.Keepers.{IsWishFor};
ghost use Rattle.bay.specs.Keepers.{IsKeeper};
ghost use Rattle.bay.specs.Views.{core_of};
ghost use Rattle.bay.specs.Restoring.{IsBack};
ghost use Rattle.bay.specs.Standings.{HoldsTold};
ghost use Rattle.bay.specs.Pages.{pages, Writes};
ghost use Rattle.bay.specs.Ended.{AreInLog};
ghost use Rattle.bay.specs.Refusals.{IsWhyNotRestored};
ghost use Rattle.bay.specs.Turning.{IsWhoMayNot, IsNewFile, IsWhyNoFile, Changes};
ghost use Rattle.bay_book.specs.Books.{turn};

use crate::asking::{take, why_not};
use crate::classes::Class;
use crate::following::{end_and_follow, follow};
use crate::keeper::keeper;
use crate::moments::next_moment;
use crate::place::{Place, holds_told, mark_back, mark_gone, place_of};
use crate::request::{NotAsked, NotHeld, Request};
use crate::restoring::{NotBack, restored_book};
use crate::stopping::end_all_that_wait;
use crate::telling::{Told, is_still_told, tell_next};
use crate::terms::Terms;
use crate::turning::{NotTurned, new_file, who_may_not};
use crate::writing::write_owed;
use bay_book::{Ask, Book, End};
use bay_line::{Line as Waiting, Wish};
use bay_log::{Line, Log};
use std::alloc::{AllocError, Global};
use std::marker::Model;

/// Its classes and terms, who waits, who asked, what time it is, whether it has stopped, and what is being told.
#[derive(Drop)]
pub struct Room {
    classes: Vec<Class, Global>,
    terms: Terms,
    line: Waiting,
    book: Book,
    moment: u64,
    stopped: bool,
    telling: Option<Told>,
    serial: u64,
}

impl Model for Room {
    ghost use Rattle.bay.specs.Views.{RoomView, IsRoom};

    ghost Value = { RoomView };

    ghost view = { λ x. record {
      classes = x.classes.items;
      terms = x.terms;
      line = x.line;
      book = x.book;
      moment = x.moment;
      stopped = x.stopped;
      telling = x.telling;
      serial = x.serial;
    } };

    ghost invariant = { λ x. IsRoom (record {
      classes = x.classes.items;
      terms = x.terms;
      line = x.line;
      book = x.book;
      moment = x.moment;
      stopped = x.stopped;
      telling = x.telling;
      serial = x.serial;
    }) };
}

impl Room {
    /// A room of these classes, of which there are at most 32, with a line for so many sets, in which one is passed by at most so many times. Nobody has asked.
    pub fn open(
        alloc: Global,
        classes: Vec<Class, Global>,
        terms: Terms,
        limit: usize,
        most: u32,
    ) -> Option<Room>
        ensures some { IfSome result (λ room. IsOpened classes.items terms limit most room) }
        ensures none { result ≡ None → 32 < length classes.items }
    {
        if 32 < classes.len() {
            return None;
        }
        Some(Room {
            classes,
            terms,
            line: Waiting::nobody(alloc, limit, most),
            book: Book::nobody(alloc),
            moment: 0,
            stopped: false,
            telling: None,
            serial: 0,
        })
    }

    /// A room in which just those hold that held by these lines of a log. They outlive a crash up to this position. It takes memory.
    pub(crate) fn resume(
        alloc: Global,
        classes: Vec<Class, Global>,
        terms: Terms,
        limit: usize,
        most: u32,
        lines: &[Line],
        position: u64,
        now: u64,
    ) -> Result<Room, NotBack>
        ensures back { IfOk result (λ room. IsBack lines.now limit most now position room) }
        ensures terms { IfOk result (λ room. (room.classes ≡ classes.items) × (room.terms ≡ terms) × (room.stopped ≡ false)) }
        ensures why { IfErr result (λ why. IsWhyNotRestored classes.items lines.now why) }
    {
        if 32 < classes.len() {
            return Err(NotBack::Classes);
        }
        let book = restored_book(alloc, &classes, lines, position, now)?;
        Ok(Room {
            classes,
            terms,
            line: Waiting::nobody(alloc, limit, most),
            book,
            moment: now,
            stopped: false,
            telling: None,
            serial: 0,
        })
    }

    /// What is true of every room. It does nothing.
    pub fn look(&self)
        ensures { IsKept self.now }
    {
        self.book.is_sound();
        let _ = &self.moment;
    }

    /// It is this moment now, unless it was later before: all follows from that.
    pub fn time(&mut self, now: u64)
        ensures { Passes now self.old self.new }
    {
        self.moment = self.moment.max(now);
        follow(
            &self.classes,
            self.terms,
            &mut self.line,
            &mut self.book,
            self.moment,
        );
    }

    /// The next moment at which somebody's time is over, as things stand.
    pub fn next_moment(&self) -> Option<u64>
        ensures { IsNextMoment self.now.classes self.now.terms (core_of self.now) result }
    {
        next_moment(&self.classes, self.terms, &self.line, &self.book)
    }

    /// Somebody asks, for one of these sets of instruments, whichever is free first, and a place of its class. It takes memory.
    pub fn ask(&mut self, sets: &[u64], request: Request, now: u64) -> Result<(), NotAsked>
        ensures asks { OnOk result (Asks sets.now request now self.old self.new) }
        ensures refused { OnErr result (self.new ≡ self.old) }
        ensures why { IfErr result (λ why. IsWhyNot self.old sets.now request why) }
    {
        if let Some(why) = why_not(&self.classes, &self.book, self.stopped, sets, request) {
            return Err(why);
        }
        let moment = self.moment.max(now);
        take(
            &self.classes,
            &mut self.line,
            &mut self.book,
            sets,
            request,
            moment,
        )?;
        self.moment = moment;
        follow(
            &self.classes,
            self.terms,
            &mut self.line,
            &mut self.book,
            moment,
        );
        Ok(())
    }

    /// An ask that holds lets go.
    pub fn let_go(&mut self, number: u64, now: u64) -> Result<(), NotHeld>
        ensures ends { OnOk result (Ends EndLetGo number now self.old self.new) }
        ensures refused { OnErr result (self.new ≡ self.old) }
        ensures why { IfErr result (λ why. IsWhyNotHeld self.old number why) }
    {
        self.end_one_that_holds(number, End::LetGo, now)
    }

    /// Somebody takes away what an ask holds.
    pub fn take_away(&mut self, number: u64, now: u64) -> Result<(), NotHeld>
        ensures ends { OnOk result (Ends EndTakenAway number now self.old self.new) }
        ensures refused { OnErr result (self.new ≡ self.old) }
        ensures why { IfErr result (λ why. IsWhyNotHeld self.old number why) }
    {
        self.end_one_that_holds(number, End::TakenAway, now)
    }

    /// An ask that holds is over.
    fn end_one_that_holds(&mut self, number: u64, how: End, now: u64) -> Result<(), NotHeld>
        ensures ends { OnOk result (Ends how number now self.old self.new) }
        ensures refused { OnErr result (self.new ≡ self.old) }
        ensures why { IfErr result (λ why. IsWhyNotHeld self.old number why) }
    {
        match place_of(&self.book, number) {
            Place::Over => Err(NotHeld::Over),
            Place::Waits(_) => Err(NotHeld::Waits),
            Place::Holds(place) => {
                self.moment = self.moment.max(now);
                end_and_follow(
                    &self.classes,
                    self.terms,
                    &mut self.line,
                    &mut self.book,
                    place,
                    how,
                    self.moment,
                );
                Ok(())
            }
        }
    }

    /// The owner of an ask leaves, however far the ask is.
    pub fn leave(&mut self, number: u64, now: u64)
        ensures { Leaves number now self.old self.new }
    {
        self.moment = self.moment.max(now);
        match place_of(&self.book, number) {
            Place::Over => {
                follow(
                    &self.classes,
                    self.terms,
                    &mut self.line,
                    &mut self.book,
                    self.moment,
                );
            }
            Place::Waits(place) => {
                end_and_follow(
                    &self.classes,
                    self.terms,
                    &mut self.line,
                    &mut self.book,
                    place,
                    End::Left,
                    self.moment,
                );
            }
            Place::Holds(place) => {
                end_and_follow(
                    &self.classes,
                    self.terms,
                    &mut self.line,
                    &mut self.book,
                    place,
                    End::Left,
                    self.moment,
                );
            }
        }
    }

    /// Whether the ask holds, and was told so.
    pub fn holds_told(&self, number: u64) -> bool
        ensures { IsTrue result ↔ HoldsTold self.now.book.asks number }
    {
        self.book.is_sound();
        holds_told(&self.book, number)
    }

    /// The client of an ask is gone from this moment on.
    pub fn gone(&mut self, number: u64, now: u64)
        ensures { Goes number now self.old self.new }
    {
        self.moment = self.moment.max(now);
        self.book.is_sound();
        mark_gone(&mut self.book, number, self.moment);
        follow(
            &self.classes,
            self.terms,
            &mut self.line,
            &mut self.book,
            self.moment,
        );
    }

    /// The client of an ask is there again. Answers what the ask holds; none, if it is over, or isn't this owner's.
    pub fn back(&mut self, number: u64, owner: u128, now: u64) -> Option<u64>
        ensures { ComesBack number owner now self.old result self.new }
    {
        let Some(needs) = mark_back(&mut self.book, number, owner) else {
            return None;
        };
        self.moment = self.moment.max(now);
        follow(
            &self.classes,
            self.terms,
            &mut self.line,
            &mut self.book,
            self.moment,
        );
        Some(needs)
    }

    /// The least number that the next ask may have.
    pub fn next_number(&self) -> u64
        ensures { result ≡ self.now.book.next }
    {
        self.book.next()
    }

    /// How many asks are in the book.
    pub fn len(&self) -> usize
        ensures { result ≡ length self.now.book.asks }
    {
        self.book.len()
    }

    /// The ask at this place of the book.
    pub fn ask_at(&self, place: usize) -> Ask
        requires { place < length self.now.book.asks }
        ensures { result ≡ ask_at self.now.book.asks place }
    {
        self.book.ask_at(place)
    }

    /// Who keeps an instrument from the ask with this number.
    pub fn keeper(&self, number: u64, instrument: u32) -> Option<Ask>
        requires { instrument < 64 }
        ensures { IsKeeper self.now.classes (core_of self.now) number instrument result }
    {
        keeper(&self.classes, &self.line, &self.book, number, instrument)
    }

    /// What the ask with this number waits for by its set with this place.
    pub fn wish_for(&self, number: u64, set: usize) -> Option<Wish>
        ensures { IsWishFor self.now.line.wishes number set result }
    {
        self.line.wish_for(number, set)
    }

    /// The bay stops: nobody may ask any more, and all that wait are over. Who holds goes on to hold.
    pub fn stop(&mut self, now: u64)
        ensures { Stops now self.old self.new }
    {
        self.moment = self.moment.max(now);
        self.stopped = true;
        end_all_that_wait(&self.classes, &mut self.line, &mut self.book, self.moment);
        follow(
            &self.classes,
            self.terms,
            &mut self.line,
            &mut self.book,
            self.moment,
        );
    }

    /// What was given of the log outlives a crash up to this position.
    pub fn reach(&mut self, position: u64)
        ensures { self.new ≡ reached self.old position }
    {
        self.book.reach(position);
    }

    /// All that is owed is written to the log. If there is no memory, what was written is, and the rest is owed still.
    pub(crate) fn write(&mut self, log: &mut Log) -> Result<(), AllocError>
        requires { AreInLog self.old.book log.old }
        ensures writes { Writes result (pages self.old.book log.old) (pages self.new.book log.new) }
        ensures same { self.new ≡ with_book self.old self.new.book }
        ensures logged { AreInLog self.new.book log.new }
    {
        write_owed(&mut self.book, log)
    }

    /// Whether the bay keeps a log.
    pub(crate) fn keeps(&self) -> bool
        ensures { result ≡ self.now.terms.keeps }
    {
        self.terms.keeps
    }

    /// An ask that may not go on by these classes, if there is one.
    pub(crate) fn who_may_not(&self, classes: &[Class]) -> Option<u64>
        ensures { IsWhoMayNot classes.now (core_of self.now) result }
    {
        who_may_not(classes, &self.line, &self.book)
    }

    /// The log of a new file, and the text with which it begins.
    pub(crate) fn new_file(
        &self,
        alloc: Global,
        log: &Log,
        room: usize,
    ) -> Result<(Log, Vec<u8, Global>), NotTurned>
        ensures new { IfOk result (λ r. IsNewFile self.now.book log.now r.0 r.1.items) }
        ensures fits { IfOk result (λ r. length r.1.items ≤ room) }
        ensures why { IfErr result (λ why. IsWhyNoFile self.now.book log.now room why) }
    {
        new_file(alloc, &self.book, log, room)
    }

    /// The room has these classes from now on.
    pub(crate) fn change(&mut self, classes: Vec<Class, Global>, now: u64)
        requires few { length classes.items ≤ 32 }
        requires may { IsWhoMayNot classes.items (core_of self.old) None }
        ensures { Changes classes.items now self.old.book self.old self.new }
    {
        self.classes = classes;
        self.moment = self.moment.max(now);
        follow(
            &self.classes,
            self.terms,
            &mut self.line,
            &mut self.book,
            self.moment,
        );
    }

    /// The log goes on in a new file, which is durable up to this position; and the room has these classes from now on.
    pub(crate) fn turn(&mut self, classes: Vec<Class, Global>, at: u64, now: u64)
        requires few { length classes.items ≤ 32 }
        requires may { IsWhoMayNot classes.items (core_of self.old) None }
        ensures { Changes classes.items now (turn self.old.book at) self.old self.new }
    {
        self.classes = classes;
        self.moment = self.moment.max(now);
        self.book.turn(at);
        follow(
            &self.classes,
            self.terms,
            &mut self.line,
            &mut self.book,
            self.moment,
        );
    }

    /// What is told next. It stays to be told until its serial number is given back as done.
    pub fn tell(&mut self, done: u64) -> Option<Told>
        ensures { Tells done self.old result self.new }
    {
        if is_still_told(self.telling, done) {
            return self.telling;
        }
        self.book.is_sound();
        let (telling, serial) = tell_next(&mut self.book, self.serial);
        self.telling = telling;
        self.serial = serial;
        telling
    }
}
