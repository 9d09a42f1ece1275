//! The line.
ghost use Rattle.std.specs.Prelude.{◌≡◌, ◌<◌, ◌≤◌, length, OnErr, OnOk, IfErr};
ghost use Rattle.std.specs.List.{list_any};
ghost use Rattle.bay_line.specs.Lines.{nobody, Below, IsInOrder, asking, IsWhyNot, leaving, kept_in_order, gone, TakesLate, IsChosen, LetsIn};
ghost use Rattle.bay_line.specs.InLine.{SaysInLine};
ghost use Rattle.bay_line.specs.Wanted.{AreWanted, AreClasses, IsFirstDeadline, leaves};
ghost use Rattle.bay_line.specs.Keepers.{IsKeeper, IsWishFor};

use crate::appending::append;
use crate::going_in::{Seated, choose, go_at, go_in};
use crate::late::first_late;
use crate::passing::{keep_order, remove};
use crate::wish::Wish;
use crate::{keeper, wanting};
use std::alloc::Global;
use std::marker::Model;

/// Why an ask isn't in line. Nothing changed then.
#[derive(Clone, Copy, PartialEq, Eq, Debug)]
pub enum NotInLine {
    /// The line has no room for its wishes.
    Full,
    /// There is no memory.
    NoMemory,
}

/// Who waits for a place, in the order of asking.
#[derive(Drop)]
pub struct Line {
    wishes: Vec<Wish, Global>,
    limit: usize,
    most: u32,
}

impl Model for Line {
    ghost use Rattle.bay_line.specs.Lines.{LineView, IsInOrder};

    ghost Value = { LineView };

    ghost view = { λ x. record { wishes = x.wishes.items; limit = x.limit; most = x.most } };

    ghost invariant = { λ x. IsInOrder (record { wishes = x.wishes.items; limit = x.limit; most = x.most }) };
}

impl Line {
    /// A line in which nobody waits, for so many wishes. Who stands in it is passed by at most so many times.
    pub fn nobody(alloc: Global, limit: usize, most: u32) -> Line
        ensures { result ≡ nobody limit most }
    {
        Line {
            wishes: Vec::new(alloc),
            limit,
            most,
        }
    }

    /// How many wishes are in line.
    pub fn len(&self) -> usize
        ensures number { result ≡ length self.now.wishes }
        ensures in_order { IsInOrder self.now }
    {
        self.wishes.len()
    }

    /// Whether a wish of this ask is in line.
    pub fn waits(&self, ask: u64) -> bool
        ensures { SaysInLine self.now.wishes ask result }
    {
        wanting::waits(&self.wishes, ask)
    }

    /// Whether this ask wants more than these instruments, by one of its sets that is in line.
    pub fn leaves(&self, ask: u64, uses: u64) -> bool
        ensures { result ≡ list_any (leaves ask uses) self.now.wishes }
    {
        wanting::leaves(&self.wishes, ask, uses)
    }

    /// The instruments that somebody in line wants.
    pub fn wanted(&self) -> u64
        ensures { AreWanted self.now.wishes result }
    {
        wanting::wanted(&self.wishes)
    }

    /// The classes of places that somebody in line may take.
    pub fn classes(&self) -> u32
        ensures { AreClasses self.now.wishes result }
    {
        wanting::classes(&self.wishes)
    }

    /// The earliest deadline of anybody in line.
    pub fn first_deadline(&self) -> Option<u64>
        ensures { IsFirstDeadline self.now.wishes (length self.now.wishes) result }
    {
        wanting::first_deadline(&self.wishes)
    }

    /// The number of the first in line for which this instrument is kept from an ask, if places of these classes are free. The ask needn't be in line: then
    /// it is kept from it for those that asked before.
    pub fn keeper(&self, ask: u64, instrument: u32, free: u32) -> Option<u64>
        requires { instrument < 64 }
        ensures { IsKeeper self.now.most free self.now.wishes ask instrument result }
    {
        keeper::keeper(&self.wishes, self.most, free, ask, instrument)
    }

    /// What an ask waits for by its set with this place among those that it asked for, counted from 0.
    pub fn wish_for(&self, ask: u64, set: usize) -> Option<Wish>
        ensures { IsWishFor self.now.wishes ask set result }
    {
        keeper::wish_for(&self.wishes, ask, set)
    }

    /// Somebody asks, for one of these sets of instruments, whichever is free first, and for a place of one of these classes. Its number is above those of
    /// all that are in line. It takes memory.
    pub fn ask(
        &mut self,
        ask: u64,
        sets: &[u64],
        classes: u32,
        deadline: Option<u64>,
    ) -> Result<(), NotInLine>
        requires { Below ask self.old.wishes }
        ensures asks { OnOk result (self.new ≡ asking self.old ask sets.now classes deadline) }
        ensures room { OnOk result (length self.new.wishes ≤ self.new.limit) }
        ensures refused { OnErr result (self.new ≡ self.old) }
        ensures why { IfErr result (λ why. IsWhyNot self.old sets.now why) }
    {
        if self.limit - self.wishes.len() < sets.len() {
            return Err(NotInLine::Full);
        }
        match append(&mut self.wishes, ask, sets, classes, deadline) {
            Ok(()) => Ok(()),
            Err(_) => Err(NotInLine::NoMemory),
        }
    }

    /// The ask isn't in line any more.
    pub fn leave(&mut self, ask: u64)
        ensures { self.new ≡ leaving self.old ask }
    {
        remove(&mut self.wishes, ask);
    }

    /// From now on nobody that comes later goes before anybody that stands in line.
    pub fn keep_order(&mut self)
        ensures { self.new ≡ kept_in_order self.old }
    {
        keep_order(&mut self.wishes, self.most);
    }

    /// One whose time is over at this moment, if there is one: it isn't in line any more. Call it until it answers none.
    pub fn take_late(&mut self, now: u64) -> Option<u64>
        ensures { TakesLate now self.old result self.new }
    {
        let Some(ask) = first_late(&self.wishes, now) else {
            return None;
        };
        remove(&mut self.wishes, ask);
        Some(ask)
    }

    /// The first whose instruments are all free, and kept for nobody before it, and for whom a place is free; and where it stands.
    pub fn next(&self, in_use: u64, free: u32) -> Option<(usize, Seated)>
        ensures { IsChosen self.now.most in_use free self.now.wishes result }
    {
        choose(&self.wishes, self.most, in_use, free)
    }

    /// It is let in.
    pub fn go(&mut self, seated: Seated, free: u32)
        ensures { self.new ≡ gone self.old seated free }
    {
        go_at(&mut self.wishes, self.most, seated, free);
    }

    /// Lets in the first whose instruments are all free, and kept for nobody before it, and for whom a place is free. Call it until it answers none.
    pub fn let_in(&mut self, in_use: u64, free: u32) -> Option<Seated>
        ensures { LetsIn in_use free self.old result self.new }
    {
        go_in(&mut self.wishes, self.most, in_use, free)
    }
}
