//! The asks of a book, one after another. Those that are let go of at the front stay in memory for a while, so that the others needn't move up each time.
ghost use Rattle.std.specs.Prelude.{◌≡◌, ◌<◌, ◌≤◌, ◌++◌, ◌∷◌, [], not, map, length, drop, slice_set, filter, OnOk, OnErr};
ghost use Rattle.std.specs.List.{remove};
ghost use Rattle.bay_book.specs.Asks.{ask_at, given, turned, is_done};

use crate::ask::Ask;
use crate::making::{give_all, is_done, turn_all};
use std::alloc::{AllocError, Global};
use std::marker::Model;

/// So many may stand in front that aren't in the row any more.
const MOST: usize = 32;

/// The asks from this place on.
#[derive(Drop)]
pub(crate) struct Row {
    asks: Vec<Ask, Global>,
    start: usize,
}

impl Model for Row {
    ghost use Rattle.std.specs.Prelude.{List, drop, length, ◌≤◌};
    ghost use Rattle.bay_book.specs.declared.ask.Ask.{Ask};

    ghost Value = { List Ask };

    ghost view = { λ r. drop r.start r.asks.items };

    ghost invariant = { λ r. r.start ≤ length r.asks.items };
}

/// The first so many aren't there any more.
fn move_up(asks: &mut Vec<Ask, Global>, start: usize)
    requires { start ≤ length asks.old.items }
    ensures { asks.new.items ≡ drop start asks.old.items }
{
    let len = asks.len();
    asks.copy_within(start..len, 0);
    asks.truncate(len - start);
}

impl Row {
    /// A row in which nobody is.
    pub(crate) fn nobody(alloc: Global) -> Row
        ensures { result ≡ [] }
    {
        Row {
            asks: Vec::new(alloc),
            start: 0,
        }
    }

    /// How many there are.
    pub(crate) fn len(&self) -> usize
        ensures { result ≡ length self.now }
    {
        self.asks.len() - self.start
    }

    /// All of them.
    pub(crate) fn all(&self) -> &[Ask]
        ensures { result.now ≡ self.now }
    {
        &self.asks[self.start..]
    }

    /// The one at this place.
    pub(crate) fn at(&self, place: usize) -> Ask
        requires { place < length self.now }
        ensures { result ≡ ask_at self.now place }
    {
        self.asks[self.start + place]
    }

    /// The one at this place is so now.
    pub(crate) fn set(&mut self, place: usize, ask: Ask)
        requires { place < length self.old }
        ensures { self.new ≡ slice_set self.old place ask }
    {
        let at = self.start + place;
        self.asks[at] = ask;
    }

    /// One more stands behind all others. It takes memory.
    pub(crate) fn push(&mut self, ask: Ask) -> Result<(), AllocError>
        ensures pushes { OnOk result (self.new ≡ self.old ++ ask ∷ []) }
        ensures refused { OnErr result (self.new ≡ self.old) }
    {
        self.asks.push(ask)?;
        Ok(())
    }

    /// All lines that are owed were given.
    pub(crate) fn give_all(&mut self, at: u64)
        ensures { self.new ≡ map (given at) self.old }
    {
        give_all(&mut self.asks, at);
    }

    /// The lines of all that hold are in a new file.
    pub(crate) fn turn_all(&mut self, at: u64)
        ensures { self.new ≡ map (turned at) self.old }
    {
        turn_all(&mut self.asks, at);
    }

    /// The one at this place isn't there any more.
    pub(crate) fn remove(&mut self, place: usize)
        requires { place < length self.old }
        ensures { self.new ≡ remove self.old place }
    {
        if place == 0 {
            self.start += 1;
            if MOST <= self.start {
                move_up(&mut self.asks, self.start);
                self.start = 0;
            }
        } else {
            let at = self.start + place;
            self.asks.remove(at);
        }
    }

    /// Those that are done aren't there any more.
    pub(crate) fn purge(&mut self)
        ensures { self.new ≡ filter (λ a. not (is_done a)) self.old }
    {
        move_up(&mut self.asks, self.start);
        self.start = 0;
        self.asks.retain(|ask| !is_done(*ask));
    }
}
