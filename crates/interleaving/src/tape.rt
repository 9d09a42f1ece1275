//! The events of a world that are kept as they happen.
ghost use Rattle.std.specs.Prelude.{◌≡◌, ◌-◌, [], true, false, length, IfOk};
ghost use Rattle.interleaving.specs.Kept.{no_kept, next_kept};

use legal_steps::Event;
use std::alloc::{AllocError, Allocator, Global};
use std::marker::Model;

/// Room for some events. A tape without room takes no memory.
#[derive(Drop)]
pub(crate) struct Tape<A: Allocator = Global> {
    events: Vec<Event, A>,
    room: usize,
    whole: bool,
}

impl<A: Allocator> Model for Tape<A> {
    ghost use Rattle.std.specs.Prelude.{◌≤◌, vec_capacity};
    ghost use Rattle.interleaving.specs.Kept.{TapeView};

    ghost Value = { TapeView };

    ghost view = { λ t. record { room = t.room; events = t.events.items; whole = t.whole } };

    ghost invariant = { λ t. t.room ≤ vec_capacity t.events };
}

impl<A: Allocator> Tape<A> {
    pub(crate) fn none(alloc: A) -> Tape<A>
        ensures { result ≡ no_kept }
    {
        Tape {
            events: Vec::new(alloc),
            room: 0,
            whole: true,
        }
    }

    pub(crate) fn with_room(alloc: A, room: usize) -> Result<Tape<A>, AllocError>
        ensures { IfOk result (λ tape. tape ≡ record { room = room; events = []; whole = true }) }
    {
        let events = Vec::with_capacity(alloc, room)?;
        Ok(Tape {
            events,
            room,
            whole: true,
        })
    }

    /// One more event, if there is room.
    pub(crate) fn keep(&mut self, event: &Event)
        ensures { self.new ≡ next_kept self.old event.now }
    {
        if self.events.len() < self.room {
            self.events.push_reserved(*event);
        } else {
            self.whole = false;
        }
    }

    pub(crate) fn events(&self) -> &[Event]
        ensures { result.now ≡ self.now.events }
    {
        self.events.as_slice()
    }

    pub(crate) fn is_whole(&self) -> bool
        ensures { result ≡ self.now.whole }
    {
        self.whole
    }

    /// How many more events there is room for.
    pub(crate) fn left(&self) -> usize
        ensures { result ≡ self.now.room - length self.now.events }
    {
        self.room.saturating_sub(self.events.len())
    }

    /// Forgets the events; their room stays.
    pub(crate) fn clear(&mut self)
        ensures { self.new ≡ record self.old { events = [] } }
    {
        self.events.clear();
    }
}
