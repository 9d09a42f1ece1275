//! Events that contracts alone see. They take no bytes, and nothing happens to them at run time.
ghost use Rattle.std.specs.Prelude.{◌≡◌, List, [], ◌∷◌, ◌++◌};
ghost use Rattle.std.specs.Borrow.{ftrue};
ghost use Rattle.legal_steps.specs.declared.event.Event.{Event as AnEvent};

use crate::event::Event;
use std::marker::Model;

/// Events in the order in which they happened, known to contracts alone.
#[derive(Drop)]
pub struct Past {
    pub ghost events: { List AnEvent },
}

impl Model for Past {
    ghost also_owns = { λ _. ftrue };
}

impl Past {
    /// Nothing yet.
    pub fn none() -> Past
        ensures { result.events ≡ [] }
    {
        Past {}
    }

    /// One event more.
    pub fn after(_before: &Past, _event: &Event) -> Past
        ensures { result.events ≡ _before.now.events ++ _event.now ∷ [] }
    {
        Past {}
    }
}
