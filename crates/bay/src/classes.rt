//! The classes of those that ask, and what they may use.
ghost use Rattle.std.specs.Prelude.{◌≡◌, ◌<◌, ◌^◌, ◌==◌, ◌||◌, not};
ghost use Rattle.std.specs.List.{list_any};
ghost use Rattle.bay.specs.Classes.{class_bit, is_within, has_empty, has_no_set, leaves};

/// A class of those that ask: a station, or the guests.
#[derive(Clone, Copy)]
pub struct Class {
    /// The instruments that it may use: bit i for instrument i.
    pub uses: u64,
    /// How many of it hold at once.
    pub places: u32,
}

/// The set of this class alone.
pub(crate) fn class_bit(class: u32) -> u32
    requires { class < 32 }
    ensures { result ≡ class_bit class }
{
    1 << class
}

/// Whether all of one set is in the other.
pub(crate) fn is_within(set: u64, uses: u64) -> bool
    ensures { result ≡ is_within uses set }
{
    set & uses == set
}

/// Whether one of the sets is empty.
fn has_empty(sets: &[u64]) -> bool
    ensures { result ≡ has_empty sets.now }
{
    sets.iter().any(|set| *set == 0)
}

/// Whether one of the sets is empty, or there is none.
pub(crate) fn has_no_set(sets: &[u64]) -> bool
    ensures { result ≡ has_no_set sets.now }
{
    sets.is_empty() || has_empty(sets)
}

/// Whether one of the sets has more than may be used.
pub(crate) fn leaves(sets: &[u64], uses: u64) -> bool
    ensures { result ≡ leaves uses sets.now }
{
    sets.iter().any(|set| !is_within(*set, uses))
}
