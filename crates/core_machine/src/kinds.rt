// Events of one kind, place by place.
ghost use Rattle.std.specs.Prelude.{◌≡◌, ◌<◌, ◌^◌, ℕ, true, false, MatchBool};
ghost use Rattle.core_machine.specs.Kinds.{event_at, is_in};

use crate::events::Event;
use std::collections::BTreeSet;

/// What a request has an event of for each place of one of its sets.
#[derive(Clone, Copy, Debug, PartialEq, Eq)]
pub(crate) enum Kind {
    /// Marks of the keys that it reads.
    Read,
    /// Marks of the keys that it writes.
    Write,
    /// Installations of its rows.
    Row,
}

impl Kind {
    /// The event of this request and place.
    fn at(self, tid: u32, place: u32) -> Event
        ensures { result ≡ event_at self tid place }
    {
        match self {
            Kind::Read => Event::MarkRead(tid, place),
            Kind::Write => Event::MarkWrite(tid, place),
            Kind::Row => Event::Install(tid, place),
        }
    }
}

/// Whether the event of each of `count` places has come. There is no event of a place past those that
/// an event can name.
pub(crate) fn has_each(came: &BTreeSet<Event>, kind: Kind, tid: u32, count: usize) -> bool
    ensures { MatchBool result ((p : ℕ) → p < count → is_in came.now (event_at kind tid p) ≡ true) ((p : ℕ) × (p < count) × (p < 2 ^ 32 → is_in came.now (event_at kind tid p) ≡ false)) }
{
    for place in 0..count {
        let Ok(named) = u32::try_from(place) else {
            return false;
        };
        if !came.contains(&kind.at(tid, named)) {
            return false;
        }
    }
    true
}
