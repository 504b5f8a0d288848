// Whether a topic may be used.
ghost use Rattle.std.specs.Prelude.{◌≡◌};
ghost use Rattle.broker_parts.specs.Ends.{entry_refusal, is_ending, refusal_at, refused_at};

use delivery_machine::{Event, Fault};

/// Whether a topic may be used.
#[derive(Clone, Copy, Debug, PartialEq, Eq)]
pub enum Stage {
    Open,
    /// Its journal is full: whoever is there goes, and then it leaves the directory.
    Leaving,
    /// It was deleted.
    Gone,
}

impl Stage {
    /// Why it may not be used, where it may not.
    pub fn refusal(self) -> Option<Fault>
        ensures { result ≡ refusal_at self }
    {
        match self {
            Stage::Open => None,
            Stage::Leaving => Some(Fault::JournalFull),
            Stage::Gone => Some(Fault::NoSuchSubscription),
        }
    }

    /// Why nobody may sit down there, where nobody may: one that was deleted has no seats (F21).
    pub fn entry_refusal(self) -> Option<Fault>
        ensures { result ≡ entry_refusal self }
    {
        match self {
            Stage::Open => None,
            Stage::Leaving => Some(Fault::JournalFull),
            Stage::Gone => Some(Fault::NoRoom),
        }
    }

    /// Why the event is refused, where it is. Who is connected may go at any time.
    pub fn refused(self, event: &Event) -> Option<Fault>
        ensures { result ≡ refused_at self event.now }
    {
        if is_ending(event) {
            None
        } else {
            self.refusal()
        }
    }
}

/// Whether the event ends a producer or a consumer.
pub fn is_ending(event: &Event) -> bool
    ensures { result ≡ is_ending event.now }
{
    matches!(event, Event::DropProducer { .. } | Event::Leave { .. })
}
