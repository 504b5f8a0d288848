// The first messages go, and each dispatcher is told.
ghost use Rattle.std.specs.Prelude.{◌≡◌, ◌%◌, length};
ghost use Rattle.delivery_machine.specs.State.{State};
ghost use Rattle.topic_served.specs.Told.{AreTold};
ghost use Rattle.topic_parts.specs.Parts.{AreTied, state_of};
ghost use Rattle.topic_served.specs.Trimming.{AreTrimmed};

use crate::dispatch::Dispatch;
use crate::served::Served;
use topic_log::Remembered;
use topic_parts::Parts;

/// Tells each dispatcher that the first messages went, so many.
fn tell_all(dispatchers: &mut [Dispatch], parts: &Parts, count: u64)
    requires whole { count % 64 ≡ 0 }
    requires tied { AreTied parts.now }
    requires many { length dispatchers.old ≡ length parts.now.subscriptions.items }
    ensures { (s : State) → AreTold dispatchers.old s → AreTrimmed count s (state_of parts.now)
        → AreTold dispatchers.new (state_of parts.now) }
{
    'each: for place in 0..dispatchers.len() {
        let view = parts.at(place);
        dispatchers[place].on_trim(&view, count);
    }
}

impl Served {
    ghost use Rattle.std.specs.Prelude.{◌≡◌};
    ghost use Rattle.delivery_machine.specs.Trimming.{trimmed};
    ghost use Rattle.delivery_machine.specs.WellFormed.{IsWellFormed};
    ghost use Rattle.topic_log.specs.Trimming.{IsRemembered};
    ghost use Rattle.topic_parts.specs.Trimming.{MayGo};
    ghost use Rattle.topic_served.specs.Served.{IsBound, state_in};

    /// The first messages go, so many, which may, and each dispatcher is told. Takes no memory.
    pub fn trim(&mut self, count: usize, remembered: Remembered)
        requires bound { IsBound self.old }
        requires well { IsWellFormed (state_in self.old) }
        requires may { MayGo self.old.parts count }
        requires remembered { IsRemembered self.old.parts.log count remembered }
        ensures state { state_in self.new ≡ trimmed count (state_in self.old) }
        ensures bound { IsBound self.new }
    {
        self.parts.trim(count, remembered);
        tell_all(&mut self.dispatchers, &self.parts, count as u64);
    }
}
