// The table that dispatchers keep where a subscription's messages go out in topic order: the first waiting message is found
// without a walk over the pending ones.
ghost use Rattle.std.specs.Prelude.{◌≡◌, ℕ, ◌%◌, false, OnOk, OnErr, IfSome, IfNone};
ghost use Rattle.std.specs.FinSet as set;
ghost use Rattle.dispatch_core.specs.Log.{IsNextReady, NoneReady};
ghost use Rattle.dispatch_core.specs.Changes.{Trimmed, Sent, Gone, Released, AgreesAfter};
ghost use Rattle.dispatch_core.specs.Waiting.{NoneReadyBetween, Tells};

use crate::view::View;
use number_sets::PlaceBits;
use position_core::LogIndex;
use std::alloc::{AllocError, Global};
use std::marker::Model;

/// Which messages of a subscription wait: those from the read index on that the view shows, and of
/// those before it the ones that came back. As long as messages are sent as they are found here,
/// none from the read index on is pending, so the view goes over none. Each call but `on_trim` takes the
/// time of a look into the set and of one call of the view at most.
pub struct WaitingPlaces {
    read: LogIndex,
    /// What waits before `read`. It has room for all places there, so that a release takes no memory.
    returned: PlaceBits,
}

impl Drop for WaitingPlaces {
    fn drop(self) {
        let WaitingPlaces {
            read: _,
            returned: _,
        } = self;
    }
}

impl Model for WaitingPlaces {
    ghost use Rattle.std.specs.Prelude.{◌≤◌};
    ghost use Rattle.dispatch_core.specs.Waiting.{Waiting, waiting_code};

    ghost Value = { Waiting };

    ghost coded = { waiting_code };

    ghost view = { λ w. record { read = w.read; returned = w.returned.places } };

    ghost invariant = { λ w. w.read ≤ w.returned.room };
}

impl WaitingPlaces {
    /// For a subscription to which nothing was sent.
    pub fn new(alloc: Global) -> Self
        ensures { result ≡ record { read = 0; returned = set.empty } }
    {
        WaitingPlaces {
            read: 0,
            returned: PlaceBits::new(alloc),
        }
    }

    /// The first message that waits.
    pub fn first<V: View>(&self, view: &V) -> Option<LogIndex>
        ensures some { Tells self.now (V.state view.now) (V.subscription view.now)
            → IfSome result (IsNextReady (V.state view.now) (V.subscription view.now) 0) }
        ensures none { Tells self.now (V.state view.now) (V.subscription view.now)
            → IfNone result (NoneReady (V.state view.now) (V.subscription view.now) 0) }
    {
        match self.returned.first() {
            Some(place) => Some(place),
            None => view.next_waiting(self.read),
        }
    }

    /// The first messages of the log went, so many: whole sixty-fours. It goes over the set, a step for
    /// each 64 messages before the read index.
    pub fn on_trim<V: View>(&mut self, view: &V, count: u64)
        requires { count % 64 ≡ 0 }
        ensures { AgreesAfter (Trimmed count) (Tells self.old) (Tells self.new)
            (V.state view.now) (V.subscription view.now) }
    {
        self.read = self.read.saturating_sub(count);
        self.returned.shift_down(count);
    }

    /// The message was sent.
    pub fn on_sent<V: View>(&mut self, view: &V, index: LogIndex) -> Result<(), AllocError>
        ensures ok { OnOk result ((consumer : ℕ) → AgreesAfter (Sent index consumer) (Tells self.old) (Tells self.new)
            (V.state view.now) (V.subscription view.now)) }
        ensures err { OnErr result (self.new ≡ self.old) }
    {
        if index < self.read {
            self.returned.remove(index);
        } else if !waits_between(view, self.read, index) {
            let after = index.saturating_add(1);
            self.returned.grow(after)?;
            self.read = after;
        }
        Ok(())
    }

    /// The message was acknowledged, or died.
    pub fn on_gone<V: View>(&mut self, view: &V, index: LogIndex)
        ensures { AgreesAfter (Gone index) (Tells self.old) (Tells self.new)
            (V.state view.now) (V.subscription view.now) }
    {
        self.returned.remove(index);
    }

    /// The message was pending, and waits again.
    pub fn on_released<V: View>(&mut self, view: &V, index: LogIndex)
        ensures { AgreesAfter (Released index) (Tells self.old) (Tells self.new)
            (V.state view.now) (V.subscription view.now) }
    {
        if index < self.read {
            self.returned.insert(index);
        }
    }

    /// Begins anew: nothing is pending, and any messages wait.
    pub fn reset(&mut self)
        ensures { self.new ≡ record { read = 0; returned = set.empty } }
    {
        self.read = 0;
        self.returned.clear();
    }
}

/// Whether a visible message waits from the one index on and before the other.
fn waits_between<V: View>(view: &V, from: LogIndex, end: LogIndex) -> bool
    ensures { result ≡ false → NoneReadyBetween (V.state view.now) (V.subscription view.now) from end }
{
    match view.next_waiting(from) {
        Some(next) => next < end,
        None => false,
    }
}
