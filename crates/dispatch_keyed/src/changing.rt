// What a message's change does to the tables.
ghost use Rattle.std.specs.Prelude.{◌≡◌, ℕ, ◌≤◌, ◌<◌, true, ◌||◌, None, is_some, length};
ghost use Rattle.delivery_machine.specs.State.{State, Subscription};
ghost use Rattle.delivery_machine.specs.Words.{visible};
ghost use Rattle.dispatch_core.specs.Log.{waits_at, holder_at};
ghost use Rattle.dispatch_core.specs.Changes.{OnlyChangesAt};
ghost use Rattle.dispatch_keyed.specs.Agreeing.{Agrees, IsNews};

use crate::hashes::hash_at;
use crate::keyed::Keyed;
use crate::renewing::renew;
use crate::rows;
use dispatch_core::View;
use position_core::{ConsumerNumber, LogIndex};

impl Keyed {
    /// The message waits now or not, and is pending at the holder, if there is one.
    pub(crate) fn change<V: View>(
        &mut self,
        view: &V,
        index: LogIndex,
        waits: bool,
        holder: Option<ConsumerNumber>,
    )
        ensures { (s : State) (sub : Subscription) → IsNews self.old index waits holder s sub (V.state view.now) (V.subscription view.now)
            → Agrees self.old s sub → Agrees self.new (V.state view.now) (V.subscription view.now) }
    {
        if index >= self.read {
            return;
        }
        let hash = hash_at(view, index);
        rows::stand(&mut self.rows, hash, index, waits, holder);
        renew(
            &self.rows,
            &self.owners.shares,
            &mut self.firsts,
            view,
            hash,
        );
    }

    /// From where on nothing is pending, once the message was sent.
    pub(crate) fn sent_after<V: View>(&self, view: &V, index: LogIndex) -> LogIndex
        ensures more { self.now.sent ≤ result }
        ensures beyond { self.now.read ≤ index → index < length (visible (V.state view.now)) → index < result }
    {
        if index < self.read {
            self.sent
        } else {
            self.sent.max(view.visible())
        }
    }
}
