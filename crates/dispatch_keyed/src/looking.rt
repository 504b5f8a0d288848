// Reading the messages that came since.
ghost use Rattle.std.specs.Prelude.{◌≡◌, ℕ, ◌+◌, ◌-◌, ◌^◌, ◌≤◌, ◌<◌, ◌⊎◌, false, min, length, is_some, IsSome, OnOk, OnErr, IfErr};
ghost use Rattle.position_core.specs.declared.fault.Fault.TheVariants.{NoMemory};
ghost use Rattle.delivery_machine.specs.Words.{visible};
ghost use Rattle.dispatch_core.specs.Log.{waits_at, holder_at};
ghost use Rattle.hash_rows.specs.Hashes.{hash_at};
ghost use Rattle.dispatch_keyed.specs.Agreeing.{Agrees};

use crate::hashes::hash_at;
use crate::keyed::Keyed;
use crate::renewing::{LIMIT, renew};
use crate::rows;
use dispatch_core::View;
use position_core::{ConsumerNumber, Fault, LogIndex};
use std::alloc::AllocError;

impl Keyed {
    /// Reads the messages that came since, so that an offer need not look at them one by one. Where
    /// there is no memory it has read some of them.
    pub fn look<V: View>(&mut self, view: &V) -> Result<(), Fault>
        ensures agrees { Agrees self.old (V.state view.now) (V.subscription view.now) → Agrees self.new (V.state view.now) (V.subscription view.now) }
        ensures read { OnOk result (min (length (visible (V.state view.now))) (2 ^ 32 - 1) ≤ self.new.read) }
        ensures sent { OnOk result ((self.new.sent ≤ self.new.read) ⊎ IsSome (holder_at (V.state view.now) (V.subscription view.now) (self.new.sent - 1))) }
        ensures err { IfErr result (λ fault. fault ≡ NoMemory) }
    {
        let end = view.visible().min(LIMIT);
        while self.read < end {
            match self.read_on(view, end) {
                Ok(()) => (),
                Err(_) => return Err(Fault::NoMemory),
            }
        }
        self.go_back(view);
        Ok(())
    }

    /// Goes back over the messages that are pending at nobody. Where all pending ones were read, an
    /// offer need not go over the log.
    fn go_back<V: View>(&mut self, view: &V)
        ensures agrees { Agrees self.old (V.state view.now) (V.subscription view.now) → Agrees self.new (V.state view.now) (V.subscription view.now) }
        ensures read { self.new.read ≡ self.old.read }
        ensures sent { (self.new.sent ≤ self.new.read) ⊎ IsSome (holder_at (V.state view.now) (V.subscription view.now) (self.new.sent - 1)) }
    {
        while self.read < self.sent {
            if view.holder(self.sent - 1).is_some() {
                return;
            }
            self.sent -= 1;
        }
    }

    /// Reads a message that waits or is pending, or up to the end.
    fn read_on<V: View>(&mut self, view: &V, end: LogIndex) -> Result<(), AllocError>
        requires before { self.old.read < end }
        requires small { end ≤ 2 ^ 32 - 1 }
        ensures agrees { end ≤ length (visible (V.state view.now)) → Agrees self.old (V.state view.now) (V.subscription view.now)
            → Agrees self.new (V.state view.now) (V.subscription view.now) }
        ensures ok { OnOk result (self.old.read < self.new.read) }
    {
        self.skip(view, end);
        if self.read < end {
            self.read_next(view)
        } else {
            Ok(())
        }
    }

    /// Passes over the messages that do not wait, where none can be pending.
    fn skip<V: View>(&mut self, view: &V, end: LogIndex)
        requires before { self.old.read < end }
        requires small { end ≤ 2 ^ 32 - 1 }
        ensures agrees { end ≤ length (visible (V.state view.now)) → Agrees self.old (V.state view.now) (V.subscription view.now)
            → Agrees self.new (V.state view.now) (V.subscription view.now) }
        ensures on { self.old.read ≤ self.new.read }
        ensures end { self.new.read ≤ end }
    {
        if self.sent <= self.read {
            self.read = next_before(view, self.read, end);
        }
    }

    /// Reads one message.
    fn read_next<V: View>(&mut self, view: &V) -> Result<(), AllocError>
        requires { self.old.read < 2 ^ 32 - 1 }
        ensures agrees { self.old.read < length (visible (V.state view.now)) → Agrees self.old (V.state view.now) (V.subscription view.now)
            → Agrees self.new (V.state view.now) (V.subscription view.now) }
        ensures ok { OnOk result (self.new.read ≡ self.old.read + 1) }
    {
        let index = self.read;
        let waits = is_waiting_at(view, index);
        let holder = view.holder(index);
        if waits || holder.is_some() {
            return self.read_as(view, waits, holder);
        }
        self.read = index + 1;
        Ok(())
    }

    /// Reads a message that waits or is pending.
    fn read_as<V: View>(
        &mut self,
        view: &V,
        waits: bool,
        holder: Option<ConsumerNumber>,
    ) -> Result<(), AllocError>
        requires { self.old.read < 2 ^ 32 - 1 }
        ensures agrees { self.old.read < length (visible (V.state view.now))
            → waits ≡ waits_at (V.state view.now) (V.subscription view.now) self.old.read
            → holder ≡ holder_at (V.state view.now) (V.subscription view.now) self.old.read
            → Agrees self.old (V.state view.now) (V.subscription view.now)
            → Agrees self.new (V.state view.now) (V.subscription view.now) }
        ensures ok { OnOk result (self.new.read ≡ self.old.read + 1) }
    {
        let index = self.read;
        let hash = hash_at(view, index);
        self.firsts.grow(hash)?;
        rows::make(&mut self.rows, self.alloc, hash)?;
        rows::push(&mut self.rows, hash, index)?;
        rows::stand(&mut self.rows, hash, index, waits, holder);
        renew(
            &self.rows,
            &self.owners.shares,
            &mut self.firsts,
            view,
            hash,
        );
        self.read = index + 1;
        Ok(())
    }
}

/// The index of the next message that waits, or the end.
fn next_before<V: View>(view: &V, from: LogIndex, end: LogIndex) -> LogIndex
    requires { from ≤ end }
    ensures on { from ≤ result }
    ensures end { result ≤ end }
    ensures none { end ≤ length (visible (V.state view.now)) → (k : ℕ) → from ≤ k → k < result
        → waits_at (V.state view.now) (V.subscription view.now) k ≡ false }
{
    match view.next_waiting(from) {
        Some(next) => next.min(end),
        None => end,
    }
}

/// Whether the message at the index waits, if it can be seen.
fn is_waiting_at<V: View>(view: &V, index: LogIndex) -> bool
    ensures { index < length (visible (V.state view.now)) → result ≡ waits_at (V.state view.now) (V.subscription view.now) index }
{
    match view.next_waiting(index) {
        Some(next) => next == index,
        None => false,
    }
}
