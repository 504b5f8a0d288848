// What a subscription has done with, and how it forgets messages that are gone.
ghost use Rattle.std.specs.Prelude.{◌≡◌, ◌&&◌, length, map, nat_lt};
ghost use Rattle.std.specs.List.{list_all};
ghost use Rattle.std.specs.FinMap as map_of;
ghost use Rattle.std.specs.FinSet as set;
ghost use Rattle.delivery_machine.specs.Trimming.{is_done_with, without_messages};

use crate::subscription::Subscription;
use position_core::{Message, Position};

impl Subscription {
    /// Whether the message is acknowledged, pending at nobody, and in no dead letter.
    pub(crate) fn is_done_with(&self, message: &Message) -> bool
        ensures { result ≡ is_done_with message.now self.now }
    {
        self.is_acknowledged(message)
            && !self.is_pending(message)
            && !self.is_dead(message.position())
    }

    /// Nothing is known of the messages any more.
    pub(crate) fn forget(&mut self, positions: &[Position])
        ensures { self.new ≡ without_messages positions.now self.old }
    {
        self.acknowledged.leave_out(positions);
        self.counts.leave_out(positions);
    }
}

fn all_done(subscriptions: &[Subscription], message: &Message) -> bool
    ensures { result ≡ list_all (is_done_with message.now) subscriptions.now }
{
    subscriptions
        .iter()
        .all(|subscription| subscription.is_done_with(message))
}

/// Whether every subscription has done with the message, and there is one.
pub fn is_done(subscriptions: &[Subscription], message: &Message) -> bool
    ensures { result ≡ (nat_lt 0 (length subscriptions.now) && list_all (is_done_with message.now) subscriptions.now) }
{
    !subscriptions.is_empty() && all_done(subscriptions, message)
}

/// No subscription knows anything of the messages any more.
pub fn forget_messages(subscriptions: &mut [Subscription], positions: &[Position])
    ensures { subscriptions.new ≡ map (without_messages positions.now) subscriptions.old }
{
    for subscription in subscriptions.iter_mut() {
        subscription.forget(positions);
    }
}
