// Subscriptions lose their first messages, with which they have done.
ghost use Rattle.std.specs.Prelude.{◌≡◌, ◌%◌, [], false, map, IfSome, IfNone};
ghost use Rattle.std.specs.List.{All, Any};
ghost use Rattle.std.specs.Ordering.{is_lt};
ghost use Rattle.position_core.specs.Position.{position_cmp};
ghost use Rattle.topic_subscriptions.specs.Placed.{AreAcknowledged, trimmed_to};

use crate::subscription::Subscription;
use position_core::Position;

impl Subscription {
    /// The first position at which a dead letter's message stands. Takes a step for each letter.
    pub fn first_dead(&self) -> Option<Position>
        ensures there { IfSome result (λ p. Any (λ d. d.position ≡ p) self.now.letters.dead) }
        ensures least { IfSome result (λ p. All (λ d. is_lt (position_cmp d.position p) ≡ false) self.now.letters.dead) }
        ensures none { IfNone result (self.now.letters.dead ≡ []) }
    {
        self.dead.first_position()
    }

    /// The first messages go, so many, which are all acknowledged, and the others stand as much lower. What
    /// is pending, counted or dead stays as it is. Takes no memory, and a step for each 64 messages at most.
    pub fn trim(&mut self, count: u64)
        requires whole { count % 64 ≡ 0 }
        requires acknowledged { AreAcknowledged count self.old }
        ensures { self.new ≡ trimmed_to count self.old }
    {
        self.closed.trim(count);
    }
}

/// Each subscription loses its first messages, so many, as in `Subscription::trim`.
pub fn trim_each(subscriptions: &mut [Subscription], count: u64)
    requires whole { count % 64 ≡ 0 }
    requires acknowledged { All (AreAcknowledged count) subscriptions.old }
    ensures { subscriptions.new ≡ map (trimmed_to count) subscriptions.old }
{
    for subscription in subscriptions.iter_mut() {
        subscription.trim(count);
    }
}
