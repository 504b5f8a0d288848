// How many messages at the front of a log nobody needs.
ghost use Rattle.std.specs.Prelude.{◌≡◌, ◌≤◌, ◌&&◌, length, nat_le, nat_lt};
ghost use Rattle.std.specs.List.{list_all, prefix_len};
ghost use Rattle.delivery_machine.specs.Trimming.{is_done_with};

use plain_lists::{Subscription, is_done};
use position_core::{Message, Moment};

fn may_go(subscriptions: &[Subscription], message: &Message, before: Moment) -> bool
    ensures { result ≡ ((nat_lt 0 (length subscriptions.now) && list_all (is_done_with message.now) subscriptions.now) && nat_le message.now.time before) }
{
    is_done(subscriptions, message) && message.entry().time.millis() <= before.millis()
}

/// How many messages stand before the first that may not go: one that a subscription has not done with,
/// or that is later than the moment.
pub fn free_at_front(subscriptions: &[Subscription], visible: &[Message], before: Moment) -> usize
    ensures value { result ≡ prefix_len (λ e. (nat_lt 0 (length subscriptions.now) && list_all (is_done_with e) subscriptions.now) && nat_le e.time before) visible.now }
    ensures within { result ≤ length visible.now }
{
    'each: for i in 0..visible.len() {
        if !may_go(subscriptions, &visible[i], before) {
            return i;
        }
    }
    visible.len()
}
