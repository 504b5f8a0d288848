// Where the members and subscriptions of a topic stand, and its messages.
use crate::parts::Parts;
use position_core::SubscriptionName;
use topic_subscriptions::place_of_subscription;

impl Parts {
    ghost use Rattle.std.specs.Prelude.{◌≡◌, ◌<◌, IfSome, length, slice_get};
    ghost use Rattle.std.specs.List.{find, position};
    ghost use Rattle.std.specs.Option.{option_copied};
    ghost use Rattle.delivery_machine.specs.Words.{is_member, is_named};
    ghost use Rattle.topic_members.specs.Members.{NumbersRise};
    ghost use Rattle.topic_subscriptions.specs.Placed.{is_placed};
    ghost use Rattle.topic_parts.specs.Parts.{state_of};

    /// Where the subscription of the name stands.
    pub fn place_of(&self, name: &SubscriptionName) -> Option<usize>
        ensures value { result ≡ position (is_named name.now) (state_of self.now).subscriptions }
        ensures placed { result ≡ position (is_placed name.now) self.now.subscriptions.items }
    {
        place_of_subscription(&self.subscriptions, name)
    }
}
