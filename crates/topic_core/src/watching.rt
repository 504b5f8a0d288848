// How far each consumer is.
ghost use Rattle.std.specs.Prelude.{◌≡◌};
ghost use Rattle.topic_subscriptions.specs.Placed.{sub_in};
ghost use Rattle.topic_parts.specs.Parts.{log_of, state_of};
ghost use Rattle.topic_served.specs.Served.{IsSettled, state_in};
ghost use Rattle.delivery_machine.specs.ConsumerCounts.{counts_in, counts_of, room_of};

use delivery_machine::ConsumerCounts;
use position_core::{ConsumerNumber, Flow};
use topic_members::Member;
use topic_parts::At;
use topic_served::Served;

/// How many messages more a consumer of the flow takes, where so many are pending at it.
fn room_of(flow: Flow, pending: u64) -> u64
    ensures { result ≡ room_of flow pending }
{
    match flow {
        Flow::Window(size) => u64::from(size.get()).saturating_sub(pending),
        Flow::Credit(left) => u64::from(left.get()),
    }
}

/// What the member has at its subscription, which knows how many messages are pending at whom.
fn counts_in(at: &At<'_>, member: &Member) -> ConsumerCounts
    ensures { result ≡ counts_in (state_of at.now.parts.now) (sub_in (log_of at.now.parts.now) at.now.subscription.now) member.now }
{
    let pending = at.subscription.pending_at(member.number()) as u64;
    ConsumerCounts {
        pending,
        room: room_of(member.flow(), pending),
    }
}

/// What the consumer has; none where there is no such consumer. Looks at no message.
pub(crate) fn consumer_counts(served: &Served, consumer: ConsumerNumber) -> Option<ConsumerCounts>
    requires { IsSettled served.now }
    ensures { result ≡ counts_of (state_in served.now) consumer }
{
    let parts = &served.parts;
    let Some(member) = parts.members.get(consumer) else {
        return None;
    };
    let Some(place) = parts.place_of(member.subscription()) else {
        return None;
    };
    Some(counts_in(&parts.at(place), member))
}
