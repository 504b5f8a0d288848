// A message is sent to a member.
ghost use Rattle.std.specs.Prelude.{◌≡◌, ◌<◌, ℕ, List, true, Some, OnOk, OnErr, length};
ghost use Rattle.std.specs.List.{position as place_in};
ghost use Rattle.log_pieces.specs.Pieces.{index_of};
ghost use Rattle.delivery_machine.specs.Words.{changed, is_member};
ghost use Rattle.topic_members.specs.Members.{pushed, shortened, spending};
ghost use Rattle.topic_subscriptions.specs.Placed.{is_live_at, is_placed};
ghost use Rattle.topic_parts.specs.Holding.{IsAt};
ghost use Rattle.topic_parts.specs.Parts.{AreTied, log_of, state_of};
ghost use Rattle.delivery_events.specs.Handing.{handed, taken_back};

use delivery_machine::Delivery;
use position_core::{ConsumerNumber, Held, LogIndex, Position};
use std::alloc::AllocError;
use topic_parts::Parts;

/// Puts the message behind what the member was sent.
fn give(parts: &mut Parts, consumer: ConsumerNumber, delivery: Delivery) -> Result<(), AllocError>
    requires tied { AreTied parts.old }
    ensures ok { OnOk result (state_of parts.new ≡ record (state_of parts.old) { members = changed (is_member consumer) (pushed delivery) (state_of parts.old).members }) }
    ensures err { OnErr result (state_of parts.new ≡ state_of parts.old) }
    ensures tied { AreTied parts.new }
    ensures rest { parts.new ≡ record parts.old { members = parts.new.members } }
{
    match parts.members.give(consumer, delivery) {
        Ok(()) => Ok(()),
        Err(failed) => Err(failed),
    }
}

/// Takes back what the member was sent last.
fn take_back(parts: &mut Parts, consumer: ConsumerNumber)
    requires tied { AreTied parts.old }
    ensures state { state_of parts.new ≡ record (state_of parts.old) { members = changed (is_member consumer) shortened (state_of parts.old).members } }
    ensures tied { AreTied parts.new }
    ensures rest { parts.new ≡ record parts.old { members = parts.new.members } }
{
    parts.members.take_back(consumer);
}

/// Takes the credit for one message.
pub(crate) fn spend(parts: &mut Parts, consumer: ConsumerNumber)
    requires tied { AreTied parts.old }
    ensures state { state_of parts.new ≡ record (state_of parts.old) { members = changed (is_member consumer) spending (state_of parts.old).members } }
    ensures tied { AreTied parts.new }
    ensures rest { parts.new ≡ record parts.old { members = parts.new.members } }
{
    parts.members.spend(consumer);
}

/// The message at the index is pending at the member, and stands behind what it was sent. The credit is not
/// taken. The state is as it was where there is no memory.
pub(crate) fn hand(
    parts: &mut Parts,
    place: usize,
    index: LogIndex,
    delivery: Delivery,
    held: Held,
) -> Result<(), AllocError>
    requires tied { AreTied parts.old }
    requires within { place < length parts.old.subscriptions.items }
    requires index { index_of delivery.message.position (log_of parts.old) ≡ Some index }
    requires live { IsAt parts.old place (λ p. is_live_at p index ≡ true) }
    ensures ok { OnOk result ((name : List ℕ) → Some place ≡ place_in (is_placed name) parts.old.subscriptions.items
        → state_of parts.new ≡ handed (state_of parts.old) name delivery held) }
    ensures err { OnErr result (state_of parts.new ≡ state_of parts.old) }
    ensures tied { AreTied parts.new }
    ensures log { parts.new.log ≡ parts.old.log }
    ensures many { length parts.new.subscriptions.items ≡ length parts.old.subscriptions.items }
{
    let position = delivery.message.position();
    match give(parts, held.consumer, delivery) {
        Ok(()) => match parts.hold(place, index, position, held) {
            Ok(()) => Ok(()),
            Err(failed) => {
                take_back(parts, held.consumer);
                Err(failed)
            }
        },
        Err(failed) => Err(failed),
    }
}

/// Undoes `hand`. Takes no memory.
pub(crate) fn hand_back(
    parts: &mut Parts,
    place: usize,
    position: Position,
    consumer: ConsumerNumber,
)
    requires tied { AreTied parts.old }
    requires within { place < length parts.old.subscriptions.items }
    ensures state { (name : List ℕ) → Some place ≡ place_in (is_placed name) parts.old.subscriptions.items
        → state_of parts.new ≡ taken_back (state_of parts.old) name position consumer }
    ensures tied { AreTied parts.new }
    ensures log { parts.new.log ≡ parts.old.log }
{
    parts.release(place, position);
    take_back(parts, consumer);
}
