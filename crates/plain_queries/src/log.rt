// What is found by looking through the log.
ghost use Rattle.std.specs.Prelude.{◌≡◌, ◌+◌, ◌++◌, map};
ghost use Rattle.std.specs.List.{count_by, find};
ghost use Rattle.std.specs.Option.{option_copied, option_map_or};
ghost use Rattle.position_core.specs.Flow.{flow_has_room};
ghost use Rattle.delivery_machine.specs.Words.{has_position, has_room_in, is_by, is_waiting, last_sequence, pending_in, signed, signed_by, used_after};

use delivery_machine::Author;
use plain_lists::{Member, Subscription, greatest_of, raised};
use position_core::{ConsumerNumber, Flow, Message, Position, ProducerName};

fn is_by(message: &Message, name: &ProducerName) -> bool
    ensures { result ≡ is_by name.now (signed message.now) }
{
    message.entry().producer.is(name)
}

/// The greatest sequence number that is known under the name, by what is remembered and by the log, or
/// the base where there is none.
pub fn last_sequence(authors: &[Author], log: &[Message], name: &ProducerName, base: i64) -> i64
    ensures { result ≡ last_sequence (map signed_by authors.now ++ map signed log.now) name.now base }
{
    let mut last = greatest_of(authors, name);
    for message in log {
        if is_by(message, name) {
            last = Some(raised(last, message.entry().sequence));
        }
    }
    match last {
        Some(number) => number,
        None => base,
    }
}

/// The entry of the last message, where it is of the ledger.
pub fn last_entry(log: &[Message], ledger: u64) -> Option<u64>
    ensures { used_after ledger log.now ≡ option_map_or (λ entry. entry + 1) result 0 }
{
    let last = log.last()?.position();
    if last.ledger == ledger {
        Some(last.entry)
    } else {
        None
    }
}

/// The message at the position.
pub fn message_at(log: &[Message], position: Position) -> Option<&Message>
    ensures { option_copied result ≡ find (has_position position) log.now }
{
    log.iter().find(|message| message.position().is(position))
}

/// The first message that waits in the subscription.
pub fn first_waiting<'a>(visible: &'a [Message], subscription: &Subscription) -> Option<&'a Message>
    ensures { option_copied result ≡ find (is_waiting subscription.now) visible.now }
{
    visible
        .iter()
        .find(|message| subscription.is_waiting(message))
}

/// How many messages are pending at the consumer.
pub fn pending_at(log: &[Message], subscription: &Subscription, consumer: ConsumerNumber) -> usize
    ensures { result ≡ pending_in log.now subscription.now consumer }
{
    log.iter()
        .filter(|message| subscription.holds_at(consumer, message))
        .count()
}

fn flow_has_room(flow: Flow, held: usize) -> bool
    ensures { result ≡ flow_has_room flow held }
{
    match flow {
        Flow::Window(size) => held < size.get() as usize,
        Flow::Credit(left) => left.get() > 0,
    }
}

/// Whether the member may be sent a further message.
pub fn has_room(log: &[Message], subscription: &Subscription, member: &Member) -> bool
    ensures { result ≡ has_room_in log.now subscription.now member.now }
{
    flow_has_room(
        member.flow(),
        pending_at(log, subscription, member.number()),
    )
}
