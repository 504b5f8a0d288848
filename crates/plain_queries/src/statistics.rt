// How far a subscription is.
ghost use Rattle.std.specs.Prelude.{◌≡◌};
ghost use Rattle.std.specs.List.{count_by};
ghost use Rattle.std.specs.FinSet as set;
ghost use Rattle.std.specs.FinMap as map_of;
ghost use Rattle.delivery_machine.specs.Words.{is_live};
ghost use Rattle.delivery_machine.specs.Statistics.{mark_delete, oldest};

use plain_lists::Subscription;
use position_core::{Message, Moment, Position};

/// The last message of the log up to which all are acknowledged.
pub fn mark_delete(log: &[Message], subscription: &Subscription) -> Option<Position>
    ensures { result ≡ mark_delete subscription.now log.now }
{
    let mut mark = None;
    for message in log {
        if !subscription.is_acknowledged(message) {
            return mark;
        }
        mark = Some(message.position());
    }
    mark
}

/// How many messages of the log are acknowledged.
pub fn number_acknowledged(log: &[Message], subscription: &Subscription) -> usize
    ensures { result ≡ count_by (λ e. set.contains subscription.now.acknowledged e.position) log.now }
{
    log.iter()
        .filter(|message| subscription.is_acknowledged(message))
        .count()
}

/// How many messages are live.
pub fn number_live(visible: &[Message], subscription: &Subscription) -> usize
    ensures { result ≡ count_by (is_live subscription.now) visible.now }
{
    visible
        .iter()
        .filter(|message| subscription.is_live(message))
        .count()
}

/// How many messages of the log are pending.
pub fn number_pending(log: &[Message], subscription: &Subscription) -> usize
    ensures { result ≡ count_by (λ e. map_of.contains_key subscription.now.pending e.position) log.now }
{
    log.iter()
        .filter(|message| subscription.is_pending(message))
        .count()
}

/// When the first message was published.
pub fn oldest(log: &[Message]) -> Option<Moment>
    ensures { result ≡ oldest log.now }
{
    log.first().map(|message| message.entry().time)
}
