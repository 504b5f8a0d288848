// Which pending messages are due.
ghost use Rattle.std.specs.Prelude.{◌≡◌, IfOk, IfSome, IsTrue, is_some};
ghost use Rattle.std.specs.FinMap as map_of;
ghost use Rattle.delivery_machine.specs.Ticking.{any_due_in, is_due, pending_positions_in};
ghost use Rattle.plain_queries.specs.Due.{IsEither};

use plain_lists::Subscription;
use position_core::{Message, Moment, Position};
use std::alloc::{AllocError, Global};

/// A message, and the moment from which on it may be released.
#[derive(Clone, Copy)]
struct Due {
    moment: u64,
    position: Position,
}

/// When the message was due, where it is due by now.
fn due_by(subscription: &Subscription, message: &Message, now: Moment) -> Option<u64>
    ensures { is_some result ≡ is_due now (map_of.get subscription.now.pending message.now.position) }
{
    match subscription.due(message) {
        Some(due) => if due <= now.millis() { Some(due) } else { None },
        None => None,
    }
}

fn earlier(first: Option<Due>, next: Due) -> Due
    ensures { IsEither first next result }
{
    match first {
        Some(first) => if next.moment < first.moment {
            next
        } else {
            first
        },
        None => next,
    }
}

/// Of the messages that are due by now, the one with the least moment, and of these the first.
pub fn first_due(log: &[Message], subscription: &Subscription, now: Moment) -> Option<Position>
    ensures due { IfSome result (λ p. IsTrue (is_due now (map_of.get subscription.now.pending p))) }
    ensures any { is_some result ≡ any_due_in log.now subscription.now now }
{
    let mut first = None;
    for message in log {
        if let Some(moment) = due_by(subscription, message, now) {
            let position = message.position();
            first = Some(earlier(first, Due { moment, position }));
        }
    }
    first.map(|due| due.position)
}

/// The positions of all that is pending.
pub fn pending_positions(
    alloc: Global,
    log: &[Message],
    subscription: &Subscription,
) -> Result<Vec<Position>, AllocError>
    ensures { IfOk result (λ ps. ps.items ≡ pending_positions_in log.now subscription.now) }
{
    let mut positions = Vec::new(alloc);
    for message in log {
        if subscription.is_pending(message) {
            positions.push(message.position())?;
        }
    }
    Ok(positions)
}
