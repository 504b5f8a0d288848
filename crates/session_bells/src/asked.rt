// What an event may do to those who wait at a topic.
ghost use Rattle.std.specs.Prelude.{◌≡◌, IfErr};

use delivery_machine::{ConsumerNumber, Event, Fault, SubscriptionName};

/// What an event may do to those who wait.
#[derive(Drop)]
pub enum Asked {
    /// A consumer joins the subscription.
    Joins(SubscriptionName),
    /// The consumer leaves.
    Leaves(ConsumerNumber),
    /// A message is sent to a consumer of the subscription of the one who asks, or none can be.
    Dispatches,
    /// Messages of the subscription of the one who asks may be free again, or a consumer of it may have room.
    Frees,
    /// The same of this subscription.
    FreesIn(SubscriptionName),
    /// Nothing.
    Nothing,
}

fn frees_in(subscription: &SubscriptionName) -> Result<Asked, Fault>
    ensures { IfErr result (λ fault. fault ≡ Fault.NoMemory) }
{
    match subscription.clone() {
        Ok(name) => Ok(Asked::FreesIn(name)),
        Err(_) => Err(Fault::NoMemory),
    }
}

impl Asked {
    /// Only want of memory is a refusal (F1).
    pub fn of(event: &Event) -> Result<Asked, Fault>
        ensures { IfErr result (λ fault. fault ≡ Fault.NoMemory) }
    {
        match event {
            Event::Subscribe { subscription, .. } => match subscription.clone() {
                Ok(name) => Ok(Asked::Joins(name)),
                Err(_) => Err(Fault::NoMemory),
            },
            Event::Leave { consumer } => Ok(Asked::Leaves(*consumer)),
            Event::Dispatch { .. } => Ok(Asked::Dispatches),
            Event::Ack { .. }
            | Event::AckUpTo { .. }
            | Event::Nack { .. }
            | Event::Permit { .. }
            | Event::Tick { .. } => Ok(Asked::Frees),
            Event::Seek { subscription, .. }
            | Event::SeekTime { subscription, .. }
            | Event::Skip { subscription, .. } => frees_in(subscription),
            _ => Ok(Asked::Nothing),
        }
    }
}
