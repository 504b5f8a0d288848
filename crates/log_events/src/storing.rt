// What is stored.
ghost use Rattle.std.specs.Prelude.{◌≡◌, map};
ghost use Rattle.delivery_machine.specs.Run.{Answers};
ghost use Rattle.delivery_machine.specs.declared.event.Event.TheVariants.{Progress, Stored, StoredTo};
ghost use Rattle.topic_subscriptions.specs.Placed.{all_safe_in, safe_below_in};
ghost use Rattle.topic_served.specs.Served.{IsBound, IsSettled, state_in};

use delivery_machine::Reply;
use position_core::Ordinal;
use topic_served::Served;
use topic_subscriptions::Subscription;

/// All deaths are stored.
fn store_all(subscriptions: &mut [Subscription])
    ensures { subscriptions.new ≡ map all_safe_in subscriptions.old }
{
    for subscription in subscriptions.iter_mut() {
        subscription.store();
    }
}

/// The deaths below the ordinal are stored, and those that were.
fn store_all_to(subscriptions: &mut [Subscription], ordinal: Ordinal)
    ensures { subscriptions.new ≡ map (safe_below_in ordinal) subscriptions.old }
{
    for subscription in subscriptions.iter_mut() {
        subscription.store_to(ordinal);
    }
}

/// All messages are stored, and all deaths. Takes no memory.
pub fn stored(served: &mut Served) -> Reply
    requires { IsSettled served.old }
    ensures answers { Answers (state_in served.old) Stored result (state_in served.new) }
    ensures bound { IsBound served.new }
{
    served.parts.log.store();
    store_all(&mut served.parts.subscriptions);
    Reply::Durable(served.parts.log.had())
}

/// The first messages are stored, so many, and the deaths below the ordinal, with all that were. Takes no
/// memory.
pub fn stored_to(served: &mut Served, length: u64, ordinal: Ordinal) -> Reply
    requires { IsSettled served.old }
    ensures answers { Answers (state_in served.old) (StoredTo length ordinal) result (state_in served.new) }
    ensures bound { IsBound served.new }
{
    served.parts.log.store_to(length);
    store_all_to(&mut served.parts.subscriptions, ordinal);
    let _length = served.parts.log.len();
    Reply::Durable(served.parts.log.gone() + served.parts.log.durable() as u64)
}

/// How much of the log is stored. Takes no memory.
pub fn progress(served: &Served) -> Reply
    ensures { Answers (state_in served.now) Progress result (state_in served.now) }
{
    served.parts.log.progress()
}
