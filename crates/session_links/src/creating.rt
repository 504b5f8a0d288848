// Making a subscription, by events that there are.
ghost use Rattle.std.specs.Prelude.{◌≡◌, IfOk, List, true, ℕ};
ghost use Rattle.delivery_machine.specs.Words.{has_member};
ghost use Rattle.delivery_machine.specs.declared.event.Target.{Target};
ghost use Rattle.session_links.specs.Creating.{Creates, Makes, MayCreate, MovesOn, consumer_by, is_done, joins as join_of, making_of, refusal_by};

use crate::hold::Hold;
use delivery_machine::{
    ConsumerNumber, Event, Fault, Flow, Initial, Kind, Level, Millis, RedeliverLimit, Reply,
    SubscriptionName, Target, TopicName,
};
use position_core::WindowSize;
use std::alloc::AllocError;

/// The events by which a subscription is made; by the last one it goes where it cannot go on from its target.
#[derive(Drop)]
struct Making {
    looks: Event,
    joins: Event,
    seeks: Event,
    drops: Event,
}

fn no_level() -> Level
    ensures { result ≡ 0 }
{
    match Level::new(0) {
        Some(level) => level,
        None => unreachable!(),
    }
}

fn no_time() -> Millis
    ensures { result ≡ 0 }
{
    match Millis::new(0) {
        Some(millis) => millis,
        None => unreachable!(),
    }
}

fn no_limit() -> RedeliverLimit
    ensures { result ≡ 0 }
{
    match RedeliverLimit::new(0) {
        Some(limit) => limit,
        None => unreachable!(),
    }
}

fn least_window() -> WindowSize
    ensures { result ≡ 1 }
{
    match WindowSize::new(1) {
        Some(size) => size,
        None => unreachable!(),
    }
}

fn nowhere(name: &SubscriptionName) -> Result<TopicName, AllocError>
    ensures { IfOk result (λ topic. topic ≡ record { tenant = name.now; namespace = name.now; topic = name.now }) }
{
    let tenant = name.clone()?;
    let namespace = name.clone()?;
    let topic = name.clone()?;
    Ok(TopicName {
        tenant,
        namespace,
        topic,
    })
}

fn joining(name: &SubscriptionName) -> Result<Event, AllocError>
    ensures { IfOk result (λ event. event ≡ join_of name.now) }
{
    let subscription = name.clone()?;
    let dead_topic = nowhere(name)?;
    Ok(Event::Subscribe {
        subscription,
        kind: Kind::Exclusive,
        level: no_level(),
        flow: Flow::Window(least_window()),
        ack_timeout: no_time(),
        nack_delay: no_time(),
        max_redeliver: no_limit(),
        dead_topic,
        initial: Initial::Earliest,
        ranges: None,
    })
}

impl Making {
    fn of(name: &SubscriptionName, target: Target) -> Result<Making, AllocError>
        ensures { IfOk result (λ making. making ≡ making_of name.now target) }
    {
        let looks = Event::Stats {
            subscription: name.clone()?,
        };
        let joins = joining(name)?;
        let seeks = Event::Seek {
            subscription: name.clone()?,
            target,
        };
        let drops = Event::DropSubscription {
            subscription: name.clone()?,
        };
        Ok(Making {
            looks,
            joins,
            seeks,
            drops,
        })
    }
}

/// Why it is not made, by what its statistics were answered.
fn refusal_by(shown: &Result<Reply, Fault>) -> Option<Fault>
    ensures { result ≡ refusal_by shown.now }
{
    match shown {
        Ok(Reply::Refused(_)) => None,
        Ok(_) => Some(Fault::SubscriptionBusy),
        Err(fault) => Some(*fault),
    }
}

fn consumer_by(joined: &Result<Reply, Fault>) -> Option<ConsumerNumber>
    ensures { result ≡ consumer_by joined.now }
{
    match joined {
        Ok(Reply::Subscribed { consumer }) => Some(*consumer),
        _ => None,
    }
}

fn is_done(answer: &Result<Reply, Fault>) -> bool
    ensures { result ≡ is_done answer.now }
{
    matches!(answer, Ok(Reply::Done))
}

/// The consumer's subscription goes on from the target, and is left alone.
fn move_on<H: Hold>(
    hold: &mut H,
    consumer: ConsumerNumber,
    seeks: Event,
    drops: Event,
) -> Result<Reply, Fault>
    requires there { has_member (H.state hold.old) consumer ≡ true }
    requires seeks { (name : List ℕ) × (target : Target) × (seeks ≡ Event.Seek name target) }
    ensures { MovesOn H.answers seeks drops consumer (H.state hold.old) result (H.state hold.new) }
{
    let sought = hold.hand(seeks);
    drop(hold.hand(Event::Leave { consumer }));
    if is_done(&sought) {
        drop(drops);
        return sought;
    }
    hold.spare();
    drop(hold.hand(drops));
    sought
}

fn make<H: Hold>(hold: &mut H, joins: Event, seeks: Event, drops: Event) -> Result<Reply, Fault>
    requires joins { (name : List ℕ) × (joins ≡ join_of name) }
    requires seeks { (name : List ℕ) × (target : Target) × (seeks ≡ Event.Seek name target) }
    ensures { Makes H.answers joins seeks drops (H.state hold.old) result (H.state hold.new) }
{
    let joined = hold.hand(joins);
    match consumer_by(&joined) {
        Some(consumer) => {
            drop(joined);
            move_on(hold, consumer, seeks, drops)
        }
        None => {
            drop(seeks);
            drop(drops);
            joined
        }
    }
}

fn create_by<H: Hold>(hold: &mut H, making: Making) -> Result<Reply, Fault>
    requires { (name : List ℕ) × (target : Target) × (making ≡ making_of name target) }
    ensures { Creates H.answers making (H.state hold.old) result (H.state hold.new) }
{
    let Making {
        looks,
        joins,
        seeks,
        drops,
    } = making;
    let shown = hold.hand(looks);
    let refusal = refusal_by(&shown);
    drop(shown);
    match refusal {
        Some(fault) => {
            drop(joins);
            drop(seeks);
            drop(drops);
            Err(fault)
        }
        None => make(hold, joins, seeks, drops),
    }
}

/// Makes the subscription, with nobody at it, to go on from the target. Refused (F12) where it is there; as its first consumer
/// would be; (F8) where the target is a message that is not there; and (F1) for want of memory. Where it was refused the
/// subscription is not there, if it was not.
pub fn create<H: Hold>(
    hold: &mut H,
    subscription: &SubscriptionName,
    target: Target,
) -> Result<Reply, Fault>
    ensures { MayCreate H.answers subscription.now target (H.state hold.old) result (H.state hold.new) }
{
    match Making::of(subscription, target) {
        Ok(making) => create_by(hold, making),
        Err(_) => Err(Fault::NoMemory),
    }
}
