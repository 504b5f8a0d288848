// The beginning of a session.
ghost use Rattle.std.specs.Prelude.{◌≡◌, [], OnSome, true, negsuc, unwrap_or};
ghost use Rattle.session_texts.specs.Numbers.{number_after};
ghost use Rattle.session_core.specs.Lives.{BeginsLife};
ghost use Rattle.session_core.specs.Opening.{BeginsBy, IsRefused, JoinsBy, Opens, OpensBy, consumer_party, fault_of, joins_consumer, joins_producer, producer_party};
ghost use Rattle.session_core.specs.Runs.{IsSession};

use crate::dues::Dues;
use crate::session::Session;
use delivery_machine::{Deliveries, Event, Fault, Millis, Reply, SubscriptionName};
use endpoint_core::{ConsumerEndpoint, Endpoint, ProducerEndpoint};
use position_core::Base;
use session_links::{Caller, Conn, ask};
use session_texts::{Party, number_after, reason};
use std::alloc::Global;
use std::collections::VecDeque;

/// The session of the party, which takes no memory.
fn begin(alloc: Global, party: Party, dues: Dues) -> Session
    ensures party { result.party ≡ party }
    ensures begins { IsSession result [] }
{
    let next = party.first();
    Session {
        alloc,
        party,
        next,
        durable: 0,
        copies: Deliveries::new(alloc),
        copies_sent: 0,
        waiting: VecDeque::new(alloc),
        text: String::new(alloc),
        dues,
        had_room: true,
    }
}

/// Of a session that is sent no messages.
fn no_dues() -> Dues {
    match Millis::new(0) {
        Some(none) => Dues::new(none, none),
        None => unreachable!(),
    }
}

/// Closes the connection of a session that does not begin.
fn refuse<C: Conn>(conn: &mut C, code: u16, fault: Fault) -> Option<Session>
    requires { C.is_open conn.old ≡ true }
    ensures { IsRefused code fault (C.exchange conn.old) result (C.exchange conn.new) (C.is_open conn.new) }
{
    conn.close(code, reason(fault));
    None
}

/// Why the topic refused; a reply of another event counts as one that knows no such session.
fn fault_of(reply: &Reply) -> Fault
    ensures { result ≡ fault_of reply.now }
{
    match reply {
        Reply::Refused(fault) => *fault,
        _ => Fault::NoSession,
    }
}

/// The base that stands for none.
fn no_base() -> Base
    ensures { result ≡ negsuc 0 }
{
    match Base::new(-1) {
        Some(base) => base,
        None => unreachable!(),
    }
}

fn base_or_none(base: &Option<Base>) -> Base
    ensures { result ≡ unwrap_or base.now (negsuc 0) }
{
    match base {
        Some(base) => *base,
        None => no_base(),
    }
}

/// The number of a producer's first publish, where one is left.
fn first_number(base: &Option<Base>, last: i64) -> Option<i64>
    ensures { result ≡ number_after (unwrap_or base.now last) }
{
    match base {
        Some(base) => number_after(Some(base.number())),
        None => number_after(Some(last)),
    }
}

/// Whose session it is by the reply to `AddProducer`.
fn producer_party(base: &Option<Base>, reply: &Reply) -> Option<Party>
    ensures { result ≡ producer_party base.now reply.now }
{
    match reply {
        Reply::ProducerAdded {
            producer,
            auto: _,
            last,
        } => {
            let first = first_number(base, *last);
            Some(Party::Producer {
                number: *producer,
                first,
            })
        }
        _ => None,
    }
}

/// Whose session it is by the reply to `Subscribe`.
fn consumer_party(subscription: SubscriptionName, reply: &Reply) -> Option<Party>
    ensures { result ≡ consumer_party subscription reply.now }
{
    match reply {
        Reply::Subscribed { consumer } => Some(Party::Consumer {
            number: *consumer,
            subscription,
        }),
        _ => {
            drop(subscription);
            None
        }
    }
}

/// Begins the session of the party that the topic's reply gives, or closes the connection.
fn begin_by<C: Conn>(
    alloc: Global,
    party: Option<Party>,
    dues: Dues,
    conn: &mut C,
    code: u16,
    reply: &Reply,
) -> Option<Session>
    requires { C.is_open conn.old ≡ true }
    ensures stays { OnSome result (C.is_open conn.new ≡ true) }
    ensures begins { BeginsBy code reply.now party (C.exchange conn.old) result (C.exchange conn.new) (C.is_open conn.new) }
{
    match party {
        Some(party) => Some(begin(alloc, party, dues)),
        None => refuse(conn, code, fault_of(reply)),
    }
}

/// The event with which a producer's session begins.
fn joins_producer(endpoint: ProducerEndpoint) -> Event
    ensures { result ≡ joins_producer endpoint }
{
    let base = base_or_none(&endpoint.base);
    Event::AddProducer {
        name: endpoint.name,
        base,
    }
}

fn open_producer<C: Conn, K: Caller>(
    alloc: Global,
    endpoint: ProducerEndpoint,
    conn: &mut C,
    caller: &mut K,
) -> Option<Session>
    requires { C.is_open conn.old ≡ true }
    ensures stays { OnSome result (C.is_open conn.new ≡ true) }
    ensures begins { JoinsBy (joins_producer endpoint) 4001 (producer_party endpoint.base) (C.exchange conn.old) (K.calls caller.old) result (C.exchange conn.new) (K.calls caller.new) (C.is_open conn.new) }
{
    let given = endpoint.base;
    let reply = ask(caller, joins_producer(endpoint));
    let party = producer_party(&given, &reply);
    let session = begin_by(alloc, party, no_dues(), conn, 4001, &reply);
    drop(reply);
    session
}

/// The event with which a consumer's session begins.
fn joins_consumer(endpoint: ConsumerEndpoint) -> Event
    ensures { result ≡ joins_consumer endpoint }
{
    Event::Subscribe {
        subscription: endpoint.subscription,
        kind: endpoint.kind,
        level: endpoint.level,
        flow: endpoint.flow,
        ack_timeout: endpoint.ack_timeout,
        nack_delay: endpoint.nack_delay,
        max_redeliver: endpoint.max_redeliver,
        dead_topic: endpoint.dead_topic,
        initial: endpoint.initial,
        ranges: endpoint.ranges,
    }
}

/// Begins the session of a consumer of the subscription by the reply to the event.
fn join_consumer<C: Conn, K: Caller>(
    alloc: Global,
    event: Event,
    subscription: SubscriptionName,
    dues: Dues,
    conn: &mut C,
    caller: &mut K,
) -> Option<Session>
    requires { C.is_open conn.old ≡ true }
    ensures stays { OnSome result (C.is_open conn.new ≡ true) }
    ensures begins { OpensBy event 4002 (consumer_party subscription) (C.exchange conn.old) (K.calls caller.old) result (C.exchange conn.new) (K.calls caller.new) (C.is_open conn.new) }
{
    let reply = ask(caller, event);
    let party = consumer_party(subscription, &reply);
    let session = begin_by(alloc, party, dues, conn, 4002, &reply);
    drop(reply);
    session
}

fn open_consumer<C: Conn, K: Caller>(
    alloc: Global,
    endpoint: ConsumerEndpoint,
    conn: &mut C,
    caller: &mut K,
) -> Option<Session>
    requires { C.is_open conn.old ≡ true }
    ensures stays { OnSome result (C.is_open conn.new ≡ true) }
    ensures begins { OpensBy (joins_consumer endpoint) 4002 (consumer_party endpoint.subscription) (C.exchange conn.old) (K.calls caller.old) result (C.exchange conn.new) (K.calls caller.new) (C.is_open conn.new) }
{
    let dues = Dues::new(endpoint.ack_timeout, endpoint.nack_delay);
    match endpoint.subscription.clone() {
        Ok(subscription) => join_consumer(
            alloc,
            joins_consumer(endpoint),
            subscription,
            dues,
            conn,
            caller,
        ),
        Err(_) => {
            drop(endpoint);
            refuse(conn, 4008, Fault::NoMemory)
        }
    }
}

/// Opens a session at the endpoint: joins a producer or a consumer to its topic. None where the topic refuses, or memory
/// does; the connection is closed then (4001 for a producer, 4002 for a consumer, 4008 where memory is wanted).
///
/// The session begins its life with what is told here, and `serve` keeps it.
pub fn open<C: Conn, K: Caller>(
    alloc: Global,
    endpoint: Endpoint,
    conn: &mut C,
    caller: &mut K,
) -> Option<Session>
    requires { C.is_open conn.old ≡ true }
    ensures stays { OnSome result (C.is_open conn.new ≡ true) }
    ensures begins { Opens endpoint (C.exchange conn.old) (K.calls caller.old) result (C.exchange conn.new) (K.calls caller.new) (C.is_open conn.new) }
    ensures lives { BeginsLife endpoint (C.exchange conn.old) (K.calls caller.old) result (C.exchange conn.new) (K.calls caller.new) }
{
    match endpoint {
        Endpoint::Producer(producer) => open_producer(alloc, producer, conn, caller),
        Endpoint::Consumer(consumer) => open_consumer(alloc, consumer, conn, caller),
        Endpoint::Admin(admin) => {
            drop(admin);
            Some(begin(alloc, Party::Admin, no_dues()))
        }
    }
}
