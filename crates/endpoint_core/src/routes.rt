// The endpoint that a target stands for.
ghost use Rattle.std.specs.Prelude.{◌≡◌, ◌⊎◌, Ok, Err, IfOk, IfErr, map};
ghost use Rattle.endpoint_core.specs.declared.faults.Cause.TheVariants.{NoMemory};
ghost use Rattle.endpoint_core.specs.Faults.{Gives};
ghost use Rattle.endpoint_core.specs.Routes.{admin_at, consumer_at, endpoint_at, if_kept, producer_at, route_of};

use crate::consumers::{ConsumerEndpoint, consumer_of};
use crate::faults::{Cause, Role, RouteFault};
use crate::fields::Field;
use crate::letters::{Letters, keeps_letters};
use crate::paths::{asked, segments_of, subscription_in, topic_in, url_of};
use crate::producers::{ProducerEndpoint, producer_of};
use crate::queries::Query;
use position_core::TopicName;
use std::alloc::Global;

/// What a WebSocket is opened for.
#[derive(Debug, Drop)]
pub enum Endpoint {
    Producer(ProducerEndpoint),
    Consumer(ConsumerEndpoint),
    Admin(AdminEndpoint),
}

/// The administration of the topic's subscriptions.
#[derive(Debug, Drop)]
pub struct AdminEndpoint {
    pub topic: TopicName,
}

fn producer_at(alloc: Global, segments: &[&str], query: &str) -> Result<Endpoint, Cause>
    ensures { Gives result (producer_at (map (λ segment. segment.now) segments.now) query.now) }
{
    let topic = topic_in(alloc, segments)?;
    let query = Query::read(alloc, query)?;
    let producer = producer_of(alloc, topic, &query)?;
    Ok(Endpoint::Producer(producer))
}

/// The consumer, unless its dead letters would go where they may not.
fn if_kept(letters: Letters, consumer: ConsumerEndpoint) -> Result<Endpoint, Cause>
    ensures { result ≡ if_kept letters consumer }
{
    if keeps_letters(letters, &consumer.topic, &consumer.dead_topic) {
        return Ok(Endpoint::Consumer(consumer));
    }
    drop(consumer);
    Err(Cause::BadParameter(Field::DeadLetterTopic))
}

fn consumer_at(
    alloc: Global,
    segments: &[&str],
    query: &str,
    letters: Letters,
) -> Result<Endpoint, Cause>
    ensures { Gives result (consumer_at letters (map (λ segment. segment.now) segments.now) query.now) }
{
    let (topic, subscription) = subscription_in(alloc, segments)?;
    let query = Query::read(alloc, query)?;
    let consumer = consumer_of(alloc, topic, subscription, &query)?;
    if_kept(letters, consumer)
}

fn admin_at(alloc: Global, segments: &[&str], query: &str) -> Result<Endpoint, Cause>
    ensures { Gives result (admin_at (map (λ segment. segment.now) segments.now) query.now) }
{
    let topic = topic_in(alloc, segments)?;
    let _ = Query::read(alloc, query)?;
    Ok(Endpoint::Admin(AdminEndpoint { topic }))
}

fn endpoint_at(
    alloc: Global,
    role: Role,
    rest: &str,
    query: &str,
    letters: Letters,
) -> Result<Endpoint, Cause>
    ensures { Gives result (endpoint_at letters role rest.now query.now) }
{
    let segments = segments_of(alloc, rest)?;
    match role {
        Role::Unknown => Err(Cause::UnknownPath),
        Role::Producer => producer_at(alloc, &segments, query),
        Role::Consumer => consumer_at(alloc, &segments, query, letters),
        Role::Admin => admin_at(alloc, &segments, query),
    }
}

/// Reads the target of a handshake's request.
pub fn route(alloc: Global, target: &str, letters: Letters) -> Result<Endpoint, RouteFault>
    ensures ok { IfOk result (λ endpoint. route_of letters target.now ≡ Ok endpoint) }
    ensures err { IfErr result (λ fault. (fault.cause ≡ NoMemory) ⊎ (route_of letters target.now ≡ Err fault)) }
{
    let url = match url_of(alloc, target) {
        Ok(url) => url,
        Err(cause) => return Err(RouteFault::of(Role::Unknown, cause)),
    };
    let (role, rest) = asked(url.path());
    let query = url.query().unwrap_or("");
    match endpoint_at(alloc, role, rest, query, letters) {
        Ok(endpoint) => Ok(endpoint),
        Err(cause) => Err(RouteFault::of(role, cause)),
    }
}
