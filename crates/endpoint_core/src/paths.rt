// The path of a target: whom it is for, and the names in it.
ghost use Rattle.std.specs.Prelude.{◌≡◌, IfOk, map, string_bytes, ◌++◌, codes};
ghost use Rattle.std.specs.Option.{option_copied};
ghost use Rattle.endpoint_core.specs.Faults.{Gives};
ghost use Rattle.endpoint_core.specs.Segments.{segments_of};
ghost use Rattle.endpoint_core.specs.Paths.{after, asked, name_at, subscription_at, subscription_in, topic_at, topic_in, url_of};

use crate::faults::{Cause, Role};
use crate::targets::has_one_reading;
use crate::texts::text_of;
use position_core::{Name, SubscriptionName, TopicName};
use std::alloc::{AllocError, Global};
use url::{ParseError, Url};

fn whole(alloc: Global, target: &str) -> Result<String, AllocError>
    ensures { IfOk result (λ text. string_bytes text ≡ codes "ws://localhost" ++ target.now) }
{
    let mut text = String::from_str(alloc, "ws://localhost")?;
    text.push_str(target)?;
    Ok(text)
}

/// The URL of a target. One that does not begin with `/` would change the host, and one that can be read in two
/// ways is refused before the URL's rules resolve it.
pub fn url_of(alloc: Global, target: &str) -> Result<Url, Cause>
    ensures { Gives result (url_of target.now) }
{
    if !target.starts_with("/") || !has_one_reading(target) {
        return Err(Cause::UnknownPath);
    }
    let text = whole(alloc, target)?;
    match Url::parse(alloc, text.as_str()) {
        Ok(url) => Ok(url),
        Err(ParseError::OutOfMemory) => Err(Cause::NoMemory),
        Err(ParseError::Overflow) => Err(Cause::NoMemory),
        Err(_) => Err(Cause::UnknownPath),
    }
}

pub fn after<'a>(front: &str, text: &'a str) -> Option<&'a str>
    ensures { option_copied result ≡ after front.now text.now }
{
    text.strip_prefix(front)
}

/// Whom a path is for, and what follows its front.
pub fn asked(path: &str) -> (Role, &str)
    ensures { (result.0, result.1.now) ≡ asked path.now }
{
    if let Some(rest) = after("/ws/v2/producer/persistent/", path) {
        return (Role::Producer, rest);
    }
    if let Some(rest) = after("/ws/v2/consumer/persistent/", path) {
        return (Role::Consumer, rest);
    }
    if let Some(rest) = after("/ws/v2/admin/persistent/", path) {
        return (Role::Admin, rest);
    }
    (Role::Unknown, "")
}

/// The parts of a text between its slashes.
pub fn segments_of(alloc: Global, text: &str) -> Result<Vec<&str>, AllocError>
    ensures { IfOk result (λ segments. map (λ segment. segment.now) segments.items ≡ segments_of text.now) }
{
    text.split('/').collect(alloc)
}

fn name_at(alloc: Global, segment: &str) -> Result<Name, Cause>
    ensures { Gives result (name_at segment.now) }
{
    let Some(text) = text_of(alloc, segment.as_bytes())? else {
        return Err(Cause::BadName);
    };
    match Name::from_text(alloc, text.as_str()) {
        Ok(Some(name)) => Ok(name),
        Ok(None) => Err(Cause::BadName),
        Err(_) => Err(Cause::NoMemory),
    }
}

fn topic_at(alloc: Global, tenant: &str, namespace: &str, topic: &str) -> Result<TopicName, Cause>
    ensures { Gives result (topic_at tenant.now namespace.now topic.now) }
{
    let tenant = name_at(alloc, tenant)?;
    let namespace = name_at(alloc, namespace)?;
    let topic = name_at(alloc, topic)?;
    Ok(TopicName {
        tenant,
        namespace,
        topic,
    })
}

/// The topic of a path that ends with its three names.
pub fn topic_in(alloc: Global, segments: &[&str]) -> Result<TopicName, Cause>
    ensures { Gives result (topic_in (map (λ segment. segment.now) segments.now)) }
{
    if segments.len() != 3 || segments[2].is_empty() {
        return Err(Cause::UnknownPath);
    }
    topic_at(alloc, segments[0], segments[1], segments[2])
}

fn subscription_at(
    alloc: Global,
    topic: TopicName,
    subscription: &str,
) -> Result<(TopicName, SubscriptionName), Cause>
    ensures { Gives result (subscription_at topic subscription.now) }
{
    let subscription = name_at(alloc, subscription)?;
    Ok((topic, subscription))
}

/// The topic and the subscription of a path that ends with their four names.
pub fn subscription_in(
    alloc: Global,
    segments: &[&str],
) -> Result<(TopicName, SubscriptionName), Cause>
    ensures { Gives result (subscription_in (map (λ segment. segment.now) segments.now)) }
{
    if segments.len() != 4 || segments[3].is_empty() {
        return Err(Cause::UnknownPath);
    }
    let topic = topic_at(alloc, segments[0], segments[1], segments[2])?;
    subscription_at(alloc, topic, segments[3])
}
