// Whose letters a courier moves.
ghost use Rattle.std.specs.Prelude.{◌≡◌, ◌≤◌, ◌++◌, length, IfOk, OnOk, string_bytes};
ghost use Rattle.dead_letters.specs.Moving.{courier_name};

use delivery_machine::{ProducerName, SubscriptionName, TopicName};
use std::alloc::{AllocError, Global};
use std::sync::ArcStr;

/// Whose letters a courier moves: those of a subscription of the topic. Its name as a producer is theirs alone, so that a
/// copy is made once.
#[derive(Drop)]
pub struct Route {
    pub source: TopicName,
    pub subscription: SubscriptionName,
    pub name: ProducerName,
}

fn append_name(
    text: &mut String,
    source: &TopicName,
    subscription: &SubscriptionName,
) -> Result<(), AllocError>
    ensures { OnOk result (string_bytes text.new ≡ string_bytes text.old ++ courier_name source.now subscription.now) }
{
    text.push_str("dlq/")?;
    text.push_str(source.tenant.as_str())?;
    text.push_str("/")?;
    text.push_str(source.namespace.as_str())?;
    text.push_str("/")?;
    text.push_str(source.topic.as_str())?;
    text.push_str("/")?;
    text.push_str(subscription.as_str())
}

fn courier_name(
    alloc: Global,
    source: &TopicName,
    subscription: &SubscriptionName,
) -> Result<String, AllocError>
    ensures { IfOk result (λ text. string_bytes text ≡ courier_name source.now subscription.now) }
{
    let mut text = String::new(alloc);
    match append_name(&mut text, source, subscription) {
        Ok(()) => Ok(text),
        Err(error) => Err(error),
    }
}

/// The courier's name is never too long for a producer's.
#[tactic(auto, using(crate::proofs::Names::courier_short))]
fn know_fits(source: &TopicName, subscription: &SubscriptionName)
    ensures least { 1 ≤ length (courier_name source.now subscription.now) }
    ensures most { length (courier_name source.now subscription.now) ≤ 1280 }
{
    let _tenant = source.tenant.as_str();
    let _namespace = source.namespace.as_str();
    let _topic = source.topic.as_str();
    let _subscription = subscription.as_str();
}

impl Route {
    /// For the letters that die in the subscription of the topic.
    pub fn new(
        alloc: Global,
        source: &TopicName,
        subscription: &SubscriptionName,
    ) -> Result<Route, AllocError>
        ensures { IfOk result (λ route. (route.source ≡ source.now) × (route.subscription ≡ subscription.now) × (route.name ≡ courier_name source.now subscription.now)) }
    {
        know_fits(source, subscription);
        let text = courier_name(alloc, source, subscription)?;
        let Some(name) = ProducerName::new(ArcStr::from_str(alloc, text.as_str())?) else {
            unreachable!()
        };
        Ok(Route {
            source: source.clone()?,
            subscription: subscription.clone()?,
            name,
        })
    }
}
