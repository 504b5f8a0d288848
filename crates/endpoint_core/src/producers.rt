// A producer's endpoint.
ghost use Rattle.std.specs.Prelude.{◌≡◌};
ghost use Rattle.endpoint_core.specs.Faults.{Gives};
ghost use Rattle.endpoint_core.specs.Producers.{base_said, name_said, producer_of};

use crate::faults::Cause;
use crate::fields::Field;
use crate::numbers::base_of;
use crate::queries::Query;
use crate::words::producer_name_of;
use position_core::{Base, ProducerName, TopicName};
use std::alloc::Global;

/// A producer of the topic. Without a name it gets one of the topic's; without a base it begins where its
/// name's last message is.
#[derive(Debug, Drop)]
pub struct ProducerEndpoint {
    pub topic: TopicName,
    pub name: Option<ProducerName>,
    pub base: Option<Base>,
}

fn name_said(alloc: Global, query: &Query) -> Result<Option<ProducerName>, Cause>
    ensures { Gives result (name_said query.now) }
{
    match query.value_at(Field::ProducerName.name()) {
        Some(text) => match producer_name_of(alloc, text) {
            Ok(name) => Ok(Some(name)),
            Err(cause) => Err(cause),
        },
        None => Ok(None),
    }
}

fn base_said(query: &Query) -> Result<Option<Base>, Cause>
    ensures { result ≡ base_said query.now }
{
    match query.value_at(Field::InitialSequenceId.name()) {
        Some(text) => match base_of(text) {
            Some(base) => Ok(Some(base)),
            None => Err(Cause::BadParameter(Field::InitialSequenceId)),
        },
        None => Ok(None),
    }
}

/// The producer that a query describes.
pub fn producer_of(
    alloc: Global,
    topic: TopicName,
    query: &Query,
) -> Result<ProducerEndpoint, Cause>
    ensures { Gives result (producer_of topic query.now) }
{
    let name = name_said(alloc, query)?;
    let base = base_said(query)?;
    if query.value_at("encryptionKeys").is_some() {
        return Err(Cause::Encryption);
    }
    Ok(ProducerEndpoint { topic, name, base })
}
