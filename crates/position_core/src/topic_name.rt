// Topics' names.
ghost use Rattle.std.specs.Prelude.{◌≡◌, IfOk, string_bytes};
ghost use Rattle.position_core.specs.TopicName.{dead_letter_name};

use crate::name::{Name, SubscriptionName};
use std::alloc::{AllocError, Global};

/// A topic's name: `persistent://tenant/namespace/topic`.
#[derive(Clone, Debug)]
pub struct TopicName {
    pub tenant: Name,
    pub namespace: Name,
    pub topic: Name,
}

impl Drop for TopicName {
    fn drop(self) {
        let TopicName {
            tenant: _,
            namespace: _,
            topic: _,
        } = self;
    }
}

fn dead_letter_name(
    alloc: Global,
    topic: &Name,
    subscription: &SubscriptionName,
) -> Result<String, AllocError>
    ensures { IfOk result (λ text. string_bytes text ≡ dead_letter_name topic.now subscription.now) }
{
    let mut text = String::new(alloc);
    text.push_str(topic.as_str())?;
    text.push_str("-")?;
    text.push_str(subscription.as_str())?;
    text.push_str("-DLQ")?;
    Ok(text)
}

impl TopicName {
    ghost use Rattle.std.specs.Prelude.{◌≡◌, IfOk};
    ghost use Rattle.position_core.specs.TopicName.{topic_of, same_topic, dead_letter_default};

    /// The topic of three texts, where they are names.
    pub fn from_names(
        alloc: Global,
        tenant: &str,
        namespace: &str,
        topic: &str,
    ) -> Result<Option<TopicName>, AllocError>
        ensures { IfOk result (λ found. found ≡ topic_of tenant.now namespace.now topic.now) }
    {
        let Some(tenant) = Name::from_text(alloc, tenant)? else {
            return Ok(None);
        };
        let Some(namespace) = Name::from_text(alloc, namespace)? else {
            return Ok(None);
        };
        let Some(topic) = Name::from_text(alloc, topic)? else {
            return Ok(None);
        };
        Ok(Some(TopicName {
            tenant,
            namespace,
            topic,
        }))
    }

    /// The topic beside this one that messages go to which die in the subscription, where none was named.
    /// None where its name would be too long.
    pub fn dead_letter_default(
        &self,
        alloc: Global,
        subscription: &SubscriptionName,
    ) -> Result<Option<TopicName>, AllocError>
        ensures { IfOk result (λ found. found ≡ dead_letter_default self.now subscription.now) }
    {
        let text = dead_letter_name(alloc, &self.topic, subscription)?;
        let Some(topic) = Name::from_text(alloc, text.as_str())? else {
            return Ok(None);
        };
        Ok(Some(TopicName {
            tenant: self.tenant.clone()?,
            namespace: self.namespace.clone()?,
            topic,
        }))
    }

    /// Whether two names are the same.
    pub fn is(&self, other: &Self) -> bool
        ensures { result ≡ same_topic self.now other.now }
    {
        self.tenant.is(&other.tenant)
            && self.namespace.is(&other.namespace)
            && self.topic.is(&other.topic)
    }
}
