// The texts that stand in rows.
ghost use Rattle.std.specs.Prelude.{◌≡◌, IfOk, string_bytes};
ghost use Rattle.position_core.specs.TopicName.{topic_text};

use position_core::TopicName;
use std::alloc::{AllocError, Global};

/// The one text of the topic.
pub fn topic_text(alloc: Global, name: &TopicName) -> Result<String, AllocError>
    ensures { IfOk result (λ text. string_bytes text ≡ topic_text name.now) }
{
    let mut text = String::new(alloc);
    text.push_str("persistent://")?;
    text.push_str(name.tenant.as_str())?;
    text.push_str("/")?;
    text.push_str(name.namespace.as_str())?;
    text.push_str("/")?;
    text.push_str(name.topic.as_str())?;
    Ok(text)
}
