// What a producer hands in, shared by all who hold it.
ghost use Rattle.std.specs.Prelude.{◌≡◌, ◌↔◌, IsTrue, IfOk};

use crate::payload::Payload;
use crate::properties::Properties;
use crate::text::Key;
use std::alloc::{AllocError, Global};
use std::marker::Model;
use std::sync::Arc;

/// A message's key, properties and payload.
#[derive(Debug, Drop)]
pub struct Content {
    pub key: Option<Key>,
    pub properties: Properties,
    pub payload: Payload,
}

fn same_key(key: &Option<Key>, other: &Option<Key>) -> bool
    ensures { IsTrue result ↔ key.now ≡ other.now }
{
    match key {
        Some(key) => match other {
            Some(other) => key.is(other),
            None => false,
        },
        None => other.is_none(),
    }
}

impl Content {
    /// Whether two contents are the same.
    pub fn is(&self, other: &Content) -> bool
        ensures { IsTrue result ↔ self.now ≡ other.now }
    {
        same_key(&self.key, &other.key)
            && self.properties.is(&other.properties)
            && self.payload.is(&other.payload)
    }
}

/// A content that is shared. A clone is one more owner of the same bytes.
pub struct Body {
    content: Arc<Content>,
}

impl Drop for Body {
    fn drop(self) {
        let Body { content: _ } = self;
    }
}

impl Model for Body {
    ghost use Rattle.position_core.specs.declared.body.Content.{Content};

    ghost Value = { Content };

    ghost view = { λ b. b.content.value };
}

impl Body {
    pub fn new(alloc: Global, content: Content) -> Result<Self, AllocError>
        ensures { IfOk result (λ body. body ≡ content) }
    {
        Ok(Body {
            content: Arc::new(alloc, content)?,
        })
    }

    pub fn content(&self) -> &Content
        ensures { result.now ≡ self.now }
    {
        &self.content
    }

    /// Whether two bodies have the same content.
    pub fn is(&self, other: &Self) -> bool
        ensures { IsTrue result ↔ self.now ≡ other.now }
    {
        self.content().is(other.content())
    }
}

impl Clone for Body {
    ghost is_clone = { λ body copy. copy ≡ body };

    fn clone(&self) -> Result<Self, AllocError> {
        Ok(Body {
            content: Arc::try_clone(&self.content)?,
        })
    }
}
