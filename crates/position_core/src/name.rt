// Names of tenants, namespaces, topics and subscriptions.
ghost use Rattle.std.specs.Prelude.{◌≡◌, ◌↔◌, IsTrue, IfOk, IsSome, IfSome};
ghost use Rattle.std.specs.Arc.{arc_str_bytes};
ghost use Rattle.std.specs.List.{list_any};
ghost use Rattle.std.specs.Str.{bytes_eq};
ghost use Rattle.position_core.specs.Name.{is_barred, is_name, name_order};

use std::alloc::{AllocError, Global};
use std::cmp::Ordering;
use std::marker::Model;
use std::sync::ArcStr;

/// A name: 1 to 255 bytes of UTF-8, without `/` and the characters U+0000 to U+001F and U+007F.
/// A clone is one more owner of the same bytes.
#[derive(Debug)]
pub struct Name {
    text: ArcStr,
}

impl Drop for Name {
    fn drop(self) {
        let Name { text: _ } = self;
    }
}

impl Model for Name {
    ghost use Rattle.std.specs.Prelude.{ℕ, List, IsTrue};
    ghost use Rattle.std.specs.Arc.{arc_str_bytes};
    ghost use Rattle.position_core.specs.Name.{is_name};

    ghost Value = { List ℕ };

    ghost view = { λ n. arc_str_bytes n.text };

    ghost invariant = { λ n. IsTrue (is_name (arc_str_bytes n.text)) };
}

pub type SubscriptionName = Name;

fn is_barred(byte: u8) -> bool
    ensures { result ≡ is_barred byte }
{
    byte == b'/' || byte < 32 || byte == 127
}

fn has_barred(bytes: &[u8]) -> bool
    ensures { result ≡ list_any is_barred bytes.now }
{
    bytes.iter().any(|byte| is_barred(*byte))
}

fn is_name(text: &str) -> bool
    ensures { result ≡ is_name text.now }
{
    !text.is_empty() && text.len() <= 255 && !has_barred(text.as_bytes())
}

impl Name {
    /// None where the text is no name.
    pub fn new(text: ArcStr) -> Option<Self>
        ensures fits { IsSome result ↔ IsTrue (is_name (arc_str_bytes text)) }
        ensures value { IfSome result (λ name. name ≡ arc_str_bytes text) }
    {
        if is_name(text.as_str()) {
            Some(Name { text })
        } else {
            None
        }
    }

    /// The text as a name, where it is one.
    pub fn from_text(alloc: Global, text: &str) -> Result<Option<Self>, AllocError>
        ensures fits { IfOk result (λ found. IsSome found ↔ IsTrue (is_name text.now)) }
        ensures value { IfOk result (λ found. IfSome found (λ name. name ≡ text.now)) }
    {
        if !is_name(text) {
            return Ok(None);
        }
        Ok(Name::new(ArcStr::from_str(alloc, text)?))
    }

    pub fn as_str(&self) -> &str
        ensures value { result.now ≡ self.now }
        ensures name { IsTrue (is_name result.now) }
    {
        self.text.as_str()
    }

    /// Whether two names are the same.
    pub fn is(&self, other: &Self) -> bool
        ensures { result ≡ bytes_eq self.now other.now }
    {
        self.text.as_str() == other.text.as_str()
    }

    /// The order of names, by their bytes.
    pub fn order(&self, other: &Self) -> Ordering
        ensures { result ≡ name_order self.now other.now }
    {
        self.text.as_str().cmp(&other.text.as_str())
    }
}

impl Clone for Name {
    ghost is_clone = { λ name copy. copy ≡ name };

    fn clone(&self) -> Result<Self, AllocError> {
        Ok(Name {
            text: self.text.clone()?,
        })
    }
}
