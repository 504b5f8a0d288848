// Shared texts of limited length: keys and producers' names.
ghost use Rattle.std.specs.Prelude.{◌≡◌, ℕ, ◌≤◌, ◌↔◌, List, length, IsSome, IfSome};
ghost use Rattle.std.specs.Arc.{arc_str_bytes};
ghost use Rattle.std.specs.Str.{bytes_eq};

use std::alloc::AllocError;
use std::marker::Model;
use std::sync::ArcStr;

/// A text of `LEAST` to `MOST` bytes of UTF-8. A clone is one more owner of the same bytes.
#[derive(Debug)]
pub struct Text<const LEAST: usize, const MOST: usize> {
    text: ArcStr,
}

impl<const LEAST: usize, const MOST: usize> Drop for Text<LEAST, MOST> {
    fn drop(self) {
        let Text { text: _ } = self;
    }
}

impl<const LEAST: usize, const MOST: usize> Model for Text<LEAST, MOST> {
    ghost Value = { List ℕ };

    ghost view = { λ t. arc_str_bytes t.text };

    ghost invariant = { λ t. (LEAST ≤ length (arc_str_bytes t.text)) × (length (arc_str_bytes t.text) ≤ MOST) };
}

/// A message's key, which may be empty.
pub type Key = Text<0, 1024>;

/// A producer's name. A client's has at most 255 bytes; the broker's own have up to 1,280.
pub type ProducerName = Text<1, 1280>;

impl<const LEAST: usize, const MOST: usize> Text<LEAST, MOST> {
    /// None beyond the limits.
    pub fn new(text: ArcStr) -> Option<Self>
        ensures fits { IsSome result ↔ ((LEAST ≤ length (arc_str_bytes text)) × (length (arc_str_bytes text) ≤ MOST)) }
        ensures value { IfSome result (λ t. t ≡ arc_str_bytes text) }
    {
        if LEAST <= text.len() && text.len() <= MOST {
            Some(Text { text })
        } else {
            None
        }
    }

    pub fn as_str(&self) -> &str
        ensures value { result.now ≡ self.now }
        ensures within { (LEAST ≤ length result.now) × (length result.now ≤ MOST) }
    {
        self.text.as_str()
    }

    /// Whether two texts are the same.
    pub fn is(&self, other: &Self) -> bool
        ensures { result ≡ bytes_eq self.now other.now }
    {
        self.text.as_str() == other.text.as_str()
    }
}

impl<const LEAST: usize, const MOST: usize> Clone for Text<LEAST, MOST> {
    ghost is_clone = { λ text copy. copy ≡ text };

    fn clone(&self) -> Result<Self, AllocError> {
        Ok(Text {
            text: self.text.clone()?,
        })
    }
}
