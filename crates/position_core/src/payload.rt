// The bytes that a message carries.
ghost use Rattle.std.specs.Prelude.{◌≡◌, ℕ, ◌≤◌, ◌↔◌, List, length, IsTrue, IsSome, IfSome};

use std::marker::Model;

/// A payload of at most 1,048,576 bytes.
#[derive(Debug)]
pub struct Payload {
    bytes: Vec<u8>,
}

impl Drop for Payload {
    fn drop(self) {
        let Payload { bytes: _ } = self;
    }
}

impl Model for Payload {
    ghost Value = { List ℕ };

    ghost view = { λ p. p.bytes.items };

    ghost invariant = { λ p. length p.bytes.items ≤ 1048576 };
}

impl Payload {
    /// None where there are more bytes than a payload has.
    pub fn new(bytes: Vec<u8>) -> Option<Self>
        ensures fits { IsSome result ↔ (length bytes.items ≤ 1048576) }
        ensures value { IfSome result (λ p. p ≡ bytes.items) }
    {
        if bytes.len() <= 1_048_576 {
            Some(Payload { bytes })
        } else {
            None
        }
    }

    pub fn as_slice(&self) -> &[u8]
        ensures value { result.now ≡ self.now }
        ensures within { length result.now ≤ 1048576 }
    {
        self.bytes.as_slice()
    }

    /// Whether two payloads are the same.
    pub fn is(&self, other: &Self) -> bool
        ensures { IsTrue result ↔ self.now ≡ other.now }
    {
        self.bytes == other.bytes
    }
}
