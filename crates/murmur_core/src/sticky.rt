// The hash that keeps the messages of one key with one consumer.
ghost use Rattle.std.specs.Prelude.{◌≡◌};
ghost use Rattle.std.specs.Option.{option_copied};
ghost use Rattle.murmur_core.specs.Sticky.{sticky_hash};

use crate::murmur::murmur3_32;

/// What is hashed of a message without a key.
const NO_KEY: &str = "NONE_KEY";

/// The hash of a message's key. A message without a key has a hash too, and an empty key hashes to 0.
pub fn sticky_hash(key: Option<&str>) -> u16
    ensures { result ≡ sticky_hash (option_copied key.entry) }
{
    let bytes = key.unwrap_or(NO_KEY).as_bytes();
    (murmur3_32(bytes, 0) % 0x1_0000) as u16
}
