// Murmur3 (x86, 32 bits).
ghost use Rattle.std.specs.Prelude.{◌≡◌, ◌<◌, length};
ghost use Rattle.murmur_core.specs.Murmur.{finished, murmur3, scrambled, with_block, with_tail};

/// A number of up to four bytes, as it goes into the hash.
#[inline(always)]
fn scramble(number: u32) -> u32
    ensures { result ≡ scrambled number }
{
    number
        .wrapping_mul(0xcc9e_2d51)
        .rotate_left(15)
        .wrapping_mul(0x1b87_3593)
}

/// The hash after a whole block, read as a number.
#[inline(always)]
fn add_block(hash: u32, number: u32) -> u32
    ensures { result ≡ with_block hash number }
{
    let hash = hash ^ scramble(number);
    hash.rotate_left(13)
        .wrapping_mul(5)
        .wrapping_add(0xe654_6b64)
}

/// The hash after the tail.
#[inline(always)]
fn add_tail(hash: u32, tail: &[u8]) -> u32
    requires { length tail.now < 4 }
    ensures { result ≡ with_tail hash tail.now }
{
    match tail {
        [] => hash,
        [a] => hash ^ scramble(u32::from(*a)),
        [a, b] => hash ^ scramble(u32::from_le_bytes([*a, *b, 0, 0])),
        [a, b, c, ..] => hash ^ scramble(u32::from_le_bytes([*a, *b, *c, 0])),
    }
}

/// The last step.
#[inline(always)]
fn finish(mut hash: u32) -> u32
    ensures { result ≡ finished hash }
{
    hash = (hash ^ hash >> 16).wrapping_mul(0x85eb_ca6b);
    hash = (hash ^ hash >> 13).wrapping_mul(0xc2b2_ae35);
    hash ^ hash >> 16
}

/// Murmur3 (x86, 32 bits) of some bytes. Whoever picks the bytes can pick their hash.
pub fn murmur3_32(bytes: &[u8], start: u32) -> u32
    ensures { result ≡ murmur3 bytes.now start }
{
    let mut hash = start;
    let mut rest = bytes;
    while let [a, b, c, d, later @ ..] = rest {
        hash = add_block(hash, u32::from_le_bytes([*a, *b, *c, *d]));
        rest = later;
    }
    let length = (bytes.len() % 0x1_0000_0000) as u32;
    finish(add_tail(hash, rest) ^ length)
}
