// A list of blocks in the order of their hashes.
ghost use Rattle.std.specs.Prelude.{◌≡◌, ◌==◌, ◌+◌, ◌<◌, ◌≤◌, false, nat_lt, length, vec_len, vec_capacity};
ghost use Rattle.std.specs.List.{find, list_any, position, slice_get};
ghost use Rattle.position_core.specs.Ranges.{AreRanges};
ghost use Rattle.delivery_machine.specs.Shares.{block_of, half, halving, is_share_of, meets, most_hashes, with_block, with_ranges};
ghost use Rattle.delivery_machine.specs.ShareSets.{AreApart};

use crate::share::half;
use position_core::{Block, ConsumerNumber, HashRange};

/// The hashes of the range, as the consumer's.
fn block_of(consumer: ConsumerNumber, range: HashRange) -> Block
    requires order { range.first ≤ range.last }
    requires within { range.last < 65536 }
    ensures { result ≡ block_of consumer range }
{
    Block {
        from: range.first,
        size: range.last + 1 - range.first,
        consumer,
    }
}

/// Where the first block stands that ends behind the hash.
fn place_from(blocks: &[Block], hash: u32) -> usize
    requires { AreApart 0 blocks.now }
    ensures { slice_get blocks.now result ≡ find (λ b. nat_lt hash (b.from + b.size)) blocks.now }
{
    blocks.partition_point(|block| {
        u64::from(block.from) + u64::from(block.size) <= u64::from(hash)
    })
}

/// The block at the place.
fn block_at(blocks: &[Block], place: usize) -> Option<Block>
    ensures { result ≡ slice_get blocks.now place }
{
    blocks.get(place).copied()
}

/// The first block that ends behind the hash.
pub(crate) fn block_from(blocks: &[Block], hash: u32) -> Option<Block>
    requires { AreApart 0 blocks.now }
    ensures { result ≡ find (λ b. nat_lt hash (b.from + b.size)) blocks.now }
{
    block_at(blocks, place_from(blocks, hash))
}

/// The first block of the consumer.
pub(crate) fn share_of(blocks: &[Block], consumer: ConsumerNumber) -> Option<Block>
    ensures { result ≡ find (is_share_of consumer) blocks.now }
{
    for block in blocks {
        if block.consumer == consumer {
            return Some(*block);
        }
    }
    None
}

/// Where the first block of the size stands.
fn place_of(blocks: &[Block], size: u32) -> Option<usize>
    ensures { result ≡ position (λ b. b.size == size) blocks.now }
{
    blocks.iter().position(|block| block.size == size)
}

/// Puts a block in, for which there is room.
fn put(blocks: &mut Vec<Block>, block: Block)
    requires apart { AreApart 0 blocks.old.items }
    requires room { vec_len blocks.old < vec_capacity blocks.old }
    ensures value { blocks.new.items ≡ with_block block blocks.old.items }
    ensures length { vec_len blocks.new ≡ vec_len blocks.old + 1 }
    ensures capacity { vec_capacity blocks.old ≤ vec_capacity blocks.new }
{
    let place = blocks.partition_point(|other| other.from <= block.from);
    match blocks.insert(place, block) {
        Ok(()) => (),
        Err(_) => unreachable!(),
    }
}

/// Puts the ranges in as the consumer's, for which there is room.
pub(crate) fn put_ranges(blocks: &mut Vec<Block>, consumer: ConsumerNumber, ranges: &[HashRange])
    requires apart { AreApart 0 blocks.old.items }
    requires ranges { AreRanges ranges.now }
    requires free { list_any (λ r. list_any (meets r) blocks.old.items) ranges.now ≡ false }
    requires room { vec_len blocks.old + length ranges.now ≤ vec_capacity blocks.old }
    ensures apart { AreApart 0 blocks.new.items }
    ensures value { blocks.new.items ≡ with_ranges consumer ranges.now blocks.old.items }
{
    for range in ranges {
        put(blocks, block_of(consumer, *range));
    }
}

/// How many hashes the largest block has.
pub(crate) fn largest_size(blocks: &[Block]) -> u32
    ensures { result ≡ most_hashes blocks.now }
{
    let mut most = 0;
    for block in blocks {
        most = block.size.max(most);
    }
    most
}

/// Gives the lower half of the first block of the size to the consumer. There is room for a block.
pub(crate) fn halve_first(blocks: &mut Vec<Block>, size: u32, consumer: ConsumerNumber)
    requires apart { AreApart 0 blocks.old.items }
    requires two { 2 ≤ size }
    requires room { vec_len blocks.old < vec_capacity blocks.old }
    ensures apart { AreApart 0 blocks.new.items }
    ensures value { blocks.new.items ≡ halving size consumer blocks.old.items }
{
    let Some(place) = place_of(blocks, size) else {
        return;
    };
    let whole = blocks[place];
    let taken = half(whole.size);
    let lower = Block {
        from: whole.from,
        size: taken,
        consumer,
    };
    blocks[place] = Block {
        from: whole.from + taken,
        size: whole.size - taken,
        consumer: whole.consumer,
    };
    match blocks.insert(place, lower) {
        Ok(()) => (),
        Err(_) => unreachable!(),
    }
}
