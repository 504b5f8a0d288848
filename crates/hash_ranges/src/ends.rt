// The shares, by where they end: each begins where the one before it ends.
ghost use Rattle.std.specs.Prelude.{◌≡◌, ◌+◌, nat_lt, [], ◌∷◌, IfSome, IfNone};
ghost use Rattle.std.specs.List.{find};
ghost use Rattle.delivery_machine.specs.Shares.{has_hash, owner_among, is_share_of};
ghost use Rattle.hash_ranges.specs.Ends.{begin_from, shares_of, largest_of, SplitAll};

use crate::share::{larger, share_between};
use position_core::{Block, ConsumerNumber};
use std::collections::BTreeMap;
use std::collections::btree_map::Iter;

/// The end of the last share.
pub(crate) const HASHES: u32 = 65_536;

/// The first end behind the hash has the consumer.
pub(crate) fn owner_of(ends: &BTreeMap<u32, ConsumerNumber>, hash: u16) -> Option<u64>
    requires { SplitAll ends.now.entries }
    ensures value { result ≡ owner_among (shares_of ends.now.entries) hash }
    ensures whole { IfNone result (shares_of ends.now.entries ≡ []) }
{
    match ends.range(u32::from(hash) + 1..).next() {
        Some((_, consumer)) => Some(*consumer),
        None => None,
    }
}

fn next_end(left: &mut Iter<'_, u32, ConsumerNumber>) -> Option<(u32, ConsumerNumber)>
    ensures some { IfSome result (λ e. left.old ≡ e ∷ left.new) }
    ensures none { IfNone result (left.old ≡ []) }
{
    match left.next() {
        Some((end, consumer)) => Some((*end, *consumer)),
        None => None,
    }
}

/// The share of the consumer. Goes over the ends.
pub(crate) fn share_of(
    ends: &BTreeMap<u32, ConsumerNumber>,
    consumer: ConsumerNumber,
) -> Option<Block>
    requires { SplitAll ends.now.entries }
    ensures { result ≡ find (is_share_of consumer) (shares_of ends.now.entries) }
{
    let mut from = 0;
    let mut left = ends.iter();
    'each: while let Some((end, owner)) = next_end(&mut left) {
        if owner == consumer {
            return Some(share_between(from, end, owner));
        }
        from = end;
    }
    None
}

/// Where the share of the hash begins.
fn begin_of(ends: &BTreeMap<u32, ConsumerNumber>, hash: u16) -> u32
    requires { SplitAll ends.now.entries }
    ensures { result ≡ begin_from 0 hash ends.now.entries }
{
    match ends.range(..=u32::from(hash)).next_back() {
        Some((end, _)) => *end,
        None => 0,
    }
}

/// The share that the hash is in: from the last end that is not behind the hash to the first that is.
pub(crate) fn share_at(ends: &BTreeMap<u32, ConsumerNumber>, hash: u16) -> Option<Block>
    requires { SplitAll ends.now.entries }
    ensures value { result ≡ find (has_hash hash) (shares_of ends.now.entries) }
    ensures whole { IfNone result (shares_of ends.now.entries ≡ []) }
{
    let from = begin_of(ends, hash);
    let behind = u32::from(hash) + 1;
    match ends.range(behind..).next() {
        Some((end, consumer)) => Some(share_between(from, *end, *consumer)),
        None => None,
    }
}

/// The first share that ends behind the hash.
pub(crate) fn block_from(ends: &BTreeMap<u32, ConsumerNumber>, hash: u32) -> Option<Block>
    requires { SplitAll ends.now.entries }
    ensures { result ≡ find (λ b. nat_lt hash (b.from + b.size)) (shares_of ends.now.entries) }
{
    if hash < HASHES {
        share_at(ends, hash as u16)
    } else {
        None
    }
}

/// The first of the largest shares. Goes over the ends.
pub(crate) fn largest_of(ends: &BTreeMap<u32, ConsumerNumber>) -> Option<Block>
    requires { SplitAll ends.now.entries }
    ensures { result ≡ largest_of (shares_of ends.now.entries) }
{
    let mut largest = None;
    let mut from = 0;
    let mut left = ends.iter();
    'each: while let Some((end, consumer)) = next_end(&mut left) {
        largest = Some(larger(largest, share_between(from, end, consumer)));
        from = end;
    }
    largest
}
