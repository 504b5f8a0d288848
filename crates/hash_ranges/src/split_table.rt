// Who gets which hashes, as consumers come and go.
ghost use Rattle.std.specs.Prelude.{◌≡◌, ◌+◌, false, nat_lt, OnOk, OnErr, IfNone};
ghost use Rattle.std.specs.List.{find};
ghost use Rattle.delivery_machine.specs.Shares.{no_shares, is_share_of, is_taken, owner_of, split_with, sticky_with, shares_without, SplitAllHashes};
ghost use Rattle.delivery_machine.specs.ShareSets.{AreApart};

use crate::sticky::StickyShares;
use crate::{ends, row};
use position_core::{Block, ConsumerNumber, Ranges};
use std::alloc::{AllocError, Global};
use std::collections::BTreeMap;
use std::marker::Model;

/// The shares of the hashes that the consumers have, in the order of hashes: all hashes split among
/// them, or, in sticky shares, those that each of them asked for. To find the owner of a hash takes the
/// logarithm of the number of shares; who joins or leaves goes over all. Only a join takes memory.
pub struct SplitTable {
    /// From the end of each share to its consumer, where all hashes are split.
    ends: BTreeMap<u32, ConsumerNumber>,
    /// Where there are any, the shares are sticky, and `ends` is empty.
    sticky: StickyShares,
}

impl Drop for SplitTable {
    fn drop(self) {
        let SplitTable { ends: _, sticky: _ } = self;
    }
}

impl Model for SplitTable {
    ghost use Rattle.delivery_machine.specs.Shares.{Shares};
    ghost use Rattle.hash_ranges.specs.Codes.{coded_shares};
    ghost use Rattle.hash_ranges.specs.Ends.{SplitAll};
    ghost use Rattle.hash_ranges.specs.Tables.{table_of, IsOfOneMode};

    ghost Value = { Shares };

    ghost coded = { coded_shares };

    ghost view = { λ t. table_of t.ends.entries t.sticky };

    ghost invariant = { λ t. SplitAll t.ends.entries × IsOfOneMode t.ends.entries t.sticky };
}

impl SplitTable {
    /// Nobody has a hash.
    pub fn new(alloc: Global) -> Self
        ensures { result ≡ no_shares }
    {
        SplitTable {
            ends: BTreeMap::new(alloc),
            sticky: StickyShares::new(alloc),
        }
    }

    /// Whether the consumers said which hashes they take.
    pub fn is_sticky(&self) -> bool
        ensures { result ≡ self.now.sticky }
    {
        !self.sticky.blocks().is_empty()
    }

    /// A consumer that is not there joins, and takes the lower half of the largest share, or all hashes
    /// where it is alone. It fails too where no share has a half to give. Sticky shares stay sticky.
    pub fn join(&mut self, consumer: ConsumerNumber) -> Result<(), AllocError>
        ensures ok { OnOk result (self.new ≡ split_with consumer self.old) }
        ensures err { OnErr result (self.new ≡ self.old) }
    {
        if self.is_sticky() {
            self.sticky.halve(consumer)
        } else {
            row::share_out(&mut self.ends, consumer)
        }
    }

    /// A consumer that is not there joins, and takes the hashes of its ranges, which nobody has.
    pub fn join_sticky(
        &mut self,
        consumer: ConsumerNumber,
        ranges: &Ranges,
    ) -> Result<(), AllocError>
        requires free { is_taken ranges.now self.old ≡ false }
        ensures ok { OnOk result (self.new ≡ sticky_with consumer ranges.now self.old) }
        ensures err { OnErr result (self.new ≡ self.old) }
    {
        self.sticky.take(consumer, ranges.as_slice())
    }

    /// A consumer leaves. The share beside its own has its hashes then, or, in sticky shares, nobody.
    pub fn leave(&mut self, consumer: ConsumerNumber)
        ensures { self.new ≡ shares_without consumer self.old }
    {
        if self.is_sticky() {
            self.sticky.leave(consumer);
        } else {
            row::give_back(&mut self.ends, consumer);
        }
    }

    /// The consumer that has the hash.
    pub fn owner(&self, hash: u16) -> Option<u64>
        ensures value { result ≡ owner_of self.now hash }
        ensures whole { self.now.sticky ≡ false → IfNone result (self.now ≡ no_shares) }
    {
        if self.is_sticky() {
            self.sticky.owner_of(hash)
        } else {
            ends::owner_of(&self.ends, hash)
        }
    }

    /// Whether somebody has a hash of the ranges.
    pub fn is_taken(&self, ranges: &Ranges) -> bool
        ensures { result ≡ is_taken ranges.now self.now }
    {
        let ranges = ranges.as_slice();
        !self.ends.is_empty() || self.sticky.is_taken(ranges)
    }

    /// The first block of the consumer, if it has any.
    pub fn share_of(&self, consumer: ConsumerNumber) -> Option<Block>
        ensures value { result ≡ find (is_share_of consumer) self.now.blocks }
        ensures split { self.now.sticky ≡ false → SplitAllHashes self.now.blocks }
    {
        if self.is_sticky() {
            self.sticky.share_of(consumer)
        } else {
            ends::share_of(&self.ends, consumer)
        }
    }

    /// The first block that ends behind the hash: the one that it is in, or the next.
    pub fn block_from(&self, hash: u32) -> Option<Block>
        ensures value { result ≡ find (λ b. nat_lt hash (b.from + b.size)) self.now.blocks }
        ensures apart { AreApart 0 self.now.blocks }
    {
        let _ = self.sticky.blocks();
        if self.is_sticky() {
            self.sticky.block_from(hash)
        } else {
            ends::block_from(&self.ends, hash)
        }
    }
}
