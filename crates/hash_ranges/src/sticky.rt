// The shares of consumers that said which hashes they take.
ghost use Rattle.std.specs.Prelude.{◌≡◌, ◌+◌, ◌<◌, ◌≤◌, false, not, nat_lt, [], OnOk, OnErr};
ghost use Rattle.std.specs.List.{find, list_any, filter};
ghost use Rattle.position_core.specs.Ranges.{AreRanges};
ghost use Rattle.delivery_machine.specs.Shares.{has_hash, is_share_of, meets, owner_among, shared_out, with_ranges};
ghost use Rattle.delivery_machine.specs.ShareSets.{AreApart};

use crate::blocks::{block_from, halve_first, largest_size, put_ranges, share_of};
use position_core::{Block, ConsumerNumber, HashRange};
use std::alloc::{AllocError, Global};
use std::marker::Model;

/// Blocks of hashes in their order, no hash in two of them. To find a block takes the logarithm of their
/// number. Who joins moves the blocks behind its own, and who leaves goes over all.
pub(crate) struct StickyShares {
    blocks: Vec<Block>,
}

impl Drop for StickyShares {
    fn drop(self) {
        let StickyShares { blocks: _ } = self;
    }
}

impl Model for StickyShares {
    ghost use Rattle.std.specs.Prelude.{List};
    ghost use Rattle.position_core.specs.declared.block.Block.{Block};
    ghost use Rattle.delivery_machine.specs.ShareSets.{AreApart};
    ghost use Rattle.hash_ranges.specs.Codes.{coded_blocks};

    ghost Value = { List Block };

    ghost coded = { coded_blocks };

    ghost view = { λ s. s.blocks.items };

    ghost invariant = { λ s. AreApart 0 s.blocks.items };
}

impl StickyShares {
    pub(crate) fn new(alloc: Global) -> Self
        ensures { result ≡ [] }
    {
        StickyShares {
            blocks: Vec::new(alloc),
        }
    }

    pub(crate) fn blocks(&self) -> &[Block]
        ensures value { result.now ≡ self.now }
        ensures apart { AreApart 0 result.now }
    {
        &self.blocks
    }

    /// The first block that ends behind the hash: the one that it is in, or the next.
    pub(crate) fn block_from(&self, hash: u32) -> Option<Block>
        ensures { result ≡ find (λ b. nat_lt hash (b.from + b.size)) self.now }
    {
        block_from(&self.blocks, hash)
    }

    /// The block that the hash is in.
    pub(crate) fn share_at(&self, hash: u16) -> Option<Block>
        ensures { result ≡ find (has_hash hash) self.now }
    {
        let _ = &self.blocks;
        match self.block_from(u32::from(hash)) {
            Some(block) => {
                if block.from <= u32::from(hash) {
                    Some(block)
                } else {
                    None
                }
            }
            None => None,
        }
    }

    pub(crate) fn owner_of(&self, hash: u16) -> Option<u64>
        ensures { result ≡ owner_among self.now hash }
    {
        match self.share_at(hash) {
            Some(block) => Some(block.consumer),
            None => None,
        }
    }

    /// The first block of the consumer. Goes over the blocks.
    pub(crate) fn share_of(&self, consumer: ConsumerNumber) -> Option<Block>
        ensures { result ≡ find (is_share_of consumer) self.now }
    {
        share_of(&self.blocks, consumer)
    }

    /// Whether somebody has a hash of the range.
    fn meets(&self, range: HashRange) -> bool
        ensures { result ≡ list_any (meets range) self.now }
    {
        let _ = &self.blocks;
        match self.block_from(range.first) {
            Some(block) => block.from <= range.last,
            None => false,
        }
    }

    /// Whether somebody has a hash of one of the ranges.
    pub(crate) fn is_taken(&self, ranges: &[HashRange]) -> bool
        ensures { result ≡ list_any (λ r. list_any (meets r) self.now) ranges.now }
    {
        ranges.iter().any(|range| self.meets(*range))
    }

    /// The consumer takes the hashes of the ranges.
    pub(crate) fn take(
        &mut self,
        consumer: ConsumerNumber,
        ranges: &[HashRange],
    ) -> Result<(), AllocError>
        requires ranges { AreRanges ranges.now }
        requires free { list_any (λ r. list_any (meets r) self.old) ranges.now ≡ false }
        ensures ok { OnOk result (self.new ≡ with_ranges consumer ranges.now self.old) }
        ensures err { OnErr result (self.new ≡ self.old) }
    {
        self.blocks.reserve(ranges.len())?;
        put_ranges(&mut self.blocks, consumer, ranges);
        Ok(())
    }

    /// The consumer takes half of the largest block. It fails too where no block has a half to give.
    pub(crate) fn halve(&mut self, consumer: ConsumerNumber) -> Result<(), AllocError>
        ensures ok { OnOk result (self.new ≡ shared_out consumer self.old) }
        ensures err { OnErr result (self.new ≡ self.old) }
    {
        let size = largest_size(&self.blocks);
        if size < 2 {
            return Err(AllocError);
        }
        self.blocks.reserve(1)?;
        halve_first(&mut self.blocks, size, consumer);
        Ok(())
    }

    /// The blocks of the consumer are gone.
    pub(crate) fn leave(&mut self, consumer: ConsumerNumber)
        ensures { self.new ≡ filter (λ b. not (is_share_of consumer b)) self.old }
    {
        self.blocks.retain(|block| block.consumer != consumer);
    }
}
