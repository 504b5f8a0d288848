// A consumer of a subscription joins: there are shares in Key_Shared alone.
ghost use Rattle.std.specs.Prelude.{◌≡◌, false, OnOk, OnErr};
ghost use Rattle.delivery_machine.specs.Shares.{asks_taken, mixes, shares_with};

use crate::split_table::SplitTable;
use position_core::{ConsumerNumber, Kind, Ranges};
use std::alloc::AllocError;

impl SplitTable {
    /// Whether the consumer would say which hashes it takes where the others did not, or the other way
    /// about.
    pub fn mixes(&self, kind: Kind, ranges: &Option<Ranges>) -> bool
        ensures { result ≡ mixes kind ranges.now self.now }
    {
        match kind {
            Kind::KeyShared => self.is_sticky() != ranges.is_some(),
            Kind::Exclusive | Kind::Failover | Kind::Shared => false,
        }
    }

    /// Whether a hash that the consumer asks for is in another's share.
    pub fn asks_taken(&self, kind: Kind, ranges: &Option<Ranges>) -> bool
        ensures { result ≡ asks_taken kind ranges.now self.now }
    {
        match kind {
            Kind::KeyShared => match ranges {
                Some(ranges) => self.is_taken(ranges),
                None => false,
            },
            Kind::Exclusive | Kind::Failover | Kind::Shared => false,
        }
    }

    /// The consumer, which is not there and asks for nothing that is taken, gets its share, where the
    /// kind has shares.
    pub fn join_by(
        &mut self,
        kind: Kind,
        ranges: &Option<Ranges>,
        consumer: ConsumerNumber,
    ) -> Result<(), AllocError>
        requires free { asks_taken kind ranges.now self.old ≡ false }
        ensures ok { OnOk result (self.new ≡ shares_with kind ranges.now consumer self.old) }
        ensures err { OnErr result (self.new ≡ self.old) }
    {
        match kind {
            Kind::KeyShared => match ranges {
                Some(ranges) => self.join_sticky(consumer, ranges),
                None => self.join(consumer),
            },
            Kind::Exclusive | Kind::Failover | Kind::Shared => Ok(()),
        }
    }
}
