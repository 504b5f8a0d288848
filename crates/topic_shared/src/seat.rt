// Seats of a shared topic.
ghost use Rattle.std.specs.Prelude.{◌≡◌};

use std::marker::{Brand, Model};
use std::sync::ledger::{Ledger, Share};

/// Names one shared topic, with its opening state.
pub trait Opening: Ledger {
    ghost use Rattle.delivery_machine.specs.State.{State};

    ghost opening: { State };
}

impl Opening for Brand {
    ghost use Rattle.topic_shared.specs.Accounts.{nowhere};

    ghost opening = { nowhere };
}

/// A right to call a shared topic. It counts its calls that were answered.
#[derive(Drop)]
pub struct Seat<L: Opening> {
    pub(crate) number: u64,
    pub(crate) calls: u64,
    pub(crate) share: Share<L>,
}

impl<L: Opening> Model for Seat<L> {
    ghost use Rattle.std.specs.Prelude.{◌≡◌, ◌<◌};
    ghost use Rattle.topic_shared.specs.Accounts.{Seated};

    ghost Value = { Seated };

    ghost view = { λ s. record { number = s.number; calls = s.calls } };

    ghost invariant = { λ s. (s.share.parts ≡ 1) × (s.share.amount ≡ s.calls) × (0 < s.number) };
}

impl<L: Opening> Seat<L> {
    /// The seats of callers count from 1 on.
    pub fn number(&self) -> u64
        ensures { result ≡ self.now.number }
    {
        self.number
    }

    /// How many calls were answered.
    pub fn calls(&self) -> u64
        ensures { result ≡ self.now.calls }
    {
        self.calls
    }

    pub(crate) fn into_share(self) -> Share<L>
        ensures parts { result.parts ≡ 1 }
        ensures amount { result.amount ≡ self.calls }
    {
        let Seat {
            number: _,
            calls: _,
            share,
        } = self;
        share
    }
}

/// A seat that no caller has.
#[derive(Drop)]
pub(crate) struct Spare {
    pub(crate) number: u64,
    pub(crate) calls: u64,
}

impl Model for Spare {
    ghost use Rattle.topic_shared.specs.Accounts.{Seated};

    ghost Value = { Seated };

    ghost view = { λ s. record { number = s.number; calls = s.calls } };
}
