// Who has which hashes, and who is in line.
ghost use Rattle.std.specs.Prelude.{◌≡◌, ℕ, ◌==◌, false, not, List, [], ◌∷◌, ◌++◌, OnOk, OnErr};
ghost use Rattle.std.specs.List.{filter, position};
ghost use Rattle.delivery_machine.specs.Shares.{no_shares, is_taken, split_with, sticky_with, shares_without};
ghost use Rattle.dispatch_keyed.specs.Owning.{owners_with};

use hash_ranges::SplitTable;
use position_core::{ConsumerNumber, Ranges};
use std::alloc::{AllocError, Global};
use std::marker::Model;

/// The members of a subscription by their numbers, in the order of joining.
#[derive(Drop)]
pub(crate) struct Line {
    numbers: Vec<ConsumerNumber>,
}

impl Model for Line {
    ghost use Rattle.std.specs.Prelude.{List, ℕ};

    ghost Value = { List ℕ };

    ghost view = { λ line. line.numbers.items };
}

impl Line {
    fn new(alloc: Global) -> Self
        ensures { result ≡ [] }
    {
        Line {
            numbers: Vec::new(alloc),
        }
    }

    fn push(&mut self, consumer: ConsumerNumber) -> Result<(), AllocError>
        ensures ok { OnOk result (self.new ≡ self.old ++ consumer ∷ []) }
        ensures err { OnErr result (self.new ≡ self.old) }
    {
        self.numbers.push(consumer)?;
        Ok(())
    }

    fn pop(&mut self)
        ensures { (before : List ℕ) (last : ℕ) → self.old ≡ before ++ last ∷ [] → self.new ≡ before }
    {
        self.numbers.pop();
    }

    fn take_out(&mut self, consumer: ConsumerNumber)
        ensures { self.new ≡ filter (λ number. not (number == consumer)) self.old }
    {
        self.numbers.retain(|number| *number != consumer);
    }

    /// Where the consumer is in line.
    pub(crate) fn place_of(&self, consumer: ConsumerNumber) -> Option<usize>
        ensures { result ≡ position (λ number. number == consumer) self.now }
    {
        self.numbers.iter().position(|number| *number == consumer)
    }
}

/// The shares of a subscription, and its members, so that the one of a number is found at its place.
#[derive(Drop)]
pub(crate) struct Owners {
    pub(crate) shares: SplitTable,
    pub(crate) line: Line,
}

impl Owners {
    pub(crate) fn new(alloc: Global) -> Self
        ensures { result ≡ owners_with no_shares [] }
    {
        Owners {
            shares: SplitTable::new(alloc),
            line: Line::new(alloc),
        }
    }

    pub(crate) fn join(&mut self, consumer: ConsumerNumber) -> Result<(), AllocError>
        ensures ok { OnOk result (self.new ≡ owners_with (split_with consumer self.old.shares) (self.old.line ++ consumer ∷ [])) }
        ensures err { OnErr result (self.new ≡ self.old) }
    {
        self.line.push(consumer)?;
        match self.shares.join(consumer) {
            Ok(()) => Ok(()),
            Err(failed) => {
                self.line.pop();
                Err(failed)
            }
        }
    }

    pub(crate) fn join_sticky(
        &mut self,
        consumer: ConsumerNumber,
        ranges: &Ranges,
    ) -> Result<(), AllocError>
        requires free { is_taken ranges.now self.old.shares ≡ false }
        ensures ok { OnOk result (self.new ≡ owners_with (sticky_with consumer ranges.now self.old.shares) (self.old.line ++ consumer ∷ [])) }
        ensures err { OnErr result (self.new ≡ self.old) }
    {
        self.line.push(consumer)?;
        match self.shares.join_sticky(consumer, ranges) {
            Ok(()) => Ok(()),
            Err(failed) => {
                self.line.pop();
                Err(failed)
            }
        }
    }

    pub(crate) fn leave(&mut self, consumer: ConsumerNumber)
        ensures { self.new ≡ owners_with (shares_without consumer self.old.shares) (filter (λ number. not (number == consumer)) self.old.line) }
    {
        self.shares.leave(consumer);
        self.line.take_out(consumer);
    }
}
