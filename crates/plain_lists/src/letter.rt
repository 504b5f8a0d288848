// The dead letters of a subscription.
ghost use Rattle.std.specs.Prelude.{◌≡◌, OnOk, OnErr, length};
ghost use Rattle.std.specs.Option.{option_copied};
ghost use Rattle.position_core.specs.Position.{same_position};
ghost use Rattle.delivery_machine.specs.Words.{is_dead};
ghost use Rattle.delivery_machine.specs.Dying.{burying, first_safe};
ghost use Rattle.delivery_machine.specs.Producing.{storing, storing_below};
ghost use Rattle.plain_lists.specs.Letters.{moving_first};

use crate::subscription::Subscription;
use delivery_machine::DeadLetter;
use position_core::{Ordinal, Position};
use std::alloc::AllocError;

fn is_of(letter: &DeadLetter, position: Position) -> bool
    ensures { result ≡ same_position letter.now.position position }
{
    letter.position.is(position)
}

impl Subscription {
    pub(crate) fn is_dead(&self, position: Position) -> bool
        ensures { result ≡ is_dead self.now position }
    {
        self.dead.iter().any(|letter| is_of(letter, position))
    }

    pub fn number_of_dead(&self) -> usize
        ensures { result ≡ length self.now.dead }
    {
        self.dead.len()
    }

    /// The first dead letter, where its death is stored.
    pub fn first_safe(&self) -> Option<&DeadLetter>
        ensures { option_copied result ≡ first_safe self.now }
    {
        if self.safe == 0 {
            return None;
        }
        self.dead.first()
    }

    /// Makes the letter the last one, and takes its message out. Nothing changes where there is no memory.
    pub fn bury(&mut self, letter: DeadLetter) -> Result<(), AllocError>
        ensures ok { OnOk result (self.new ≡ burying letter self.old) }
        ensures err { OnErr result (self.new ≡ self.old) }
    {
        let position = letter.position;
        self.dead.push(letter)?;
        self.pending.leave_out(&[position]);
        self.counts.leave_out(&[position]);
        Ok(())
    }

    /// All deaths are stored.
    pub(crate) fn store(&mut self)
        ensures { self.new ≡ storing self.old }
    {
        self.safe = self.dead.len();
    }

    /// The deaths below the ordinal are stored, and those that were.
    pub(crate) fn store_to(&mut self, ordinal: Ordinal)
        ensures { self.new ≡ storing_below ordinal self.old }
    {
        let stored = self
            .dead
            .iter()
            .filter(|letter| letter.ordinal < ordinal)
            .count();
        self.safe = self.safe.max(stored);
    }

    /// Takes the first letter out, and acknowledges its message, where its death is stored. Nothing
    /// changes where there is no memory.
    pub fn move_first(&mut self) -> Result<(), AllocError>
        ensures ok { OnOk result (self.new ≡ moving_first self.old) }
        ensures err { OnErr result (self.new ≡ self.old) }
    {
        let Some(letter) = self.first_safe() else {
            return Ok(());
        };
        let position = letter.position;
        self.acknowledge(&[position])?;
        self.dead.remove(0);
        self.safe -= 1;
        Ok(())
    }
}
