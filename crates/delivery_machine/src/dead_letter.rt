// What goes to a subscription's dead-letter topic.
ghost use Rattle.std.specs.Prelude.{◌≡◌};

use position_core::{Ordinal, Position, TopicName};
use std::alloc::AllocError;
use std::marker::Model;

/// A message that was redelivered too often, and the topic that it goes to. The ordinal is the number of
/// its death in the topic.
#[derive(Drop)]
pub struct DeadLetter {
    pub position: Position,
    pub target: TopicName,
    pub ordinal: Ordinal,
}

impl Model for DeadLetter {
    ghost use Rattle.delivery_machine.specs.State.{DeadLetter};
    ghost use Rattle.delivery_machine.specs.Codes.{coded_dead};

    ghost Value = { DeadLetter };

    ghost coded = { coded_dead };

    ghost view = { λ d. record { position = d.position; target = d.target; ordinal = d.ordinal } };
}

impl Clone for DeadLetter {
    ghost is_clone = { λ letter copy. copy ≡ letter };

    fn clone(&self) -> Result<Self, AllocError> {
        Ok(DeadLetter {
            position: self.position,
            target: self.target.clone()?,
            ordinal: self.ordinal,
        })
    }
}
