// Who wrote the messages that are gone.
ghost use Rattle.std.specs.Prelude.{◌≡◌};

use position_core::ProducerName;
use std::alloc::AllocError;
use std::marker::Model;

/// The producer of a message that is gone.
#[derive(Drop)]
pub struct Author {
    pub name: ProducerName,
    /// The greatest sequence number of its messages that are gone.
    pub sequence: i64,
    /// Which of all messages that the topic ever had was the last of them.
    pub index: u64,
}

impl Model for Author {
    ghost use Rattle.std.specs.Coded.{codes};
    ghost use Rattle.delivery_machine.specs.State.{Author};

    ghost Value = { Author };

    ghost coded = { Prim.hlevel codes };

    ghost view = { λ a. record { name = a.name; sequence = a.sequence; index = a.index } };
}

impl Clone for Author {
    ghost is_clone = { λ author copy. copy ≡ author };

    fn clone(&self) -> Result<Self, AllocError> {
        Ok(Author {
            name: self.name.clone()?,
            sequence: self.sequence,
            index: self.index,
        })
    }
}
