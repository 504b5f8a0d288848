// What a store keeps of a subscription.
use crate::counts::Counts;
use crate::dead_letter::DeadLetter;
use ack_ranges::AckSet;
use position_core::{Kind, SubscriptionName};
use std::alloc::AllocError;
use std::marker::Model;

/// What is kept of a subscription: who holds a message is not.
#[derive(Drop)]
pub struct KeptSubscription {
    pub name: SubscriptionName,
    pub kind: Kind,
    /// The places in the log of the messages that are acknowledged.
    pub acknowledged: AckSet,
    /// How often each message was redelivered.
    pub counts: Counts,
    /// In the order in which they died.
    pub dead: Vec<DeadLetter>,
}

impl Model for KeptSubscription {
    ghost use Rattle.std.specs.Coded.{codes};
    ghost use Rattle.delivery_machine.specs.Codes.{coded_places, coded_counts};
    ghost use Rattle.delivery_machine.specs.Places.{KeptPlaces};

    ghost Value = { KeptPlaces };

    ghost coded = { Prim.hlevel (codes, coded_places, coded_counts) };

    ghost view = { λ k. record { name = k.name; kind = k.kind; acknowledged = k.acknowledged; counts = k.counts; dead = k.dead.items } };
}

impl Clone for KeptSubscription {
    ghost use Rattle.std.specs.Prelude.{◌≡◌};

    ghost is_clone = { λ kept copy. copy ≡ kept };

    fn clone(&self) -> Result<Self, AllocError> {
        let name = self.name.clone()?;
        let acknowledged = self.acknowledged.clone()?;
        let counts = self.counts.clone()?;
        let dead = self.dead.clone()?;
        Ok(KeptSubscription {
            name,
            kind: self.kind,
            acknowledged,
            counts,
            dead,
        })
    }
}
