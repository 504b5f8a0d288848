// What an administrator sees of a topic: how far each of its consumers is.
ghost use Rattle.std.specs.Prelude.{◌≡◌};
ghost use Rattle.delivery_machine.specs.ConsumerCounts.{counts_of};

use crate::consumer_counts::ConsumerCounts;
use crate::saved::Opened;
use position_core::ConsumerNumber;

/// What is seen of a topic beside its answers.
pub trait Watched: Opened {
    /// What the consumer has; none where there is no such consumer.
    fn consumer_counts(&self, consumer: ConsumerNumber) -> Option<ConsumerCounts>
        ensures { result ≡ counts_of (Self.state self.now) consumer };
}
