//! The delivery machine: what may be asked of a topic, what it answers, and the rules that tie them.
#![tactic(auto)]

mod author;
mod consumer_counts;
mod counts;
mod dead_letter;
mod delivery;
mod event;
mod kept_subscription;
mod reply;
mod retention;
mod runs;
mod saved;
mod snapshot;
mod topic;
mod watched;

pub use author::Author;
pub use consumer_counts::ConsumerCounts;
pub use counts::{Counted, Counts, Times};
pub use dead_letter::DeadLetter;
pub use delivery::{Deliveries, Delivery, is_one_of};
pub use event::{Event, Initial, Target};
pub use kept_subscription::KeptSubscription;
pub use position_core::{
    Base, Body, ConsumerNumber, DueMoment, Fault, Flow, HashRange, Kind, Level, LogIndex, Message,
    Millis, Moment, Ordinal, Permits, Position, ProducerName, ProducerNumber, Ranges,
    RedeliverLimit, SkipLength, SubscriptionName, TopicName,
};
pub use reply::Reply;
pub use retention::{KeptAge, KeptMessages, Retention};
pub use runs::run;
pub use saved::{Opened, Saved};
pub use snapshot::Snapshot;
pub use topic::Topic;
pub use watched::Watched;
